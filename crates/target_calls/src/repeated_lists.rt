//! Finds the lists of paths that a custom target repeats although it has too many already.
ghost use Rattle.std.specs.Prelude.{◌≡◌, IfOk, option_map};
ghost use Rattle.build.specs.edge.Texts.{texts};
ghost use Rattle.build.specs.DeclaredTargetViews.{declared_target_views};
ghost use Rattle.sources.specs.SourcesView.{named_view};
ghost use Rattle.world.specs.Prelude.{data_of};
ghost use Rattle.target_calls.specs.LongCommands.{counted, list_noted, no_lists, noted, object_noted, outputs_noted};
ghost use Rattle.target_calls.specs.LongCommands.{source_noted, text_noted};
ghost use Rattle.target_calls.specs.LongCommandsView.{had_view};

use build::DeclaredTarget;
use sources::{NamedSource, outputs_at};
use std::alloc::{AllocError, Global};
use support::limits::ITEMS;
use support::tables::{SipSet, new_set};
use values::{Object, Value};

/// Knows the lists of paths that a command has had since it was too long. Such a list is left out when it comes again, or the words of a
/// few lines would fill the memory before the call is refused.
pub struct HadLists {
    /// How many outputs of custom targets the command needs, at most one more than is allowed.
    pub paths: usize,
    /// The numbers of the lists: 0 for all inputs, 1 for all outputs, and n + 2 for the outputs of the custom target n.
    pub lists: SipSet<u128>,
}

impl Drop for HadLists {
    fn drop(self) {
        let HadLists { paths: _, lists: _ } = self;
    }
}

impl HadLists {
    // Returns whether the command has had the list since it was too long, and notes the list.
    fn has_had(&mut self, is_long: bool, list: u128) -> Result<bool, AllocError>
        ensures { IfOk result (λ had. (had, had_view self.new) ≡ list_noted is_long list (had_view self.old)) }
    {
        if is_long {
            let is_new = self.lists.insert(list)?;
            Ok(!is_new)
        } else {
            Ok(false)
        }
    }

    // Counts outputs that are added to the command.
    fn count(&mut self, outputs: Option<&[String]>)
        ensures { had_view self.new ≡ counted (option_map (λ ps. texts ps.now) outputs.entry) (had_view self.old) }
    {
        if let Some(paths) = outputs {
            let most = ITEMS + 1;
            self.paths = most.min(most.min(self.paths) + most.min(paths.len()));
        }
    }

    // Returns whether the outputs of a custom target are left out.
    fn leaves_outputs(
        &mut self,
        earlier: &[DeclaredTarget],
        number: usize,
    ) -> Result<bool, AllocError>
        ensures { IfOk result (λ left. (left, had_view self.new)
            ≡ outputs_noted (declared_target_views earlier.now) number (had_view self.old)) }
    {
        let is_left = self.has_had(self.paths > ITEMS, number as u128 + 2)?;
        if !is_left {
            self.count(outputs_at(earlier, number));
        }
        Ok(is_left)
    }

    // Returns whether a text is left out from a command with so many words.
    fn leaves_text(&mut self, words: usize, text: &str) -> Result<bool, AllocError>
        ensures { IfOk result (λ left. (left, had_view self.new) ≡ text_noted words text.now (had_view self.old)) }
    {
        match text {
            "@INPUT@" => self.has_had(words > ITEMS, 0),
            "@OUTPUT@" => self.has_had(words > ITEMS, 1),
            _ => Ok(false),
        }
    }

    fn leaves_object(
        &mut self,
        earlier: &[DeclaredTarget],
        object: &Object,
    ) -> Result<bool, AllocError>
        ensures { IfOk result (λ left. (left, had_view self.new)
            ≡ object_noted (declared_target_views earlier.now) object.now (had_view self.old)) }
    {
        match object {
            Object::CustomTarget { number, .. } => self.leaves_outputs(earlier, *number),
            _ => Ok(false),
        }
    }

    /// Returns whether a value is left out from a command with so many words, and notes the value.
    pub fn leaves(
        &mut self,
        earlier: &[DeclaredTarget],
        words: usize,
        value: &Value,
    ) -> Result<bool, AllocError>
        ensures { IfOk result (λ left. (left, had_view self.new)
            ≡ noted (declared_target_views earlier.now) words (data_of value.now) (had_view self.old)) }
    {
        match value {
            Value::Text(text) => self.leaves_text(words, text.as_str()),
            Value::Object(object) => self.leaves_object(earlier, object),
            _ => Ok(false),
        }
    }

    /// Returns whether a source is left out, and notes the source.
    pub fn leaves_source(
        &mut self,
        earlier: &[DeclaredTarget],
        named: &NamedSource,
    ) -> Result<bool, AllocError>
        ensures { IfOk result (λ left. (left, had_view self.new)
            ≡ source_noted (declared_target_views earlier.now) (named_view named.now) (had_view self.old)) }
    {
        match named {
            NamedSource::Outputs(number) => self.leaves_outputs(earlier, *number),
            NamedSource::Tree(_) | NamedSource::Built(_) | NamedSource::Output { .. } => Ok(false),
        }
    }
}

/// Returns what is known of a command without words, or of no sources.
pub fn no_lists(alloc: Global) -> HadLists
    ensures { had_view result ≡ no_lists }
{
    HadLists {
        paths: 0,
        lists: new_set(alloc),
    }
}
