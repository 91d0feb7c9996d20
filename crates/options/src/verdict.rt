//! Decides what a value that a place gives means.

ghost use Rattle.std.specs.Prelude.{◌≡◌, IfOk};
ghost use Rattle.machine_file.specs.Readers.{text_said};
ghost use Rattle.option_values.specs.View.{kind_in, value_in};
ghost use Rattle.option_values.specs.Given.{value_of_given};
ghost use Rattle.std.specs.Option.{option_map};
ghost use Rattle.options.specs.Verdicts.{refusing_verdict, unknown_at, is_both, misfit_of, of_value, of_named};
ghost use Rattle.options.specs.MisfitView.{misfit_in, written_in};
ghost use Rattle.options.specs.View.{verdict_in};

use crate::fault::{OptionFault, Origin};
use crate::value_problem::{ValueProblem, Written};
use option_values::{OptionKind, OptionValue, Setting, value_of_given, value_of_text};
use std::alloc::{AllocError, Global};

/// Says what a value at a place means.
#[derive(Drop)]
pub enum Verdict<'a> {
    /// The option of this name takes the value.
    Sets(&'a str, Setting),
    /// No option has this name, and the user is warned.
    Warns(&'a str),
    /// The value is refused.
    Refuses(OptionFault),
}

/// Refuses what is written at this place.
pub fn refuse<'a>(
    alloc: Global,
    place: Origin,
    misfit: ValueProblem<'_>,
) -> Result<Verdict<'a>, AllocError>
    ensures { IfOk result (λ v. verdict_in v ≡ refusing_verdict place (misfit_in misfit.entry)) }
{
    let refusal = misfit.refusal();
    let detail = misfit.words(alloc)?;
    Ok(Verdict::Refuses(OptionFault {
        place,
        refusal,
        detail,
    }))
}

/// Returns the verdict of a place that gives a value to a name that no option has. Only `default_options` may do so.
fn refuse_unknown<'a>(
    alloc: Global,
    place: Origin,
    name: &'a str,
) -> Result<Verdict<'a>, AllocError>
    ensures { IfOk result (λ v. verdict_in v ≡ unknown_at place name.now) }
{
    match place {
        Origin::Project => Ok(Verdict::Warns(name)),
        Origin::Declared(_) | Origin::MachineFile(_) | Origin::CommandLine(_) => {
            refuse(alloc, place, ValueProblem::NoOption(name))
        }
    }
}

impl Written<'_> {
    // Returns the text that is written, if it is one.
    fn text(&self) -> Option<&str>
        ensures { option_map (λ t. t.now) result ≡ text_said (written_in self.now) }
    {
        match self {
            Written::Text(text) => Some(*text),
            Written::Value(value) => value.text(),
        }
    }

    // Returns whether this is the value of `default_library` that is left out.
    fn is_both(&self, name: &str) -> bool
        ensures { result ≡ is_both name.now (written_in self.now) }
    {
        match self.text() {
            Some(text) => name == "default_library" && text == "both",
            None => false,
        }
    }

    // Returns the value that an option of this kind takes from what is written, if it takes it.
    fn value(&self, alloc: Global, kind: &OptionKind) -> Result<Option<OptionValue>, AllocError>
        ensures { IfOk result (λ v. option_map value_in v ≡ value_of_given (kind_in kind.now) (written_in self.now)) }
    {
        match self {
            Written::Text(text) => value_of_text(alloc, kind, text),
            Written::Value(value) => value_of_given(alloc, kind, value),
        }
    }

    // Returns what is wrong with a value that the option of this name and kind does not take.
    fn misfit<'m>(&'m self, name: &'m str, kind: &'m OptionKind) -> ValueProblem<'m>
        ensures { misfit_in result ≡ misfit_of name.now (kind_in kind.now) (written_in self.now) }
    {
        if self.is_both(name) {
            ValueProblem::Both
        } else {
            ValueProblem::NoValue(name, kind, *self)
        }
    }
}

// Returns the verdict of a place that gives an option a value, or something that the option does not take.
fn of_value<'a>(
    alloc: Global,
    place: Origin,
    name: &'a str,
    otherwise: ValueProblem<'_>,
    value: Option<OptionValue>,
) -> Result<Verdict<'a>, AllocError>
    ensures { IfOk result (λ v. verdict_in v ≡ of_value place name.now (misfit_in otherwise.entry) (option_map value_in value)) }
{
    match value {
        Some(value) => Ok(Verdict::Sets(name, Setting { value, given: true })),
        None => refuse(alloc, place, otherwise),
    }
}

/// Returns the verdict of a place that gives a value to the option of this name. `None` as the kind means that there is no such option.
#[tactic(auto, unfolding(crate::specs::Verdicts::of_kind))]
pub fn of_named<'a>(
    alloc: Global,
    place: Origin,
    name: &'a str,
    kind: Option<&OptionKind>,
    written: Written<'_>,
) -> Result<Verdict<'a>, AllocError>
    ensures { IfOk result (λ v. verdict_in v
        ≡ of_named place name.now (written_in written.entry) (option_map (λ k. kind_in k.now) kind.entry)) }
{
    let Some(kind) = kind else {
        return refuse_unknown(alloc, place, name);
    };
    let value = written.value(alloc, kind)?;
    of_value(alloc, place, name, written.misfit(name, kind), value)
}
