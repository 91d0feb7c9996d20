//! Reads the keywords of a call of `option`.

ghost use Rattle.std.specs.Prelude.{◌≡◌, IfOk, Some};
ghost use Rattle.std.specs.Option.{option_map};
ghost use Rattle.options.specs.option_file.Keywords.{nothing_given, keyword_named, is_left_out, type_in, choices_in, bound_in};
ghost use Rattle.options.specs.option_file.Keywords.{noted_keywords};
ghost use Rattle.options.specs.option_file.Keywords.{combo_of};
ghost use Rattle.options.specs.option_file.Keywords.{asked_by, kind_of_type};
ghost use Rattle.options.specs.option_file.KeywordsView.{asked_in, keywords_in};
ghost use Rattle.options.specs.option_file.View.{given_in};
ghost use Rattle.option_values.specs.View.{kind_in, texts_of};

use crate::option_file::declaration::DeclaredValue;
use option_values::{Choices, OptionKind, OptionType};
use std::alloc::{AllocError, Global};
use support::text_lists::is_among;

/// Names a keyword of `option`, by what it gives.
#[derive(Clone, Copy)]
pub enum OptionKeyword {
    /// `type:`
    Kind,
    Value,
    Choices,
    Min,
    Max,
    /// `description:` and `yield:`
    NoEffect,
}

/// Holds what the keywords of a call give so far.
#[derive(Drop)]
pub struct Keywords {
    pub kind: Option<OptionType>,
    pub value: Option<DeclaredValue>,
    pub choices: Option<Choices>,
    pub min: Option<i64>,
    pub max: Option<i64>,
}

impl OptionKeyword {
    /// Returns the keyword of this name, if there is one.
    #[tactic(auto, unfolding(crate::specs::option_file::Keywords::keyword_named))]
    pub fn from_name(name: &str) -> Option<OptionKeyword>
        ensures { result ≡ keyword_named name.now }
    {
        match name {
            "type" => Some(OptionKeyword::Kind),
            "value" => Some(OptionKeyword::Value),
            "choices" => Some(OptionKeyword::Choices),
            "min" => Some(OptionKeyword::Min),
            "max" => Some(OptionKeyword::Max),
            "description" | "yield" => Some(OptionKeyword::NoEffect),
            _ => None,
        }
    }
}

/// Returns whether this names a keyword that is left out.
pub fn is_left_out(name: &str) -> bool
    ensures { result ≡ is_left_out name.now }
{
    is_among(&["kwargs", "fallback", "deprecated"], name)
}

/// Returns the type whose name is given.
pub(crate) fn type_in(given: &DeclaredValue) -> Option<OptionType>
    ensures { result ≡ type_in (given_in given.now) }
{
    match given {
        DeclaredValue::Text(name) => OptionType::from_name(name.as_str()),
        _ => None,
    }
}

// Returns the choices, which must be a list of texts.
fn choices_in(alloc: Global, given: DeclaredValue) -> Result<Option<Choices>, AllocError>
    ensures { IfOk result (λ choices. option_map texts_of choices ≡ choices_in (given_in given)) }
{
    match given {
        DeclaredValue::Texts(items) => Ok(Some(Choices::new(alloc, items)?)),
        _ => Ok(None),
    }
}

/// Returns the bound, which must be an integer of 64 bits.
pub(crate) fn read_bound(given: &DeclaredValue) -> Option<i64>
    ensures { result ≡ bound_in (given_in given.now) }
{
    match given {
        DeclaredValue::Integer(number) => Some(*number),
        _ => None,
    }
}

// Returns a combo of these choices, of which there must be one.
fn combo_of(choices: Option<Choices>) -> Option<OptionKind>
    ensures { option_map kind_in result ≡ combo_of (option_map texts_of choices) }
{
    let choices = choices?;
    if choices.texts().is_empty() {
        None
    } else {
        Some(OptionKind::Combo(choices))
    }
}

impl Keywords {
    /// Returns the keywords of a call that has none.
    pub fn new() -> Keywords
        ensures { keywords_in result ≡ nothing_given }
    {
        Keywords {
            kind: None,
            value: None,
            choices: None,
            min: None,
            max: None,
        }
    }

    // Records the type, which is given by its name.
    fn with_kind(mut self, given: &DeclaredValue) -> Option<Keywords>
        ensures { option_map keywords_in result ≡ noted_keywords (keywords_in self) OptionKeyword.Kind (given_in given.now) }
    {
        self.kind = Some(type_in(given)?);
        Some(self)
    }

    // Records a default of any form.
    fn with_value(mut self, given: DeclaredValue) -> Keywords
        ensures { Some (keywords_in result) ≡ noted_keywords (keywords_in self) OptionKeyword.Value (given_in given) }
    {
        self.value = Some(given);
        self
    }

    // Records the choices.
    fn with_choices(
        mut self,
        alloc: Global,
        given: DeclaredValue,
    ) -> Result<Option<Keywords>, AllocError>
        ensures { IfOk result (λ k. option_map keywords_in k ≡ noted_keywords (keywords_in self) OptionKeyword.Choices (given_in given)) }
    {
        let Some(choices) = choices_in(alloc, given)? else {
            return Ok(None);
        };
        self.choices = Some(choices);
        Ok(Some(self))
    }

    // Records the lower bound.
    fn with_min(mut self, given: &DeclaredValue) -> Option<Keywords>
        ensures { option_map keywords_in result ≡ noted_keywords (keywords_in self) OptionKeyword.Min (given_in given.now) }
    {
        self.min = Some(read_bound(given)?);
        Some(self)
    }

    // Records the upper bound.
    fn with_max(mut self, given: &DeclaredValue) -> Option<Keywords>
        ensures { option_map keywords_in result ≡ noted_keywords (keywords_in self) OptionKeyword.Max (given_in given.now) }
    {
        self.max = Some(read_bound(given)?);
        Some(self)
    }

    /// Records one more keyword and what it gives, or returns `None` if the keyword may not give this.
    pub fn note(
        self,
        alloc: Global,
        keyword: OptionKeyword,
        given: DeclaredValue,
    ) -> Result<Option<Keywords>, AllocError>
        ensures { IfOk result (λ k. option_map keywords_in k ≡ noted_keywords (keywords_in self) keyword (given_in given)) }
    {
        match keyword {
            OptionKeyword::Kind => Ok(self.with_kind(&given)),
            OptionKeyword::Value => Ok(Some(self.with_value(given))),
            OptionKeyword::Choices => self.with_choices(alloc, given),
            OptionKeyword::Min => Ok(self.with_min(&given)),
            OptionKeyword::Max => Ok(self.with_max(&given)),
            OptionKeyword::NoEffect => Ok(Some(self)),
        }
    }

    // Returns what an option of this type takes, with the given choices and bounds.
    fn kind_of(&mut self, named: OptionType) -> Option<OptionKind>
        ensures kind { option_map kind_in result ≡ kind_of_type (keywords_in self.old) named }
        ensures value { self.new.value ≡ self.old.value }
    {
        match named {
            OptionType::Text => Some(OptionKind::Text),
            OptionType::Boolean => Some(OptionKind::Boolean),
            OptionType::Combo => combo_of(self.choices.take()),
            OptionType::Integer => self.integer_kind(),
            OptionType::Array => Some(OptionKind::Array(self.choices.take())),
            OptionType::Feature => Some(OptionKind::Feature),
        }
    }

    // Returns the kind of an integer, which needs a default.
    fn integer_kind(&self) -> Option<OptionKind>
        ensures { option_map kind_in result ≡ kind_of_type (keywords_in self.now) OptionType.Integer }
    {
        if self.value.is_none() {
            return None;
        }
        Some(OptionKind::Integer {
            min: self.min,
            max: self.max,
        })
    }

    /// Returns what an option with these keywords takes, and its default. Returns `None` if a required keyword is missing.
    pub fn finish(mut self) -> Option<(OptionKind, Option<DeclaredValue>)>
        ensures { option_map asked_in result ≡ asked_by (keywords_in self) }
    {
        let named = self.kind?;
        let kind = self.kind_of(named)?;
        Some((kind, self.value.take()))
    }
}
