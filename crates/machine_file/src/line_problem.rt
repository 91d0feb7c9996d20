//! Says in words why a line is not allowed where it is.

ghost use Rattle.std.specs.Prelude.{◌≡◌, IfOk, string_bytes};
ghost use Rattle.machine_file.specs.MisfitView.{misfit_in};
ghost use Rattle.machine_file.specs.Misfits.{expected_words, key_is, misfit_of, section_is, takes_words, value_words, words_of};
ghost use Rattle.machine_file.specs.Misfits.{NoSign};
ghost use Rattle.machine_file.specs.View.{value_in};

use crate::section::{Expected, SectionKind};
use crate::value::MachineValue;
use std::alloc::{AllocError, Global};

/// Says what is wrong with a line. It refers to a section by its name.
#[derive(Clone, Copy)]
pub enum LineProblem<'m> {
    /// There is no section of this name.
    NoSection(&'m str),
    /// A section of this name began before.
    SectionTwice(&'m str),
    /// No section is open.
    Outside,
    /// A line of this section has no `=`.
    NoSign(&'m str),
    /// The text after this key of this section is no value.
    NoValue(&'m str, &'m str),
    /// This section knows no such key.
    NoKey(&'m str, &'m str),
    /// This key of this section takes this type, and the value has another.
    OtherValue(&'m str, &'m str, Expected, &'m MachineValue),
    /// This key was given before in this section.
    KeyTwice(&'m str, &'m str),
}

// Returns the words for what a key takes.
fn expected_words(expected: Expected) -> &'static str
    ensures { result.now ≡ expected_words expected }
{
    match expected {
        Expected::Any => "a value",
        Expected::Words => "a text or texts",
        Expected::Text => "a text",
        Expected::Texts => "a list of texts",
        Expected::Boolean => "a truth value",
        Expected::Integer => "an integer",
    }
}

// Returns the words for a value that was given.
fn value_words(value: &MachineValue) -> &'static str
    ensures { result.now ≡ value_words (value_in value.now) }
{
    match value {
        MachineValue::Text(_) => "a text",
        MachineValue::Integer(_) => "an integer",
        MachineValue::Boolean(_) => "a truth value",
        MachineValue::Texts(items) => {
            if items.is_empty() {
                "an empty list"
            } else {
                "a list of texts"
            }
        }
    }
}

// Returns the text that says these words of a section.
fn section_is(alloc: Global, name: &str, words: &str) -> Result<String, AllocError>
    ensures { IfOk result (λ text. string_bytes text ≡ section_is name.now words.now) }
{
    format!(in alloc; "section '{name}': {words}")
}

// Returns the text that says these words of a key in a section.
fn key_is(alloc: Global, section: &str, key: &str, words: &str) -> Result<String, AllocError>
    ensures { IfOk result (λ text. string_bytes text ≡ key_is section.now key.now words.now) }
{
    format!(in alloc; "[{section}] key '{key}': {words}")
}

// Returns the words that name the expected type and the given value.
fn takes_words(
    alloc: Global,
    expected: Expected,
    value: &MachineValue,
) -> Result<String, AllocError>
    ensures { IfOk result (λ text. string_bytes text ≡ takes_words expected (value_in value.now)) }
{
    let expected = expected_words(expected);
    let got = value_words(value);
    format!(in alloc; "takes {expected}, and got {got}")
}

// Returns the text for a key of a section with a value of the wrong type.
fn key_takes(
    alloc: Global,
    section: &str,
    key: &str,
    expected: Expected,
    value: &MachineValue,
) -> Result<String, AllocError>
    ensures { IfOk result (λ text. string_bytes text ≡ key_is section.now key.now (takes_words expected (value_in value.now))) }
{
    let words = takes_words(alloc, expected, value)?;
    key_is(alloc, section, key, &words)
}

// Returns the text for a line of a section without `=`.
fn without_sign(alloc: Global, section: &str) -> Result<String, AllocError>
    ensures { IfOk result (λ text. string_bytes text ≡ words_of (NoSign section.now)) }
{
    format!(in alloc; "[{section}] line: has no '='")
}

impl<'m> LineProblem<'m> {
    /// Returns what is wrong with a key and a value that a section of this name and kind refuses.
    pub fn of_value(
        section: &'m str,
        kind: SectionKind,
        key: &'m str,
        value: &'m MachineValue,
    ) -> LineProblem<'m>
        ensures { misfit_in result ≡ misfit_of section.now kind key.now (value_in value.now) }
    {
        match kind.expects(key) {
            None => LineProblem::NoKey(section, key),
            Some(expected) => {
                if expected.fits(value) {
                    LineProblem::KeyTwice(section, key)
                } else {
                    LineProblem::OtherValue(section, key, expected, value)
                }
            }
        }
    }

    /// Returns the details in words.
    pub fn words(self, alloc: Global) -> Result<String, AllocError>
        ensures { IfOk result (λ text. string_bytes text ≡ words_of (misfit_in self.entry)) }
    {
        match self {
            LineProblem::NoSection(name) => section_is(alloc, name, "there is none"),
            LineProblem::SectionTwice(name) => section_is(alloc, name, "occurs twice"),
            LineProblem::Outside => String::from_str(alloc, "line: is in no section"),
            LineProblem::NoSign(section) => without_sign(alloc, section),
            LineProblem::NoValue(section, key) => key_is(alloc, section, key, "has no value"),
            LineProblem::NoKey(section, key) => key_is(alloc, section, key, "there is none"),
            LineProblem::OtherValue(section, key, expected, value) => {
                key_takes(alloc, section, key, expected, value)
            }
            LineProblem::KeyTwice(section, key) => key_is(alloc, section, key, "occurs twice"),
        }
    }
}
