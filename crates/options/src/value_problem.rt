//! Says in words what is wrong with a value that a place gives an option.

ghost use Rattle.std.specs.Prelude.{◌≡◌, IfOk, option_map, string_bytes};
ghost use Rattle.std.specs.Fmt.{signed_decimal};
ghost use Rattle.options.specs.option_file.View.{given_in};
ghost use Rattle.option_values.specs.Given.{boolean_text};
ghost use Rattle.option_values.specs.View.{kind_in};
ghost use Rattle.options.specs.MisfitView.{misfit_in, written_in};
ghost use Rattle.options.specs.Misfits.{NoSign};
ghost use Rattle.options.specs.Misfits.{default_words, given_words, in_quotes, option_is, refusal_of, takes, words_of, written_words};
ghost use Rattle.machine_file.specs.View.{value_in as machine_value_in};

use crate::option_file::DeclaredValue;
use itoa::Buffer;
use machine_file::MachineValue;
use option_values::{OptionKind, kind_words};
use std::alloc::{AllocError, Global};
use support::faults::Refusal;

/// Holds what is written at a place.
#[derive(Clone, Copy)]
pub enum Written<'a> {
    Text(&'a str),
    /// A value of the machine file.
    Value(&'a MachineValue),
}

/// Says why a name and a value are refused.
#[derive(Clone, Copy)]
pub enum ValueProblem<'a> {
    /// No option has this name.
    NoOption(&'a str),
    /// A text that is no name with a value, because it has no `=`.
    NoSign(&'a str),
    /// The value `both` of `default_library`, which is left out.
    Both,
    /// The option of this name takes this kind, and the value is not of this kind.
    NoValue(&'a str, &'a OptionKind, Written<'a>),
    /// The option of this name takes this kind, and the default of its declaration is not of this kind.
    NoDefault(&'a str, &'a OptionKind, &'a Option<DeclaredValue>),
}

fn in_quotes(alloc: Global, text: &str) -> Result<String, AllocError>
    ensures { IfOk result (λ words. string_bytes words ≡ in_quotes text.now) }
{
    format!(in alloc; "'{text}'")
}

fn boolean_words(alloc: Global, boolean: bool) -> Result<String, AllocError>
    ensures { IfOk result (λ words. string_bytes words ≡ boolean_text boolean) }
{
    let words = if boolean { "true" } else { "false" };
    String::from_str(alloc, words)
}

fn integer_words(alloc: Global, number: i64) -> Result<String, AllocError>
    ensures { IfOk result (λ words. string_bytes words ≡ signed_decimal number) }
{
    let mut buffer = Buffer::new();
    String::from_str(alloc, buffer.format(number))
}

// Returns the words for a value of the machine file. A list has only the words `a list`.
fn value_words(alloc: Global, value: &MachineValue) -> Result<String, AllocError>
    ensures { IfOk result (λ words. string_bytes words ≡ written_words (machine_value_in value.now)) }
{
    match value {
        MachineValue::Text(text) => in_quotes(alloc, text),
        MachineValue::Integer(number) => integer_words(alloc, *number),
        MachineValue::Boolean(boolean) => boolean_words(alloc, *boolean),
        MachineValue::Texts(_) => String::from_str(alloc, "a list"),
    }
}

fn written_words(alloc: Global, what: Written<'_>) -> Result<String, AllocError>
    ensures { IfOk result (λ words. string_bytes words ≡ written_words (written_in what.entry)) }
{
    match what {
        Written::Text(text) => in_quotes(alloc, text),
        Written::Value(value) => value_words(alloc, value),
    }
}

// Returns the words for what a declaration gives. A list has only the words `a list`.
fn given_words(alloc: Global, given: &DeclaredValue) -> Result<String, AllocError>
    ensures { IfOk result (λ words. string_bytes words ≡ given_words (given_in given.now)) }
{
    match given {
        DeclaredValue::Text(text) => in_quotes(alloc, text),
        DeclaredValue::Integer(number) => integer_words(alloc, *number),
        DeclaredValue::Boolean(boolean) => boolean_words(alloc, *boolean),
        DeclaredValue::Texts(_) => String::from_str(alloc, "a list"),
        DeclaredValue::Other => String::from_str(alloc, "another value"),
    }
}

fn default_words(alloc: Global, value: &Option<DeclaredValue>) -> Result<String, AllocError>
    ensures { IfOk result (λ words. string_bytes words ≡ default_words (option_map given_in value.now)) }
{
    match value {
        Some(given) => given_words(alloc, given),
        None => String::from_str(alloc, "nothing"),
    }
}

// Returns the text that says these words of an option.
fn option_is(alloc: Global, name: &str, words: &str) -> Result<String, AllocError>
    ensures { IfOk result (λ text. string_bytes text ≡ option_is name.now words.now) }
{
    format!(in alloc; "option '{name}': {words}")
}

// Returns the text that an option takes this kind and got that.
fn takes(alloc: Global, name: &str, kind: &OptionKind, got: &str) -> Result<String, AllocError>
    ensures { IfOk result (λ text. string_bytes text ≡ takes name.now (kind_in kind.now) got.now) }
{
    let kind = kind_words(alloc, kind)?;
    format!(in alloc; "option '{name}': takes {kind}, and got {got}")
}

// Returns the text for an argument without `=`.
fn without_sign(alloc: Global, text: &str) -> Result<String, AllocError>
    ensures { IfOk result (λ words. string_bytes words ≡ words_of (NoSign text.now)) }
{
    format!(in alloc; "'{text}': has no '='")
}

// Returns the text for an option that does not take what a place gives it.
fn not_taken(
    alloc: Global,
    name: &str,
    kind: &OptionKind,
    what: Written<'_>,
) -> Result<String, AllocError>
    ensures { IfOk result (λ text. string_bytes text ≡ takes name.now (kind_in kind.now) (written_words (written_in what.entry))) }
{
    let got = written_words(alloc, what)?;
    takes(alloc, name, kind, &got)
}

// Returns the text for an option that does not take the default of its declaration.
fn default_not_taken(
    alloc: Global,
    name: &str,
    kind: &OptionKind,
    value: &Option<DeclaredValue>,
) -> Result<String, AllocError>
    ensures { IfOk result (λ text. string_bytes text ≡ takes name.now (kind_in kind.now) (default_words (option_map given_in value.now))) }
{
    let got = default_words(alloc, value)?;
    takes(alloc, name, kind, &got)
}

impl<'a> ValueProblem<'a> {
    /// Returns the refusal: E15, or E23 for a value that is left out by name.
    pub fn refusal(self) -> Refusal
        ensures { result ≡ refusal_of (misfit_in self.entry) }
    {
        match self {
            ValueProblem::Both => Refusal::LeftOut,
            _ => Refusal::OptionValue,
        }
    }

    /// Returns the details in words.
    pub fn words(self, alloc: Global) -> Result<String, AllocError>
        ensures { IfOk result (λ text. string_bytes text ≡ words_of (misfit_in self.entry)) }
    {
        match self {
            ValueProblem::NoOption(name) => option_is(alloc, name, "there is none"),
            ValueProblem::NoSign(text) => without_sign(alloc, text),
            ValueProblem::Both => option_is(alloc, "default_library", "'both' is left out"),
            ValueProblem::NoValue(name, kind, what) => not_taken(alloc, name, kind, what),
            ValueProblem::NoDefault(name, kind, value) => default_not_taken(
                alloc, name, kind, value,
            ),
        }
    }
}
