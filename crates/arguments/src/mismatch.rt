//! Reports what is wrong with the arguments of a call.
ghost use Rattle.std.specs.Prelude.{◌≡◌, IfOk, string_bytes};
ghost use Rattle.arguments.specs.Refused.{refused_data};
ghost use Rattle.values.specs.Prelude.{data_of};
ghost use Rattle.arguments.specs.MisfitView.{misfit_data};
ghost use Rattle.arguments.specs.Misfits.{Keyword, Place, TooFew, TooMany, keyword_is, refusal_of, refused_as, takes, words_of};

use crate::refused::ArgumentError;
use crate::row::ArgumentKind;
use crate::words::{kind_words, value_words};
use itoa::Buffer;
use std::alloc::{AllocError, Global};
use support::faults::Refusal;
use values::Value;

/// Says why a row does not accept arguments.
#[derive(Clone, Copy)]
pub enum Mismatch<'a> {
    /// A keyword occurs twice.
    Twice(&'a str),
    /// A keyword is not supported.
    LeftOut(&'a str),
    /// There are fewer positional arguments than needed: the first number is needed, the second given.
    TooFew(usize, usize),
    /// There are more positional arguments than this number, which the call takes.
    TooMany(usize),
    /// The positional argument at an index has another type than this kind.
    Place(usize, ArgumentKind, &'a Value),
    /// The call does not take a keyword with this name.
    Unknown(&'a str),
    /// The value of a keyword has another type than this kind.
    Keyword(&'a str, ArgumentKind, &'a Value),
    /// A required keyword is missing.
    Missing(&'a str),
}

// Returns a message about a keyword.
fn keyword_is(alloc: Global, name: &str, words: &str) -> Result<String, AllocError>
    ensures { IfOk result (λ text. string_bytes text ≡ keyword_is name.now words.now) }
{
    format!(in alloc; "keyword '{name}': {words}")
}

// Returns the message that an argument must be of one kind, and is of another.
fn takes(alloc: Global, kind: ArgumentKind, value: &Value) -> Result<String, AllocError>
    ensures { IfOk result (λ text. string_bytes text ≡ takes kind (data_of value.now)) }
{
    let kind = kind_words(kind);
    let value = value_words(value);
    format!(in alloc; "takes {kind}, and got {value}")
}

fn place_is(
    alloc: Global,
    place: usize,
    kind: ArgumentKind,
    value: &Value,
) -> Result<String, AllocError>
    ensures { IfOk result (λ text. string_bytes text ≡ words_of (Place place kind (data_of value.now))) }
{
    let takes = takes(alloc, kind, value)?;
    let mut buffer = Buffer::new();
    let number = buffer.format(place as u128 + 1);
    format!(in alloc; "argument {number}: {takes}")
}

fn value_is(
    alloc: Global,
    name: &str,
    kind: ArgumentKind,
    value: &Value,
) -> Result<String, AllocError>
    ensures { IfOk result (λ text. string_bytes text ≡ words_of (Keyword name.now kind (data_of value.now))) }
{
    let takes = takes(alloc, kind, value)?;
    keyword_is(alloc, name, takes.as_str())
}

fn too_few(alloc: Global, needed: usize, given: usize) -> Result<String, AllocError>
    ensures { IfOk result (λ text. string_bytes text ≡ words_of (TooFew needed given)) }
{
    let (mut first, mut second) = (Buffer::new(), Buffer::new());
    let (needed, given) = (first.format(needed), second.format(given));
    format!(in alloc; "arguments: needs {needed}, and got {given}")
}

fn too_many(alloc: Global, most: usize) -> Result<String, AllocError>
    ensures { IfOk result (λ text. string_bytes text ≡ words_of (TooMany most)) }
{
    let mut buffer = Buffer::new();
    let most = buffer.format(most);
    format!(in alloc; "arguments: takes {most}, and got more")
}

impl<'a> Mismatch<'a> {
    fn refusal(&self) -> Refusal
        ensures { result ≡ refusal_of (misfit_data self.now) }
    {
        match *self {
            Mismatch::Twice(_) => Refusal::Duplicate,
            Mismatch::LeftOut(_) => Refusal::LeftOut,
            _ => Refusal::Arguments,
        }
    }

    // Returns the message about the misfit.
    fn words(&self, alloc: Global) -> Result<String, AllocError>
        ensures { IfOk result (λ text. string_bytes text ≡ words_of (misfit_data self.now)) }
    {
        match *self {
            Mismatch::Twice(name) => keyword_is(alloc, name, "occurs twice"),
            Mismatch::LeftOut(name) => keyword_is(alloc, name, "is left out"),
            Mismatch::TooFew(needed, given) => too_few(alloc, needed, given),
            Mismatch::TooMany(most) => too_many(alloc, most),
            Mismatch::Place(place, kind, value) => place_is(alloc, place, kind, value),
            Mismatch::Unknown(name) => keyword_is(alloc, name, "there is none"),
            Mismatch::Keyword(name, kind, value) => value_is(alloc, name, kind, value),
            Mismatch::Missing(name) => keyword_is(alloc, name, "is missing, and is needed"),
        }
    }

    /// Returns the refusal of the call, with the message about the misfit.
    pub fn refuse(&self, alloc: Global) -> Result<ArgumentError, AllocError>
        ensures { IfOk result (λ refused. refused_data refused ≡ refused_as (misfit_data self.now)) }
    {
        let refusal = self.refusal();
        let detail = self.words(alloc)?;
        Ok(ArgumentError { refusal, detail })
    }
}
