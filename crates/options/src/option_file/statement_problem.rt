//! Says in words what is wrong with a statement of an option file.

ghost use Rattle.std.specs.Prelude.{◌≡◌, IfOk, string_bytes};
ghost use Rattle.options.specs.option_file.MisfitView.{misfit_in, refused_in};
ghost use Rattle.options.specs.option_file.Misfits.{Again, keyword_is, refusal_of, refused_as, text_is, words_of};

use std::alloc::{AllocError, Global};
use support::faults::Refusal;

/// Says why a statement declares no option.
#[derive(Clone, Copy)]
pub enum StatementProblem<'m> {
    /// It is no call of `option`.
    NoCall,
    /// A keyword that occurs twice.
    Twice(&'m str),
    /// A keyword that is left out.
    LeftOut(&'m str),
    /// An option of this name was declared before.
    Again(&'m str),
    /// No text gives the name of the option.
    Nameless,
    /// The text is no valid name of an option.
    NoName(&'m str),
    /// The name is that of a built-in option.
    BuiltIn(&'m str),
    /// A further argument has no keyword.
    TooMany,
    /// An unknown keyword.
    Unknown(&'m str),
    /// A keyword with something other than plain values.
    NoPlain(&'m str),
    /// A keyword whose value is no type.
    NoType(&'m str),
    /// A keyword whose value is no list of texts.
    NoChoices(&'m str),
    /// A keyword whose value is no integer.
    NoBound(&'m str),
    /// A required keyword that is missing.
    Missing(&'m str),
}

/// Holds what is refused, and the details.
#[derive(Drop)]
pub struct StatementError {
    pub refusal: Refusal,
    /// The details, in words.
    pub detail: String,
}

// Returns the text that says these words of a text.
fn text_is(alloc: Global, text: &str, words: &str) -> Result<String, AllocError>
    ensures { IfOk result (λ s. string_bytes s ≡ text_is text.now words.now) }
{
    format!(in alloc; "'{text}': {words}")
}

// Returns the text that says these words of a keyword.
fn keyword_is(alloc: Global, key: &str, words: &str) -> Result<String, AllocError>
    ensures { IfOk result (λ s. string_bytes s ≡ keyword_is key.now words.now) }
{
    format!(in alloc; "keyword '{key}': {words}")
}

// Returns the text for an option that was declared before.
fn stands_twice(alloc: Global, name: &str) -> Result<String, AllocError>
    ensures { IfOk result (λ s. string_bytes s ≡ words_of (Again name.now)) }
{
    format!(in alloc; "option '{name}': occurs twice")
}

impl<'m> StatementProblem<'m> {
    fn refusal(self) -> Refusal
        ensures { result ≡ refusal_of (misfit_in self.entry) }
    {
        match self {
            StatementProblem::LeftOut(_) => Refusal::LeftOut,
            _ => Refusal::OptionValue,
        }
    }

    fn words(self, alloc: Global) -> Result<String, AllocError>
        ensures { IfOk result (λ s. string_bytes s ≡ words_of (misfit_in self.entry)) }
    {
        match self {
            StatementProblem::NoCall => String::from_str(alloc, "statement: is no call of option"),
            StatementProblem::Twice(key) => keyword_is(alloc, key, "occurs twice"),
            StatementProblem::LeftOut(key) => keyword_is(alloc, key, "is left out"),
            StatementProblem::Again(name) => stands_twice(alloc, name),
            StatementProblem::Nameless => String::from_str(
                alloc,
                "arguments: needs the name of an option",
            ),
            StatementProblem::NoName(text) => text_is(alloc, text, "is no name of an option"),
            StatementProblem::BuiltIn(name) => text_is(
                alloc,
                name,
                "is the name of a built-in option",
            ),
            StatementProblem::TooMany => String::from_str(
                alloc,
                "arguments: takes 1, and got more",
            ),
            StatementProblem::Unknown(key) => keyword_is(alloc, key, "there is none"),
            StatementProblem::NoPlain(key) => keyword_is(alloc, key, "takes a plain value"),
            StatementProblem::NoType(key) => keyword_is(alloc, key, "takes the name of a type"),
            StatementProblem::NoChoices(key) => keyword_is(alloc, key, "takes a list of texts"),
            StatementProblem::NoBound(key) => keyword_is(alloc, key, "takes an integer"),
            StatementProblem::Missing(key) => keyword_is(alloc, key, "is missing, and is needed"),
        }
    }

    /// Returns the refusal of the statement: E15, or E23 for what is left out.
    pub fn refuse(self, alloc: Global) -> Result<StatementError, AllocError>
        ensures { IfOk result (λ r. refused_in r ≡ refused_as (misfit_in self.entry)) }
    {
        let refusal = self.refusal();
        let detail = self.words(alloc)?;
        Ok(StatementError { refusal, detail })
    }
}
