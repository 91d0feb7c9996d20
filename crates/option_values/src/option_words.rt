//! Says in words what an option takes.

ghost use Rattle.std.specs.Prelude.{◌≡◌, IfOk, string_bytes};
ghost use Rattle.option_values.specs.Kinds.{Integer};
ghost use Rattle.option_values.specs.Takes.{array_words, choice_words, greatest_words, kind_words, least_words};
ghost use Rattle.option_values.specs.View.{choices_in, kind_in, strings_in};

use crate::choices::Choices;
use crate::from_machine_file::push_quoted;
use crate::kind::OptionKind;
use itoa::Buffer;
use std::alloc::{AllocError, Global};

// Returns the choices in single quotes.
fn choice_words(alloc: Global, choices: &[String]) -> Result<String, AllocError>
    ensures { IfOk result (λ text. string_bytes text ≡ choice_words (strings_in choices.now)) }
{
    match choices {
        [] => String::from_str(alloc, "nothing"),
        _ => {
            let mut text = String::new(alloc);
            push_quoted(&mut text, choices)?;
            Ok(text)
        }
    }
}

fn least_words(alloc: Global, least: Option<i64>) -> Result<String, AllocError>
    ensures { IfOk result (λ text. string_bytes text ≡ least_words least) }
{
    match least {
        Some(least) => {
            let mut buffer = Buffer::new();
            let least = buffer.format(least);
            format!(in alloc; " from {least}")
        }
        None => Ok(String::new(alloc)),
    }
}

fn greatest_words(alloc: Global, greatest: Option<i64>) -> Result<String, AllocError>
    ensures { IfOk result (λ text. string_bytes text ≡ greatest_words greatest) }
{
    match greatest {
        Some(greatest) => {
            let mut buffer = Buffer::new();
            let greatest = buffer.format(greatest);
            format!(in alloc; " to {greatest}")
        }
        None => Ok(String::new(alloc)),
    }
}

// Returns the words for an integer within bounds.
fn integer_words(
    alloc: Global,
    least: Option<i64>,
    greatest: Option<i64>,
) -> Result<String, AllocError>
    ensures { IfOk result (λ text. string_bytes text ≡ kind_words (Integer least greatest)) }
{
    let least = least_words(alloc, least)?;
    let greatest = greatest_words(alloc, greatest)?;
    format!(in alloc; "an integer{least}{greatest}")
}

fn array_words(alloc: Global, choices: &Option<Choices>) -> Result<String, AllocError>
    ensures { IfOk result (λ text. string_bytes text ≡ array_words (choices_in choices.now)) }
{
    match choices {
        Some(choices) => {
            let words = choice_words(alloc, choices.texts())?;
            format!(in alloc; "a list of {words}")
        }
        None => String::from_str(alloc, "a list of texts"),
    }
}

/// Returns what an option of this kind takes, in words, such as `one of 'a', 'b'` or `an integer from 1 to 9`.
pub fn kind_words(alloc: Global, kind: &OptionKind) -> Result<String, AllocError>
    ensures { IfOk result (λ text. string_bytes text ≡ kind_words (kind_in kind.now)) }
{
    match kind {
        OptionKind::Text => String::from_str(alloc, "a text"),
        OptionKind::Boolean => String::from_str(alloc, "true or false"),
        OptionKind::Combo(choices) => {
            let words = choice_words(alloc, choices.texts())?;
            format!(in alloc; "one of {words}")
        }
        OptionKind::Integer { min, max } => integer_words(alloc, *min, *max),
        OptionKind::Array(choices) => array_words(alloc, choices),
        OptionKind::Words => String::from_str(alloc, "words as a shell splits them"),
        OptionKind::Feature => String::from_str(alloc, "enabled, disabled or auto"),
    }
}
