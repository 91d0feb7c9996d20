//! Makes the arguments of a command.
ghost use Rattle.std.specs.Prelude.{◌≡◌, ◌++◌, IfOk, None, Some, option_map, string_bytes, if◌then◌else◌};
ghost use Rattle.build.specs.edge.Texts.{texts};
ghost use Rattle.sources.specs.Holes.{some_of, one_word, words_of};
ghost use Rattle.sources.specs.HolesView.{place_view};

use crate::placeholders::{PlaceholderScope, PlaceholderValues};
use crate::replacement::fill;
use build::edge::push_copies;
use std::alloc::{AllocError, Global};

// Appends all paths, and returns whether there are any.
fn push_some(words: &mut Vec<String>, paths: &[String]) -> Result<bool, AllocError>
    ensures { IfOk result (λ done. (if done then Some (texts words.new.items) else None)
        ≡ option_map (λ ws. texts words.old.items ++ ws) (some_of (texts paths.now))) }
{
    match paths {
        [] => Ok(false),
        [_, ..] => {
            push_copies(words, paths)?;
            Ok(true)
        }
    }
}

fn push_word(words: &mut Vec<String>, word: Option<String>) -> Result<bool, AllocError>
    ensures { IfOk result (λ done. (if done then Some (texts words.new.items) else None)
        ≡ option_map (λ ws. texts words.old.items ++ ws) (one_word (option_map string_bytes word))) }
{
    match word {
        None => Ok(false),
        Some(word) => {
            words.push(word)?;
            Ok(true)
        }
    }
}

/// Appends the arguments for a text of the command: all inputs or outputs if it is `@INPUT@` or `@OUTPUT@` alone, and otherwise the text
/// with its placeholders replaced.
///
/// Returns whether each placeholder has a value in this call; otherwise the call is refused (E9).
pub fn push_words(
    words: &mut Vec<String>,
    alloc: Global,
    place: &PlaceholderValues<'_>,
    text: &str,
) -> Result<bool, AllocError>
    ensures { IfOk result (λ done. (if done then Some (texts words.new.items) else None)
        ≡ option_map (λ ws. texts words.old.items ++ ws) (words_of (place_view place.now) text.now)) }
{
    match text {
        "@INPUT@" => push_some(words, place.inputs),
        "@OUTPUT@" => push_some(words, place.outputs),
        _ => push_word(words, fill(alloc, PlaceholderScope::Command, place, text)?),
    }
}
