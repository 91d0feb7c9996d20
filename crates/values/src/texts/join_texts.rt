//! Joins pieces into a text, within the limit of its length.

ghost use Rattle.std.specs.Prelude.{◌≡◌, ◌++◌, map, IfOk};
ghost use Rattle.values.specs.texts.Joined.{joined_texts, replaced_text};
ghost use Rattle.values.specs.Prelude.{Appends, within_bytes};

use crate::texts::first_piece::first_part;
use crate::{OperationRefusal, Text};
use std::alloc::{AllocError, Global};

/// Returns the pieces in order, with `separator` between each two.
///
/// Returns `OperationRefusal::Limit` if the text is longer than 16,777,216 bytes.
pub fn join(
    alloc: Global,
    separator: &str,
    pieces: &[&str],
) -> Result<Result<Text, OperationRefusal>, AllocError>
    ensures { IfOk result (λ r. r ≡ within_bytes (joined_texts separator.now (map (λ p. p.now) pieces.now))) }
{
    let mut made = Text::empty();
    let Some((first, others)) = pieces.split_first() else {
        return Ok(Ok(made));
    };
    if let Err(refusal) = made.push(alloc, first)? {
        return Ok(Err(refusal));
    }
    for piece in others {
        if let Err(refusal) = push_both(alloc, &mut made, separator, piece)? {
            return Ok(Err(refusal));
        }
    }
    Ok(Ok(made))
}

/// Returns the text with each occurrence of `old` replaced by `new`. Occurrences are found from the left and never overlap.
///
/// Returns `OperationRefusal::Arguments` if `old` is empty, and `OperationRefusal::Limit` if the result is longer than 16,777,216 bytes.
pub fn replace(
    alloc: Global,
    text: &str,
    old: &str,
    new: &str,
) -> Result<Result<Text, OperationRefusal>, AllocError>
    ensures { IfOk result (λ r. r ≡ replaced_text text.now old.now new.now) }
{
    if old.is_empty() {
        return Ok(Err(OperationRefusal::Arguments));
    }
    let mut made = Text::empty();
    let mut rest = text;
    loop {
        let (part, after) = first_part(rest, old);
        let Some(after) = after else {
            if let Err(refusal) = made.push(alloc, part)? {
                return Ok(Err(refusal));
            }
            return Ok(Ok(made));
        };
        if let Err(refusal) = push_both(alloc, &mut made, part, new)? {
            return Ok(Err(refusal));
        }
        rest = after;
    }
}

// Appends two pieces, unless the text becomes too long.
fn push_both(
    alloc: Global,
    made: &mut Text,
    first: &str,
    second: &str,
) -> Result<Result<(), OperationRefusal>, AllocError>
    ensures { IfOk result (λ r. Appends made.old (first.now ++ second.now) made.new r) }
{
    if let Err(refusal) = made.push(alloc, first)? {
        return Ok(Err(refusal));
    }
    made.push(alloc, second)
}
