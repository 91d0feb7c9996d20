//! Splits a text into pieces, which are slices of it.

ghost use Rattle.std.specs.Prelude.{◌≡◌, [], map, false, All, IfOk, MatchResult, Ok, Err};
ghost use Rattle.values.specs.texts.Pieces.{words, lines, split_at, within_items};
ghost use Rattle.values.specs.texts.Cut.{pieces, CanCut};
ghost use Rattle.values.specs.texts.Search.{contains};
ghost use Rattle.values.specs.texts.Joined.{joined_texts};
ghost use Rattle.values.specs.texts.Answers.{pieces_in};

use crate::OperationRefusal;
use crate::texts::first_piece::Cut;
use std::alloc::{AllocError, Global};
use support::limits::ITEMS;

/// Returns the parts of `text` between separators, as the method `split` with an argument does.
///
/// Separators are found from the left and never overlap. Empty parts are kept. Returns `OperationRefusal::Arguments` if the separator is
/// empty, and `OperationRefusal::Limit` if there are more than 65,536 parts.
pub fn split_at<'a>(
    alloc: Global,
    text: &'a str,
    separator: &str,
) -> Result<Result<Vec<&'a str>, OperationRefusal>, AllocError>
    ensures parts { IfOk result (λ r. pieces_in r ≡ split_at text.now separator.now) }

    // Laws of the definition: the joined parts are the text, and no part contains the separator.
    ensures whole { IfOk result (λ r. IfOk (pieces_in r) (λ found. joined_texts separator.now found ≡ text.now)) }
    ensures apart { IfOk result (λ r. IfOk (pieces_in r) (All (λ part. contains part separator.now ≡ false))) }
{
    if separator.is_empty() {
        return Ok(Err(OperationRefusal::Arguments));
    }
    cut_up(alloc, text, Cut::At(separator))
}

/// Returns the words of `text` between its ASCII white space, as the method `split` without an argument does.
///
/// Returns `OperationRefusal::Limit` if there are more than 65,536 words.
pub fn split_blank(
    alloc: Global,
    text: &str,
) -> Result<Result<Vec<&str>, OperationRefusal>, AllocError>
    ensures { IfOk result (λ r. pieces_in r ≡ within_items (words text.now)) }
{
    cut_up(alloc, text, Cut::Blanks)
}

/// Returns the lines of `text`, as the method `splitlines` does.
///
/// A line ends at a newline, a carriage return, or both in this order. There is no line after the last line ending. Returns
/// `OperationRefusal::Limit` if there are more than 65,536 lines.
pub fn split_lines(
    alloc: Global,
    text: &str,
) -> Result<Result<Vec<&str>, OperationRefusal>, AllocError>
    ensures { IfOk result (λ r. pieces_in r ≡ within_items (lines text.now)) }
{
    cut_up(alloc, text, Cut::Lines)
}

fn cut_up<'a>(
    alloc: Global,
    text: &'a str,
    cut: Cut<'_>,
) -> Result<Result<Vec<&'a str>, OperationRefusal>, AllocError>
    requires { CanCut cut }
    ensures { IfOk result (λ r. pieces_in r ≡ within_items (pieces cut.entry text.now)) }
{
    let mut found = Vec::new(alloc);
    match push_pieces(&mut found, text, cut)? {
        Ok(()) => Ok(Ok(found)),
        Err(refusal) => Ok(Err(refusal)),
    }
}

// Appends the pieces of a text to an empty list.
fn push_pieces<'a>(
    found: &mut Vec<&'a str>,
    text: &'a str,
    cut: Cut<'_>,
) -> Result<Result<(), OperationRefusal>, AllocError>
    requires cut { CanCut cut }
    requires none { found.old.items ≡ [] }
    ensures { IfOk result (λ r. MatchResult r
        (λ _. Ok (map (λ piece. piece.now) found.new.items) ≡ within_items (pieces cut.entry text.now))
        (λ e. Err e ≡ within_items (pieces cut.entry text.now))) }
{
    let mut rest = text;
    while let Some((piece, after)) = cut.first(rest) {
        if found.len() == ITEMS {
            return Ok(Err(OperationRefusal::Limit));
        }
        found.push(piece)?;
        let Some(after) = after else {
            break;
        };
        rest = after;
    }
    Ok(Ok(()))
}
