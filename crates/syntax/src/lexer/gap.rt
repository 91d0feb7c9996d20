//! Measures the gap between two tokens: blanks, comments and continuations of lines.

ghost use Rattle.std.specs.Prelude.{◌≡◌, false};
ghost use Rattle.syntax.specs.lexer.Lexing.{in_line_rest, continues_line, in_gap, part_after, gap};

use crate::lexer::bytes::is_blank;

/// Says in which part of a gap a byte is.
#[derive(Clone, Copy)]
pub enum GapPart {
    /// In neither of the others.
    Blank,
    /// In a comment.
    Comment,
    /// After a backslash that continues the line, up to the newline.
    Continuation,
}

// Returns whether a byte may be between a backslash and the newline that it continues, in a comment there or outside.
fn in_line_rest(commented: bool, byte: u8) -> bool
    ensures { result ≡ in_line_rest commented byte }
{
    commented || is_blank(0, byte) || byte == b'#'
}

// Returns whether the bytes begin with blanks, an optional comment, and a newline.
#[tactic(auto, using(crate::proofs::Gaps::line_steps))]
fn continues_line(bytes: &[u8]) -> bool
    ensures { result ≡ continues_line false bytes.now }
{
    let mut commented = false;
    for byte in bytes {
        if *byte == b'\n' {
            return true;
        }
        if !in_line_rest(commented, *byte) {
            return false;
        }
        commented = commented || *byte == b'#';
    }
    false
}

// Returns whether a byte belongs to a gap, in this part of it, with `depth` brackets open and the bytes `after` next.
fn in_gap(depth: usize, part: GapPart, byte: u8, after: &[u8]) -> bool
    ensures { result ≡ in_gap depth part byte after.now }
{
    match part {
        GapPart::Blank => is_blank(depth, byte)
            || byte == b'#'
            || byte == b'\\' && continues_line(after),
        GapPart::Comment => byte != b'\n' || depth > 0,
        GapPart::Continuation => true,
    }
}

// Returns the part of the gap that the byte after this one is in.
fn part_after(part: GapPart, byte: u8) -> GapPart
    ensures { result ≡ part_after part byte }
{
    match part {
        GapPart::Blank if byte == b'#' => GapPart::Comment,
        GapPart::Blank if byte == b'\\' => GapPart::Continuation,
        GapPart::Comment | GapPart::Continuation if byte == b'\n' => GapPart::Blank,
        same => same,
    }
}

// Returns how many bytes of blanks, comments and continuations are at the front, with `depth` brackets open.
#[tactic(auto, using(crate::proofs::Gaps::gap_steps))]
pub(crate) fn gap_length(bytes: &[u8], depth: usize) -> usize
    ensures { result ≡ gap depth GapPart.Blank bytes.now }
{
    let mut length = 0;
    let mut part = GapPart::Blank;
    while length < bytes.len() && in_gap(depth, part, bytes[length], &bytes[length + 1..]) {
        part = part_after(part, bytes[length]);
        length += 1;
    }
    length
}
