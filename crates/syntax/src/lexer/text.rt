//! Computes the texts of tokens.

ghost use Rattle.std.specs.Prelude.{◌≡◌, ℕ, ◌<◌, List, IfOk, IfSome, string_bytes};
ghost use Rattle.syntax.specs.lexer.Lexing.{run_length};
ghost use Rattle.syntax.specs.lexer.Texts.{escaped_by, is_no_backslash, unescaped_text, is_framed, text_between_quotes, text_of};
ghost use Rattle.syntax.specs.lexer.Texts.{TokenStandsFor};
ghost use Rattle.syntax.specs.lexer.Tokens.{IsToken};

use crate::lexer::escape::escape_at;
use crate::lexer::token::{Token, TokenKind};
use std::alloc::{AllocError, Global};

// Returns the character that a backslash and these bytes name, and how many of the bytes belong to the escape. A backslash without an
// escape names itself.
#[tactic(auto, using(crate::proofs::Texts::escaped_cases))]
fn unescape_one(bytes: &[u8]) -> (char, usize)
    ensures { result ≡ escaped_by bytes.now }
{
    let Some((code, size)) = escape_at(bytes) else {
        return ('\\', 0);
    };
    match char::from_u32(code) {
        Some(character) => (character, size),
        None => ('\\', 0),
    }
}

// Returns how many bytes precede the first backslash.
#[tactic(auto, using(crate::proofs::Runs::run_steps))]
fn plain_length(bytes: &[u8]) -> usize
    ensures { result ≡ run_length is_no_backslash bytes.now }
{
    let mut length = 0;
    while length < bytes.len() && bytes[length] != b'\\' {
        length += 1;
    }
    length
}

// Returns the text that the characters between quotes name.
fn unescape(alloc: Global, text: &str) -> Result<String, AllocError>
    ensures { IfOk result (λ s. string_bytes s ≡ unescaped_text text.now) }
{
    let mut whole = String::new(alloc);
    let mut rest = text;
    loop {
        let (plain, marked) = rest.split_at(plain_length(rest.as_bytes()));
        whole.push_str(plain)?;
        if marked.is_empty() {
            return Ok(whole);
        }
        let (_, behind) = marked.split_at(1);
        let (character, size) = unescape_one(behind.as_bytes());
        whole.push(character)?;
        let (_, after) = behind.split_at(size);
        rest = after;
    }
}

// Returns whether the first `front` bytes end with a quote and the last `back` bytes begin with one.
#[tactic(auto, using(crate::proofs::Frames::framed_cases))]
fn is_framed(bytes: &[u8], front: usize, back: usize) -> bool
    requires before { 0 < front }
    requires few { front < 8 }
    requires behind { 0 < back }
    requires not_many { back < 8 }
    ensures { result ≡ is_framed front back bytes.now }
{
    if bytes.len() < front + back {
        return false;
    }
    bytes[front - 1] == b'\'' && bytes[bytes.len() - back] == b'\''
}

// Returns the text without its first `front` and last `back` bytes, or the whole text if it has no quotes there.
fn between(text: &str, front: usize, back: usize) -> &str
    requires before { 0 < front }
    requires few { front < 8 }
    requires behind { 0 < back }
    requires not_many { back < 8 }
    ensures { result.now ≡ text_between_quotes front back text.now }
{
    if is_framed(text.as_bytes(), front, back) {
        &text[front..text.len() - back]
    } else {
        text
    }
}

// Returns the text of a token of this kind and slice.
fn stood_for(alloc: Global, kind: TokenKind, text: &str) -> Result<String, AllocError>
    ensures { IfOk result (λ s. string_bytes s ≡ text_of kind text.now) }
{
    match kind {
        TokenKind::String => unescape(alloc, between(text, 1, 1)),
        TokenKind::FormatString => unescape(alloc, between(text, 2, 1)),
        TokenKind::RawString => String::from_str(alloc, between(text, 3, 3)),
        TokenKind::RawFormatString => String::from_str(alloc, between(text, 4, 3)),
        _ => String::from_str(alloc, text),
    }
}

// Returns the characters between quotes, if none of them is a backslash.
fn without_escapes(text: &str) -> Option<&str>
    ensures { IfSome result (λ t. t.now ≡ unescaped_text text.now) }
{
    if plain_length(text.as_bytes()) == text.len() {
        Some(text)
    } else {
        None
    }
}

/// Returns the part of a token's slice that is the token's text, without allocating.
///
/// The text is the one that [`text_of_slice`] returns. Returns `None` for a string that is not raw and has a backslash.
pub fn text_in_slice(kind: TokenKind, slice: &str) -> Option<&str>
    ensures { IfSome result (λ t. t.now ≡ text_of kind slice.now) }
{
    match kind {
        TokenKind::String => without_escapes(between(slice, 1, 1)),
        TokenKind::FormatString => without_escapes(between(slice, 2, 1)),
        TokenKind::RawString => Some(between(slice, 3, 3)),
        TokenKind::RawFormatString => Some(between(slice, 4, 3)),
        _ => Some(slice),
    }
}

/// Returns the text of a token of this kind, given its slice of the source.
///
/// The text of a string is the one between its quotes, after its escapes, as the Meson manual describes them (page "Syntax"). A raw string
/// has no escapes. The text of any other token is its slice. A slice that is no such token of any source has a text too. An escape that
/// names no character keeps its backslash, and a string without its quotes is its own text.
pub fn text_of_slice(alloc: Global, kind: TokenKind, slice: &str) -> Result<String, AllocError>
    // Unless memory runs out, the result is this function of the kind and the slice, for all values of both.
    ensures value { IfOk result (λ s. string_bytes s ≡ text_of kind slice.now) }

    // The result is the text of a token of a source, and the only one.
    ensures source { (rest : List ℕ) → IsToken kind slice.now rest → IfOk result (λ s. TokenStandsFor kind slice.now (string_bytes s)) }
    ensures only { (text : List ℕ) → TokenStandsFor kind slice.now text → IfOk result (λ s. string_bytes s ≡ text) }
{
    stood_for(alloc, kind, slice)
}

/// Returns the text of a token, as [`text_of_slice`] does.
pub fn text_of(alloc: Global, token: &Token<'_>) -> Result<String, AllocError>
    // Unless memory runs out, the result is this function of the token, for every token.
    ensures value { IfOk result (λ s. string_bytes s ≡ text_of token.now.kind token.now.text.now) }

    // The result is the text of a token of a source, and the only one.
    ensures source { (rest : List ℕ) → IsToken token.now.kind token.now.text.now rest
        → IfOk result (λ s. TokenStandsFor token.now.kind token.now.text.now (string_bytes s)) }
    ensures only { (text : List ℕ) → TokenStandsFor token.now.kind token.now.text.now text → IfOk result (λ s. string_bytes s ≡ text) }
{
    text_of_slice(alloc, token.kind, token.text)
}
