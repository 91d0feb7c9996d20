//! Recognizes strings.

ghost use Rattle.std.specs.Prelude.{◌≡◌, ◌+◌, ◌<◌, ◌≤◌, false, length, IfSome};
ghost use Rattle.syntax.specs.lexer.Kinds.{format_kind};
ghost use Rattle.syntax.specs.lexer.Lexing.{inside, before_quotes, string_at, format_at};

use crate::lexer::bytes::opens_raw;
use crate::lexer::escape::is_bad_escape;
use crate::lexer::token::TokenKind;

// Returns how many bytes precede the quote that ends a string, or `None` if the string has no end or a bad escape.
#[tactic(auto, using(crate::proofs::Strings::inside_steps))]
fn inside_length(bytes: &[u8]) -> Option<usize>
    ensures found { result ≡ inside false bytes.now }
    ensures within { IfSome result (λ n. n + 1 ≤ length bytes.now) }
{
    let mut escaped = false;
    for (length, byte) in bytes.iter().enumerate() {
        if escaped {
            if is_bad_escape(&bytes[length..]) {
                return None;
            }
            escaped = false;
        } else if *byte == b'\'' {
            return Some(length);
        } else {
            escaped = *byte == b'\\';
        }
    }
    None
}

// Returns how many bytes precede the first three quotes.
#[tactic(auto, using(crate::proofs::Strings::quotes_steps))]
fn length_before_quotes(bytes: &[u8]) -> Option<usize>
    ensures found { result ≡ before_quotes bytes.now }
    ensures within { IfSome result (λ n. n + 3 ≤ length bytes.now) }
{
    for length in 0..bytes.len() {
        if opens_raw(&bytes[length..]) {
            return Some(length);
        }
    }
    None
}

// Returns the kind and length of the string at the front, whose first byte is a quote.
#[tactic(auto, using(crate::proofs::Strings::string_cases))]
pub(crate) fn string_at(bytes: &[u8]) -> Option<(TokenKind, usize)>
    requires { 0 < length bytes.now }
    ensures found { result ≡ string_at bytes.now }
    ensures within { IfSome result (λ t. t.1 ≤ length bytes.now) }
{
    if opens_raw(bytes) {
        let length = length_before_quotes(&bytes[3..])?;
        Some((TokenKind::RawString, length + 6))
    } else {
        let length = inside_length(&bytes[1..])?;
        Some((TokenKind::String, length + 2))
    }
}

// Returns the kind of a string of this kind after an `f`.
fn format_kind(kind: TokenKind) -> TokenKind
    ensures { result ≡ format_kind kind }
{
    match kind {
        TokenKind::String => TokenKind::FormatString,
        TokenKind::RawString => TokenKind::RawFormatString,
        other => other,
    }
}

// Returns the kind and length of the f-string at the front, whose first bytes are `f` and a quote.
#[tactic(auto, using(crate::proofs::Strings::format_cases))]
pub(crate) fn format_at(bytes: &[u8]) -> Option<(TokenKind, usize)>
    requires { 1 < length bytes.now }
    ensures { result ≡ format_at bytes.now }
{
    let (kind, length) = string_at(&bytes[1..])?;
    Some((format_kind(kind), length + 1))
}
