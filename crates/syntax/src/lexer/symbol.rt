//! Recognizes symbols.

ghost use Rattle.std.specs.Prelude.{◌≡◌};
ghost use Rattle.syntax.specs.lexer.Kinds.{single_kind, with_equals_kind};
ghost use Rattle.syntax.specs.lexer.Lexing.{double_kind, symbol_at};

use crate::lexer::token::TokenKind;

// Returns the symbol of one byte.
fn single_kind(byte: u8) -> Option<TokenKind>
    ensures { result ≡ single_kind byte }
{
    match byte {
        b'(' => Some(TokenKind::OpenParenthesis),
        b')' => Some(TokenKind::CloseParenthesis),
        b'[' => Some(TokenKind::OpenBracket),
        b']' => Some(TokenKind::CloseBracket),
        b'{' => Some(TokenKind::OpenBrace),
        b'}' => Some(TokenKind::CloseBrace),
        b',' => Some(TokenKind::Comma),
        b':' => Some(TokenKind::Colon),
        b'.' => Some(TokenKind::Dot),
        b'?' => Some(TokenKind::Question),
        b'=' => Some(TokenKind::Assign),
        b'<' => Some(TokenKind::Less),
        b'>' => Some(TokenKind::Greater),
        b'+' => Some(TokenKind::Plus),
        b'-' => Some(TokenKind::Minus),
        b'*' => Some(TokenKind::Times),
        b'/' => Some(TokenKind::Divide),
        b'%' => Some(TokenKind::Remainder),
        b'\n' => Some(TokenKind::Newline),
        _ => None,
    }
}

// Returns the symbol that this byte and an equals sign form.
fn with_equals_kind(byte: u8) -> Option<TokenKind>
    ensures { result ≡ with_equals_kind byte }
{
    match byte {
        b'=' => Some(TokenKind::Equal),
        b'!' => Some(TokenKind::NotEqual),
        b'<' => Some(TokenKind::LessOrEqual),
        b'>' => Some(TokenKind::GreaterOrEqual),
        b'+' => Some(TokenKind::PlusAssign),
        _ => None,
    }
}

// Returns the symbol that this byte and the next one form.
fn double_kind(first: u8, bytes: &[u8]) -> Option<TokenKind>
    ensures { result ≡ double_kind first bytes.now }
{
    if bytes.len() > 0 && bytes[0] == b'=' {
        with_equals_kind(first)
    } else {
        None
    }
}

// Returns the kind and length of the symbol that begins with this byte.
#[tactic(auto, using(crate::proofs::Cuts::symbol_cases))]
pub(crate) fn symbol_at(first: u8, bytes: &[u8]) -> Option<(TokenKind, usize)>
    ensures { result ≡ symbol_at first bytes.now }
{
    if let Some(kind) = double_kind(first, bytes) {
        Some((kind, 2))
    } else if let Some(kind) = single_kind(first) {
        Some((kind, 1))
    } else {
        None
    }
}
