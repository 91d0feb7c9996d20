//! Recognizes numbers.

ghost use Rattle.std.specs.Prelude.{◌≡◌};
ghost use Rattle.std.specs.Char.{is_ascii_digit};
ghost use Rattle.std.specs.List.{list_all};
ghost use Rattle.syntax.specs.lexer.Lexing.{number_at};
ghost use Rattle.syntax.specs.lexer.Numbers.{is_digit_of, is_number};

use crate::lexer::token::TokenKind;
use crate::lexer::word::word_length;

// Returns whether this is a digit of the base that the letter names.
fn is_digit_of(letter: u8, digit: u8) -> bool
    ensures { result ≡ is_digit_of letter digit }
{
    match letter {
        b'x' | b'X' => digit.is_ascii_hexdigit(),
        b'o' | b'O' => matches!(digit, b'0'..=b'7'),
        b'b' | b'B' => matches!(digit, b'0'..=b'1'),
        _ => false,
    }
}

// Returns whether all of these are decimal digits.
fn are_decimal(digits: &[u8]) -> bool
    ensures { result ≡ list_all is_ascii_digit digits.now }
{
    digits.iter().all(|digit| digit.is_ascii_digit())
}

// Returns whether all of these are digits of the base that the letter names.
fn are_digits_of(letter: u8, digits: &[u8]) -> bool
    ensures { result ≡ list_all (is_digit_of letter) digits.now }
{
    digits.iter().all(|digit| is_digit_of(letter, *digit))
}

// Returns whether the text is a number: 0, a decimal number without a leading 0, or a number of another base.
#[tactic(auto, using(crate::proofs::Digits::number_cases))]
pub(crate) fn is_number(text: &[u8]) -> bool
    ensures { result ≡ is_number text.now }
{
    if text.is_empty() {
        false
    } else if text[0] != b'0' {
        are_decimal(text)
    } else if text.len() < 3 {
        text.len() == 1
    } else {
        are_digits_of(text[1], &text[2..])
    }
}

// Returns the kind and length of the number at the front, whose first byte is a digit.
#[tactic(auto, using(crate::proofs::Cuts::number_at_cases))]
pub(crate) fn number_at(bytes: &[u8]) -> Option<(TokenKind, usize)>
    ensures { result ≡ number_at bytes.now }
{
    let length = word_length(bytes);
    if is_number(&bytes[..length]) {
        Some((TokenKind::Number, length))
    } else {
        None
    }
}
