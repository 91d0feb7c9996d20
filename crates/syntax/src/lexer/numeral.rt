//! Computes the values of number tokens.

ghost use Rattle.std.specs.Prelude.{◌≡◌, ◌<◌, ◌≤◌, ◌^◌, SomeIff};
ghost use Rattle.syntax.specs.lexer.Numerals.{digit, number_in_base, base_of, magnitude};

// Returns the value of a digit: 0 to 9, then the letters from 10 on.
fn digit(byte: u8) -> u8
    ensures { result ≡ digit byte }
{
    if byte < b'A' {
        byte.saturating_sub(b'0')
    } else if byte < b'a' {
        byte - b'A' + 10
    } else {
        byte - b'a' + 10
    }
}

// Returns the number that these digits spell in this base, or `None` if it does not fit in 128 bits.
fn read_digits(base: u128, digits: &[u8]) -> Option<u128>
    requires { 1 ≤ base }
    ensures { SomeIff result (number_in_base base 0 digits.now < 2 ^ 128) (number_in_base base 0 digits.now) }
{
    let mut value: u128 = 0;
    for byte in digits {
        value = value
            .checked_mul(base)?
            .checked_add(u128::from(digit(*byte)))?;
    }
    Some(value)
}

// Returns the base that the letter after a leading 0 names.
fn base_of(letter: u8) -> u128
    ensures { result ≡ base_of letter }
{
    match letter {
        b'x' | b'X' => 16,
        b'o' | b'O' => 8,
        _ => 2,
    }
}

// Returns the number that the bytes of a number token spell, or `None` if it does not fit in 128 bits.
fn magnitude_of(text: &[u8]) -> Option<u128>
    ensures { SomeIff result (magnitude text.now < 2 ^ 128) (magnitude text.now) }
{
    if text.is_empty() {
        return Some(0);
    }
    if text[0] != b'0' {
        return read_digits(10, text);
    }
    if text.len() == 1 {
        return Some(0);
    }
    read_digits(base_of(text[1]), &text[2..])
}

/// Returns the number that the text of a number token spells, or `None` if it does not fit in 128 bits.
///
/// The digits are decimal, or those of the base that a leading `0x`, `0o` or `0b` names. A minus is not part of a number token.
pub fn magnitude(text: &str) -> Option<u128>
    ensures { SomeIff result (magnitude text.now < 2 ^ 128) (magnitude text.now) }
{
    magnitude_of(text.as_bytes())
}
