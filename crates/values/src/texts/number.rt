//! Reads the integer that a text spells.

ghost use Rattle.std.specs.Prelude.{◌≡◌};
ghost use Rattle.std.specs.Char.{is_ascii_digit};
ghost use Rattle.std.specs.List.{list_all};
ghost use Rattle.std.specs.Str.Parse.{without_leading_sign};
ghost use Rattle.values.specs.texts.Number.{integer_of, is_numeral};

use crate::OperationRefusal;

/// Returns the integer that `text` spells: decimal digits after at most one sign.
///
/// Returns `OperationRefusal::Arguments` for any other text, and `OperationRefusal::Range` if the integer is not in the range from -2^127
/// to 2^127-1.
pub fn to_int(text: &str) -> Result<i128, OperationRefusal>
    ensures { result ≡ integer_of text.now }
{
    if !is_numeral(text.as_bytes()) {
        return Err(OperationRefusal::Arguments);
    }
    match text.parse::<i128>() {
        Ok(integer) => Ok(integer),
        Err(_) => Err(OperationRefusal::Range),
    }
}

fn is_numeral(text: &[u8]) -> bool
    ensures { result ≡ is_numeral text.now }
{
    let digits = without_sign(text);
    !digits.is_empty() && are_digits(digits)
}

/// Returns whether each of some bytes is a digit.
pub fn are_digits(bytes: &[u8]) -> bool
    ensures { result ≡ list_all is_ascii_digit bytes.now }
{
    bytes.iter().all(|b| b.is_ascii_digit())
}

fn without_sign(text: &[u8]) -> &[u8]
    ensures { result.now ≡ without_leading_sign text.now }
{
    if let Some((sign, digits)) = text.split_first() {
        if *sign == b'-' || *sign == b'+' {
            return digits;
        }
    }
    text
}
