//! Reads the numbers of an option file.

ghost use Rattle.std.specs.Prelude.{◌≡◌};
ghost use Rattle.std.specs.Option.{option_map};
ghost use Rattle.machine_file.specs.Numbers.{integer_of};
ghost use Rattle.options.specs.option_file.Given.{integer, numeral};
ghost use Rattle.options.specs.option_file.View.{given_in};

use crate::option_file::declaration::DeclaredValue;
use machine_file::integer_of;
use syntax::lexer::magnitude;

/// The least number beyond the range of the language's integers.
const PAST_INTEGERS: u128 = 1 << 127;

// Returns what a number with this sign gives.
fn integer(negative: bool, magnitude: u128) -> DeclaredValue
    ensures { given_in result ≡ integer (integer_of negative magnitude) }
{
    match integer_of(negative, magnitude) {
        Some(number) => DeclaredValue::Integer(number),
        None => DeclaredValue::Other,
    }
}

/// Returns what a number token with this sign gives, or `None` if it is outside the range of integers.
pub fn numeral(negative: bool, text: &str) -> Option<DeclaredValue>
    ensures { option_map given_in result ≡ numeral negative text.now }
{
    let magnitude = magnitude(text)?;
    if magnitude < PAST_INTEGERS {
        Some(integer(negative, magnitude))
    } else {
        None
    }
}
