//! Computes integers of 64 bits.

ghost use Rattle.std.specs.Prelude.{◌≡◌};
ghost use Rattle.syntax.specs.lexer.Numerals.{magnitude};
ghost use Rattle.machine_file.specs.Numbers.{integer_of, greatest};

use syntax::lexer::magnitude;

/// Returns the integer with this magnitude and sign, or `None` if it does not fit in 64 bits.
#[tactic(auto, unfolding(crate::specs::Numbers::greatest))]
pub fn integer_of(negative: bool, magnitude: u128) -> Option<i64>
    ensures { result ≡ integer_of negative magnitude }
{
    let magnitude = i128::try_from(magnitude).ok()?;
    let number = if negative { -magnitude } else { magnitude };
    i64::try_from(number).ok()
}

/// Returns the integer of a number token with this sign, or `None` if it does not fit in 64 bits.
pub fn integer(negative: bool, text: &str) -> Option<i64>
    ensures { result ≡ integer_of negative (magnitude text.now) }
{
    integer_of(negative, magnitude(text)?)
}
