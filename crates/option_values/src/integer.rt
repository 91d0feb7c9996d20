//! Reads texts that spell integers.

ghost use Rattle.std.specs.Prelude.{◌≡◌};
ghost use Rattle.option_values.specs.Integers.{integer_of, integer_within, is_no_greater, is_no_less, is_within};

// Returns the integer that a text spells, or `None` if it does not fit in 64 bits. The text is digits after at most one minus sign.
fn integer_of(text: &str) -> Option<i64>
    ensures { result ≡ integer_of text.now }
{
    if text.starts_with('+') {
        return None;
    }
    text.parse::<i64>().ok()
}

fn is_no_less(least: Option<i64>, number: i64) -> bool
    ensures { result ≡ is_no_less least number }
{
    match least {
        Some(least) => least <= number,
        None => true,
    }
}

fn is_no_greater(greatest: Option<i64>, number: i64) -> bool
    ensures { result ≡ is_no_greater greatest number }
{
    match greatest {
        Some(greatest) => number <= greatest,
        None => true,
    }
}

/// Returns whether a number is within bounds. Each bound may be absent.
pub fn is_within(least: Option<i64>, greatest: Option<i64>, number: i64) -> bool
    ensures { result ≡ is_within least greatest number }
{
    is_no_less(least, number) && is_no_greater(greatest, number)
}

/// Returns the integer that a text spells, if it is within these bounds.
pub fn integer_within(least: Option<i64>, greatest: Option<i64>, text: &str) -> Option<i64>
    ensures { result ≡ integer_within least greatest text.now }
{
    let number = integer_of(text)?;
    if is_within(least, greatest, number) {
        Some(number)
    } else {
        None
    }
}
