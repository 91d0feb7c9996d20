//! Defines rows without keywords.
ghost use Rattle.std.specs.Prelude.{◌≡◌};
ghost use Rattle.arguments.specs.RowView.{row_data};
ghost use Rattle.arguments.specs.Rows.{some_texts, values};

use crate::row::{ArgumentKind, Row};

/// Returns a row of any number of values of any type.
pub fn any_values() -> Row
    ensures { row_data result ≡ Rattle.arguments.specs.Rows.any_values }
{
    Row::of(&[], 0, &[]).with_others(ArgumentKind::Any)
}

/// Returns a row of values of these kinds, of which the first `needed` are needed.
pub fn values(positional: &'static [ArgumentKind], needed: usize) -> Row
    ensures { row_data result ≡ values positional.now needed }
{
    Row::of(positional, needed, &[])
}

/// Returns a row of at least one text.
pub fn some_texts() -> Row
    ensures { row_data result ≡ some_texts }
{
    Row::of(&[], 1, &[]).with_others(ArgumentKind::Text)
}
