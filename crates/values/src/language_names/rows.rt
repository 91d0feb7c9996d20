//! Looks names up in tables of rows.
ghost use Rattle.std.specs.Prelude.{◌≡◌, Option, None};
ghost use Rattle.std.specs.Option.{option_or};
ghost use Rattle.values.specs.language_names.Rows.{named_or};

/// Returns the entry of the first row with this name, and `None` if no row has it.
pub(super) fn named<T: Copy>(rows: &[(&str, T)], name: &str) -> Option<T>
    ensures named { result ≡ named_or rows.now name.now None }
    ensures other { (other : Option T) → option_or result other ≡ named_or rows.now name.now other }
{
    for row in rows {
        if name == row.0 {
            return Some(row.1);
        }
    }
    None
}
