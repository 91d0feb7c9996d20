//! Defines the row of `subdir`: the arguments that it takes.
ghost use Rattle.std.specs.Prelude.{◌≡◌};
ghost use Rattle.arguments.specs.RowView.{row_data};
ghost use Rattle.language_calls.specs.Rows.{subdir_row};

use arguments::{ArgumentKind, Keyword, Piece, Row};

const SUBDIR: &[Keyword] = &[Keyword::Optional("if_found", ArgumentKind::Flat(Piece::Dependency))];

/// Returns the row of `subdir`: a folder, and dependencies; if one of them was not found, the folder is skipped.
pub fn subdir_row() -> Row
    ensures { row_data result ≡ subdir_row }
{
    Row::of(&[ArgumentKind::Text], 1, &[SUBDIR])
}
