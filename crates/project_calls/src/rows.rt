//! Defines the rows of `project` and `get_option`: the arguments that each takes.
ghost use Rattle.std.specs.Prelude.{◌≡◌};
ghost use Rattle.arguments.specs.RowView.{row_data};
ghost use Rattle.project_calls.specs.Rows.{get_option_row, project_row};

use arguments::{ArgumentKind, Keyword, Row};

const PROJECT: &[Keyword] = &[
    Keyword::Optional("version", ArgumentKind::Text),
    Keyword::Optional("license", ArgumentKind::Texts),
    Keyword::Optional("default_options", ArgumentKind::TextsOrDictionary),
    Keyword::Optional("meson_version", ArgumentKind::Any),
];

/// Returns the row of `project`: a name and languages.
pub fn project_row() -> Row
    ensures { row_data result ≡ project_row }
{
    Row::of(&[ArgumentKind::Text], 1, &[PROJECT]).with_others(ArgumentKind::Texts)
}

/// Returns the row of `get_option`: the name of an option.
pub fn get_option_row() -> Row
    ensures { row_data result ≡ get_option_row }
{
    Row::of(&[ArgumentKind::Text], 1, &[])
}
