//! Defines the rows of the functions and of the methods: the arguments that each takes.
ghost use Rattle.std.specs.Prelude.{◌≡◌};
ghost use Rattle.arguments.specs.RowView.{row_data};
ghost use Rattle.configuration_calls.specs.Rows.{configuration_data_row, configure_file_row, other_format_row, row_of};

use arguments::{ArgumentKind, Keyword, Piece, Row};
use values::language_names::ConfigurationMethod;

const FILE: &[Keyword] = &[
    Keyword::Needed("output", ArgumentKind::Text),
    Keyword::Needed("configuration", ArgumentKind::Configuration),
    Keyword::Optional("input", ArgumentKind::Flat(Piece::Path)),
    Keyword::Optional("install_dir", ArgumentKind::Text),
    Keyword::Optional("format", ArgumentKind::Any),
    Keyword::Optional("encoding", ArgumentKind::Any),
];

const DESCRIBED: &[Keyword] = &[Keyword::Optional("description", ArgumentKind::Any)];

/// Returns the row of `configuration_data`.
pub fn configuration_data_row() -> Row
    ensures { row_data result ≡ configuration_data_row }
{
    Row::of(&[ArgumentKind::Dictionary], 0, &[])
}

/// Returns the row of `configure_file` without a `format`, or with the format `'meson'`.
pub fn configure_file_row() -> Row
    ensures { row_data result ≡ configure_file_row }
{
    Row::of(&[], 0, &[FILE]).leaving_out(&["command", "copy"])
}

/// Returns the row of `configure_file` with another `format`, which is not supported.
pub fn other_format_row() -> Row
    ensures { row_data result ≡ other_format_row }
{
    Row::of(&[], 0, &[FILE]).leaving_out(&["command", "copy", "format"])
}

/// Returns the row of a method.
pub fn row_of(method: ConfigurationMethod) -> Row
    ensures { row_data result ≡ row_of method }
{
    match method {
        ConfigurationMethod::Get | ConfigurationMethod::GetUnquoted => Row::of(
            &[ArgumentKind::Text, ArgumentKind::Any],
            1,
            &[],
        ),
        ConfigurationMethod::Has => Row::of(&[ArgumentKind::Text], 1, &[]),
        ConfigurationMethod::Keys => Row::of(&[], 0, &[]),
        ConfigurationMethod::MergeFrom => Row::of(&[ArgumentKind::ConfigurationData], 1, &[]),
        ConfigurationMethod::Set => Row::of(
            &[ArgumentKind::Text, ArgumentKind::Setting],
            2,
            &[DESCRIBED],
        ),
        ConfigurationMethod::Set10 => Row::of(
            &[ArgumentKind::Text, ArgumentKind::Boolean],
            2,
            &[DESCRIBED],
        ),
        ConfigurationMethod::SetQuoted => Row::of(
            &[ArgumentKind::Text, ArgumentKind::Text],
            2,
            &[DESCRIBED],
        ),
    }
}
