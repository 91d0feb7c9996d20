//! Defines the rows of the functions: the arguments that each takes.
ghost use Rattle.std.specs.Prelude.{◌≡◌};
ghost use Rattle.arguments.specs.RowView.{row_data};
ghost use Rattle.resource_calls.specs.Rows.{declare_dependency_row, dependency_row, find_program_row, install_data_row};
ghost use Rattle.resource_calls.specs.Rows.{install_headers_row, install_man_row, test_row};

use arguments::{ArgumentKind, Keyword, Piece, Row};

// The keywords of all functions that find something.
const FINDING: &[Keyword] = &[
    Keyword::Optional("required", ArgumentKind::Requirement),
    Keyword::Optional("disabler", ArgumentKind::Boolean),
    Keyword::Optional("native", ArgumentKind::Any),
];

const DEPENDENCY: &[Keyword] = &[
    Keyword::Optional("version", ArgumentKind::Texts),
    Keyword::Optional("method", ArgumentKind::Any),
    Keyword::Optional("static", ArgumentKind::Any),
    Keyword::Optional("include_type", ArgumentKind::Any),
];

const DECLARE_DEPENDENCY: &[Keyword] = &[
    Keyword::Optional("include_directories", ArgumentKind::Flat(Piece::Folder)),
    Keyword::Optional("compile_args", ArgumentKind::Texts),
    Keyword::Optional("link_args", ArgumentKind::Texts),
    Keyword::Optional("link_with", ArgumentKind::Flat(Piece::BuildTarget)),
    Keyword::Optional("sources", ArgumentKind::Flat(Piece::Source)),
    Keyword::Optional("dependencies", ArgumentKind::Flat(Piece::Dependency)),
    Keyword::Optional("version", ArgumentKind::Text),
];

const INSTALL_HEADERS: &[Keyword] = &[
    Keyword::Optional("install_dir", ArgumentKind::Text),
    Keyword::Optional("subdir", ArgumentKind::Text),
];

const INSTALL_FILES: &[Keyword] = &[Keyword::Optional("install_dir", ArgumentKind::Text)];

const TEST: &[Keyword] = &[
    Keyword::Optional("args", ArgumentKind::Flat(Piece::Word)),
    Keyword::Optional("env", ArgumentKind::TextsOrDictionary),
    Keyword::Optional("should_fail", ArgumentKind::Boolean),
    Keyword::Optional("suite", ArgumentKind::Texts),
    Keyword::Optional("timeout", ArgumentKind::Integer),
    Keyword::Optional("depends", ArgumentKind::Any),
    Keyword::Optional("workdir", ArgumentKind::Any),
    Keyword::Optional("is_parallel", ArgumentKind::Any),
];

/// Returns the row of `dependency`.
pub fn dependency_row() -> Row
    ensures { row_data result ≡ dependency_row }
{
    Row::of(&[ArgumentKind::Text], 1, &[FINDING, DEPENDENCY]).with_others(ArgumentKind::Text)
}

/// Returns the row of `declare_dependency`.
pub fn declare_dependency_row() -> Row
    ensures { row_data result ≡ declare_dependency_row }
{
    Row::of(&[], 0, &[DECLARE_DEPENDENCY])
}

/// Returns the row of `find_program`.
pub fn find_program_row() -> Row
    ensures { row_data result ≡ find_program_row }
{
    Row::of(&[ArgumentKind::Text], 1, &[FINDING]).with_others(ArgumentKind::Text)
}

/// Returns the row of `install_headers`.
pub fn install_headers_row() -> Row
    ensures { row_data result ≡ install_headers_row }
{
    Row::of(&[], 0, &[INSTALL_HEADERS]).with_others(ArgumentKind::Flat(Piece::Path))
}

/// Returns the row of `install_data`.
pub fn install_data_row() -> Row
    ensures { row_data result ≡ install_data_row }
{
    Row::of(&[], 0, &[INSTALL_FILES]).with_others(ArgumentKind::Flat(Piece::Path))
}

/// Returns the row of `install_man`.
pub fn install_man_row() -> Row
    ensures { row_data result ≡ install_man_row }
{
    Row::of(&[], 0, &[INSTALL_FILES]).with_others(ArgumentKind::Flat(Piece::Path))
}

/// Returns the row of `test`.
pub fn test_row() -> Row
    ensures { row_data result ≡ test_row }
{
    Row::of(&[ArgumentKind::Text, ArgumentKind::Command], 2, &[TEST])
}
