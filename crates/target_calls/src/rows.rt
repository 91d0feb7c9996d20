//! Defines the rows of the functions: the arguments that each takes.
ghost use Rattle.std.specs.Prelude.{◌≡◌};
ghost use Rattle.arguments.specs.RowView.{row_data};
ghost use Rattle.target_calls.specs.Rows.{custom_target_row, files_row, include_directories_row, project_words_row};
ghost use Rattle.target_calls.specs.Rows.{shared_library_row, target_row};

use arguments::{ArgumentKind, Keyword, Piece, Row};

const IS_SYSTEM: &[Keyword] = &[Keyword::Optional("is_system", ArgumentKind::Any)];

const LANGUAGE: &[Keyword] = &[Keyword::Needed("language", ArgumentKind::Texts)];

// The keywords of all build targets.
const TARGET: &[Keyword] = &[
    Keyword::Optional("sources", ArgumentKind::Flat(Piece::Source)),
    Keyword::Optional("include_directories", ArgumentKind::Flat(Piece::Folder)),
    Keyword::Optional("c_args", ArgumentKind::Texts),
    Keyword::Optional("link_args", ArgumentKind::Texts),
    Keyword::Optional("link_with", ArgumentKind::Flat(Piece::BuildTarget)),
    Keyword::Optional("dependencies", ArgumentKind::Flat(Piece::Dependency)),
    Keyword::Optional("install", ArgumentKind::Boolean),
    Keyword::Optional("install_dir", ArgumentKind::Text),
    Keyword::Optional("build_by_default", ArgumentKind::Boolean),
];

// The further keywords of a shared library.
const VERSION: &[Keyword] = &[
    Keyword::Optional("version", ArgumentKind::Text),
    Keyword::Optional("soversion", ArgumentKind::IntegerOrText),
];

const CUSTOM_TARGET: &[Keyword] = &[
    Keyword::Needed("output", ArgumentKind::Texts),
    Keyword::Needed("command", ArgumentKind::Flat(Piece::CommandWord)),
    Keyword::Optional("input", ArgumentKind::Flat(Piece::Source)),
    Keyword::Optional("depend_files", ArgumentKind::Flat(Piece::Source)),
    Keyword::Optional("depends", ArgumentKind::Flat(Piece::Target)),
    Keyword::Optional("capture", ArgumentKind::Boolean),
    Keyword::Optional("depfile", ArgumentKind::Text),
    Keyword::Optional("build_by_default", ArgumentKind::Boolean),
    Keyword::Optional("install", ArgumentKind::Boolean),
    Keyword::Optional("install_dir", ArgumentKind::Text),
];

/// Returns the row of `files`.
pub fn files_row() -> Row
    ensures { row_data result ≡ files_row }
{
    Row::of(&[], 0, &[]).with_others(ArgumentKind::Texts)
}

/// Returns the row of `include_directories`.
pub fn include_directories_row() -> Row
    ensures { row_data result ≡ include_directories_row }
{
    Row::of(&[], 0, &[IS_SYSTEM]).with_others(ArgumentKind::Texts)
}

/// Returns the row of `add_project_arguments` and `add_project_link_arguments`.
pub fn project_words_row() -> Row
    ensures { row_data result ≡ project_words_row }
{
    Row::of(&[], 0, &[LANGUAGE]).with_others(ArgumentKind::Texts)
}

/// Returns the row of `custom_target`.
pub fn custom_target_row() -> Row
    ensures { row_data result ≡ custom_target_row }
{
    Row::of(&[ArgumentKind::Text], 1, &[CUSTOM_TARGET])
}

/// Returns the row of `executable` and `static_library`.
pub fn target_row() -> Row
    ensures { row_data result ≡ target_row }
{
    Row::of(&[ArgumentKind::Text], 1, &[TARGET]).with_others(ArgumentKind::Flat(Piece::Source))
}

/// Returns the row of `shared_library` and `library`.
pub fn shared_library_row() -> Row
    ensures { row_data result ≡ shared_library_row }
{
    Row::of(&[ArgumentKind::Text], 1, &[TARGET, VERSION]).with_others(ArgumentKind::Flat(
        Piece::Source,
    ))
}
