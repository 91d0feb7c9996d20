//! Defines the rows of the methods of the compiler: the arguments that each takes.
ghost use Rattle.std.specs.Prelude.{◌≡◌};
ghost use Rattle.arguments.specs.RowView.{row_data};
ghost use Rattle.methods.specs.CompilerRows.{row_of};

use arguments::{ArgumentKind, Keyword, Row};
use values::language_names::CompilerMethod;

// The keywords of all methods that check something.
const ASKING: &[Keyword] = &[
    Keyword::Optional("prefix", ArgumentKind::Any),
    Keyword::Optional("dependencies", ArgumentKind::Any),
    Keyword::Optional("args", ArgumentKind::Any),
    Keyword::Optional("include_directories", ArgumentKind::Any),
    Keyword::Optional("dirs", ArgumentKind::Any),
];

const REQUIRED: &[Keyword] = &[Keyword::Optional("required", ArgumentKind::Requirement)];

/// Returns the arguments that a method takes.
pub fn row(method: CompilerMethod) -> Row
    ensures { row_data result ≡ row_of method }
{
    match method {
        CompilerMethod::Check => Row::of(&[ArgumentKind::Text], 1, &[ASKING, REQUIRED]),
        CompilerMethod::CheckInside => {
            Row::of(
                &[ArgumentKind::Text, ArgumentKind::Text],
                2,
                &[ASKING, REQUIRED],
            )
        }
        CompilerMethod::FindLibrary => Row::of(&[ArgumentKind::Text], 1, &[ASKING, REQUIRED]),
        CompilerMethod::Id => Row::of(&[], 0, &[]),
        CompilerMethod::Number => Row::of(&[ArgumentKind::Text], 1, &[ASKING]),
        CompilerMethod::SupportedArguments => Row::of(&[], 0, &[ASKING]).with_others(
            ArgumentKind::Texts,
        ),
        CompilerMethod::Version => Row::of(&[], 0, &[]),
    }
}
