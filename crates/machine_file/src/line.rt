//! Reads the forms of the lines of a machine file.

ghost use Rattle.std.specs.Prelude.{◌≡◌};
ghost use Rattle.std.specs.Option.{option_map};
ghost use Rattle.machine_file.specs.Files.{cut_pair};
ghost use Rattle.machine_file.specs.Lines.{form_of};
ghost use Rattle.machine_file.specs.View.{form_in};

use crate::section::SectionKind;
use crate::text::{Blanks, before_last_byte, cut_first, cut_last, trim};

/// Names the form of a line, without blanks at its ends.
#[derive(Clone, Copy)]
pub enum LineForm<'a> {
    /// An empty line or a comment.
    Nothing,
    /// `[name]`
    Header(&'a str),
    /// A line that must be a key with its value.
    Pair(&'a str),
}

/// Returns the form of a line.
pub fn form_of(line: &str) -> LineForm<'_>
    ensures { form_in result ≡ form_of line.now }
{
    let bytes = line.as_bytes();
    if bytes.is_empty() || bytes[0] == b'#' {
        return LineForm::Nothing;
    }
    match line.strip_prefix('[') {
        Some(rest) => match before_last_byte(rest, ']') {
            Some(name) => LineForm::Header(name),
            None => LineForm::Pair(line),
        },
        None => LineForm::Pair(line),
    }
}

/// Returns a key and its value, without blanks at their ends. The kind of section decides at which `=` they are cut. Returns `None` if
/// there is no `=`.
pub fn cut_pair(kind: SectionKind, text: &str) -> Option<(&str, &str)>
    ensures { option_map (λ parts. (parts.0.now, parts.1.now)) result ≡ cut_pair kind text.now }
{
    let parts = if kind.cuts_last() {
        cut_last(text, '=')
    } else {
        cut_first(text, '=')
    };
    let (key, value) = parts?;
    Some((trim(Blanks::All, key), trim(Blanks::All, value)))
}
