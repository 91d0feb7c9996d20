//! Finds the values of placeholders.
ghost use Rattle.std.specs.Prelude.{◌≡◌, IfOk, codes, option_map, string_bytes, slice_get};
ghost use Rattle.std.specs.List.{list_all};
ghost use Rattle.std.specs.Char.{is_ascii_digit};
ghost use Rattle.std.specs.Str.Parse.{IsNumeral, digits_value};
ghost use Rattle.build.specs.edge.Texts.{texts};
ghost use Rattle.support.specs.paths.Names.{plain_name as plain_of, base_name as base_of};
ghost use Rattle.sources.specs.Holes.{means_if, only_of, first_of, is_number, meaning_of_number, numbered_if, rest_after};
ghost use Rattle.sources.specs.Holes.{numbered_name};
ghost use Rattle.sources.specs.Holes.{stays, with_p, place_name, file_name, meaning_of_name};
ghost use Rattle.sources.specs.HolesView.{place_view, meaning_view};

use build::edge::{build_folder, source_folder, source_root};
use std::alloc::{AllocError, Global};
use support::paths::{base_name, plain_name};

/// Says which text of a custom target has the placeholders, which decides which of them are known.
#[derive(Clone, Copy)]
pub enum PlaceholderScope {
    /// In the command.
    Command,
    /// In the name of an output, or of the depfile.
    FileName,
}

/// Holds the values that the placeholders of a custom target refer to, by reference. No path is made before a text needs it.
#[derive(Clone, Copy)]
pub struct PlaceholderValues<'p> {
    /// Paths relative to the build directory, like all of these.
    pub inputs: &'p [String],
    pub outputs: &'p [String],
    pub depfile: Option<&'p str>,
    /// The folder of the definition file, `""` for the root.
    pub folder: &'p str,
    /// How many levels the build directory is below the source root.
    pub depth: usize,
}

/// Says what a name between two `@` is replaced by.
#[derive(Drop)]
pub enum PlaceholderValue<'p> {
    /// It is no placeholder.
    Stays,
    /// It is a placeholder without a value in this call (E9).
    Refused,
    /// It is replaced by one of the lent texts.
    Lent(&'p str),
    /// It is replaced by a text that is made for it.
    Made(String),
}

fn means_if(text: Option<&str>) -> PlaceholderValue<'_>
    ensures { meaning_view result ≡ means_if (option_map (λ s. s.now) text.entry) }
{
    match text {
        None => PlaceholderValue::Refused,
        Some(text) => PlaceholderValue::Lent(text),
    }
}

fn only_of(paths: &[String]) -> Option<&str>
    ensures { option_map (λ s. s.now) result ≡ only_of (texts paths.now) }
{
    match paths {
        [path] => Some(path.as_str()),
        _ => None,
    }
}

// ---- numbers

fn are_digits(text: &str) -> bool
    ensures { result ≡ list_all is_ascii_digit text.now }
{
    text.as_bytes().iter().all(|byte| byte.is_ascii_digit())
}

/// Returns whether a text is at least one digit and nothing else.
pub(crate) fn is_number(text: &str) -> bool
    ensures { result ≡ is_number text.now }
{
    !text.is_empty() && are_digits(text)
}

fn string_at<'p>(paths: &'p [String], digits: &str) -> Option<&'p String>
    requires { IsNumeral 10 digits.now }
    ensures { option_map (λ s. string_bytes s.now) result ≡ slice_get (texts paths.now) (digits_value 10 digits.now) }
{
    match digits.parse::<usize>() {
        Ok(number) => paths.get(number),
        Err(_) => None,
    }
}

fn path_at<'p>(paths: &'p [String], digits: &str) -> Option<&'p str>
    requires { IsNumeral 10 digits.now }
    ensures { option_map (λ s. s.now) result ≡ slice_get (texts paths.now) (digits_value 10 digits.now) }
{
    match string_at(paths, digits) {
        Some(path) => Some(path.as_str()),
        None => None,
    }
}

fn take_numbered<'p>(paths: &'p [String], digits: &str) -> PlaceholderValue<'p>
    ensures { meaning_view result ≡ meaning_of_number (texts paths.now) digits.now }
{
    if is_number(digits) {
        means_if(path_at(paths, digits))
    } else {
        PlaceholderValue::Stays
    }
}

// Returns the text after a prefix, and `None` if the text does not begin with it.
fn rest_after<'a>(front: &str, text: &'a str) -> Option<&'a str>
    ensures { option_map (λ s. s.now) result ≡ rest_after front.now text.now }
{
    text.strip_prefix(front)
}

fn numbered_output<'p>(place: &PlaceholderValues<'p>, name: &str) -> PlaceholderValue<'p>
    ensures { meaning_view result ≡ numbered_if (place_view place.now).outputs (rest_after (codes "OUTPUT") name.now) stays }
{
    match rest_after("OUTPUT", name) {
        Some(digits) => take_numbered(place.outputs, digits),
        None => PlaceholderValue::Stays,
    }
}

fn numbered_name<'p>(place: &PlaceholderValues<'p>, name: &str) -> PlaceholderValue<'p>
    ensures { meaning_view result ≡ numbered_name (place_view place.now) name.now }
{
    match rest_after("INPUT", name) {
        Some(digits) => take_numbered(place.inputs, digits),
        None => numbered_output(place, name),
    }
}

// ---- names

fn private_folder(alloc: Global, outputs: &[String]) -> Result<PlaceholderValue<'_>, AllocError>
    ensures { IfOk result (λ m. meaning_view m ≡ means_if (option_map with_p (first_of (texts outputs.now)))) }
{
    match outputs {
        [] => Ok(PlaceholderValue::Refused),
        [output, ..] => Ok(PlaceholderValue::Made(format!(in alloc; "{output}.p")?)),
    }
}

fn place_name<'p>(
    alloc: Global,
    place: &PlaceholderValues<'p>,
    name: &str,
) -> Result<PlaceholderValue<'p>, AllocError>
    ensures { IfOk result (λ m. meaning_view m ≡ place_name (place_view place.now) name.now) }
{
    match name {
        "OUTDIR" => Ok(PlaceholderValue::Lent(build_folder(place.folder))),
        "SOURCE_ROOT" => Ok(PlaceholderValue::Made(source_root(alloc, place.depth)?)),
        "BUILD_ROOT" => Ok(PlaceholderValue::Lent(".")),
        "CURRENT_SOURCE_DIR" => {
            let folder = source_folder(alloc, place.depth, place.folder)?;
            Ok(PlaceholderValue::Made(folder))
        }
        "PRIVATE_DIR" => private_folder(alloc, place.outputs),
        "DEPFILE" => Ok(means_if(place.depfile)),
        _ => Ok(numbered_name(place, name)),
    }
}

fn file_name<'p>(
    alloc: Global,
    place: &PlaceholderValues<'p>,
    name: &str,
) -> Result<PlaceholderValue<'p>, AllocError>
    ensures { IfOk result (λ m. meaning_view m ≡ file_name (place_view place.now) name.now) }
{
    match name {
        "INPUT" => Ok(means_if(only_of(place.inputs))),
        "OUTPUT" => Ok(means_if(only_of(place.outputs))),
        _ => place_name(alloc, place, name),
    }
}

fn plain_name_of(inputs: &[String]) -> PlaceholderValue<'_>
    ensures { meaning_view result ≡ means_if (option_map plain_of (only_of (texts inputs.now))) }
{
    match inputs {
        [input] => PlaceholderValue::Lent(plain_name(input)),
        _ => PlaceholderValue::Refused,
    }
}

fn base_name_of(alloc: Global, inputs: &[String]) -> Result<PlaceholderValue<'_>, AllocError>
    ensures { IfOk result (λ m. meaning_view m ≡ means_if (option_map base_of (only_of (texts inputs.now)))) }
{
    match inputs {
        [input] => Ok(PlaceholderValue::Made(base_name(alloc, input)?)),
        _ => Ok(PlaceholderValue::Refused),
    }
}

/// Returns what a name between two `@` is replaced by.
pub fn meaning_of<'p>(
    alloc: Global,
    scope: PlaceholderScope,
    place: &PlaceholderValues<'p>,
    name: &str,
) -> Result<PlaceholderValue<'p>, AllocError>
    ensures { IfOk result (λ m. meaning_view m ≡ meaning_of_name scope (place_view place.now) name.now) }
{
    match (name, scope) {
        ("PLAINNAME", _) => Ok(plain_name_of(place.inputs)),
        ("BASENAME", _) => base_name_of(alloc, place.inputs),
        (_, PlaceholderScope::Command) => file_name(alloc, place, name),
        (_, PlaceholderScope::FileName) => Ok(PlaceholderValue::Stays),
    }
}
