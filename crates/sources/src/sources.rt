//! Finds the sources that a call names.
ghost use Rattle.std.specs.Prelude.{◌≡◌, ◌++◌, IfOk, None, codes, nat_eq, map, option_map, if◌then◌else◌};
ghost use Rattle.std.specs.List.{ends_with};
ghost use Rattle.arguments.specs.Each.{each_said};
ghost use Rattle.arguments.specs.Stops.{Says};
ghost use Rattle.arguments.specs.declared.rule.Rule.TheVariants as rules;
ghost use Rattle.values.specs.Prelude.{data_of};
ghost use Rattle.sources.specs.Sources.{ends_in, ends_in_name, of_object, source_of, sources_of, tree};
ghost use Rattle.support.specs.paths.Paths.{tree_path};
ghost use Rattle.sources.specs.SourcesView.{named_view, named_views};
ghost use Rattle.sources.specs.Unnamed.{named_by};

use crate::refusals::refuse_unnamed;
use arguments::{CallStop, Rule};
use std::alloc::{AllocError, Global};
use support::paths::tree_path;
use values::{Object, Text, Value};

/// Holds a source as a call names it.
#[derive(Drop)]
pub enum NamedSource {
    /// A file in the source directory, by its path there.
    Tree(String),
    /// A file that is made while the definition files are evaluated, by its path in the build directory.
    Built(Text),
    /// All outputs of the custom target with this number.
    Outputs(usize),
    /// One output of a custom target.
    Output { target: usize, place: usize },
}

fn of_object(alloc: Global, object: &Object) -> Result<Option<NamedSource>, AllocError>
    ensures { IfOk result (λ s. option_map named_view s ≡ of_object object.now) }
{
    match object {
        Object::File { path, is_built } => {
            if *is_built {
                Ok(Some(NamedSource::Built(path.clone()?)))
            } else {
                Ok(Some(NamedSource::Tree(String::from_str(alloc, path.as_str())?)))
            }
        }
        Object::CustomTarget { number, .. } => Ok(Some(NamedSource::Outputs(*number))),
        Object::CustomOutput { target, output } => Ok(Some(NamedSource::Output {
            target: *target,
            place: *output,
        })),
        _ => Ok(None),
    }
}

// Returns whether a text ends with another.
#[tactic(auto, using(std::proofs::lemmas::Str::Pattern::ends_text))]
fn ends_with(text: &str, end: &str) -> bool
    ensures { result ≡ ends_with nat_eq text.now end.now }
{
    text.ends_with(end)
}

// Returns whether `part` is the whole text, or its last part after a slash. `end` is a slash followed by `part`.
fn ends_in(text: &str, part: &str, end: &str) -> bool
    requires { end.now ≡ codes "/" ++ part.now }
    ensures { result ≡ ends_in text.now part.now }
{
    text == part || ends_with(text, end)
}

// Returns whether the last part of a text is a name.
fn ends_in_name(text: &str) -> bool
    ensures { result ≡ ends_in_name text.now }
{
    !(ends_in(text, "", "/") || (ends_in(text, ".", "/.") || ends_in(text, "..", "/..")))
}

fn of_text(
    alloc: Global,
    source_root: &str,
    folder: &str,
    text: &str,
) -> Result<Option<NamedSource>, AllocError>
    ensures { IfOk result (λ s. option_map named_view s
        ≡ (if ends_in_name text.now then option_map tree (tree_path source_root.now folder.now text.now) else None)) }
{
    if !ends_in_name(text) {
        return Ok(None);
    }
    match tree_path(alloc, source_root, folder, text)? {
        Some(path) => Ok(Some(NamedSource::Tree(path))),
        None => Ok(None),
    }
}

// Returns the source that a value names, and `None` if it names none.
fn source_of(
    alloc: Global,
    source_root: &str,
    folder: &str,
    value: &Value,
) -> Result<Option<NamedSource>, AllocError>
    ensures { IfOk result (λ s. option_map named_view s ≡ source_of source_root.now folder.now (data_of value.now)) }
{
    match value {
        Value::Text(text) => of_text(alloc, source_root, folder, text.as_str()),
        Value::Object(object) => of_object(alloc, object),
        _ => Ok(None),
    }
}

// Appends the sources that values name, up to the first value that names none.
fn push_sources(
    alloc: Global,
    source_root: &str,
    folder: &str,
    values: &[&Value],
    sources: &mut Vec<NamedSource>,
) -> Result<(), CallStop>
    ensures { Says (λ _. named_views sources.new)
        (each_said (named_by rules.NamesFile (source_of source_root.now folder.now)) (named_views sources.old)
        (map (λ v. data_of v.now) values.now)) result }
{
    for value in values {
        let Some(source) = source_of(alloc, source_root, folder, value)? else {
            return Err(refuse_unnamed(alloc, Rule::NamesFile, value)?.into());
        };
        sources.push(source)?;
    }
    Ok(())
}

/// Returns the sources that values name, in order, in a definition file of a folder. The lists in the values are already flattened.
///
/// `Rule::NamesFile` is broken by a value that is no text, file, custom target or output of one, and by a text that names no file in the
/// source directory.
pub fn sources_of(
    alloc: Global,
    source_root: &str,
    folder: &str,
    values: &[&Value],
) -> Result<Vec<NamedSource>, CallStop>
    ensures { Says named_views (sources_of source_root.now folder.now (map (λ v. data_of v.now) values.now)) result }
{
    let mut sources = Vec::with_capacity(alloc, values.len())?;
    push_sources(alloc, source_root, folder, values, &mut sources)?;
    Ok(sources)
}
