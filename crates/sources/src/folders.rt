//! Finds the directories that the keyword `include_directories` names.
ghost use Rattle.std.specs.Prelude.{◌≡◌, ◌++◌, IfOk, None, Some, map, option_map, string_bytes, if◌then◌else◌};
ghost use Rattle.arguments.specs.Each.{all_said};
ghost use Rattle.arguments.specs.Stops.{Says};
ghost use Rattle.arguments.specs.declared.rule.Rule.TheVariants as rules;
ghost use Rattle.values.specs.Prelude.{data_of};
ghost use Rattle.support.specs.paths.Folder.{strings_of};
ghost use Rattle.support.specs.paths.Paths.{folder_path};
ghost use Rattle.sources.specs.Folders.{folders_in, folders_of, of_object, one_path};
ghost use Rattle.sources.specs.Unnamed.{named_by};

use crate::refusals::refuse_unnamed;
use arguments::{CallStop, Rule};
use std::alloc::{AllocError, Global};
use support::paths::folder_path;
use values::{Object, Value, push_strings};

// Appends the directories of an object, and returns whether the object has any.
fn push_of_object(
    alloc: Global,
    paths: &mut Vec<String>,
    object: &Object,
) -> Result<bool, AllocError>
    ensures { IfOk result (λ is_named. (if is_named then Some (strings_of paths.new) else None)
        ≡ option_map (λ more. strings_of paths.old ++ more) (of_object object.now)) }
{
    match object {
        Object::IncludeDirectories(folders) => {
            push_strings(alloc, paths, folders.as_slice())?;
            Ok(true)
        }
        _ => Ok(false),
    }
}

// Appends a path if there is one, and returns whether there is.
fn push_path(paths: &mut Vec<String>, path: Option<String>) -> Result<bool, AllocError>
    ensures { IfOk result (λ is_named. (if is_named then Some (strings_of paths.new) else None)
        ≡ option_map (λ more. strings_of paths.old ++ more) (one_path (option_map string_bytes path))) }
{
    match path {
        None => Ok(false),
        Some(path) => {
            paths.push(path)?;
            Ok(true)
        }
    }
}

// Appends the directories that a value names, and returns whether it names any.
fn push_folders_in(
    alloc: Global,
    source_root: &str,
    folder: &str,
    value: &Value,
    paths: &mut Vec<String>,
) -> Result<bool, AllocError>
    ensures { IfOk result (λ is_named. (if is_named then Some (strings_of paths.new) else None)
        ≡ option_map (λ more. strings_of paths.old ++ more) (folders_in source_root.now folder.now (data_of value.now))) }
{
    match value {
        Value::Text(text) => {
            let path = folder_path(alloc, source_root, folder, text.as_str())?;
            push_path(paths, path)
        }
        Value::Object(object) => push_of_object(alloc, paths, object),
        _ => Ok(false),
    }
}

// Appends the directories that values name, up to the first value that names none.
fn push_folders_of(
    alloc: Global,
    source_root: &str,
    folder: &str,
    values: &[&Value],
    paths: &mut Vec<String>,
) -> Result<(), CallStop>
    ensures { Says (λ _. strings_of paths.new)
        (all_said (named_by rules.NamesFolder (folders_in source_root.now folder.now)) (strings_of paths.old)
        (map (λ v. data_of v.now) values.now)) result }
{
    for value in values {
        if !push_folders_in(alloc, source_root, folder, value, paths)? {
            return Err(refuse_unnamed(alloc, Rule::NamesFolder, value)?.into());
        }
    }
    Ok(())
}

/// Returns the paths of the directories that values name, in a definition file of a folder, which is empty for the root. The lists in the
/// values are already flattened.
///
/// `Rule::NamesFolder` is broken by a value that is neither a text nor an object of `include_directories`, and by a text that leads out of
/// the source directory.
pub fn folders_of(
    alloc: Global,
    source_root: &str,
    folder: &str,
    values: &[&Value],
) -> Result<Vec<String>, CallStop>
    ensures { Says strings_of (folders_of source_root.now folder.now (map (λ v. data_of v.now) values.now)) result }
{
    let mut paths = Vec::new(alloc);
    push_folders_of(alloc, source_root, folder, values, &mut paths)?;
    Ok(paths)
}
