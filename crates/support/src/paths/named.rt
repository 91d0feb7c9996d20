//! Resolves the paths that texts of a definition file name.
ghost use Rattle.std.specs.Prelude.{◌≡◌, ◌++◌, ◌||◌, not, IfOk, map, None, Some, option_map, option_copied, string_bytes, codes, []};
ghost use Rattle.std.specs.Prelude.{if◌then◌else◌};
ghost use Rattle.std.specs.List.{join_with_byte, list_all};
ghost use Rattle.std.specs.Str.{bytes_eq};
ghost use Rattle.support.specs.paths.Folder.{folder_of};
ghost use Rattle.support.specs.paths.Paths.{follow_part, follow_parts, folder_below, folder_named, folder_path, from_root};
ghost use Rattle.support.specs.paths.Paths.{is_below, leads_down, path_of_parts, parts_of, path_in, rest_after, tree_path};

use crate::paths::below::is_absolute;
use std::alloc::{AllocError, Global};

// Returns the text after the source root and a slash, and `None` if the text does not begin with them.
fn below_root<'a>(source_root: &str, text: &'a str) -> Option<&'a str>
    ensures { option_copied result ≡ rest_after (source_root.now ++ codes "/") text.now }
{
    text.strip_prefix(source_root)?.strip_prefix("/")
}

// Returns a folder and a name with a slash between them.
fn below(alloc: Global, folder: &str, name: &str) -> Result<String, AllocError>
    ensures { IfOk result (λ path. string_bytes path ≡ folder.now ++ (codes "/" ++ name.now)) }
{
    let room = folder.len().saturating_add(name.len()).saturating_add(1);
    let mut path = String::with_capacity(alloc, room)?;
    path.push_str(folder)?;
    path.push_str("/")?;
    path.push_str(name)?;
    Ok(path)
}

/// Returns the path of a name in a folder, which is empty for the root.
pub fn path_in(alloc: Global, folder: &str, name: &str) -> Result<String, AllocError>
    ensures { IfOk result (λ path. string_bytes path ≡ path_in folder.now name.now) }
{
    if folder.is_empty() {
        String::from_str(alloc, name)
    } else {
        below(alloc, folder, name)
    }
}

// Returns a text of a definition file in the folder as a path relative to the source root.
fn from_root(
    alloc: Global,
    source_root: &str,
    folder: &str,
    text: &str,
) -> Result<Option<String>, AllocError>
    ensures { IfOk result (λ path. option_map string_bytes path ≡ from_root source_root.now folder.now text.now) }
{
    if is_absolute(text) {
        match below_root(source_root, text) {
            Some(rest) => Ok(Some(String::from_str(alloc, rest)?)),
            None => Ok(None),
        }
    } else {
        Ok(Some(path_in(alloc, folder, text)?))
    }
}

// Follows one part, and returns false if it leads above the root.
fn follow<'a>(folder: &mut Vec<&'a str>, part: &'a str) -> Result<bool, AllocError>
    ensures { IfOk result (λ inside. follow_part (folder_of folder.old) part.now ≡ (if inside then Some (folder_of folder.new) else None)) }
{
    match part {
        "" | "." => Ok(true),
        ".." => Ok(folder.pop().is_some()),
        _ => {
            folder.push(part)?;
            Ok(true)
        }
    }
}

// Returns the parts of the resolved path from the root, and `None` if one leads above it.
fn follow_parts(alloc: Global, text: &str) -> Result<Option<Vec<&str>>, AllocError>
    ensures { IfOk result (λ folder. option_map folder_of folder ≡ follow_parts [] (parts_of text.now)) }
{
    let mut folder = Vec::new(alloc);
    for part in text.split('/') {
        if !follow(&mut folder, part)? {
            return Ok(None);
        }
    }
    Ok(Some(folder))
}

/// Returns the parts joined by slashes.
pub fn join_parts(alloc: Global, parts: &[&str]) -> Result<String, AllocError>
    ensures { IfOk result (λ path. string_bytes path ≡ join_with_byte 47 (map (λ part. part.now) parts.now)) }
{
    let mut path = String::new(alloc);
    for (i, part) in parts.iter().enumerate() {
        if i > 0 {
            path.push_str("/")?;
        }
        path.push_str(part)?;
    }
    Ok(path)
}

// Returns the resolved path of a text that is relative to the root. It is empty for the root itself.
fn clean(alloc: Global, text: &str) -> Result<Option<String>, AllocError>
    ensures { IfOk result (λ path. option_map string_bytes path ≡ folder_named (follow_parts [] (parts_of text.now))) }
{
    match follow_parts(alloc, text)? {
        Some(parts) => Ok(Some(join_parts(alloc, &parts)?)),
        None => Ok(None),
    }
}

// Returns the resolved path of a text that is relative to the root, and `None` for the root itself.
fn clean_name(alloc: Global, text: &str) -> Result<Option<String>, AllocError>
    ensures { IfOk result (λ path. option_map string_bytes path ≡ path_of_parts (follow_parts [] (parts_of text.now))) }
{
    match follow_parts(alloc, text)? {
        Some(parts) if !parts.is_empty() => Ok(Some(join_parts(alloc, &parts)?)),
        _ => Ok(None),
    }
}

// Returns whether a part of a path is kept by resolving it.
fn stays(part: &str) -> bool
    ensures { result ≡ not (bytes_eq part.now [] || (bytes_eq part.now (codes ".") || bytes_eq part.now (codes ".."))) }
{
    !matches!(part, "" | "." | "..")
}

// Returns whether all parts of a text are kept, so that the text is already resolved.
fn is_path(text: &str) -> bool
    ensures { result ≡ list_all (λ part. not (bytes_eq part [] || (bytes_eq part (codes ".") || bytes_eq part (codes ".."))))
        (parts_of text.now) }
{
    text.split('/').all(|part| stays(part))
}

// Returns the resolved path of a text that is relative to the root, and `None` for the root itself. A resolved text is returned as it is.
fn named_path(alloc: Global, text: String) -> Result<Option<String>, AllocError>
    ensures { IfOk result (λ path. option_map string_bytes path ≡ path_of_parts (follow_parts [] (parts_of (string_bytes text)))) }
{
    if is_path(text.as_str()) {
        Ok(Some(text))
    } else {
        clean_name(alloc, text.as_str())
    }
}

/// Returns the path of the folder that a text names, in a definition file of a folder, without `.` and `..`. The path is empty for the
/// root.
///
/// Returns `None` if the text leads above the root, or is absolute and not below the source root.
pub fn folder_path(
    alloc: Global,
    source_root: &str,
    folder: &str,
    text: &str,
) -> Result<Option<String>, AllocError>
    ensures { IfOk result (λ path. option_map string_bytes path ≡ folder_path source_root.now folder.now text.now) }
{
    match from_root(alloc, source_root, folder, text)? {
        Some(text) => clean(alloc, text.as_str()),
        None => Ok(None),
    }
}

// Returns whether no part of a path is `..`.
fn leads_down(text: &str) -> bool
    ensures { result ≡ leads_down text.now }
{
    !text.split('/').any(|part| ".." == part)
}

// Returns whether a text may name a folder below that of its definition file.
fn is_below(text: &str) -> bool
    ensures { result ≡ is_below text.now }
{
    text != "" && !is_absolute(text) && leads_down(text)
}

/// Returns the path of the folder below a folder that a text names, and `None` if the text is empty, absolute or has a part `..`.
pub fn folder_below(alloc: Global, folder: &str, text: &str) -> Result<Option<String>, AllocError>
    ensures { IfOk result (λ path. option_map string_bytes path ≡ folder_below folder.now text.now) }
{
    if is_below(text) {
        let path = path_in(alloc, folder, text)?;
        clean(alloc, path.as_str())
    } else {
        Ok(None)
    }
}

/// Returns the path relative to the source root of the file that a text names, in a definition file of a folder. Returns `None` if
/// `folder_path` does, or if the text names the root itself.
pub fn tree_path(
    alloc: Global,
    source_root: &str,
    folder: &str,
    text: &str,
) -> Result<Option<String>, AllocError>
    ensures { IfOk result (λ path. option_map string_bytes path ≡ tree_path source_root.now folder.now text.now) }
{
    match from_root(alloc, source_root, folder, text)? {
        Some(text) => named_path(alloc, text),
        None => Ok(None),
    }
}
