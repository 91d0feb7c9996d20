//! Checks the path of the build directory.
ghost use Rattle.std.specs.Prelude.{◌≡◌, ◌≤◌, IfOk, IsTrue, None, Some, if◌then◌else◌, length, map, option_map, string_bytes};
ghost use Rattle.support.specs.paths.Paths.{parts_of};
ghost use Rattle.std.specs.List.{list_any};
ghost use Rattle.std.specs.Option.{ForSome};
ghost use Rattle.support.specs.paths.BuildFolders.{are_below, is_idle, is_tidy_folder, is_upward, leading_parts, tidy_path};
ghost use Rattle.support.specs.paths.BuildFolders.{names_build_folder};

use crate::paths::{is_absolute, join_parts};
use std::alloc::{AllocError, Global};

/// The most parts that the path of a build directory may have.
const MOST_PARTS: usize = 64;

// Returns whether a part of a path leads nowhere.
fn is_idle(part: &str) -> bool
    ensures { result ≡ is_idle part.now }
{
    part.is_empty() || part == "."
}

// Returns whether a part of a path leads out of the directory.
fn is_upward(part: &str) -> bool
    ensures { result ≡ is_upward part.now }
{
    part == ".."
}

// Returns the parts of a path that lead somewhere.
fn leading_parts<'a>(alloc: Global, path: &'a str) -> Result<Vec<&'a str>, AllocError>
    ensures { IfOk result (λ parts. map (λ s. s.now) parts.items ≡ leading_parts path.now) }
{
    path.split('/').filter(|part| !is_idle(part)).collect(alloc)
}

fn has_upward(parts: &[&str]) -> bool
    ensures { result ≡ list_any is_upward (map (λ s. s.now) parts.now) }
{
    parts.iter().any(|part| is_upward(part))
}

// Returns whether these parts lead to a directory below the present one, at most 64 levels deep.
fn are_below(parts: &[&str]) -> bool
    ensures { result ≡ are_below (map (λ s. s.now) parts.now) }
{
    !has_upward(parts) && 1 <= parts.len() && parts.len() <= MOST_PARTS
}

/// Returns the build directory that a path names, without empty parts and `.`. Returns `None` if the path is absolute, has a part `..`, or
/// has no part or more than 64.
pub fn tidy_folder(alloc: Global, path: &str) -> Result<Option<String>, AllocError>
    ensures folder { IfOk result (λ folder. option_map string_bytes folder
        ≡ (if names_build_folder path.now then Some (tidy_path path.now) else None)) }
    ensures tidy { IfOk result (λ folder.
        ForSome folder (λ s. IsTrue (is_tidy_folder (string_bytes s)))) }
{
    let parts = leading_parts(alloc, path)?;
    if is_absolute(path) || !are_below(&parts) {
        return Ok(None);
    }
    Ok(Some(join_parts(alloc, &parts)?))
}

/// Returns how many levels such a directory is below the present one.
pub fn depth_of(folder: &str) -> usize
    requires { IsTrue (is_tidy_folder folder.now) }
    ensures value { result ≡ length (parts_of folder.now) }
    ensures some { 1 ≤ result }
    ensures limit { result ≤ 64 }
{
    folder.split('/').count()
}
