//! Checks names of files, and returns the name of a path without its folders and without its ending.
ghost use Rattle.std.specs.Prelude.{◌≡◌, IfOk, string_bytes};
ghost use Rattle.support.specs.paths.Names.{has, has_slash, is_file_name, plain_name, before_dot, are_dots, without_ending, base_name};

use std::alloc::{AllocError, Global};

// Returns whether a text contains this byte.
fn has(text: &str, byte: u8) -> bool
    ensures { result ≡ has byte text.now }
{
    text.as_bytes().contains(&byte)
}

/// Returns whether a text contains `/`.
pub fn has_slash(text: &str) -> bool
    ensures { result ≡ has_slash text.now }
{
    has(text, b'/')
}

/// Returns whether a name is valid for a file: it is not empty, `.` or `..`, and has no `/`.
pub fn is_file_name(name: &str) -> bool
    ensures { result ≡ is_file_name name.now }
{
    !matches!(name, "" | "." | "..") && !has_slash(name)
}

/// Returns the text after the last `/`.
pub fn plain_name(path: &str) -> &str
    ensures { result.now ≡ plain_name path.now }
{
    let mut name = path;
    while let Some((_folder, behind)) = name.split_once('/') {
        name = behind;
    }
    name
}

// Returns the text before the last dot, or all of it if there is none.
fn before_dot(alloc: Global, name: &str) -> Result<String, AllocError>
    ensures { IfOk result (λ s. string_bytes s ≡ before_dot name.now) }
{
    let mut front = String::new(alloc);
    let mut rest = name;
    while let Some((part, behind)) = rest.split_once('.') {
        front.push_str(part)?;
        if !has(behind, b'.') {
            return Ok(front);
        }
        front.push_str(".")?;
        rest = behind;
    }
    front.push_str(rest)?;
    Ok(front)
}

fn are_dots(text: &str) -> bool
    ensures { result ≡ are_dots text.now }
{
    text.as_bytes().iter().all(|byte| *byte == b'.')
}

fn without_ending(alloc: Global, name: &str) -> Result<String, AllocError>
    ensures { IfOk result (λ s. string_bytes s ≡ without_ending name.now) }
{
    let front = before_dot(alloc, name)?;
    if are_dots(&front) {
        String::from_str(alloc, name)
    } else {
        Ok(front)
    }
}

/// Returns the name of the file without its last ending: `a.tar` for `d/a.tar.gz`, and `.x` for `.x`.
pub fn base_name(alloc: Global, path: &str) -> Result<String, AllocError>
    ensures { IfOk result (λ s. string_bytes s ≡ base_name path.now) }
{
    without_ending(alloc, plain_name(path))
}
