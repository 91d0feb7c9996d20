//! Joins two paths, as the operator `/` and `join_paths` do (see `join_paths` on the page "Reference manual").
ghost use Rattle.std.specs.Prelude.{◌≡◌, ◌++◌, ◌≤◌, IfOk, length, string_bytes};
ghost use Rattle.support.specs.paths.Below.{ends_with_slash, is_absolute, path_below};

use std::alloc::{AllocError, Global};

/// Returns what precedes `path` in the joined path: the folder, and `/` unless the folder ends with one. Both are empty if the folder is
/// empty or the path is absolute.
pub fn before_path<'f>(folder: &'f str, path: &str) -> (&'f str, &'static str)
    ensures path { path_below folder.now path.now ≡ result.0.now ++ (result.1.now ++ path.now) }
    ensures slash { length result.1.now ≤ 1 }
{
    if folder.is_empty() || is_absolute(path) {
        ("", "")
    } else if ends_with_slash(folder) {
        (folder, "")
    } else {
        (folder, "/")
    }
}

/// Returns two paths joined, and the second alone if the first is empty or the second is absolute.
pub fn path_below(alloc: Global, folder: &str, path: &str) -> Result<String, AllocError>
    ensures { IfOk result (λ s. string_bytes s ≡ path_below folder.now path.now) }
{
    let (before, slash) = before_path(folder, path);
    let mut text = String::with_capacity(alloc, before.len() + slash.len() + path.len())?;
    text.push_str(before)?;
    text.push_str(slash)?;
    text.push_str(path)?;
    Ok(text)
}

/// Returns whether the path begins with `/`.
pub fn is_absolute(path: &str) -> bool
    ensures { result ≡ is_absolute path.now }
{
    matches!(path.as_bytes(), [b'/', ..])
}

/// Returns whether the text ends with `/`.
pub fn ends_with_slash(text: &str) -> bool
    ensures { result ≡ ends_with_slash text.now }
{
    matches!(text.as_bytes(), [.., b'/'])
}
