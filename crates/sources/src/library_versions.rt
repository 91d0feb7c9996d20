//! Checks the keyword `version` of a shared library.
ghost use Rattle.std.specs.Prelude.{◌≡◌, IfOk, map, ◌==◌};
ghost use Rattle.std.specs.List.{list_all, slice_split};
ghost use Rattle.sources.specs.Versions.{are_numbers, is_library_version, is_number};

use crate::placeholders::is_number;
use std::alloc::{AllocError, Global};

fn all_numbers(parts: &[&str]) -> bool
    ensures { result ≡ list_all is_number (map (λ p. p.now) parts.now) }
{
    for part in parts {
        if !is_number(part) {
            return false;
        }
    }
    true
}

fn are_numbers(parts: &[&str]) -> bool
    ensures { result ≡ are_numbers (map (λ p. p.now) parts.now) }
{
    parts.len() <= 3 && all_numbers(parts)
}

fn parts_of<'a>(alloc: Global, text: &'a str) -> Result<Vec<&'a str>, AllocError>
    ensures { IfOk result (λ parts. map (λ p. p.now) parts.items ≡ slice_split (λ b. b == 46) text.now) }
{
    text.split('.').collect(alloc)
}

/// Returns whether a text is one to three numbers separated by dots.
pub fn is_library_version(alloc: Global, text: &str) -> Result<bool, AllocError>
    ensures { IfOk result (λ is_so. is_so ≡ is_library_version text.now) }
{
    let parts = parts_of(alloc, text)?;
    Ok(are_numbers(&parts))
}
