//! Works with lists of texts.

ghost use Rattle.std.specs.Prelude.{◌≡◌, IfOk, map};
ghost use Rattle.support.specs.Among.{is_among};
ghost use Rattle.support.specs.Texts.{texts};

use std::alloc::{AllocError, Global};

/// Returns whether a text is one of these names. The time is linear in their number.
pub fn is_among(names: &[&str], text: &str) -> bool
    ensures { result ≡ is_among (map (λ name. name.now) names.now) text.now }
{
    names.iter().any(|name| text == *name)
}

/// Returns copies of the texts as strings.
pub fn strings(alloc: Global, parts: &[&str]) -> Result<Vec<String>, AllocError>
    ensures { IfOk result (λ v. texts v.items ≡ map (λ p. p.now) parts.now) }
{
    let mut strings = Vec::new(alloc);
    for part in parts {
        strings.push(String::from_str(alloc, part)?)?;
    }
    Ok(strings)
}

/// Returns copies of the strings.
pub fn copies(alloc: Global, strings: &[String]) -> Result<Vec<String>, AllocError>
    ensures { IfOk result (λ v. texts v.items ≡ texts strings.now) }
{
    let mut copies = Vec::new(alloc);
    for string in strings {
        copies.push(String::from_str(alloc, string.as_str())?)?;
    }
    Ok(copies)
}
