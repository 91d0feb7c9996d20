//! Replaces characters of a text by others.

ghost use Rattle.std.specs.Prelude.{◌≡◌, IfOk, map, string_bytes};
ghost use Rattle.std.specs.Char.{to_ascii_lowercase, to_ascii_uppercase};
ghost use Rattle.values.specs.texts.Letters.{underscored_character, underscorified_text};

use std::alloc::{AllocError, Global};

/// Returns the text with ASCII letters in lower case.
pub fn to_lower(alloc: Global, text: &str) -> Result<String, AllocError>
    ensures { IfOk result (λ s. string_bytes s ≡ map to_ascii_lowercase text.now) }
{
    text.to_ascii_lowercase(alloc)
}

/// Returns the text with ASCII letters in upper case.
pub fn to_upper(alloc: Global, text: &str) -> Result<String, AllocError>
    ensures { IfOk result (λ s. string_bytes s ≡ map to_ascii_uppercase text.now) }
{
    text.to_ascii_uppercase(alloc)
}

/// Returns the text with one `_` in place of each character that is neither an ASCII letter nor an ASCII digit.
pub fn underscorify(alloc: Global, text: &str) -> Result<String, AllocError>
    ensures { IfOk result (λ s. string_bytes s ≡ underscorified_text text.now) }
{
    text.chars().map(underscore).collect(alloc)
}

fn underscore(c: char) -> char
    ensures { result ≡ underscored_character c }
{
    if c.is_ascii_alphanumeric() { c } else { '_' }
}
