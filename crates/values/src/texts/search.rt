//! Searches a text for another.

ghost use Rattle.std.specs.Prelude.{◌≡◌, ◌↔◌, IsTrue, nat_eq};
ghost use Rattle.std.specs.List.{starts_with, ends_with};
ghost use Rattle.std.specs.Str.Iter.{HasSubslice};
ghost use Rattle.values.specs.texts.Search.{contains};

/// Returns whether `text` contains `part`.
pub fn contains(text: &str, part: &str) -> bool
    ensures value { result ≡ contains text.now part.now }
    ensures stands { IsTrue result ↔ HasSubslice text.now part.now }
{
    text.contains(part)
}

/// Returns whether `text` begins with `part`, as the method `startswith` does.
pub fn starts_with(text: &str, part: &str) -> bool
    ensures { result ≡ starts_with nat_eq text.now part.now }
{
    text.starts_with(part)
}

/// Returns whether `text` ends with `part`, as the method `endswith` does.
pub fn ends_with(text: &str, part: &str) -> bool
    ensures { result ≡ ends_with nat_eq text.now part.now }
{
    text.ends_with(part)
}
