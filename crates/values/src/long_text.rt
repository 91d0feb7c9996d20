//! Stores long texts, and whether all their bytes are ASCII.
ghost use Rattle.std.specs.Prelude.{◌≡◌, ◌++◌, OnOk, OnErr, slice_get, string_bytes};
ghost use Rattle.std.specs.Bool.{OnTrue};
ghost use Rattle.std.specs.Str.{chars, IsAscii};

use std::alloc::AllocError;
use std::marker::Model;

/// Holds the bytes of a text in a string. It knows whether all of them are ASCII, so that a position that counts characters is found in one
/// step.
#[derive(Drop)]
pub(crate) struct Long {
    string: String,
    is_ascii: bool,
}

impl Model for Long {
    ghost use Rattle.std.specs.Prelude.{List, ℕ, string_bytes};
    ghost use Rattle.std.specs.Bool.{OnTrue};
    ghost use Rattle.std.specs.Str.{IsAscii};

    ghost Value = { List ℕ };

    ghost view = { λ l. string_bytes l.string };

    ghost invariant = { λ l. OnTrue l.is_ascii (IsAscii (string_bytes l.string)) };
}

impl Long {
    pub(crate) fn new(string: String) -> Long
        ensures { result ≡ string_bytes string }
    {
        let is_ascii = are_ascii(string.as_bytes());
        Long { string, is_ascii }
    }

    pub(crate) fn as_str(&self) -> &str
        ensures { result.now ≡ self.now }
    {
        self.string.as_str()
    }

    #[inline(always)]
    pub(crate) fn is_ascii(&self) -> bool
        ensures { OnTrue result (IsAscii self.now) }
    {
        self.is_ascii
    }

    /// Appends a piece. If there is no memory, the text is unchanged.
    pub(crate) fn push(&mut self, piece: &str) -> Result<(), AllocError>
        ensures pushed { OnOk result (self.new ≡ self.old ++ piece.now) }
        ensures same { OnErr result (self.new ≡ self.old) }
    {
        let is_ascii = self.is_ascii && are_ascii(piece.as_bytes());
        self.string.push_str(piece)?;
        self.is_ascii = is_ascii;
        Ok(())
    }
}

/// Returns whether all bytes are ASCII.
pub(crate) fn are_ascii(bytes: &[u8]) -> bool
    ensures { OnTrue result (IsAscii bytes.now) }
{
    let mut largest = 0;
    for byte in bytes {
        largest = largest.max(*byte);
    }
    largest < 128
}

/// Returns the character at a position of a text that has only ASCII bytes, and `None` past the end.
pub(crate) fn ascii_char_at(text: &str, at: usize) -> Option<char>
    requires { IsAscii text.now }
    ensures { result ≡ slice_get (chars text.now) at }
{
    let byte = text.as_bytes().get(at)?;
    Some(*byte as char)
}
