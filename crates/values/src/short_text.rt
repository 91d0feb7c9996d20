//! Stores short texts without allocating.
ghost use Rattle.std.specs.Prelude.{◌≡◌, ◌+◌, ◌<◌, ◌≤◌, ◌++◌, IfSome, length};
ghost use Rattle.std.specs.Option.{IfNone};

use std::marker::Model;
use std::str;

/// The most bytes of a short text. With this size a value is no larger than one that holds an integer.
pub(crate) const SHORT_BYTES: usize = 22;

/// Holds a text of at most 22 bytes, stored inline.
#[derive(Drop)]
pub struct Short {
    bytes: [u8; SHORT_BYTES],
    count: u8,
}

impl Model for Short {
    ghost use Rattle.std.specs.Prelude.{◌≡◌, ◌≤◌, List, ℕ, length, take, IsUtf8};

    ghost Value = { List ℕ };

    ghost view = { λ s. take s.count s.bytes };

    ghost invariant = { λ s. (s.count ≤ 22) × (length s.bytes ≡ 22) × ∥ IsUtf8 (take s.count s.bytes) ∥₁ };
}

impl Short {
    /// Returns the empty text.
    #[inline(always)]
    pub(crate) fn new() -> Short
        ensures { length result ≡ 0 }
    {
        Short {
            bytes: [0; SHORT_BYTES],
            count: 0,
        }
    }

    /// Returns a copy of a text of at most 22 bytes, and `None` for a longer one.
    #[inline(always)]
    pub fn of_str(bytes: &str) -> Option<Short>
        ensures text { IfSome result (λ s. s ≡ bytes.now) }
        ensures long { IfNone result (22 < length bytes.now) }
    {
        if bytes.len() > SHORT_BYTES {
            return None;
        }
        let mut short = Short::new();
        short.push(bytes);
        Some(short)
    }

    /// Appends a piece. The whole text must have at most 22 bytes.
    #[inline(always)]
    pub(crate) fn push(&mut self, piece: &str)
        requires { length self.old + length piece.now ≤ 22 }
        ensures { self.new ≡ self.old ++ piece.now }
    {
        let from = self.count as usize;
        let to = from + piece.len();
        self.bytes[from..to].copy_from_slice(piece.as_bytes());
        self.count = to as u8;
    }

    /// Returns the text.
    pub fn as_str(&self) -> &str
        ensures text { result.now ≡ self.now }
        ensures short { length result.now ≤ 22 }
    {
        unsafe { str::from_utf8_unchecked(&self.bytes[..self.count as usize]) }
    }

    /// Returns a copy.
    #[inline(always)]
    pub fn copy(&self) -> Short
        ensures { result ≡ self.now }
    {
        Short {
            bytes: self.bytes,
            count: self.count,
        }
    }
}
