//! Defines texts, the strings of the language, with their limited length, and lists of texts.

ghost use Rattle.std.specs.Prelude.{◌≡◌, ◌++◌, ◌∷◌, [], ◌≤◌, length, OnOk, OnErr, IfOk, IfSome, slice_get, string_bytes};
ghost use Rattle.std.specs.Bool.{OnTrue};
ghost use Rattle.std.specs.Str.{chars, IsAscii};
ghost use Rattle.values.specs.Limits.{within_bytes, Appends};
ghost use Rattle.support.specs.Limits.{text_bytes};

use crate::long_text::{Long, are_ascii, ascii_char_at};
use crate::refusal::OperationRefusal;
use crate::short_text::{SHORT_BYTES, Short};
use std::alloc::{AllocError, Global};
use std::cmp::Ordering;
use std::fmt::{self, Debug, Formatter, Write};
use std::hash::{Hash, Hasher};
use std::marker::Model;
use std::rc::Rc;
use support::limits::TEXT_BYTES;

/// Holds a text: a string of the language (`str` of the manual), of at most 16,777,216 bytes, ordered by its bytes. A short text is stored
/// inline; clones of a long one share its bytes.
pub struct Text {
    kept: Kept,
}

// Where the bytes of a text are stored.
#[derive(Drop)]
enum Kept {
    Short(Short),
    Long(Rc<Long>),
}

impl Debug for Text {
    fn fmt<W: Write>(&self, f: &mut Formatter<W>) -> fmt::Result {
        Debug::fmt(self.as_str(), f)
    }
}

impl Drop for Text {
    fn drop(self) {
        let Text { kept: _ } = self;
    }
}

impl Model for Text {
    ghost use Rattle.std.specs.Prelude.{◌≤◌, List, ℕ, length};
    ghost use Rattle.support.specs.Limits.{text_bytes};
    ghost use Rattle.values.specs.Kept.{bytes_of};

    ghost Value = { List ℕ };

    ghost view = { λ t. bytes_of t.kept };

    ghost invariant = { λ t. length (bytes_of t.kept) ≤ text_bytes };
}

impl Text {
    /// Returns the text of a string, or `OperationRefusal::Limit` if it is longer than 16,777,216 bytes.
    pub fn new(alloc: Global, string: String) -> Result<Result<Text, OperationRefusal>, AllocError>
        ensures { IfOk result (λ r. r ≡ within_bytes (string_bytes string)) }
    {
        if string.len() <= SHORT_BYTES {
            return Ok(Ok(Text::short(string.as_str())));
        }
        if string.len() > TEXT_BYTES {
            return Ok(Err(OperationRefusal::Limit));
        }
        let kept = Kept::Long(Rc::new(alloc, Long::new(string))?);
        Ok(Ok(Text { kept }))
    }

    /// Returns the text with a copy of a string, or `OperationRefusal::Limit` if it is longer than 16,777,216 bytes.
    #[inline(always)]
    pub fn of_str(alloc: Global, bytes: &str) -> Result<Result<Text, OperationRefusal>, AllocError>
        ensures { IfOk result (λ r. r ≡ within_bytes bytes.now) }
    {
        if bytes.len() <= SHORT_BYTES {
            return Ok(Ok(Text::short(bytes)));
        }
        Text::new(alloc, String::from_str(alloc, bytes)?)
    }

    /// Returns the text with a copy of a string of at most 22 bytes, which needs no allocation, and `None` for a longer one.
    #[inline(always)]
    pub fn of_short(bytes: &str) -> Option<Text>
        ensures { IfSome result (λ t. t ≡ bytes.now) }
    {
        let short = Short::of_str(bytes)?;
        Some(Text::from_short(&short))
    }

    /// Returns the text of a short text.
    #[inline(always)]
    pub fn from_short(short: &Short) -> Text
        ensures { result ≡ short.now }
    {
        Text {
            kept: Kept::Short(short.copy()),
        }
    }

    #[inline(always)]
    fn short(bytes: &str) -> Text
        requires { length bytes.now ≤ 22 }
        ensures { result ≡ bytes.now }
    {
        let mut short = Short::new();
        short.push(bytes);
        Text {
            kept: Kept::Short(short),
        }
    }

    /// Returns the text as a string slice.
    pub fn as_str(&self) -> &str
        ensures text { result.now ≡ self.now }
        ensures within { length self.now ≤ text_bytes }
    {
        match &self.kept {
            Kept::Short(short) => short.as_str(),
            Kept::Long(long) => long.as_str(),
        }
    }

    /// Returns the number of characters. It takes one step if all bytes are ASCII, and otherwise reads the text.
    pub fn char_count(&self) -> usize
        ensures { result ≡ length (chars self.now) }
    {
        let text = self.as_str();
        if self.is_ascii() {
            return text.len();
        }
        text.chars().count()
    }

    /// Returns the character at a position that counts characters, and `None` past the end. It takes one step if all bytes are ASCII, and
    /// otherwise reads the text up to there.
    pub fn char_at(&self, at: usize) -> Option<char>
        ensures { result ≡ slice_get (chars self.now) at }
    {
        let text = self.as_str();
        if self.is_ascii() {
            return ascii_char_at(text, at);
        }
        text.chars().nth(at)
    }

    // Returns whether it is known that all bytes are ASCII.
    #[inline(always)]
    pub(crate) fn is_ascii(&self) -> bool
        ensures { OnTrue result (IsAscii self.now) }
    {
        match &self.kept {
            Kept::Short(short) => are_ascii(short.as_str().as_bytes()),
            Kept::Long(long) => long.is_ascii(),
        }
    }

    /// Returns the empty text.
    pub fn empty() -> Text
        ensures { result ≡ [] }
    {
        Text::short("")
    }

    /// Appends a piece, or returns `OperationRefusal::Limit` if the text would be longer than 16,777,216 bytes; then the text is unchanged.
    ///
    /// If nobody else shares the text it grows in place, and the work is that of the piece.
    #[inline(always)]
    pub fn push(
        &mut self,
        alloc: Global,
        piece: &str,
    ) -> Result<Result<(), OperationRefusal>, AllocError>
        ensures pushed { IfOk result (λ r. Appends self.old piece.now self.new r) }
        ensures same { IfOk result (λ r. OnErr r (self.new ≡ self.old)) }
    {
        if let Kept::Short(short) = &mut self.kept {
            if short.as_str().len() + piece.len() <= SHORT_BYTES {
                short.push(piece);
                return Ok(Ok(()));
            }
        }
        self.push_far(alloc, piece)
    }

    // Appends a piece to a text that may have to be allocated.
    #[inline(never)]
    fn push_far(
        &mut self,
        alloc: Global,
        piece: &str,
    ) -> Result<Result<(), OperationRefusal>, AllocError>
        ensures pushed { IfOk result (λ r. Appends self.old piece.now self.new r) }
        ensures same { IfOk result (λ r. OnErr r (self.new ≡ self.old)) }
    {
        let count = self.as_str().len() + piece.len();
        if count > TEXT_BYTES {
            return Ok(Err(OperationRefusal::Limit));
        }
        if let Kept::Long(long) = &mut self.kept {
            if let Some(own) = Rc::get_mut(long) {
                own.push(piece)?;
                return Ok(Ok(()));
            }
        }
        self.kept = Kept::Long(joined(alloc, count, self.as_str(), piece)?);
        Ok(Ok(()))
    }
}

// Returns a text of two pieces, with capacity for `count` bytes.
fn joined(alloc: Global, count: usize, first: &str, second: &str) -> Result<Rc<Long>, AllocError>
    ensures { IfOk result (λ s. s.value ≡ first.now ++ second.now) }
{
    let mut long = Long::new(String::with_capacity(alloc, count)?);
    push_both(&mut long, first, second)?;
    Ok(Rc::new(alloc, long)?)
}

fn push_both(long: &mut Long, first: &str, second: &str) -> Result<(), AllocError>
    ensures { OnOk result (long.new ≡ long.old ++ (first.now ++ second.now)) }
{
    long.push(first)?;
    long.push(second)
}

impl Clone for Text {
    ghost use Rattle.std.specs.Prelude.{◌≡◌};

    ghost is_clone = { λ t u. u ≡ t };

    #[inline(always)]
    fn clone(&self) -> Result<Text, AllocError> {
        let kept = match &self.kept {
            Kept::Short(short) => Kept::Short(short.copy()),
            Kept::Long(long) => Kept::Long(long.clone()?),
        };
        Ok(Text { kept })
    }
}

impl PartialEq for Text {
    ghost use Rattle.std.specs.Prelude.{bytes_eq};
    ghost use Rattle.std.specs.Cmp.{partial_equiv_from_equiv};
    ghost use Rattle.std.specs.Cmp.Lexicographic.{nat_list_eq_equiv};

    ghost eq = { bytes_eq };

    ghost laws = { partial_equiv_from_equiv nat_list_eq_equiv };

    fn eq(&self, other: &Text) -> bool {
        self.as_str() == other.as_str()
    }
}

impl Eq for Text {
    ghost use Rattle.std.specs.Cmp.Lexicographic.{nat_list_eq_equiv};

    ghost laws = { nat_list_eq_equiv };
}

impl PartialOrd for Text {
    ghost use Rattle.std.specs.Prelude.{Some};
    ghost use Rattle.std.specs.Ordering.{nat_cmp};
    ghost use Rattle.std.specs.Cmp.Lexicographic.{slice_cmp, texts_po};

    ghost partial_cmp = { λ t u. Some (slice_cmp nat_cmp t u) };

    ghost laws = { texts_po };

    fn partial_cmp(&self, other: &Text) -> Option<Ordering> {
        Some(self.cmp(other))
    }
}

impl Ord for Text {
    ghost use Rattle.std.specs.Ordering.{nat_cmp};
    ghost use Rattle.std.specs.Cmp.Lexicographic.{slice_cmp, nat_list_cmp_total, texts_ties};
    ghost use Rattle.std.proofs.Common.{refl};

    ghost cmp = { slice_cmp nat_cmp };

    ghost total = { nat_list_cmp_total };

    ghost matches_partial_cmp = { λ t u. refl };

    ghost matches_eq = { λ t u. texts_ties t u };

    fn cmp(&self, other: &Text) -> Ordering {
        self.as_str().cmp(other.as_str())
    }
}

impl Hash for Text {
    ghost use Rattle.std.specs.Hash as fed;
    ghost use Rattle.std.specs.Cmp.Lexicographic.{bytes_decides};
    ghost use Rattle.std.proofs.Common.{ap};

    ghost hash_input = { λ t. fed.str t };

    ghost respects_eq = { λ t u h. ap fed.str ((bytes_decides t u).0 h) };

    fn hash<H: Hasher>(&self, state: &mut H) {
        self.as_str().hash(state);
    }
}

/// Holds a list of texts, whose bytes are shared.
#[derive(Drop)]
pub struct Texts {
    items: Vec<Text>,
}

impl Model for Texts {
    ghost use Rattle.std.specs.Prelude.{List, ℕ};

    ghost Value = { List (List ℕ) };

    ghost view = { λ t. t.items.items };
}

impl Texts {
    /// Returns an empty list.
    pub fn new(alloc: Global) -> Texts
        ensures { result ≡ [] }
    {
        Texts {
            items: Vec::new(alloc),
        }
    }

    /// Appends a text.
    pub fn push(&mut self, text: Text) -> Result<(), AllocError>
        ensures { OnOk result (self.new ≡ self.old ++ text ∷ []) }
    {
        self.items.push(text)?;
        Ok(())
    }

    /// Appends the texts of another list. They are shared, and no byte is copied.
    pub fn extend(&mut self, others: &[Text]) -> Result<(), AllocError>
        ensures { OnOk result (self.new ≡ self.old ++ others.now) }
    {
        for text in others {
            self.push(text.clone()?)?;
        }
        Ok(())
    }

    /// Returns the texts as a slice.
    pub fn as_slice(&self) -> &[Text]
        ensures { result.now ≡ self.now }
    {
        &self.items
    }
}
