//! Provides a set in order of insertion.
ghost use Rattle.std.specs.Prelude.{◌≡◌, ◌<◌, [], length, position, option_copied, slice_get, nat_eq, take, false, not, is_some};
ghost use Rattle.std.specs.Prelude.{bytes_eq, string_bytes, IfOk, IfSome, OnOk, OnErr};
ghost use Rattle.std.specs.List.{list_any, IsDistinct, position_or_len};
ghost use Rattle.support.specs.Sets.{insert_key};

use indexmap::IndexSet;
use std::alloc::{AllocError, Global};
use std::hash::{BuildHasherDefault, DefaultHasher, Hash};
use std::marker::Model;

/// Builds a hasher for each key: SipHash with a fixed key.
pub type SipHasher = BuildHasherDefault<DefaultHasher>;

/// Holds a set in order of insertion, hashed by SipHash. Its keys have indexes from 0.
pub struct SipSet<K: Eq + Hash + Drop> {
    set: IndexSet<K, SipHasher>,
}

impl<K: Eq + Hash + Drop> Model for SipSet<K> {
    ghost use Rattle.support.specs.Sets.{KeySet};

    ghost Value = { KeySet K };

    ghost view = { λ s. record { keys = s.set.keys } };
}

// A table has many parts, and a proof goes through each of them wherever one is dropped, which is at each `?`. With this function it need
// not.
impl<K: Eq + Hash + Drop> Drop for SipSet<K> {
    fn drop(self) {
        let SipSet { set: _ } = self;
    }
}

/// Returns an empty set. It allocates nothing until the first key is inserted.
pub fn new_set<K: Eq + Hash + Drop>(alloc: Global) -> SipSet<K>
    ensures keys { result.keys ≡ [] }
    ensures unique { IsDistinct K.eq result.keys }
{
    SipSet {
        set: IndexSet::with_hasher(alloc, BuildHasherDefault::new()),
    }
}

/// Returns an empty set, with capacity for `n` keys.
pub fn set_with_capacity<K: Eq + Hash + Drop>(
    alloc: Global,
    n: usize,
) -> Result<SipSet<K>, AllocError>
    ensures keys { IfOk result (λ s. s.keys ≡ []) }
    ensures unique { IfOk result (λ s. IsDistinct K.eq s.keys) }
{
    let set = IndexSet::with_capacity_and_hasher(alloc, n, BuildHasherDefault::new())?;
    Ok(SipSet { set })
}

impl<K: Eq + Hash + Drop> SipSet<K> {
    /// Reserves capacity for `n` more keys, so that none is moved as they are inserted.
    pub fn reserve(&mut self, n: usize) -> Result<(), AllocError>
        ensures keys { self.new.keys ≡ self.old.keys }
    {
        self.set.reserve(n)
    }

    /// Inserts a key at the end, and returns true. If an equal key is present, it stays, and the result is false.
    ///
    /// Only inserting a new key can run out of memory. Then the keys of the set are unchanged, and the new one is dropped. The time is that
    /// of a look-up, amortized over many keys.
    #[inline]
    pub fn insert(&mut self, key: K) -> Result<bool, AllocError>
        ensures added { IfOk result (λ new. new ≡ not (list_any (K.eq key) self.old.keys)) }
        ensures keys { OnOk result (self.new.keys ≡ insert_key K.eq self.old.keys key) }
        ensures err { OnErr result (self.new.keys ≡ self.old.keys) }
        ensures absent { OnErr result (list_any (K.eq key) self.old.keys ≡ false) }
        ensures unique { IsDistinct K.eq self.new.keys }
    {
        let (_, new) = self.insert_full(key)?;
        Ok(new)
    }

    /// Inserts a key as `insert` does. Returns the index of the key, or of the equal one that was present, and whether the key is new.
    #[inline]
    pub fn insert_full(&mut self, key: K) -> Result<(usize, bool), AllocError>
        ensures added { IfOk result (λ r. r.1 ≡ not (list_any (K.eq key) self.old.keys)) }
        ensures keys { OnOk result (self.new.keys ≡ insert_key K.eq self.old.keys key) }
        ensures index { IfOk result (λ r. r.0 ≡ position_or_len (K.eq key) self.old.keys) }
        ensures within { IfOk result (λ r. r.0 < length self.new.keys) }
        ensures err { OnErr result (self.new.keys ≡ self.old.keys) }
        ensures absent { OnErr result (list_any (K.eq key) self.old.keys ≡ false) }
        ensures unique { IsDistinct K.eq self.new.keys }
    {
        let placed = self.set.insert_full(key)?;
        Ok(placed)
    }

    /// Returns the index of a key, and `None` if it is absent.
    #[inline]
    pub fn get_index_of(&self, key: &K) -> Option<usize>
        ensures index { result ≡ position (K.eq key.now) self.now.keys }
        ensures found { is_some result ≡ list_any (K.eq key.now) self.now.keys }
        ensures within { IfSome result (λ i. i < length self.now.keys) }
    {
        self.set.get_index_of(key)
    }

    /// Returns the key at an index, and `None` if there are fewer keys.
    #[inline]
    pub fn get_index(&self, index: usize) -> Option<&K>
        ensures key { option_copied result ≡ slice_get self.now.keys index }
    {
        self.set.get_index(index)
    }

    /// Returns the keys, in order of insertion.
    #[inline]
    pub fn as_slice(&self) -> &[K]
        ensures keys { result.now ≡ self.now.keys }
        ensures unique { IsDistinct K.eq self.now.keys }
    {
        self.set.as_slice()
    }

    /// Returns the number of keys.
    #[inline]
    pub fn len(&self) -> usize
        ensures len { result ≡ length self.now.keys }
        ensures unique { IsDistinct K.eq self.now.keys }
    {
        self.set.len()
    }

    /// Returns whether the set is empty.
    #[inline]
    pub fn is_empty(&self) -> bool
        ensures { result ≡ nat_eq (length self.now.keys) 0 }
    {
        self.len() == 0
    }

    /// Keeps the first `len` keys, and drops the others. The memory stays allocated.
    #[inline]
    pub fn truncate(&mut self, len: usize)
        ensures keys { self.new.keys ≡ take len self.old.keys }
        ensures unique { IsDistinct K.eq self.new.keys }
    {
        self.set.truncate(len);
    }
}

impl SipSet<String> {
    /// Returns whether a text is one of the keys.
    #[inline]
    pub fn contains(&self, text: &str) -> bool
        ensures { result ≡ list_any (λ k. bytes_eq text.now (string_bytes k)) self.now.keys }
    {
        self.set.contains(text)
    }

    /// Returns the index of the key with this text, and `None` if it is absent.
    #[inline]
    pub fn index_of_text(&self, text: &str) -> Option<usize>
        ensures index { result ≡ position (λ k. bytes_eq text.now (string_bytes k)) self.now.keys }
        ensures found { is_some result ≡ list_any (λ k. bytes_eq text.now (string_bytes k)) self.now.keys }
        ensures within { IfSome result (λ i. i < length self.now.keys) }
    {
        self.set.get_index_of(text)
    }
}
