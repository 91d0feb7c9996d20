//! Provides a map in order of insertion.
ghost use Rattle.std.specs.Prelude.{◌≡◌, [], ◌∷◌, ◌++◌, None, length, position, slice_get, nat_eq, is_some, OnOk, OnErr};
ghost use Rattle.std.specs.Prelude.{bytes_eq, string_bytes, IfOk};
ghost use Rattle.std.specs.Map.{lookup, set_value};
ghost use Rattle.std.specs.Map.Iter.{deref_pair};
ghost use Rattle.std.specs.Option.{option_map, option_copied};
ghost use Rattle.support.specs.Maps.{insert_entry, set_value_at, get_by_text};

use crate::tables::set::SipHasher;
use indexmap::IndexMap;
use std::alloc::{AllocError, Global};
use std::hash::{BuildHasherDefault, Hash};
use std::marker::Model;

/// Holds a map in order of insertion, hashed by SipHash.
pub struct SipMap<K: Eq + Hash + Drop, V: Drop> {
    map: IndexMap<K, V, SipHasher>,
}

impl<K: Eq + Hash + Drop, V: Drop> Model for SipMap<K, V> {
    ghost use Rattle.support.specs.Maps.{EntryMap};

    ghost Value = { EntryMap K V };

    ghost view = { λ m. record { entries = m.map.entries } };
}

impl<K: Eq + Hash + Drop, V: Drop> Drop for SipMap<K, V> {
    fn drop(self) {
        let SipMap { map: _ } = self;
    }
}

/// Returns an empty map. It allocates nothing until the first key is inserted.
pub fn new_map<K: Eq + Hash + Drop, V: Drop>(alloc: Global) -> SipMap<K, V>
    ensures entries { result.entries ≡ [] }
{
    SipMap {
        map: IndexMap::with_hasher(alloc, BuildHasherDefault::new()),
    }
}

impl<K: Eq + Hash + Drop, V: Drop> SipMap<K, V> {
    /// Sets a key to a value. An equal key that is present stays and takes the value; a new key goes last.
    ///
    /// Only a new key can run out of memory. Then the map is unchanged, and the key and the value are dropped.
    pub fn insert(&mut self, key: K, value: V) -> Result<(), AllocError>
        ensures entries { OnOk result (self.new.entries ≡ insert_entry K.eq self.old.entries key value) }
        ensures last { OnOk result
            (lookup (K.eq key) self.old.entries ≡ None → self.new.entries ≡ self.old.entries ++ (key, value) ∷ []) }
        ensures err { OnErr result (self.new.entries ≡ self.old.entries) }
    {
        self.map.insert(key, value)?;
        Ok(())
    }

    /// Replaces the i-th value. If there are fewer keys, nothing changes.
    pub fn set_at(&mut self, index: usize, value: V)
        ensures entries { self.new.entries ≡ set_value_at self.old.entries index value }
    {
        let Some(there) = self.map.get_index_mut(index) else {
            return;
        };
        *there = value;
    }

    /// Returns the i-th key and its value, and `None` if there are fewer keys.
    pub fn get_index(&self, index: usize) -> Option<(&K, &V)>
        ensures entry { option_map deref_pair result ≡ slice_get self.now.entries index }
    {
        self.map.get_index(index)
    }

    /// Returns the number of keys.
    pub fn len(&self) -> usize
        ensures { result ≡ length self.now.entries }
    {
        self.map.len()
    }

    /// Returns whether the map is empty.
    pub fn is_empty(&self) -> bool
        ensures { result ≡ nat_eq (length self.now.entries) 0 }
    {
        self.len() == 0
    }
}

impl<V: Drop> SipMap<String, V> {
    /// Returns the index of the key with this text, and `None` if it is absent.
    pub fn get_index_of(&self, key: &str) -> Option<usize>
        ensures { result ≡ position (λ e. bytes_eq key.now (string_bytes e.0)) self.now.entries }
    {
        self.map.get_index_of(key)
    }

    /// Replaces the value of the key with this text. If the key is absent, nothing changes.
    pub fn replace(&mut self, key: &str, value: V)
        ensures entries { self.new.entries ≡ set_value (λ k. bytes_eq key.now (string_bytes k)) self.old.entries value }
    {
        let Some(there) = self.map.get_mut(key) else {
            return;
        };
        *there = value;
    }

    /// Returns the value of the key with this text, and `None` if it is absent.
    pub fn get(&self, key: &str) -> Option<&V>
        ensures value { option_copied result ≡ get_by_text self.now key.now }
    {
        self.map.get(key)
    }

    /// Returns whether there is a key with this text.
    pub fn contains_key(&self, key: &str) -> bool
        ensures { result ≡ is_some (get_by_text self.now key.now) }
    {
        self.map.contains_key(key)
    }
}
