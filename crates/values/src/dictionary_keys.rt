//! Keeps the keys of a dictionary. A literal with one entry, as in `all += {key: value}`, lives for one sum only. It allocates room for its
//! key, but neither a hash table nor a hash.
ghost use Rattle.std.specs.Prelude.{◌≡◌, ◌<◌, [], length, not, bytes_eq, position, option_map, slice_get, OnOk, OnErr, IfOk};
ghost use Rattle.std.specs.List.{list_any, position_or_len};
ghost use Rattle.support.specs.Sets.{insert_key, insert_all};

use crate::text::Text;
use std::alloc::{AllocError, Global};
use std::marker::Model;
use support::tables::{SipSet, set_with_capacity};

// Up to this many keys, a linear search is faster than hashing.
const FEW: usize = 8;

/// Holds the keys of a dictionary, without duplicates, in order of insertion. Few keys need no hash table.
pub struct Keys {
    kept: Kept,
}

// Where the keys are stored.
#[derive(Drop)]
enum Kept {
    Few(Vec<Text>),
    // Boxed, since dictionaries with few keys are moved often.
    Many(Box<SipSet<Text>>),
}

impl Drop for Keys {
    fn drop(self) {
        let Keys { kept: _ } = self;
    }
}

impl Model for Keys {
    ghost use Rattle.std.specs.Prelude.{List, ℕ};
    ghost use Rattle.values.specs.Keys.{keys_of, AreApart};

    ghost Value = { List (List ℕ) };

    ghost view = { λ k. keys_of k.kept };

    ghost invariant = { λ k. AreApart k.kept };
}

impl Keys {
    /// Returns no keys.
    pub(crate) fn new(alloc: Global) -> Keys
        ensures { result ≡ [] }
    {
        Keys {
            kept: Kept::Few(Vec::new(alloc)),
        }
    }

    /// Returns the keys, in order of insertion.
    pub(crate) fn as_slice(&self) -> &[Text]
        ensures keys { result.now ≡ self.now }
    {
        match &self.kept {
            Kept::Few(keys) => keys.as_slice(),
            Kept::Many(keys) => keys.as_slice(),
        }
    }

    /// Returns the key at an index, and `None` if there are fewer keys.
    pub(crate) fn get_index(&self, index: usize) -> Option<&Text>
        ensures key { option_map (λ k. k.now) result ≡ slice_get self.now index }
    {
        self.as_slice().get(index)
    }

    /// Returns the index of a key, and `None` if it is absent.
    pub(crate) fn get_index_of(&self, key: &Text) -> Option<usize>
        ensures index { result ≡ position (bytes_eq key.now) self.now }
    {
        match &self.kept {
            Kept::Few(keys) => position_in(keys, key),
            Kept::Many(keys) => keys.get_index_of(key),
        }
    }

    /// Appends a key unless it is present, and returns its index and whether it is new. After an `Err` the keys are unchanged.
    pub(crate) fn insert_full(&mut self, key: Text) -> Result<(usize, bool), AllocError>
        ensures added { IfOk result (λ r. r.1 ≡ not (list_any (bytes_eq key) self.old)) }
        ensures keys { OnOk result (self.new ≡ insert_key bytes_eq self.old key) }
        ensures index { IfOk result (λ r. r.0 ≡ position_or_len (bytes_eq key) self.old) }
        ensures within { IfOk result (λ r. r.0 < length self.new) }
        ensures err { OnErr result (self.new ≡ self.old) }
    {
        self.make_room()?;
        match &mut self.kept {
            Kept::Few(keys) => insert_among(keys, key),
            Kept::Many(keys) => Ok(keys.insert_full(key)?),
        }
    }

    // Moves the keys to a hash table if one more would be too many for a linear search.
    fn make_room(&mut self) -> Result<(), AllocError>
        ensures { self.new ≡ self.old }
    {
        if let Kept::Few(keys) = &self.kept {
            if keys.len() >= FEW {
                let table = Box::new(*keys.allocator(), in_table(keys)?)?;
                self.kept = Kept::Many(table);
            }
        }
        Ok(())
    }
}

// Appends a key to a few unless it is present, and returns its index and whether it is new.
fn insert_among(keys: &mut Vec<Text>, key: Text) -> Result<(usize, bool), AllocError>
    ensures added { IfOk result (λ r. r.1 ≡ not (list_any (bytes_eq key) keys.old.items)) }
    ensures keys { OnOk result (keys.new.items ≡ insert_key bytes_eq keys.old.items key) }
    ensures index { IfOk result (λ r. r.0 ≡ position_or_len (bytes_eq key) keys.old.items) }
    ensures within { IfOk result (λ r. r.0 < length keys.new.items) }
    ensures apart { insert_all bytes_eq [] keys.old.items ≡ keys.old.items → insert_all bytes_eq [] keys.new.items ≡ keys.new.items }
    ensures err { OnErr result (keys.new.items ≡ keys.old.items) }
{
    match position_in(keys, &key) {
        Some(index) => Ok((index, false)),
        None => {
            let index = keys.len();
            keys.push(key)?;
            Ok((index, true))
        }
    }
}

// Returns the index of a key among a few, and `None` if it is absent.
fn position_in(keys: &[Text], key: &Text) -> Option<usize>
    ensures { result ≡ position (bytes_eq key.now) keys.now }
{
    keys.iter().position(|it| it == key)
}

// Returns a hash table with copies of a few keys, and room for as many more.
fn in_table(keys: &Vec<Text>) -> Result<SipSet<Text>, AllocError>
    ensures { IfOk result (λ s. s.keys ≡ insert_all bytes_eq [] keys.now.items) }
{
    let mut table = set_with_capacity(*keys.allocator(), 2 * keys.len())?;
    for key in keys {
        table.insert(key.clone()?)?;
    }
    Ok(table)
}
