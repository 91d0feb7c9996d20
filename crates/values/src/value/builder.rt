//! Builds dictionaries.

ghost use Rattle.std.specs.Prelude.{◌≡◌, IfSome, option_map, max, ◌<◌, ◌≤◌, ◌+◌, ◌^◌, length, OnOk, IfOk, is_some, Ok, Err};
ghost use Rattle.std.specs.Prelude.{option_and_then, if◌then◌else◌};
ghost use Rattle.values.specs.Builder.{replaced_depth};
ghost use Rattle.values.specs.Data.{no_entries, find, entries_with, merged_entries};
ghost use Rattle.values.specs.Weight.{weight, depth, items_depth, entries_weight};
ghost use Rattle.values.specs.Limits.{entries_fit};
ghost use Rattle.values.specs.View.{data_of, items_of};
ghost use Rattle.values.specs.declared.refusal.OperationRefusal.TheVariants as refusal;

use super::{Dictionary, Value, deepest, is_within};
use crate::dictionary_keys::Keys;
use crate::refusal::OperationRefusal;
use crate::text::Text;
use std::alloc::{AllocError, Global};
use std::marker::Model;

/// Holds a dictionary that may pass the limits while it is built. `finish` checks them once.
#[derive(Drop)]
pub struct DictionaryBuilder {
    keys: Keys,
    values: Vec<Value>,
    // Wide enough for the weight of all that fits in memory.
    weight: u128,
    // The depth of the deepest value, or `None` after one of the deepest was replaced by a shallower one.
    depth: Option<u32>,
}

impl Model for DictionaryBuilder {
    ghost use Rattle.values.specs.Data.{Entries};
    ghost use Rattle.values.specs.Coding.{entries_code};

    ghost Value = { Entries };

    ghost coded = { entries_code };

    ghost use Rattle.values.specs.View.{entries_of};
    ghost use Rattle.values.specs.Builder.{IsBuilder};

    ghost view = { λ a. entries_of a.keys a.values.items };

    ghost invariant = { IsBuilder };
}

impl Dictionary {
    fn into_builder(self) -> DictionaryBuilder
        ensures same { result ≡ self }
        ensures within { entries_weight result < 2 ^ 61 }
    {
        let Dictionary {
            keys,
            values,
            weight,
            depth,
        } = self;
        DictionaryBuilder {
            keys,
            values,
            weight: weight as u128,
            depth: Some(depth),
        }
    }
}

impl DictionaryBuilder {
    /// Returns a builder without entries.
    pub fn new(alloc: Global) -> DictionaryBuilder
        ensures { result ≡ no_entries }
    {
        DictionaryBuilder {
            keys: Keys::new(alloc),
            values: Vec::new(alloc),
            weight: 0,
            depth: Some(0),
        }
    }

    /// Returns a builder that continues with a dictionary.
    pub fn of_dictionary(dictionary: Dictionary) -> DictionaryBuilder
        ensures same { result ≡ dictionary }
        ensures within { entries_weight result < 2 ^ 61 }
    {
        dictionary.into_builder()
    }

    /// Returns a builder that continues with a copy of a dictionary.
    pub fn copy_of(alloc: Global, dictionary: &Dictionary) -> Result<DictionaryBuilder, AllocError>
        ensures same { IfOk result (λ b. b ≡ dictionary.now) }
        ensures within { IfOk result (λ b. entries_weight b < 2 ^ 61) }
    {
        let mut copy = DictionaryBuilder::new(alloc);
        copy.put_all(dictionary)?;
        Ok(copy)
    }

    /// Returns whether a key is present.
    pub fn contains_key(&self, key: &Text) -> bool
        ensures { result ≡ is_some (find key.now self.now) }
    {
        self.keys.get_index_of(key).is_some()
    }

    /// Sets a key to a value. A key that is present keeps its place; a new key goes last.
    pub fn put(&mut self, key: Text, value: Value) -> Result<(), AllocError>
        requires { entries_weight self.old + (length key + 1) + weight (data_of value) < 2 ^ 126 }
        ensures { OnOk result (self.new ≡ entries_with key (data_of value) self.old) }
    {
        let key_weight = key.as_str().len() as u128 + 1;
        let weight = value.weight() as u128;
        let depth = value.depth();
        // Room for a new value is reserved before its key is inserted, so that the key is hashed once.
        self.values.reserve(1)?;
        let (index, is_new) = self.keys.insert_full(key)?;
        if is_new {
            self.values.push_reserved(value);
            self.weight += key_weight + weight;
            self.depth = deeper(self.depth, depth);
        } else {
            let old_weight = self.values[index].weight() as u128;
            let old_depth = self.values[index].depth();
            self.values[index] = value;
            self.weight = self.weight - old_weight + weight;
            self.depth = replaced_depth(self.depth, old_depth, depth);
        }
        Ok(())
    }

    /// Sets the entries of a dictionary, in their order.
    #[inline(always)]
    pub fn put_all(&mut self, dictionary: &Dictionary) -> Result<(), AllocError>
        requires { entries_weight self.old < 2 ^ 125 }
        ensures merged { OnOk result (self.new ≡ merged_entries self.old dictionary.now) }
        ensures within { OnOk result (entries_weight dictionary.now + 1 ≤ 33554432) }
        ensures copied { OnOk result (self.old ≡ no_entries → self.new ≡ dictionary.now) }
    {
        let values = dictionary.values();
        for (i, value) in values.iter().enumerate() {
            let key = dictionary.key(i).clone()?;
            self.put(key, value.clone()?)?;
        }
        Ok(())
    }

    /// Returns the dictionary, or `OperationRefusal::Limit` if it is too large.
    #[inline(always)]
    pub fn finish(self) -> Result<Dictionary, OperationRefusal>
        ensures { result ≡ (if entries_fit self then Ok self else Err refusal.Limit) }
    {
        let DictionaryBuilder {
            keys,
            values,
            weight,
            depth,
        } = self;
        let depth = counted_depth(depth, &values);
        if !is_within(values.len(), weight + 1, depth + 1) {
            return Err(OperationRefusal::Limit);
        }
        Ok(Dictionary {
            keys,
            values,
            weight: weight as u64,
            depth,
        })
    }
}

// Returns the depth with one more value, if the depth is known.
fn deeper(depth: Option<u32>, more: u32) -> Option<u32>
    ensures { result ≡ option_map (λ d. max d more) depth }
{
    Some(depth?.max(more))
}

// Returns the depth after a value is replaced by another, if the depth is known. Returns `None` if the deepest value may have gone; then
// `finish` counts again.
fn replaced_depth(depth: Option<u32>, old: u32, new: u32) -> Option<u32>
    ensures { result ≡ option_and_then (replaced_depth old new) depth }
{
    let depth = depth?;
    if new >= old {
        Some(depth.max(new))
    } else if old < depth {
        Some(depth)
    } else {
        None
    }
}

// Returns the depth if it is known, and otherwise counts it.
fn counted_depth(depth: Option<u32>, values: &[Value]) -> u32
    requires counted { IfSome depth (λ d. d ≡ items_depth (items_of values.now)) }
    requires small { IfSome depth (λ d. d ≤ 64) }
    ensures deepest { result ≡ items_depth (items_of values.now) }
    ensures within { result ≤ 64 }
{
    match depth {
        Some(depth) => depth,
        None => deepest(values),
    }
}
