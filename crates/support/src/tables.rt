//! Provides hash tables for untrusted keys: names, paths and keys that come from a file.
//!
//! [`SipSet`] and [`SipMap`] are the set and the map of `indexmap`, which keep their keys in order of insertion, hashed by SipHash. The
//! default hash of `indexmap` is fast, but colliding keys are easy to make, and a table of such keys takes quadratic time. For SipHash no
//! way is known to make them without its key. The key is fixed here, since a run depends on nothing but its input.
//!
//! A contract refers to the content of a map by `m.entries`, and to that of a set by `s.keys`.
//!
//! ```text
//! use tables::{SipMap, new_map};
//!
//! let mut ages: SipMap<String, u32> = new_map(alloc);
//! ages.insert(name, 12)?;
//! ```

mod map;
mod set;

pub use map::{SipMap, new_map};
pub use set::{SipHasher, SipSet, new_set, set_with_capacity};
