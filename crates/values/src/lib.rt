//! Defines the values of the language with their limits, the methods of texts, printing, and the names that the language knows.
//!
//! # Decisions
//!
//! **A value keeps its weight and depth.** A list or dictionary stores its weight, depth and count next to its items, and its invariant
//! says that they are right. So checking the limits takes constant time for each operation. If a key gets a new value, the new depth
//! follows from the old and new values, unless one of the deepest is replaced by a shallower one. Then the builder of a dictionary forgets
//! the depth, and counts it in one pass at the end. The limits of a dictionary are checked once, when it is finished. The weight in a
//! builder has 128 bits, so that no number of entries that fit in memory overflows it.
#![tactic(auto)]

mod copies;
mod dictionary_keys;
mod equal;
mod flat_texts;
mod flatten;
pub mod language_names;
mod laws;
mod long_text;
mod object;
pub mod printing;
mod refusal;
mod short_text;
mod text;
pub mod texts;
mod value;

pub use copies::{push_string, push_strings, short_texts, strings, within_texts};
pub use equal::{equal_objects, is_equal};
pub use flat_texts::{are_texts, flat, flat_all, is_texts};
pub use flatten::{flatten_value, flatten_values, flattened_count};
pub use laws::values_have_few_items;
pub use object::{Dependency, Feature, Numbers, Object, Program, Source, Sources};
pub use refusal::OperationRefusal;
pub use short_text::Short;
pub use text::{Text, Texts};
pub use value::{Content, Dictionary, DictionaryBuilder, List, Value, have_disabler};
