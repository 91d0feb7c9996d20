//! Implements the methods of values other than objects: booleans, integers, texts, lists and dictionaries.
//!
//! See "Elementary types" of the page "Reference manual".
//!
//! # Decisions
//!
//! **A method is its name, its arguments and its work.** The methods of a type are an enum, and a name is looked up in it first (E8). Then
//! a small function reads the arguments (E9), and then the method does its work. The definition of a method is a `do` block with the same
//! steps, so the first refusal decides. Each function says by one relation, `Gives`, that it returns what its definition gives.
//!
//! **Checks of all arguments come first.** `join` checks that there are only texts and lists of texts (E9), and `format` that all values
//! can be printed (E9), before any text is collected. Both checks allocate nothing. A placeholder without a value is E10 wherever it is,
//! even if the text before it is already too long. So `format` first looks up all values, and then prints each into the result. A value
//! that no placeholder refers to is only checked for objects (E9).
//!
//! **A set sorts the keys.** `keys` inserts the keys of a dictionary into an ordered set. The contract of the set says where each key goes,
//! so the order is stated exactly. The keys are shared with the dictionary.

mod argument_words;
mod booleans;
mod dictionaries;
mod flattening;
mod formatted;
mod integers;
mod laws;
mod lists;
mod methods;
pub mod readers;
mod stop;
mod text_methods;

pub use argument_words::takes_words;
pub use flattening::flat_texts;
pub use formatted::format_text;
pub use laws::{keys_ascend, places_count};
pub use methods::{has_method, method};
