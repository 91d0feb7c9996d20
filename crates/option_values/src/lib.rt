//! Defines what options take, and converts texts and lists of texts to their values.
//!
//! The rules are those of the Meson manual's page "Build options". A value is a text on a command line and in `default_options`, and a
//! value of its own type in a machine file. [`value_of_text`] reads the first, [`value_of_given`] the second.
//!
//! # Decisions
//!
//! **A state machine cuts words, and a relation says how they are written.** The machine cuts `c_args` character by character, in one of
//! six states. The relation `Shell.Reads` says how words are written: as pieces that are bare, after a backslash, or in single or double
//! quotes, with blanks between words. [`words_of`] is proved to return the words as which a text is written, and `None` if there are no
//! such words.
//!
//! **A list counts as its printed text for an option that takes none.** A list for a string option in a machine file is `['a', 'b']`.
//! Nothing in it is escaped. An array and words take the items themselves, so a quote or a comma in an item is safe.
//!
//! **Choices are stored twice.** An option's choices are stored in their order, because an array without a value has all of them, with
//! repetitions. They are also stored in a set for look-ups.
//!
//! **A value shows its option's type.** A combo's value has a form of its own, although it is a text as a string's value is. So no separate
//! field stores the type of an option.
#![tactic(auto)]

mod built_in;
mod choices;
mod from_machine_file;
mod integer;
mod kind;
mod law;
mod list;
mod option_words;
mod settings;
mod text;
mod words;

pub use built_in::{BuiltIn, Form, built_in_kinds, built_in_value, built_ins, is_built_in};
pub use choices::Choices;
pub use from_machine_file::{value_of_given, value_of_items};
pub use integer::is_within;
pub use kind::{FeatureState, OptionKind, OptionType, OptionValue};
pub use law::texts_are_cut;
pub use option_words::kind_words;
pub use settings::{Options, Setting};
pub use text::value_of_text;
pub use words::words_of;
