//! Defines the evaluated arguments of a call, and the rows that say what a call takes.
#![tactic(auto)]

mod arguments;
mod dependencies;
mod disablers;
mod flat_arguments;
mod list_pieces;
mod mismatch;
mod reader;
mod readers;
mod refused;
mod row;
mod rows;
mod rule;
mod stop;
mod words;

pub use arguments::{Arguments, Named, add_argument, no_arguments};
pub use dependencies::are_found;
pub use disablers::gives_disabler;
pub use reader::check;
pub use readers::Requirement;
pub use refused::ArgumentError;
pub use row::{ArgumentKind, Keyword, Piece, Row};
pub use rows::{any_values, some_texts, values};
pub use rule::Rule;
pub use stop::CallStop;
pub use words::values_words;
