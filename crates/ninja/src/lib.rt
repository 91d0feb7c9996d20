//! Writes the text of `build.ninja`, as the Ninja manual describes it, and states what it means.
//!
//! Each call writes exactly the text that `specs/Writing` defines, and allocates nothing: it fails only if the device does.
//! [`build::edge::are_writable`] decides whether `build.ninja` can hold a text at all. For example, Ninja has no escape for a control
//! character in a path.
//!
//! Edges that share most of their parts need not be made: [`write_joined`] writes one from borrowed parts, the shared and the own ones.
//!
//! `specs/Reading` defines what a Ninja file says, and `specs/Commands` which words a shell reads in a command. Neither uses the
//! definitions of the writers. The contracts of [`edge_law`], [`file_law`], [`value_law`] and [`words_law`], which do nothing, state that
//! the text is read as what was meant.
//!
//! # Decisions
//!
//! **A redirection without a word.** For no word and a file, [`write_words`] writes `> FILE` without a leading space, so that the text of a
//! value never begins with a space.
#![tactic(auto)]

mod edges;
mod escapes;
mod file;
mod laws;
mod words;

pub use build::edge::{Edge, can_hold_path, can_hold_value};
pub use edges::{write_edge, write_joined};
pub use escapes::{write_path, write_value};
pub use file::{write_head, write_tail};
pub use laws::{edge_law, file_law, value_law, words_law};
pub use words::write_words;
