//! Reads the option file of a project, `meson.options`: the options that its calls of `option` declare.
//!
//! The rules are those of the Meson manual's page "Build options". Values are not checked here: whether a declared default is a value of
//! its option is decided when options are resolved.
//!
//! # Decisions
//!
//! **What a declared default is.** An argument of `option` is read by its form only: a text, a truth value, an integer of 64 bits, a list
//! of texts, or `Other`. `Other` is a number that does not fit in 64 bits, or a list of things other than texts.
//!
//! **The order of faults in one call.** A keyword that occurs twice is reported first, then one that is left out, then everything else. All
//! other faults have the same number and line, so their order does not matter.

mod argument_values;
mod call;
mod declaration;
mod fault;
mod file;
mod keyword;
mod names;
mod number;
mod refusals;
mod statement_problem;

pub use declaration::{Declaration, Declared, DeclaredValue};
pub use file::declare;
