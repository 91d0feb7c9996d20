//! Computes the final values of a project's options, from their declarations, `default_options`, the machine file and the command line.
//!
//! [`declare`] reads an option file, [`Machine::read`] reads a machine file, and [`resolve`] returns the values. This crate re-exports all
//! types of these functions.
//!
//! The rules are those of the Meson manual's pages "Build options" and "Built-in options".
//!
//! # Decisions
//!
//! **A project's defaults are texts or entries.** `default_options` may be a list of texts, which are cut at their first `=`, or a
//! dictionary, whose keys are whole names. [`resolve`] takes either, item by item. An `=` in a key is part of a name, which no option has.
//!
//! **Values form a list of verdicts.** A place sets a value, warns of a name that no option has, or refuses. The definition lists all
//! verdicts in the order of the places, and folds the list up to the first refusal. So one line each states that the last value holds and
//! that the first bad one is the fault.
#![tactic(auto)]

mod built_in;
mod default;
mod fault;
mod fill_in;
mod known_options;
pub mod laws;
pub mod option_file;
mod place;
mod resolution;
mod state;
mod value_problem;
mod verdict;

pub use crate::option_file::{Declared, declare};
pub use fault::{OptionFault, Origin};
pub use machine_file::{Machine, MachineValue, Section};
pub use option_values::{FeatureState, OptionType, OptionValue, Options, is_built_in};
pub use place::ProjectDefault;
pub use resolution::{Resolved, resolve};
