//! Implements the functions of the page "Reference manual" for what a project takes from outside and what it provides: dependencies,
//! programs, installed files and tests.
//!
//! What a function does is defined as a deed in `specs/`, and its code does that on a [`world::Caller`].
#![tactic(auto)]

mod call_results;
mod commands;
mod dependencies;
mod dependency_declaration;
mod destinations;
mod installs;
mod joined_lists;
mod named_files;
mod own_lists;
mod programs;
mod required;
mod rows;
mod runs;
mod test_calls;

pub use dependencies::dependency;
pub use dependency_declaration::declare_dependency;
pub use destinations::Sort;
pub use installs::install;
pub use programs::find_program;
pub use rows::{
    declare_dependency_row, dependency_row, find_program_row, install_data_row,
    install_headers_row, install_man_row, test_row,
};
pub use test_calls::test;
