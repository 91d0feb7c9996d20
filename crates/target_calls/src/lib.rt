//! Implements the functions of the page "Reference manual" that declare targets, and those that name what targets are made of.
#![tactic(auto)]

mod build_target;
mod build_target_calls;
mod command;
mod custom;
mod custom_call;
mod custom_installs;
mod dependencies;
mod fit_breaches;
mod installs;
mod project_words;
mod repeated_lists;
mod rows;
mod source_lookup;
mod tree;

pub use build_target_calls::{declare, library};
pub use custom_call::custom_target;
pub use project_words::{add_project_arguments, add_project_link_arguments};
pub use rows::{
    custom_target_row, files_row, include_directories_row, project_words_row, shared_library_row,
    target_row,
};
pub use tree::{files, include_directories};
