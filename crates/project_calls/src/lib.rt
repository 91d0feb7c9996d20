//! Implements `project` and `get_option` of the page "Reference manual": how a project begins, and what its options are.
#![tactic(auto)]

mod defaults;
mod flags;
mod option_as_value;
mod option_call;
mod option_file;
mod programs;
mod project_call;
mod resolution;
mod rows;
mod shown_options;

pub use option_call::get_option;
pub use project_call::project;
pub use rows::{get_option_row, project_row};
