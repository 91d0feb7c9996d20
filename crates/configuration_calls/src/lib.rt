//! Implements configuration data and the files made of it: `configuration_data` and `configure_file` of the page "Reference manual", and
//! the methods of its type `cfg_data`.
#![tactic(auto)]

mod configure_arguments;
mod contents;
mod data_call;
mod file_call;
mod laws;
mod methods;
mod output_file;
mod rows;

pub use configure_arguments::has_meson_format;
pub use data_call::configuration_data;
pub use file_call::configure_file;
pub use laws::names_ascend;
pub use methods::{configuration_method, has_configuration_method};
pub use rows::{configuration_data_row, configure_file_row, other_format_row};
