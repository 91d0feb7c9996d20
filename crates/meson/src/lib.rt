//! Runs `meson setup` for C projects as a library: from the bytes of a source tree to the bytes of a build directory.
//!
//! [`setup`] runs a project over any devices, and its contract is the theorem about the whole program. [`questions`] lists what that run
//! asks the machine file. [`fault`] prints the fault in which that run ends. [`depends_on_looked`], [`lists_what_it_looks_at`],
//! [`needs_are_there`] and [`machine_files_say`] are laws of every run: calls that do nothing, whose contracts hold.
//!
//! This crate re-exports the crates of all layers, and the items of `command_line`. A user who depends on `meson` alone can also call a
//! parser, the order of versions, a template pass or a Ninja writer, for example `meson::syntax::parse`.
#![tactic(auto)]

mod fault_run;
mod labels;
mod law;
mod question_lines;
mod question_run;
mod setup_run;
mod task;

pub use arguments;
pub use backend;
pub use backend::Status;
pub use build;
pub use code;
pub use command_line::{Line, LineFault, Task, command_line};
pub use configuration_calls;
pub use expressions;
pub use fault_run::fault;
pub use interp;
pub use interp::Inputs;
pub use introspection;
pub use language_calls;
pub use law::{depends_on_looked, lists_what_it_looks_at, machine_files_say, needs_are_there};
pub use machine_file;
pub use methods;
pub use ninja;
pub use operations;
pub use option_values;
pub use options;
pub use path_set;
pub use ports;
pub use project_calls;
pub use question_run::questions;
pub use resource_calls;
pub use resources;
pub use setup_run::setup;
pub use sources;
pub use support;
pub use syntax;
pub use target_calls;
pub use task::perform;
pub use template;
pub use values;
pub use versions;
pub use world;
pub use world::{Settings, SettingsFault};
