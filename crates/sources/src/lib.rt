//! Reads what the arguments of a call that declares a target name: sources, directories, libraries, a version, and outputs of the targets
//! so far.
//!
//! It also fills the placeholders in the texts of a custom target, such as `@INPUT@` and `@BASENAME@` (see `custom_target` on the page
//! "Reference manual"). Nothing here reads the file tree.
#![tactic(auto)]

mod command_objects;
mod file_values;
mod folders;
mod keywords;
mod libraries;
mod library_versions;
mod outputs;
mod placeholders;
mod refusals;
mod replacement;
mod sources;
mod words;

pub use command_objects::{Thing, thing_of};
pub use file_values::{directories_at, files_at};
pub use folders::folders_of;
pub use keywords::{folders_named, numbers_named, sources_named};
pub use library_versions::is_library_version;
pub use outputs::{output_at, outputs_at};
pub use placeholders::{PlaceholderScope, PlaceholderValue, PlaceholderValues, meaning_of};
pub use replacement::fill;
pub use sources::{NamedSource, sources_of};
pub use words::push_words;
