//! Describes a project's targets: their declarations, the files that they make, the libraries that they link, and the edges that make them.
#![tactic(auto)]

mod declared_target;
pub mod edge;
mod facts;
mod files;
mod libraries;
pub mod project;
mod sources;
mod target;
pub mod target_edges;
mod walk;

pub use declared_target::DeclaredTarget;
pub use facts::{Facts, Flags, OptionEntry, OptionType, OptionValue, Surroundings};
pub use files::{
    depfile_path, file_name, file_path, link_names, link_paths, objects, output_paths, paths_in,
    so_name,
};
pub use libraries::{
    are_libraries, build_target_at, file_at, is_library_at, links_libraries, target_at,
};
pub use sources::{
    Input, compiled_sources, generated_outputs, has_foreign_source, is_c, source_paths,
};
pub use target::{BuildTarget, CustomTarget, Lists, Source, Target, TargetKind};
pub use walk::linked_libraries;
