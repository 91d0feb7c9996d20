//! Writes the outputs of a project, `build.ninja` and the introspection document, or the line of a fault. States what `build.ninja` means.
//!
//! [`write_build_file`] writes `build.ninja`, byte for byte as `specs/BuildFile` defines. The edges of one target are made when they are
//! written, and not kept. The contract of [`meaning`], which does nothing, states that a reader who knows the Ninja manual reads the file
//! as the project's edges. [`write_document`] writes the introspection document. [`conclude`] ends a run with all outputs, [`refuse`] with
//! the line of a fault.
#![tactic(auto)]

mod build_file;
mod document;
mod fault;
mod law;
mod run_end;
mod stop;

pub use build_file::write_build_file;
pub use document::write_document;
pub use fault::write_fault;
pub use law::meaning;
pub use run_end::{Status, conclude, refuse};
pub use stop::WriteStop;
