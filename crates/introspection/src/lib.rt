//! Builds the introspection document of a project: a JSON value that shows its options, the files that were looked at, its dependencies,
//! installed files, targets and tests to other programs.
//!
//! [`introspect`] returns the value. [`document_text`] returns its text, which `serde_json` prints: each entry of a list is made, printed
//! and dropped before the next is made. [`question_lines`] returns what a run asks a machine file, line by line.
#![tactic(auto)]

mod document;
mod entries;
mod json_values;
mod questions;
mod serialization;

pub use document::{document_text, introspect};
pub use questions::{QuestionLine, Reply, beside_text, question_lines};
