//! Computes the edges that make a target.

mod claims;
mod compile_words;
mod custom;
mod edge_list;
mod edge_parts;
mod link_and_archive;
mod parts;
mod relative_paths;
mod source_parts;
mod word_checks;
mod words;

pub use claims::{Claims, claims_of};
pub use edge_parts::{no_parts, target_parts};
pub use link_and_archive::LinkContext;
pub use parts::{BuildParts, CustomParts, TargetParts};
pub use source_parts::{SourceTexts, last_words, own_parts, source_texts};
