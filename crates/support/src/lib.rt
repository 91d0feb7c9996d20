//! Provides what all other crates may need.
//!
//! [`faults`] has the faults E1 to E24 and the line that reports one, and [`limits`] the limits of a run. [`paths`] has the rules of paths,
//! [`tables`] hash tables for untrusted keys, and [`text_lists`] lists of texts. Nothing here knows what is refused and when, or what the
//! keys and the texts are for.
#![tactic(auto)]

pub mod faults;
pub mod limits;
pub mod paths;
pub mod tables;
pub mod text_lists;
