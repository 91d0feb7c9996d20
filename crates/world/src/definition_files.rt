//! Finds definition files, reads their bytes, and refuses bad ones.
mod contents;
mod lookup;

pub use contents::{line_at, read_file, refusal_of};
pub use lookup::{Found, MOST_BYTES, find};
