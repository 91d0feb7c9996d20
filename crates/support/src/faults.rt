//! Defines the faults E1 to E24, their texts, and the line that reports one.
//!
//! ```text
//! FILE:LINE: ERROR: TEXT        TEXT is the number, a space and the words: E9 arguments
//! ```
//!
//! E5, E8, E14 and E17 name what they are about, after a colon and a space. E18 has no text but its message.

mod fault;
mod refusal;

pub use fault::Fault;
pub use refusal::Refusal;
