//! Runs a task as a function from slices to bytes, for callers in other languages.
//!
//! A caller passes seven slices ([`InputSlices`]): the paths, sizes and contents of a source tree, the option arguments, the bytes of the
//! machine file, and the two directories. [`setup`], [`questions`] and [`fault`] run over the tree that the slices spell, and write what
//! the run writes into the caller's room, as a list of events.
//!
//! An event is a kind byte, a length of eight bytes, the lowest first, and that many bytes. `O` begins an output (the bytes are its name),
//! `B` has bytes of the open output, and `C` ends it. `L` has bytes of the log, and `E` bytes of a fault's line. Bytes of one kind that
//! follow one another are one event.
//!
//! Every call says how many bytes the whole answer has. The room gets as many of them as fit. A call keeps no state: it is a function of
//! its slices.
#![tactic(auto)]

mod answer_bytes;
mod ending;
mod entry_points;
mod input_slices;
mod slice_run;

pub use ending::Ending;
pub use entry_points::{fault, questions, setup};
pub use input_slices::InputSlices;
