//! Provides devices over bytes in memory: a tree of files that lie in a caller's slices, and outputs that keep what is written.
//!
//! [`SliceTree`] reads three slices: the paths, each ended by a zero byte, the sizes, and the contents, joined. It copies neither paths nor
//! contents. [`KeptOutputs`] keep what a run writes as [`Piece`]s. [`texts`] reads texts that are each ended by a zero byte.
//!
//! Contracts see both as any device of `ports`. The tree is always steady and never fails. The outputs always tell, and fail only if memory
//! runs out.
#![tactic(auto)]

mod outputs;
mod piece;
mod text;
mod tree;

pub use outputs::KeptOutputs;
pub use piece::{Piece, PieceKind};
pub use text::{TextsFault, texts};
pub use tree::{SliceTree, TreeFault};
