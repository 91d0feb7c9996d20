//! Represents definition files as code: the syntax tree of a file as flat lists, in which parts are referred to by number, with the names
//! in one table.
//!
//! [`flatten`] makes the [`Code`] of a [`syntax::tree::File`]. The code owns the values of its literals, so the source can be dropped.
//! Evaluation walks this code: a frame there has the code and numbers, and no reference into a tree.
//!
//! # Decisions
//!
//! **Two lists of nodes.** Expressions and statements are numbered separately, each in a list of its own, since an expression never has a
//! statement as a part. Each node comes after its parts, and the invariant of [`Code`] says so. So whoever walks the code by number knows
//! that the walk ends. The table of names has only names of variables. Names of functions, methods and keywords are texts in the node.
//!
//! **Nodes are small.** A source may have a statement for every two bytes. So a statement takes 16 bytes and an expression 40: what is
//! larger is boxed, and numbers have 32 bits where that makes a node smaller. A larger number, which no file of 16 MiB needs, is reported
//! as out of memory. A literal keeps its value and not its text, which only proofs read.
//!
//! **The contract covers the tree of the code, not the number of nodes.** The contract of [`flatten`] gives the tree that the code means,
//! and says that nodes come after their parts. It does not say that every node is part of the tree: a draft that makes each node twice
//! would pass too. That none is made twice can only be read in the code.
//!
//! **The table of names.** The indexes of a code's names are less than the length of the table when the code was made. So the table may
//! grow while code runs, and [`names_may_grow`] proves that the code then still means the same file. [`flatten`] takes the table from the
//! caller while it works, so that the invariant of the draft can say that each index is in the table. It puts the table back whether it
//! succeeds or fails. Moving a table allocates nothing.
#![tactic(auto)]

mod code;
mod draft;
mod expressions;
mod file_draft;
mod format_string;
mod from_tree;
mod literal;
mod names;
mod narrow_numbers;
pub mod node;
mod statements;

pub use code::Code;
pub use format_string::{FormatString, Part};
pub use from_tree::{flatten, names_may_grow};
pub use literal::{LiteralNode, LiteralValue, Spelling};
pub use names::Names;
