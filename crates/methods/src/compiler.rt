//! Implements the methods of the C compiler: the page "Reference manual" of its type.
//!
//! No compiler runs: the machine file says in `[compiler]` which compiler it is, and in `[checks]` what it answers. Each method has a deed
//! in `specs/`, and its code does that deed on a [`world::Caller`].
//!
//! # Decisions
//!
//! **A check has one answer.** The answer to a check depends on its method and its positional arguments. Keywords change no answer, so a
//! name checked with two prefixes has one answer. In the manual, keywords change what is compiled.
mod answers;
mod checks;
mod dispatch;
mod names;
mod rows;

pub(crate) use dispatch::compiler_method;
pub(crate) use names::{has_compiler_method, is_left_out_compiler_method};
