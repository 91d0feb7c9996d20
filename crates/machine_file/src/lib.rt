//! Reads the machine file: what a user says of the machine, instead of programs that are run to find out.
//!
//! # Decisions
//!
//! **The meaning of a machine file is a relation.** `Says` has one case for each form of a line, which gives what the line adds to the
//! lines before it. [`Machine::read`] is proved to return what the lines say, and they say no other sections. A fault's line is the first
//! one that no further lines can repair.
//!
//! **Lines that could be read in two ways.** `[a] = ['x']` begins and ends as a section does, so it is a section. There is none of that
//! name, so it is E16. A comment after a section's name takes the closing bracket from the end of the line. Then the line would have to be
//! a key with its value, and is E16 too.
//!
//! **A check's key is a method, a space and anything.** A check is refused if its method is not one of the compiler's checks, or if no
//! space follows it. The number of arguments after the space is not examined: a check that no call makes answers nothing.
//!
//! **A default version comes last.** A section of a dependency without a version gets the version `unknown`, at the section's line. That is
//! known only at the section's end, so the version comes after the keys of the lines. Options, for which the order of lines matters, have
//! no such key.
#![tactic(auto)]

mod aside;
mod fault;
mod line;
mod line_problem;
mod machine;
mod number;
mod question;
mod reader;
mod section;
mod state;
mod text;
mod value;

pub use aside::{Aside, ShownAside};
pub use machine::{Entry, Machine, Section};
pub use number::integer_of;
pub use question::{Question, Topic};
pub use text::{Blanks, cut_first, trim};
pub use value::{MachineValue, read_value};
