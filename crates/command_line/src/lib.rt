//! Reads the command line of the program: `meson setup [-Dname=value].. [--native-file FILE] BUILDDIR`, and `meson questions` and `meson
//! fault` with the same arguments.
//!
//! # Decisions
//!
//! **The contract computes the parse.** If a command uses only plain options and positionals, `clap`'s contracts give its exact matches and
//! kind of error. They are functions of the command and the arguments. The command of this program is such a command.
//! `specs/CommandLine.antt` describes it once more as plain data, `meson_app`, and the code's command is proved to equal it.
//!
//! So the contract of [`command_line`] gives the result for each list of arguments, and `proofs/Examples.antt` computes it for some. The
//! program avoids options outside that fragment: no groups, no inferred `--name`, no values that begin with a hyphen after a space. A value
//! with a leading hyphen is written `-Dname=-value`, as one argument.
//!
//! **No `help` subcommand and no `--version`.** `clap` would add a subcommand `help`, which is switched off. `--help` does the same, and
//! without the subcommand each fault of a line has one meaning. There is no version to show yet.
#![tactic(auto)]

mod definition;
mod fault;
mod line;
mod read;

pub use fault::LineFault;
pub use line::{Line, Task};
pub use read::command_line;
