//! Defines the devices of a run: a tree of files to read and outputs to write, on a disk or in memory.
//!
//! A device is a value of a type that implements [`Tree`] or [`Outputs`]. The calls of a device have one error, [`DeviceFault`], and each
//! device counts its own errors: [`Tree::failures`] and [`Outputs::failures`]. So a caller, and a theorem about it, can find out whether a
//! device failed.
//!
//! Contracts see a device as plain data. A tree is its files, the count of its failures, and whether it is *steady*. Each call of a steady
//! tree answers from the files and leaves them unchanged. Outputs are the list of their *events*, the name of the open output, the count of
//! their failures, and whether they *tell*. Each call of outputs that tell adds to the list what its result says.
//!
//! Devices in memory, which tests use, are always steady and always tell. No program can know either of a disk. For [`DiskTree`] and
//! [`DiskOutputs`] both are therefore closed: no contract states them or denies them. The clauses about bytes hold for a disk if nobody
//! writes the files during the run, and if it stores what it accepts. Only the user can know that.
//!
//! An *event* is one byte of an output, of the log or of a fault's line, or the opening or closing of an output. Outputs, log and fault
//! lines share one list, so it keeps their order. Contracts describe what a call writes as a list of *steps*, which are events without the
//! output's name. The steps of a function are those of its calls, one after the other, whatever is open. The name that is open before them
//! turns steps into events.
//!
//! ```text
//! Sends old new run whole       the outputs took all steps of the run if `whole` is true, else a beginning of them
//! Took old steps ending new     one call of a device: it took exactly these steps, and counted a failure if `ending` says so
//! Writes old run ending new     a call that writes: it sends the run, counts its failure, and leaves the same output open
//! Makes old run ending new      a call that also opens and closes outputs: it sends the run, and counts its failure
//! Asks old ending new           a call of a tree: a steady tree stays as it is, and a failure is counted
//! ```
//!
//! An ending is `Whole`, `Failed` (the device counted one more failure) or `Short` (another reason ended the call, such as a lack of
//! memory). `ending_of_result result` is the ending of a result whose one error is a device's. A call requires `HasRoom`: one more failure
//! can be counted. It requires `IsOpen` if it writes into an output.
//!
//! [`put_all`], [`log_all`] and [`fault_all`] write whole slices. They take one step for each byte.
//!
//! # Decisions
//!
//! **What a disk does where the rules are silent.** Three kinds of path are absent, not failures: one that leads through a file, one with a
//! NUL byte and one that is too long. Reading a file that does not exist gives no bytes. [`DiskOutputs`] flushes an output when its buffer
//! is full, at `close`, and before the next output is begun or a fault is reported. It allocates the buffers of log and fault lines when it
//! is made. So a run that a template's fault ends has status 2 if the bytes before the fault can't be written. A line of the log and a line
//! of a fault are flushed at their ends, each after the other stream, so that a user sees them in order.
//!
//! **An output is whole or absent.** An output is written under a name that no output can have (`|` is refused in the paths of a
//! `build.ninja`). If the old file has the same size, both are compared before the new one is renamed: a file with the same bytes keeps its
//! time. If the comparison fails for any reason, the file is synced and renamed.
//!
//! **Nothing below the root is trusted.** Whatever has the temporary name of an output is removed and the file made anew, so no link there
//! is followed. A folder on the way that is a link is refused. A program that changes the folders during the run is not kept out, because
//! the standard library has no calls relative to an open folder.
#![tactic(auto)]

mod disk_file;
mod disk_folder;
mod disk_outputs;
mod disk_tree;
mod fault;
pub mod memory;
mod no_outputs;
mod outputs;
mod send;
mod tree;

pub use disk_outputs::{DiskOutputs, OutputPlace};
pub use disk_tree::DiskTree;
pub use fault::DeviceFault;
pub use no_outputs::NoOutputs;
pub use outputs::Outputs;
pub use send::{fault_all, log_all, put_all};
pub use tree::Tree;
