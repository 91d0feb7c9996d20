//! Defines the events that outputs in memory keep.

/// Records what outputs took, one byte at a time. `N` is the type of an output's name.
#[derive(Clone, Copy, Debug, PartialEq, Eq)]
pub enum Event<N> {
    /// The output of this name was opened.
    Open(N),
    /// A byte of the output of this name.
    Byte(N, u8),
    /// The output of this name was closed.
    Close(N),
    /// A byte of the log.
    Log(u8),
    /// A byte of a fault's line.
    Fault(u8),
}
