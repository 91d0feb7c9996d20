//! Says how a call ends.
ghost use Rattle.std.specs.Prelude.{◌≡◌};

/// Says how a call ends.
#[derive(Clone, Copy, Debug, PartialEq, Eq)]
pub enum Ending {
    /// The run wrote all its outputs.
    Done,
    /// The definition files are refused, and the run wrote the fault's line.
    Fault,
    /// Memory ran out.
    Memory,
    /// The source directory is no absolute path, or nothing can be built in the build directory.
    Settings,
    /// The slices spell no tree of files or no option arguments, or a directory isn't UTF-8.
    Slices,
}

impl Ending {
    ghost use Rattle.embedding.specs.Status.{status_of};

    /// Returns the status for C.
    pub fn status(self) -> u8
        ensures { result ≡ status_of self }
    {
        match self {
            Ending::Done => 0,
            Ending::Fault => 1,
            Ending::Memory => 3,
            Ending::Settings => 4,
            Ending::Slices => 5,
        }
    }
}
