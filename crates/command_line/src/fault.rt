//! Says why a command line gives no line.
ghost use Rattle.std.specs.Prelude.{◌≡◌};
ghost use Rattle.command_line.specs.declared.fault.LineFault.TheVariants.{Memory};

use std::alloc::AllocError;
use thiserror::Error;

/// Says why a command line gives no [`Line`](crate::Line). Its `Display` is the whole text for the user.
#[derive(Debug, Drop, Error)]
pub enum LineFault {
    /// The user asked for help. The text belongs on the standard output.
    #[error("{0}")]
    Help(String),
    /// The program does not accept these arguments. The text belongs on the standard error.
    #[error("{0}")]
    Usage(String),
    /// Memory ran out.
    #[error(transparent)]
    Memory(AllocError),
}

impl From<AllocError> for LineFault {
    ghost from_gives = { λ error fault. fault ≡ Memory error };

    fn from(error: AllocError) -> LineFault {
        LineFault::Memory(error)
    }
}
