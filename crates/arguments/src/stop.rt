//! Lists the reasons why a part of a call returns no value.
ghost use Rattle.std.specs.Prelude.{◌≡◌};

use crate::refused::ArgumentError;
use std::alloc::{AllocError, AllocFailed};
use thiserror::Error;
use values::OperationRefusal;

/// Says why a part of a call returns no value: it was refused, or ran out of memory.
#[derive(Debug, Drop, Error)]
pub enum CallStop {
    /// The arguments are refused, with a detail.
    #[error(transparent)]
    Arguments(ArgumentError),
    /// An operation on values is refused.
    #[error(transparent)]
    Operation(OperationRefusal),
    /// Memory ran out.
    #[error("out of memory")]
    Memory,
}

impl From<ArgumentError> for CallStop {
    ghost use Rattle.arguments.specs.declared.stop.CallStop.TheVariants.{Arguments};

    ghost from_gives = { λ r s. s ≡ Arguments r };

    fn from(refused: ArgumentError) -> CallStop {
        CallStop::Arguments(refused)
    }
}

impl From<OperationRefusal> for CallStop {
    ghost use Rattle.arguments.specs.declared.stop.CallStop.TheVariants.{Operation};

    ghost from_gives = { λ r s. s ≡ Operation r };

    fn from(refusal: OperationRefusal) -> CallStop {
        CallStop::Operation(refusal)
    }
}

impl From<AllocError> for CallStop {
    ghost use Rattle.arguments.specs.declared.stop.CallStop.TheVariants.{Memory};

    ghost from_gives = { λ _ s. s ≡ Memory };

    fn from(_error: AllocError) -> CallStop {
        CallStop::Memory
    }
}

impl<T: Drop> From<AllocFailed<T>> for CallStop {
    ghost use Rattle.arguments.specs.declared.stop.CallStop.TheVariants.{Memory};

    ghost from_gives = { λ _ s. s ≡ Memory };

    fn from(_failed: AllocFailed<T>) -> CallStop {
        CallStop::Memory
    }
}
