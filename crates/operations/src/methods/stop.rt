//! Lists the reasons why a call returns no value.

ghost use Rattle.std.specs.Prelude.{◌≡◌, alloc_error};

use std::alloc::{AllocError, AllocFailed};
use thiserror::Error;
use values::OperationRefusal;

/// Says why a call returns no value: it was refused, or ran out of memory.
#[derive(Debug, Drop, Error)]
pub enum MethodStop {
    #[error(transparent)]
    Refused(OperationRefusal),
    #[error("out of memory")]
    Memory(AllocError),
}

impl From<OperationRefusal> for MethodStop {
    ghost use Rattle.operations.specs.declared.methods.stop.MethodStop.TheVariants.{Refused};

    ghost from_gives = { λ r s. s ≡ Refused r };

    fn from(refusal: OperationRefusal) -> MethodStop {
        MethodStop::Refused(refusal)
    }
}

impl From<AllocError> for MethodStop {
    ghost use Rattle.operations.specs.declared.methods.stop.MethodStop.TheVariants.{Memory};

    ghost from_gives = { λ e s. s ≡ Memory e };

    fn from(error: AllocError) -> MethodStop {
        MethodStop::Memory(error)
    }
}

impl<T: Drop> From<AllocFailed<T>> for MethodStop {
    ghost use Rattle.operations.specs.declared.methods.stop.MethodStop.TheVariants.{Memory};

    ghost from_gives = { λ _ s. s ≡ Memory alloc_error };

    fn from(failed: AllocFailed<T>) -> MethodStop {
        MethodStop::Memory(AllocError::from(failed))
    }
}
