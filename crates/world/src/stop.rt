//! Lists the reasons why a run returned no value.
ghost use Rattle.std.specs.Prelude.{◌≡◌};

use ports::DeviceFault;
use std::alloc::{AllocError, AllocFailed};
use support::faults::Fault;
use thiserror::Error;

/// Says why an evaluation returned no value.
#[derive(Debug, Drop, Error)]
pub enum Stop {
    /// The definition files are refused.
    #[error(transparent)]
    Refused(Fault),
    /// A device failed.
    #[error("a device failed")]
    Device,
    /// Memory ran out.
    #[error("out of memory")]
    Memory,
}

impl From<AllocError> for Stop {
    ghost use Rattle.world.specs.declared.stop.Stop.TheVariants.{Memory};

    ghost from_gives = { λ _ s. s ≡ Memory };

    fn from(_error: AllocError) -> Stop {
        Stop::Memory
    }
}

impl<T: Drop> From<AllocFailed<T>> for Stop {
    ghost use Rattle.world.specs.declared.stop.Stop.TheVariants.{Memory};

    ghost from_gives = { λ _ s. s ≡ Memory };

    fn from(_error: AllocFailed<T>) -> Stop {
        Stop::Memory
    }
}

impl From<DeviceFault> for Stop {
    ghost use Rattle.world.specs.declared.stop.Stop.TheVariants.{Device};

    ghost from_gives = { λ _ s. s ≡ Device };

    fn from(_fault: DeviceFault) -> Stop {
        Stop::Device
    }
}
