//! Says why the outputs of a run are not written whole.
ghost use Rattle.std.specs.Prelude.{◌≡◌};

use ports::DeviceFault;
use std::alloc::AllocError;
use thiserror::Error;

/// Says why a file was not written whole.
#[derive(Clone, Copy, Debug, Error)]
pub enum WriteStop {
    /// A device failed.
    #[error("a device failed")]
    Device,
    /// No memory was left.
    #[error("out of memory")]
    Memory,
}

impl From<AllocError> for WriteStop {
    ghost use Rattle.backend.specs.declared.stop.WriteStop.TheVariants.{Memory};

    ghost from_gives = { λ _ s. s ≡ Memory };

    fn from(_error: AllocError) -> WriteStop {
        WriteStop::Memory
    }
}

impl From<DeviceFault> for WriteStop {
    ghost use Rattle.backend.specs.declared.stop.WriteStop.TheVariants.{Device};

    ghost from_gives = { λ _ s. s ≡ Device };

    fn from(_fault: DeviceFault) -> WriteStop {
        WriteStop::Device
    }
}
