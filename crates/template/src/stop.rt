//! Says why a template is not written to its end.
ghost use Rattle.template.specs.declared.stop.PassStop.TheVariants.{Device};
ghost use Rattle.std.specs.Prelude.{◌≡◌};

use ports::DeviceFault;
use thiserror::Error;

/// Says why a template was given up.
#[derive(Clone, Copy, Debug, PartialEq, Eq, Error)]
pub enum PassStop {
    /// E19: the line with this number begins with `#mesondefine` and does not define a name.
    #[error("E19 template: line {0}")]
    Template(u64),
    /// E22: the line with this number is longer than the limit.
    #[error("E22 limit: line {0}")]
    Limit(u64),
    /// The tree or the outputs failed.
    #[error("a device failed")]
    Device,
}

impl From<DeviceFault> for PassStop {
    ghost from_gives = { λ _ e. e ≡ Device };

    fn from(_fault: DeviceFault) -> PassStop {
        PassStop::Device
    }
}
