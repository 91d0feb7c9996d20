//! Reports that a call of a device failed.
use thiserror::Error;

/// Reports that a device could not do what it was asked to do. All calls of devices have this one error.
#[derive(Clone, Copy, Debug, PartialEq, Eq, Error)]
#[error("device fault")]
pub struct DeviceFault;
