//! Says why bytes are no machine file.

ghost use Rattle.std.specs.Prelude.{◌≡◌, IfOk};
ghost use Rattle.support.specs.View.{fault_view};
ghost use Rattle.machine_file.specs.Fault.{fault_of_machine_file};
ghost use Rattle.machine_file.specs.View.{fault_in};

use std::alloc::{AllocError, Global};
use support::faults::{Fault, Refusal};

/// Holds what is wrong with a machine file, and the line, from 1. It is E1 if the bytes are not UTF-8, and E16 if no machine file begins
/// with the lines up to this one.
#[derive(Drop)]
pub(crate) struct MachineFault {
    pub refusal: Refusal,
    pub line: usize,
    /// The details, in words. They are empty for E1.
    pub detail: String,
}

impl MachineFault {
    /// Returns the fault in the form that a run reports. Its file is `<machine file>`.
    pub(crate) fn tell(&self, alloc: Global) -> Result<Fault, AllocError>
        ensures { IfOk result (λ fault. fault_view fault ≡ fault_of_machine_file (fault_in self.now)) }
    {
        Fault::new(
            alloc,
            "<machine file>",
            self.line,
            self.refusal,
            &self.detail,
        )
    }
}
