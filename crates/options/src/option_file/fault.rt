//! Says why a file is no option file.

ghost use Rattle.std.specs.Prelude.{◌≡◌, IfOk};
ghost use Rattle.support.specs.View.{fault_view};
ghost use Rattle.options.specs.option_file.Fault.{told_in};
ghost use Rattle.options.specs.option_file.FaultView.{fault_in};

use std::alloc::{AllocError, Global};
use support::faults::{Fault, Refusal};

/// Holds what is wrong with an option file, and the line of the statement, from 1. It is E15 if the statement declares no option, and E23
/// if it has a keyword that is left out.
#[derive(Drop)]
pub(crate) struct DeclareFault {
    pub refusal: Refusal,
    pub line: usize,
    /// The details, in words.
    pub detail: String,
}

impl DeclareFault {
    /// Returns the fault in the form that a run reports, in the option file with this path.
    pub(crate) fn tell_in(self, alloc: Global, path: &str) -> Result<Fault, AllocError>
        ensures { IfOk result (λ fault. fault_view fault ≡ told_in path.now (fault_in self)) }
    {
        Fault::new(alloc, path, self.line, self.refusal, &self.detail)
    }
}
