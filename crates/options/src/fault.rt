//! Says why options have no values.

ghost use Rattle.std.specs.Prelude.{◌≡◌, IfOk};
ghost use Rattle.support.specs.View.{fault_view};
ghost use Rattle.options.specs.Faults.{told_in};
ghost use Rattle.options.specs.View.{fault_in};

use std::alloc::{AllocError, Global};
use support::faults::{Fault, Refusal};
use thiserror::Error;

/// Says where a value comes from.
#[derive(Clone, Copy, Debug)]
pub enum Origin {
    /// The statement on this line, from 1, of the option file.
    Declared(usize),
    /// The keyword `default_options` of the call of `project`.
    Project,
    /// This line, from 1, of the machine file.
    MachineFile(usize),
    /// The `-D` argument with this number, from 1, of the command line.
    CommandLine(usize),
}

/// Holds what is wrong with a value, and where it comes from.
///
/// It is E15 if the option does not take the value, if there is no such option, or if a text is not a name with a value. It is E23 if the
/// value is left out.
#[derive(Debug, Drop, Error)]
#[error("{refusal}{}{detail}", if .detail.is_empty() {""} else {": "})]
pub struct OptionFault {
    pub place: Origin,
    pub refusal: Refusal,
    /// The details, in words.
    pub detail: String,
}

impl OptionFault {
    /// Returns the fault in the form that a run reports. `option_file` is the path of the option file, and `project_line` the line of the
    /// call of `project` in `meson.build`.
    pub fn tell_in(
        self,
        alloc: Global,
        option_file: &str,
        project_line: usize,
    ) -> Result<Fault, AllocError>
        ensures { IfOk result (λ fault. fault_view fault ≡ told_in option_file.now project_line (fault_in self)) }
    {
        let (file, line) = match self.place {
            Origin::Declared(line) => (option_file, line),
            Origin::Project => ("meson.build", project_line),
            Origin::MachineFile(line) => ("<machine file>", line),
            Origin::CommandLine(number) => ("<command line>", number),
        };
        Fault::new(alloc, file, line, self.refusal, &self.detail)
    }
}
