//! Ends a run, and decides its status.
ghost use Rattle.std.specs.Prelude.{◌≡◌, ◌+◌};
ghost use Rattle.ports.specs.Endings.{HasRoom};
ghost use Rattle.ports.specs.Outputs.{Makes};
ghost use Rattle.support.specs.View.{fault_view};
ghost use Rattle.backend.specs.BuildFile.{ending_of};
ghost use Rattle.backend.specs.Means.{Means};
ghost use Rattle.backend.specs.Concluding.{Agrees, done_with, failed_devices, faulted_with, outputs_steps, status_of_fault};
ghost use Rattle.backend.specs.Concluding.{status_of_outputs};

use crate::build_file::write_build_file;
use crate::document::write_document;
use crate::fault::write_fault;
use crate::law::meaning;
use crate::stop::WriteStop;
use build::project::Project;
use ports::{DeviceFault, Outputs};
use std::alloc::Global;
use support::faults::Fault;

/// Says how a run ended.
#[derive(Clone, Copy, Debug, PartialEq, Eq)]
pub enum Status {
    /// All outputs are written.
    Done,
    /// The definitions are refused, and the line of the fault is written.
    Fault,
    /// A device failed.
    Device,
    /// No memory was left.
    Memory,
}

fn status_of_outputs(answer: Result<(), WriteStop>) -> Status
    ensures { result ≡ status_of_outputs answer }
{
    match answer {
        Ok(()) => Status::Done,
        Err(WriteStop::Device) => Status::Device,
        Err(WriteStop::Memory) => Status::Memory,
    }
}

fn status_of_fault(answer: Result<(), DeviceFault>) -> Status
    ensures { result ≡ status_of_fault answer }
{
    match answer {
        Ok(()) => Status::Fault,
        Err(_) => Status::Device,
    }
}

fn write_outputs<O: Outputs>(alloc: Global, project: &Project, out: &mut O) -> Result<(), WriteStop>
    requires { HasRoom (O.seen out.old).failures }
    ensures { Makes (O.seen out.old) (outputs_steps project.now) (ending_of result) (O.seen out.new) }
{
    write_build_file(alloc, project, out)?;
    write_document(alloc, project, out)
}

/// Writes the outputs of a project whose definitions are evaluated: `build.ninja`, then the introspection document.
///
/// Returns `Done` if the outputs took everything. With `Device` or `Memory` they took a beginning. Ninja and a shell read the project's
/// edges in `build.ninja`.
pub fn conclude<O: Outputs>(alloc: Global, project: &Project, out: &mut O) -> Status
    requires { HasRoom (O.seen out.old).failures }
    ensures agrees { Agrees (done_with project.now) result (O.seen out.old) (O.seen out.new) }
    ensures means { Means project.now }
    ensures device { (O.seen out.new).failures ≡ (O.seen out.old).failures + failed_devices result }
{
    meaning(project);
    let answer = write_outputs(alloc, project, out);
    status_of_outputs(answer)
}

/// Writes the line of the fault for which the definitions are refused.
///
/// Returns `Fault` if the outputs took the whole line. With `Device` they took a beginning.
pub fn refuse<O: Outputs>(fault: &Fault, out: &mut O) -> Status
    requires { HasRoom (O.seen out.old).failures }
    ensures agrees { Agrees (faulted_with (fault_view fault.now)) result (O.seen out.old) (O.seen out.new) }
    ensures device { (O.seen out.new).failures ≡ (O.seen out.old).failures + failed_devices result }
{
    let answer = write_fault(fault, out);
    status_of_fault(answer)
}
