//! Answers `meson fault`: runs the evaluation and prints the fault in which it ends and the details of that fault.
ghost use Rattle.std.specs.Prelude.{◌++◌, ◌<◌, codes, option_map};
ghost use Rattle.ports.specs.Endings.{HasRoom, ending_of_result};
ghost use Rattle.ports.specs.Outputs.{Writes, logs};
ghost use Rattle.support.specs.View.{fault_view};
ghost use Rattle.backend.specs.Concluding.{Agrees};
ghost use Rattle.interp.specs.Evaluation.{IsSaid, MachineSaid};
ghost use Rattle.world.specs.Prelude.{Files, Holds, settings_view};
ghost use Rattle.meson.specs.FaultRun.{TellsFault, TellsStop, detail_told, ending_told, fault_told, told_whole};
ghost use Rattle.meson.specs.Setup.{Concludes, FailsOnce};

use crate::question_run::{Asking, ask_run};
use backend::{Status, refuse};
use ports::{DeviceFault, Outputs, Tree, log_all};
use std::alloc::Global;
use support::faults::Fault;
use world::{Settings, Stop};

#[tactic(auto, using(ports::proofs::Sending::sending))]
fn log_line<O: Outputs>(text: &str, out: &mut O) -> Result<(), DeviceFault>
    requires { HasRoom (O.seen out.old).failures }
    ensures { Writes (O.seen out.old) (logs text.now ++ logs (codes "\n")) (ending_of_result result) (O.seen out.new) }
{
    log_all(out, text.as_bytes())?;
    log_all(out, b"\n")
}

// Writes the details of a fault as one line of the log.
fn tell_detail<O: Outputs>(fault: &Fault, out: &mut O) -> Status
    requires { HasRoom (O.seen out.old).failures }
    ensures { Concludes (detail_told (fault_view fault.now)) result (O.seen out.old) (O.seen out.new) }
{
    match log_line(fault.detail(), out) {
        Ok(()) => Status::Fault,
        Err(_) => Status::Device,
    }
}

// Writes the line of a fault, then its details.
fn tell<O: Outputs>(fault: &Fault, out: &mut O) -> Status
    requires { HasRoom (O.seen out.old).failures }
    ensures { Concludes (told_whole (fault_view fault.now)) result (O.seen out.old) (O.seen out.new) }
{
    match refuse(fault, out) {
        Status::Fault => tell_detail(fault, out),
        status => status,
    }
}

// Writes the fault, if there is one, and returns the status.
fn end<O: Outputs>(fault: &Option<Fault>, out: &mut O) -> Status
    requires { HasRoom (O.seen out.old).failures }
    ensures { Concludes (ending_told (option_map fault_view fault.now)) result (O.seen out.old) (O.seen out.new) }
{
    match fault {
        Some(fault) => tell(fault, out),
        None => Status::Done,
    }
}

// Writes the fault at which a run stopped. Other stops write nothing.
fn tell_stop<O: Outputs>(stop: Stop, out: &mut O) -> Status
    requires { HasRoom (O.seen out.old).failures }
    ensures { TellsStop stop result (O.seen out.old) (O.seen out.new) }
{
    match stop {
        Stop::Refused(fault) => tell(&fault, out),
        Stop::Device => Status::Device,
        Stop::Memory => Status::Memory,
    }
}

// Writes the fault of a run, if it has one.
fn settle<O: Outputs>(answer: Result<Asking, Stop>, out: &mut O) -> Status
    requires { HasRoom (O.seen out.old).failures }
    ensures { TellsFault answer result (O.seen out.old) (O.seen out.new) }
{
    match answer {
        Ok(asking) => end(&asking.fault, out),
        Err(stop) => tell_stop(stop, out),
    }
}

/// Writes the fault in which the run of [`setup`](crate::setup_run::setup) over the same bytes ends.
///
/// The fault's line goes to the outputs as usual, and its details go to the log as one line, which is empty if the place says enough.
/// Without a fault, nothing is written.
pub fn fault<T: Tree, O: Outputs>(
    alloc: Global,
    tree: &mut T,
    settings: &Settings,
    machine: &[u8],
    out: &mut O,
) -> Status
    requires tree { HasRoom (T.seen tree.old).failures }
    requires out { HasRoom (O.seen out.old).failures }

    // If the tree is steady, status `Done` or `Fault` is that of the run, and outputs that tell took the line of its fault and its detail,
    // and nothing else. With status `Device` or `Memory` they took a beginning. The fault is that of the run that `setup` does.
    ensures run { (files : Files) (said : MachineSaid) → Holds (T.seen tree.old) files → IsSaid machine.now said
        → Agrees (fault_told files (settings_view settings.now) said) result (O.seen out.old) (O.seen out.new) }

    // For any devices: status `Device` means that exactly one of them has failed, once. With every other status, none has failed.
    ensures device { FailsOnce result (T.seen tree.old).failures (O.seen out.old).failures (T.seen tree.new).failures
        (O.seen out.new).failures }
{
    let answer = ask_run(alloc, tree, settings, machine);
    settle(answer, out)
}
