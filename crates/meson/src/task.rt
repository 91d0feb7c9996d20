//! Does what a command line asks for, over any devices.
ghost use Rattle.ports.specs.Endings.{HasRoom};
ghost use Rattle.backend.specs.Concluding.{Agrees};
ghost use Rattle.interp.specs.Evaluation.{IsSaid, MachineSaid};
ghost use Rattle.world.specs.Prelude.{Files, Holds, settings_view};
ghost use Rattle.meson.specs.Setup.{FailsOnce};
ghost use Rattle.meson.specs.Tasks.{run_by};

use crate::fault_run::fault;
use crate::question_run::questions;
use crate::setup_run::setup;
use backend::Status;
use command_line::Task;
use interp::Inputs;
use ports::{Outputs, Tree};
use std::alloc::Global;

/// Runs the task over these settings and bytes of a machine file: [`setup`], [`questions`] or [`fault`].
pub fn perform<T: Tree, O: Outputs>(
    alloc: Global,
    task: Task,
    tree: &mut T,
    inputs: &Inputs<'_>,
    out: &mut O,
) -> Status
    requires tree { HasRoom (T.seen tree.old).failures }
    requires out { HasRoom (O.seen out.old).failures }

    // If the tree is steady, status `Done` or `Fault` is that of the task's run, and outputs that tell took all of its steps. With status
    // `Device` or `Memory` they took a beginning.
    ensures run { (files : Files) (said : MachineSaid) → Holds (T.seen tree.old) files → IsSaid inputs.now.machine.now said
        → Agrees (run_by task files (settings_view inputs.now.settings.now) said) result (O.seen out.old) (O.seen out.new) }

    // For any devices: status `Device` means that exactly one of them has failed, once. With every other status, none has failed.
    ensures device { FailsOnce result (T.seen tree.old).failures (O.seen out.old).failures (T.seen tree.new).failures
        (O.seen out.new).failures }
{
    match task {
        Task::Setup => setup(alloc, tree, inputs.settings, inputs.machine, out),
        Task::Questions => questions(alloc, tree, inputs.settings, inputs.machine, out),
        Task::Fault => fault(alloc, tree, inputs.settings, inputs.machine, out),
    }
}
