//! Runs `setup`: from the bytes of a tree to the events of the outputs.
ghost use Rattle.std.specs.Prelude.{◌≡◌, ◌<◌};
ghost use Rattle.ports.specs.Endings.{HasRoom};
ghost use Rattle.backend.specs.Means.{Means};
ghost use Rattle.backend.specs.Concluding.{Agrees};
ghost use Rattle.interp.specs.Evaluation.{IsSaid, MachineSaid};
ghost use Rattle.world.specs.Prelude.{Files, Holds, settings_view};
ghost use Rattle.meson.specs.Laws.{AreThere};
ghost use Rattle.meson.specs.Setup.{FailsOnce, OnDone, OnEnd, OnFault, OnProject, Settles, Stops, project_of, run_of};

use crate::law::needs_are_there;
use backend::{Status, conclude, refuse};
use interp::{Inputs, evaluate};
use ports::{Outputs, Tree};
use std::alloc::Global;
use std::marker::Brand;
use std::mem::forget;
use std::sync::ledger::{Blank, Ledger};
use world::{Settings, Stop, Store, new_steps};

// Writes the line of the fault at which a run stopped, and returns the status. Other stops write nothing.
pub(crate) fn tell_fault<O: Outputs>(stop: Stop, out: &mut O) -> Status
    requires { OnFault stop (HasRoom (O.seen out.old).failures) }
    ensures { Stops stop result (O.seen out.old) (O.seen out.new) }
{
    match stop {
        Stop::Refused(fault) => refuse(&fault, out),
        Stop::Device => Status::Device,
        Stop::Memory => Status::Memory,
    }
}

// Writes all outputs of the project after a successful evaluation, or else the line of the fault.
fn settle<O: Outputs>(alloc: Global, answer: Result<Store, Stop>, out: &mut O) -> Status
    requires { OnEnd answer (HasRoom (O.seen out.old).failures) }
    ensures settles { Settles answer result (O.seen out.old) (O.seen out.new) }
    ensures meaning { OnProject answer Means }
{
    match answer {
        Ok(store) => {
            let status = conclude(alloc, store.project(), out);
            // The process ends next and frees this memory.
            forget(store);
            status
        }
        Err(stop) => tell_fault(stop, out),
    }
}

// Runs the project. The ledger counts the rules of its evaluation.
fn run_with<T: Tree, O: Outputs, L: Ledger>(
    alloc: Global,
    tree: &mut T,
    inputs: &Inputs<'_>,
    out: &mut O,
    blank: Blank,
) -> Status
    requires tree { HasRoom (T.seen tree.old).failures }
    requires out { HasRoom (O.seen out.old).failures }
    requires name { blank.name ≡ L.name }
    requires parts { blank.parts ≡ L.parts }
    requires some { 0 < blank.parts }
    ensures run { (files : Files) (said : MachineSaid) → Holds (T.seen tree.old) files → IsSaid inputs.now.machine.now said
        → Agrees (run_of files (settings_view inputs.now.settings.now) said) result (O.seen out.old) (O.seen out.new) }
    ensures meaning { (files : Files) (said : MachineSaid) → Holds (T.seen tree.old) files → IsSaid inputs.now.machine.now said
        → OnDone result (Means (project_of files (settings_view inputs.now.settings.now) said)) }
    ensures there { (files : Files) (said : MachineSaid) → Holds (T.seen tree.old) files → IsSaid inputs.now.machine.now said
        → OnDone result (AreThere files (settings_view inputs.now.settings.now) said) }
    ensures device { FailsOnce result (T.seen tree.old).failures (O.seen out.old).failures (T.seen tree.new).failures
        (O.seen out.new).failures }
{
    // This call proves the law that the clause `there` rests on. It does nothing.
    needs_are_there();
    let mut steps = new_steps::<L>(blank);
    let answer = evaluate(alloc, tree, inputs, out, &mut steps);
    settle(alloc, answer, out)
}

/// Configures a build directory: reads the definitions of the tree and writes `build.ninja` and `meson-info/introspect.json` to the
/// outputs.
///
/// The files, the settings and the bytes of the machine file determine the run: what the outputs are asked to take, in order and byte for
/// byte, and the status.
pub fn setup<T: Tree, O: Outputs>(
    alloc: Global,
    tree: &mut T,
    settings: &Settings,
    machine: &[u8],
    out: &mut O,
) -> Status
    requires tree { HasRoom (T.seen tree.old).failures }
    requires out { HasRoom (O.seen out.old).failures }

    // If the tree is steady, status `Done` or `Fault` is that of the run, and outputs that tell took all of its steps. With status `Device`
    // or `Memory` they took a beginning. The bytes of a machine file have exactly one reading: `machine_files_say`.
    ensures run { (files : Files) (said : MachineSaid) → Holds (T.seen tree.old) files → IsSaid machine.now said
        → Agrees (run_of files (settings_view settings.now) said) result (O.seen out.old) (O.seen out.new) }

    // With status `Done`, the Ninja manual reads `build.ninja` as exactly what the definitions declare, and a shell reads each command as
    // its words. No path is made twice. Each path that an edge needs is made earlier or exists, and no edge depends on itself.
    ensures meaning { (files : Files) (said : MachineSaid) → Holds (T.seen tree.old) files → IsSaid machine.now said
        → OnDone result (Means (project_of files (settings_view settings.now) said)) }

    // Each path that an edge needs is an output of an earlier edge, a file of the tree at which the run looked, or an output that the run
    // closed.
    ensures there { (files : Files) (said : MachineSaid) → Holds (T.seen tree.old) files → IsSaid machine.now said
        → OnDone result (AreThere files (settings_view settings.now) said) }

    // For any devices: status `Device` means that exactly one of them has failed, once. With every other status, none has failed.
    ensures device { FailsOnce result (T.seen tree.old).failures (O.seen out.old).failures (T.seen tree.new).failures
        (O.seen out.new).failures }
{
    let inputs = Inputs { settings, machine };
    run_with::<T, O, Brand>(alloc, tree, &inputs, out, Blank::new(1))
}
