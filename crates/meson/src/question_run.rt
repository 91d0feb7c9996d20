//! Answers `meson questions`: runs the evaluation and prints what it asks the machine file, instead of writing outputs.
ghost use Rattle.std.specs.Prelude.{◌≡◌, ◌<◌, [], option_map};
ghost use Rattle.std.specs.Rc.{rc_value};
ghost use Rattle.ports.specs.Endings.{HasRoom};
ghost use Rattle.support.specs.View.{fault_view};
ghost use Rattle.backend.specs.Concluding.{Agrees};
ghost use Rattle.interp.specs.Evaluation.{IsSaid, MachineSaid, definitions, evaluated_files, sections_of};
ghost use Rattle.machine_file.specs.View.{machine_in};
ghost use Rattle.world.specs.Prelude.{Files, Holds, failures_after, settings_view, world_of};
ghost use Rattle.world.specs.Plan.{carry};
ghost use Rattle.meson.specs.Laws.{asked_by};
ghost use Rattle.meson.specs.Questions.{ending_with, lines_then, questions_of, questions_text};
ghost use Rattle.meson.specs.Setup.{Concludes, FailsOnce};
ghost use Rattle.meson.specs.QuestionLines.{Asks, AsksIn, AsksOver, Ended, Told, asked_text};

use crate::question_lines::log_questions;
use crate::setup_run::tell_fault;
use backend::{Status, WriteStop, refuse};
use interp::{Inputs, definitions, read_machine};
use machine_file::Machine;
use ports::{NoOutputs, Outputs, Tree};
use std::alloc::{AllocError, Global};
use std::marker::Brand;
use std::rc::Rc;
use std::sync::ledger::{Blank, Ledger};
use support::faults::Fault;
use world::{Settings, Steps, Stop, Store, new_steps};

/// Holds what a run left: the store, which has its questions, the machine file that answered them, and the fault in which the run ended.
#[derive(Drop)]
pub struct Asking {
    pub store: Store,
    pub machine: Rc<Machine>,
    pub fault: Option<Fault>,
}

// Writes the line of the fault, if there is one, and returns the status.
fn end<O: Outputs>(fault: &Option<Fault>, out: &mut O) -> Status
    requires { HasRoom (O.seen out.old).failures }
    ensures { Concludes (ending_with (option_map fault_view fault.now)) result (O.seen out.old) (O.seen out.new) }
{
    match fault {
        Some(fault) => refuse(fault, out),
        None => Status::Done,
    }
}

impl Asking {
    // Writes the lines of the questions to the log, then the line of the fault.
    fn tell<O: Outputs>(&self, alloc: Global, out: &mut O) -> Status
        requires { HasRoom (O.seen out.old).failures }
        ensures { Concludes (lines_then (asked_text self.now) (option_map fault_view self.now.fault)) result (O.seen out.old)
            (O.seen out.new) }
    {
        match log_questions(alloc, &self.machine, self.store.questions(), out) {
            Ok(()) => end(&self.fault, out),
            Err(WriteStop::Device) => Status::Device,
            Err(WriteStop::Memory) => Status::Memory,
        }
    }
}

// Returns the fault in which the definitions ended, if they did.
//
// The definitions ran over outputs that keep nothing, and `failures` counts the failures of those outputs. They fail only if no memory is
// left.
fn fault_after(ended: Result<(), Stop>, failures: u64) -> Result<Option<Fault>, Stop>
    ensures { Ended ended failures result }
{
    match ended {
        Ok(()) => Ok(None),
        Err(Stop::Refused(fault)) => Ok(Some(fault)),
        Err(Stop::Device) if failures == 0 => Err(Stop::Device),
        Err(Stop::Device) => Err(Stop::Memory),
        Err(Stop::Memory) => Err(Stop::Memory),
    }
}

// Evaluates the definitions in a new world, which then has their questions, and returns the fault in which they ended.
fn ask_in<T: Tree, L: Ledger>(
    alloc: Global,
    store: &mut Store,
    tree: &mut T,
    steps: &mut Steps<L>,
) -> Result<Option<Fault>, Stop>
    requires new { store.old.entered ≡ [] }
    requires tree { HasRoom (T.seen tree.old).failures }
    ensures asks { (files : Files) → Holds (T.seen tree.old) files
        → AsksIn (carry files definitions (world_of store.old)) store.new.asked result }
    ensures device { (T.seen tree.new).failures ≡ failures_after (T.seen tree.old).failures result }
{
    let mut nothing = NoOutputs::new(alloc);
    let ended = definitions(alloc, store, tree, &mut nothing, steps);
    fault_after(ended, nothing.failures())
}

// Evaluates the definitions over this machine file and returns what they asked.
fn ask_over<T: Tree, L: Ledger>(
    alloc: Global,
    tree: &mut T,
    settings: &Settings,
    machine: &Rc<Machine>,
    steps: &mut Steps<L>,
) -> Result<Asking, Stop>
    requires { HasRoom (T.seen tree.old).failures }
    ensures asks { (files : Files) → Holds (T.seen tree.old) files
        → AsksOver files (settings_view settings.now) (machine_in (rc_value machine.now)) result }
    ensures device { (T.seen tree.new).failures ≡ failures_after (T.seen tree.old).failures result }
{
    let own = machine.clone()?;
    let mut store = Store::new(alloc, settings.copy(alloc)?, machine.clone()?)?;
    let fault = ask_in(alloc, &mut store, tree, steps)?;
    Ok(Asking {
        store,
        machine: own,
        fault,
    })
}

// Reads the machine file and, if it has no fault, evaluates the definitions.
fn ask<T: Tree, L: Ledger>(
    alloc: Global,
    tree: &mut T,
    inputs: &Inputs<'_>,
    steps: &mut Steps<L>,
) -> Result<Asking, Stop>
    requires { HasRoom (T.seen tree.old).failures }
    ensures asks { (files : Files) (said : MachineSaid) → Holds (T.seen tree.old) files → IsSaid inputs.now.machine.now said
        → Asks (evaluated_files files (settings_view inputs.now.settings.now) said)
        (questions_text (sections_of said) (asked_by files (settings_view inputs.now.settings.now) said)) result }
    ensures device { (T.seen tree.new).failures ≡ failures_after (T.seen tree.old).failures result }
{
    let machine = read_machine(alloc, inputs.machine)?;
    ask_over(alloc, tree, inputs.settings, &machine, steps)
}

// Returns what a run asks. The ledger counts the rules of its evaluation.
fn ask_with<T: Tree, L: Ledger>(
    alloc: Global,
    tree: &mut T,
    inputs: &Inputs<'_>,
    blank: Blank,
) -> Result<Asking, Stop>
    requires tree { HasRoom (T.seen tree.old).failures }
    requires name { blank.name ≡ L.name }
    requires parts { blank.parts ≡ L.parts }
    requires some { 0 < blank.parts }
    ensures asks { (files : Files) (said : MachineSaid) → Holds (T.seen tree.old) files → IsSaid inputs.now.machine.now said
        → Asks (evaluated_files files (settings_view inputs.now.settings.now) said)
        (questions_text (sections_of said) (asked_by files (settings_view inputs.now.settings.now) said)) result }
    ensures device { (T.seen tree.new).failures ≡ failures_after (T.seen tree.old).failures result }
{
    let mut steps = new_steps::<L>(blank);
    ask(alloc, tree, inputs, &mut steps)
}

// Returns what the run over these bytes asks of the machine file, and the fault in which it ends.
pub(crate) fn ask_run<T: Tree>(
    alloc: Global,
    tree: &mut T,
    settings: &Settings,
    machine: &[u8],
) -> Result<Asking, Stop>
    requires { HasRoom (T.seen tree.old).failures }
    ensures asks { (files : Files) (said : MachineSaid) → Holds (T.seen tree.old) files → IsSaid machine.now said
        → Asks (evaluated_files files (settings_view settings.now) said)
        (questions_text (sections_of said) (asked_by files (settings_view settings.now) said)) result }
    ensures device { (T.seen tree.new).failures ≡ failures_after (T.seen tree.old).failures result }
{
    let inputs = Inputs { settings, machine };
    ask_with::<T, Brand>(alloc, tree, &inputs, Blank::new(1))
}

// Writes the lines of a run that was asked for its questions, or the fault at which it stopped.
fn settle<O: Outputs>(alloc: Global, answer: Result<Asking, Stop>, out: &mut O) -> Status
    requires { HasRoom (O.seen out.old).failures }
    ensures { Told answer result (O.seen out.old) (O.seen out.new) }
{
    match answer {
        Ok(asking) => asking.tell(alloc, out),
        Err(stop) => tell_fault(stop, out),
    }
}

/// Writes each question that the run of [`setup`](crate::setup_run::setup) over the same bytes asks of the machine file.
///
/// The log gets one line of JSON for each question, in the order in which they are first asked. If the run has a fault, its line follows.
/// Nothing else is written.
pub fn questions<T: Tree, O: Outputs>(
    alloc: Global,
    tree: &mut T,
    settings: &Settings,
    machine: &[u8],
    out: &mut O,
) -> Status
    requires tree { HasRoom (T.seen tree.old).failures }
    requires out { HasRoom (O.seen out.old).failures }

    // If the tree is steady, status `Done` or `Fault` is that of the run, and outputs that tell took all of these lines and nothing else.
    // With status `Device` or `Memory` they took a beginning. The questions and their answers are those of the run that `setup` does.
    ensures run { (files : Files) (said : MachineSaid) → Holds (T.seen tree.old) files → IsSaid machine.now said
        → Agrees (questions_of files (settings_view settings.now) said) result (O.seen out.old) (O.seen out.new) }

    // For any devices: status `Device` means that exactly one of them has failed, once. With every other status, none has failed.
    ensures device { FailsOnce result (T.seen tree.old).failures (O.seen out.old).failures (T.seen tree.new).failures
        (O.seen out.new).failures }
{
    let answer = ask_run(alloc, tree, settings, machine);
    settle(alloc, answer, out)
}
