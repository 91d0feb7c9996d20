//! Runs a whole evaluation.
ghost use Rattle.std.specs.Prelude.{◌≡◌, ℕ, [], IfOk};
ghost use Rattle.std.specs.Rc.{rc_value};
ghost use Rattle.machine_file.specs.View.{machine_in};
ghost use Rattle.ports.specs.Endings.{HasRoom};
ghost use Rattle.world.specs.Prelude.{Files, Holds, failures_after, settings_view};
ghost use Rattle.world.specs.Trace.{seen_from_parts};
ghost use Rattle.interp.specs.FirstStatement.{Reads, RootGives, Starts};
ghost use Rattle.interp.specs.Cost.{tree_cost};
ghost use Rattle.interp.specs.Evaluated.{Evaluated, FailsOnce, Ticked};
ghost use Rattle.interp.specs.Evaluation.{IsSaid, MachineSaid, evaluated_files};

use crate::evaluator::Evaluator;
use arguments::no_arguments;
use expressions::Context;
use machine_file::Machine;
use ports::{Outputs, Tree};
use std::alloc::Global;
use std::rc::Rc;
use std::sync::ledger::Ledger;
use world::{Settings, Steps, Stop, Store, end_rule, ends_keep_up};

/// Holds the inputs of an evaluation, apart from its devices.
#[derive(Clone, Copy)]
pub struct Inputs<'a> {
    pub settings: &'a Settings,
    /// The bytes of the machine file, or none if there is no machine file.
    pub machine: &'a [u8],
}

/// Evaluates the definitions of a tree, from its root file on, in a new world.
///
/// The store holds what was done, even after a fault. [`Store::questions`] are the questions that were asked of the machine file until
/// then.
pub fn definitions<T: Tree, O: Outputs, L: Ledger>(
    alloc: Global,
    store: &mut Store,
    tree: &mut T,
    out: &mut O,
    steps: &mut Steps<L>,
) -> Result<(), Stop>
    requires new { store.old.entered ≡ [] }
    requires tree { HasRoom (T.seen tree.old).failures }
    requires out { HasRoom (O.seen out.old).failures }
    ensures device { FailsOnce (T.seen tree.old) (O.seen out.old) result (T.seen tree.new) (O.seen out.new) }
    ensures gives { (files : Files) → Holds (T.seen tree.old) files
        → RootGives files store.old (O.seen out.old) steps.old result store.new (O.seen out.new) steps.new }
{
    let context = Context::new(alloc, store, tree, out, steps);
    let mut room = no_arguments(alloc);
    let mut evaluator = Evaluator {
        context,
        room: &mut room,
    };
    let code = evaluator.context.open("")?;
    let answer = evaluator.run(code);
    end_rule(answer, evaluator.context.steps)?;
    Ok(())
}

/// Returns the machine file that these bytes spell. Fails with the fault of the machine file if they spell none; the tree was not looked at
/// then.
pub fn read_machine(alloc: Global, bytes: &[u8]) -> Result<Rc<Machine>, Stop>
    ensures reads { (said : MachineSaid) → IsSaid bytes.now said → Reads (λ m. machine_in (rc_value m)) said result }
    ensures quiet { (n : ℕ) → failures_after n result ≡ n }
{
    match Machine::read(alloc, bytes)? {
        Ok(machine) => Ok(Rc::new(alloc, machine)?),
        Err(fault) => Err(Stop::Refused(fault)),
    }
}

// Returns the world in which the root file is evaluated, over the machine file.
fn start(alloc: Global, inputs: &Inputs<'_>) -> Result<Store, Stop>
    ensures starts { (said : MachineSaid) → IsSaid inputs.now.machine.now said
        → Starts (settings_view inputs.now.settings.now) said result }
    ensures entered { IfOk result (λ s. s.entered ≡ []) }
    ensures quiet { (n : ℕ) → failures_after n result ≡ n }
{
    let machine = read_machine(alloc, inputs.machine)?;
    let store = Store::new(alloc, inputs.settings.copy(alloc)?, machine)?;
    Ok(store)
}

/// Evaluates the machine file and then the definitions of a tree, from its root file on, and returns the world after them.
pub fn evaluate<T: Tree, O: Outputs, L: Ledger>(
    alloc: Global,
    tree: &mut T,
    inputs: &Inputs<'_>,
    out: &mut O,
    steps: &mut Steps<L>,
) -> Result<Store, Stop>
    requires tree { HasRoom (T.seen tree.old).failures }
    requires out { HasRoom (O.seen out.old).failures }
    ensures gives { (files : Files) (said : MachineSaid) → Holds (T.seen tree.old) files → IsSaid inputs.now.machine.now said
        → Evaluated (evaluated_files files (settings_view inputs.now.settings.now) said) result
        (seen_from_parts (O.seen out.old) steps.old []) (seen_from_parts (O.seen out.new) steps.new []) }
    ensures ticks { (files : Files) (said : MachineSaid) → Holds (T.seen tree.old) files → IsSaid inputs.now.machine.now said
        → Ticked (evaluated_files files (settings_view inputs.now.settings.now) said) (tree_cost files) result
        (seen_from_parts (O.seen out.old) steps.old []) (seen_from_parts (O.seen out.new) steps.new []) }
    ensures device { FailsOnce (T.seen tree.old) (O.seen out.old) result (T.seen tree.new) (O.seen out.new) }
{
    // This call proves the law that the clause `ticks` rests on. It does nothing.
    ends_keep_up();
    let mut store = start(alloc, inputs)?;
    definitions(alloc, &mut store, tree, out, steps)?;
    Ok(store)
}
