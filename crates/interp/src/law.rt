//! States what holds of every evaluation, as functions that do nothing and whose contracts hold.
ghost use Rattle.world.specs.Prelude.{data_of};
ghost use Rattle.interp.specs.Laws.{CallsAsEvaluated, ClosesWhatItMakes, DependsOnLooked, MachineFilesSay};
ghost use Rattle.interp.specs.Laws.{NotesWhatItLooksAt, StepsWithinCost};
ghost use Rattle.expressions.specs.Rounds.{HasFewRounds};

use values::{Value, values_have_few_items};

/// Proves that an evaluation depends only on what it looks at.
///
/// If two trees agree on the paths that the evaluation of the first looks at, and two machine files agree on the questions that it asks,
/// both evaluations are equal. Only the machine file in the last world may differ.
pub fn depends_on_looked()
    ensures { DependsOnLooked }
{}

/// Proves that after an evaluation the project has noted the paths that were looked at: each once, in the order of the first look, as
/// present or absent.
pub fn notes_what_it_looks_at()
    ensures { NotesWhatItLooksAt }
{}

/// Proves that after a successful evaluation each output of `configure_file` was closed.
pub fn closes_what_it_makes()
    ensures { ClosesWhatItMakes }
{}

/// Proves that a loop over a value has no more than 65,536 iterations, because no list and no dictionary has more items.
pub fn loops_are_few(value: &Value)
    ensures { HasFewRounds (data_of value.now) }
{
    values_have_few_items(value);
}

/// Proves that an evaluation in which no loop is over more than 65,536 values ends at most as many rules as its tree of files costs.
pub fn steps_within_cost()
    ensures { StepsWithinCost }
{}

/// Proves that every sequence of bytes has exactly one reading as a machine file: its sections, or a fault.
pub fn machine_files_say()
    ensures { MachineFilesSay }
{}

/// Proves that a call by a name, after `project` was called, does what evaluation does for that call at the present line, with these
/// argument values.
pub fn calls_as_evaluated()
    ensures { CallsAsEvaluated }
{}
