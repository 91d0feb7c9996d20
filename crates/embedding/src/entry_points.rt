//! Runs each task over slices.
ghost use Rattle.std.specs.Prelude.{ℕ, List};
ghost use Rattle.command_line.specs.declared.line.Task.TheVariants as tasks;
ghost use Rattle.interp.specs.Evaluation.{MachineSaid};
ghost use Rattle.world.specs.Prelude.{Files};
ghost use Rattle.embedding.specs.Answers.{Ends, Keeps};
ghost use Rattle.embedding.specs.Given.{Means};
ghost use Rattle.embedding.specs.GivenView.{given_view};

use crate::ending::Ending;
use crate::input_slices::InputSlices;
use crate::slice_run::run;
use meson::Task;
use std::alloc::Global;

/// Configures the project, as `meson setup` does.
pub fn setup(alloc: Global, given: &InputSlices<'_>, room: &mut [u8], length: &mut u64) -> Ending
    ensures run { (files : Files) (options : List (List ℕ)) (said : MachineSaid) → Means (given_view given.now) files options said
        → Ends tasks.Setup (given_view given.now) files options said result room.new length.new }
    ensures kept { Keeps result room.old room.new length.new }
{
    run(alloc, Task::Setup, given, room, length)
}

/// Lists what the project asks the machine file, as `meson questions` does.
pub fn questions(
    alloc: Global,
    given: &InputSlices<'_>,
    room: &mut [u8],
    length: &mut u64,
) -> Ending
    ensures run { (files : Files) (options : List (List ℕ)) (said : MachineSaid) → Means (given_view given.now) files options said
        → Ends tasks.Questions (given_view given.now) files options said result room.new length.new }
    ensures kept { Keeps result room.old room.new length.new }
{
    run(alloc, Task::Questions, given, room, length)
}

/// Reports the fault in which the project ends, and its details, as `meson fault` does.
pub fn fault(alloc: Global, given: &InputSlices<'_>, room: &mut [u8], length: &mut u64) -> Ending
    ensures run { (files : Files) (options : List (List ℕ)) (said : MachineSaid) → Means (given_view given.now) files options said
        → Ends tasks.Fault (given_view given.now) files options said result room.new length.new }
    ensures kept { Keeps result room.old room.new length.new }
{
    run(alloc, Task::Fault, given, room, length)
}
