//! Runs a task over slices.
ghost use Rattle.std.specs.Prelude.{◌≡◌, ℕ, List};
ghost use Rattle.byte_devices.specs.Slices.{Spells};
ghost use Rattle.interp.specs.Evaluation.{IsSaid, MachineSaid};
ghost use Rattle.backend.specs.Concluding.{Whole};
ghost use Rattle.meson.specs.Tasks.{run_by};
ghost use Rattle.world.specs.Prelude.{Files, settings_view};
ghost use Rattle.embedding.specs.Answers.{Ends, Keeps};
ghost use Rattle.embedding.specs.Given.{Means};
ghost use Rattle.embedding.specs.GivenView.{given_view};
ghost use Rattle.embedding.specs.Kept.{IsKept, KeepsRun};
ghost use Rattle.embedding.specs.Running.{Answered, IsOfRun, ending_at, ending_of};

use crate::answer_bytes::write_pieces;
use crate::ending::Ending;
use crate::input_slices::{InputError, InputSlices, make_settings};
use byte_devices::{KeptOutputs, SliceTree, TreeFault};
use meson::{Inputs, Settings, Status, Task, perform};
use std::alloc::Global;

// Says how a run came to its end.
#[derive(Clone, Copy)]
enum Finished {
    Done,
    Fault,
}

// Holds a run that came to its end, and what its outputs took.
#[derive(Drop)]
struct KeptRun {
    finished: Finished,
    out: KeptOutputs,
}

// Runs the task over the tree that the slices spell, and keeps what the run writes.
fn keep_run(
    alloc: Global,
    task: Task,
    given: &InputSlices<'_>,
    settings: &Settings,
) -> Result<KeptRun, InputError>
    ensures { (files : Files) (said : MachineSaid) → Spells given.now.paths.now given.now.sizes.now given.now.contents.now files
        → IsSaid given.now.machine.now said → KeepsRun (run_by task files (settings_view settings.now) said) result }
{
    let mut tree = match SliceTree::new(alloc, given.paths, given.sizes, given.contents) {
        Ok(tree) => tree,
        Err(TreeFault::Slices) => return Err(InputError::Slices),
        Err(TreeFault::Memory) => return Err(InputError::Memory),
    };
    let mut out = KeptOutputs::new(alloc);
    let inputs = Inputs {
        settings,
        machine: given.machine,
    };
    match perform(alloc, task, &mut tree, &inputs, &mut out) {
        Status::Done => Ok(KeptRun {
            finished: Finished::Done,
            out,
        }),
        Status::Fault => Ok(KeptRun {
            finished: Finished::Fault,
            out,
        }),
        // Returns the ending of a finished run. The tree never fails, and the outputs fail only if memory runs out.
        Status::Device => Err(InputError::Memory),
        Status::Memory => Err(InputError::Memory),
    }
}

fn ending_of(finished: Finished) -> Ending
    ensures { result ≡ ending_of finished }
{
    match finished {
        Finished::Done => Ending::Done,
        Finished::Fault => Ending::Fault,
    }
}

fn ending_at(refused: InputError) -> Ending
    ensures { result ≡ ending_at refused }
{
    match refused {
        InputError::Slices => Ending::Slices,
        InputError::Settings => Ending::Settings,
        InputError::Memory => Ending::Memory,
    }
}

// Writes what a run's outputs took.
fn answer(kept: &KeptRun, room: &mut [u8], length: &mut u64) -> Ending
    ensures answered { (run : Whole) → IsKept run kept.now → Answered run result room.new length.new }
    ensures of_run { IsOfRun result }
{
    let Some(len) = write_pieces(room, kept.out.pieces()) else {
        return Ending::Memory;
    };
    *length = len as u64;
    ending_of(kept.finished)
}

/// Runs the task over the tree that the slices spell, and writes what the run writes into the room, as many bytes as fit. `length` becomes
/// the number of all bytes.
pub fn run(
    alloc: Global,
    task: Task,
    given: &InputSlices<'_>,
    room: &mut [u8],
    length: &mut u64,
) -> Ending
    // Let the slices mean these files, option arguments and reading of a machine file. Then the ending is that of the task's run, and the
    // room begins with what that run writes. This holds unless memory ran out or no settings are given.
    ensures run { (files : Files) (options : List (List ℕ)) (said : MachineSaid) → Means (given_view given.now) files options said
        → Ends task (given_view given.now) files options said result room.new length.new }

    // A call that found nothing to run wrote nothing.
    ensures kept { Keeps result room.old room.new length.new }
{
    *length = 0;
    let settings = match make_settings(alloc, given) {
        Ok(settings) => settings,
        Err(refused) => return ending_at(refused),
    };
    match keep_run(alloc, task, given, &settings) {
        Ok(kept) => answer(&kept, room, length),
        Err(refused) => ending_at(refused),
    }
}
