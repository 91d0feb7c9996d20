//! Exports one function for C for each call of `embedding`. `include/hawkottoman.h` documents them.
#![tactic(auto)]

ghost use Rattle.std.specs.Prelude.{ℕ, List};
ghost use Rattle.command_line.specs.declared.line.Task.TheVariants as tasks;
ghost use Rattle.interp.specs.Evaluation.{MachineSaid};
ghost use Rattle.world.specs.Prelude.{Files};
ghost use Rattle.embedding.specs.Given.{Means};
ghost use Rattle.embedding.specs.Status.{EndsWith, KeepsAt, given_as};

use embedding::{Ending, InputSlices};
use std::alloc::Global;

/// Configures the project, as `meson setup` does.
#[unsafe(no_mangle)]
pub extern "C" fn hawkottoman_setup(
    alloc: Global,
    paths: &[u8],
    sizes: &[u64],
    contents: &[u8],
    words: &[u8],
    machine: &[u8],
    source_root: &[u8],
    build_folder: &[u8],
    room: &mut [u8],
    length: &mut u64,
) -> u8
    ensures run { (files : Files) (options : List (List ℕ)) (said : MachineSaid)
        → Means (given_as paths.now sizes.now contents.now words.now machine.now source_root.now build_folder.now) files options said
        → EndsWith tasks.Setup (given_as paths.now sizes.now contents.now words.now machine.now source_root.now build_folder.now) files
        options said result room.new length.new }
    ensures kept { KeepsAt result room.old room.new length.new }
{
    let given = InputSlices {
        paths,
        sizes,
        contents,
        words,
        machine,
        source_root,
        build_folder,
    };
    embedding::setup(alloc, &given, room, length).status()
}

/// Lists what the project asks the machine file, as `meson questions` does.
#[unsafe(no_mangle)]
pub extern "C" fn hawkottoman_questions(
    alloc: Global,
    paths: &[u8],
    sizes: &[u64],
    contents: &[u8],
    words: &[u8],
    machine: &[u8],
    source_root: &[u8],
    build_folder: &[u8],
    room: &mut [u8],
    length: &mut u64,
) -> u8
    ensures run { (files : Files) (options : List (List ℕ)) (said : MachineSaid)
        → Means (given_as paths.now sizes.now contents.now words.now machine.now source_root.now build_folder.now) files options said
        → EndsWith tasks.Questions (given_as paths.now sizes.now contents.now words.now machine.now source_root.now build_folder.now) files
        options said result room.new length.new }
    ensures kept { KeepsAt result room.old room.new length.new }
{
    let given = InputSlices {
        paths,
        sizes,
        contents,
        words,
        machine,
        source_root,
        build_folder,
    };
    embedding::questions(alloc, &given, room, length).status()
}

/// Reports the fault in which the project ends, and its details, as `meson fault` does.
#[unsafe(no_mangle)]
pub extern "C" fn hawkottoman_fault(
    alloc: Global,
    paths: &[u8],
    sizes: &[u64],
    contents: &[u8],
    words: &[u8],
    machine: &[u8],
    source_root: &[u8],
    build_folder: &[u8],
    room: &mut [u8],
    length: &mut u64,
) -> u8
    ensures run { (files : Files) (options : List (List ℕ)) (said : MachineSaid)
        → Means (given_as paths.now sizes.now contents.now words.now machine.now source_root.now build_folder.now) files options said
        → EndsWith tasks.Fault (given_as paths.now sizes.now contents.now words.now machine.now source_root.now build_folder.now) files
        options said result room.new length.new }
    ensures kept { KeepsAt result room.old room.new length.new }
{
    let given = InputSlices {
        paths,
        sizes,
        contents,
        words,
        machine,
        source_root,
        build_folder,
    };
    embedding::fault(alloc, &given, room, length).status()
}
