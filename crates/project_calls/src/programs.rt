//! Chooses the programs of the machine.
ghost use Rattle.std.specs.Prelude.{◌≡◌, IfOk, codes};
ghost use Rattle.build.specs.edge.Texts.{texts};
ghost use Rattle.machine_file.specs.Questions.{Key, answer_to};
ghost use Rattle.machine_file.specs.Readers.{words_said};
ghost use Rattle.machine_file.specs.View.{machine_in, value_in};
ghost use Rattle.world.specs.Prelude.{Does};
ghost use Rattle.project_calls.specs.Programs.{program, program_by, programs};
ghost use Rattle.project_calls.specs.ProgramsView.{programs_in};

use build::edge::{copies, strings};
use machine_file::{Machine, MachineValue};
use ports::{Outputs, Tree};
use std::alloc::{AllocError, Global};
use world::{Caller, Stop};

/// Holds the programs that every build has, each as a command line of one or more arguments.
#[derive(Drop)]
pub struct Programs {
    pub compiler: Vec<String>,
    pub archiver: Vec<String>,
}

fn words_of(alloc: Global, value: &MachineValue) -> Result<Vec<String>, AllocError>
    ensures { IfOk result (λ v. texts v.items ≡ words_said (value_in value.now)) }
{
    match value {
        MachineValue::Text(text) => strings(alloc, &[text.as_str()]),
        MachineValue::Texts(items) => copies(alloc, items),
        _ => Ok(Vec::new(alloc)),
    }
}

// Returns the command of a program from `[binaries]` of the machine file, or the default as its only argument.
fn words_or(
    alloc: Global,
    machine: &Machine,
    name: &str,
    default: &str,
) -> Result<Vec<String>, AllocError>
    ensures { IfOk result (λ v. texts v.items
        ≡ program_by (answer_to (machine_in machine.now) (Key (codes "binaries") name.now)) default.now) }
{
    match machine.get("binaries", name) {
        Some(value) => words_of(alloc, value),
        None => strings(alloc, &[default]),
    }
}

// Asks the machine file for a program, and returns its command.
fn program<T: Tree, O: Outputs>(
    caller: &mut Caller<'_, T, O>,
    name: &str,
    default: &str,
) -> Result<Vec<String>, Stop>
    ensures { Does T.seen O.seen (λ v. texts v.items) (program name.now default.now) caller.old result caller.new }
{
    caller.ask_key("binaries", name)?;
    let words = words_or(caller.alloc, caller.store.machine(), name, default)?;
    Ok(words)
}

/// Returns the compiler and the archiver, after asking the machine file for one and then the other.
pub fn ask_programs<T: Tree, O: Outputs>(caller: &mut Caller<'_, T, O>) -> Result<Programs, Stop>
    ensures { Does T.seen O.seen programs_in programs caller.old result caller.new }
{
    let compiler = program(caller, "c", "cc")?;
    let archiver = program(caller, "ar", "ar")?;
    Ok(Programs { compiler, archiver })
}
