//! Implements the methods of a program: the type `external_program` of the page "Reference manual".
ghost use Rattle.std.specs.Prelude.{◌≡◌};
ghost use Rattle.arguments.specs.Stops.{Gives};
ghost use Rattle.world.specs.Prelude.{data_of, world_of};
ghost use Rattle.methods.specs.Programs.{answer, first_word, full_path, is_found};

use crate::meson_object::source_root;
use crate::new_values::string_value;
use arguments::CallStop;
use std::alloc::Global;
use support::paths::path_below;
use values::language_names::{MethodName, ProgramMethod};
use values::{OperationRefusal, Program, Text, Value};
use world::Store;

fn is_found(program: &Program) -> bool
    ensures { result ≡ is_found program.now }
{
    !matches!(program, Program::NotFound)
}

fn first_word(words: &[Text]) -> Result<Value, CallStop>
    ensures { Gives data_of (first_word words.now) result }
{
    match words {
        [word, ..] => Ok(Value::Text(word.clone()?)),
        [] => Err(OperationRefusal::Arguments.into()),
    }
}

fn full_path(alloc: Global, source_root: &str, program: &Program) -> Result<Value, CallStop>
    ensures { Gives data_of (full_path source_root.now program.now) result }
{
    match program {
        Program::NotFound => Err(OperationRefusal::Arguments.into()),
        Program::Words(words) => first_word(words.as_slice()),
        Program::File(path) => {
            string_value(alloc, path_below(alloc, source_root, path.as_str())?)
        }
    }
}

// Returns the path of a program, with the source root of the run.
fn path_of(alloc: Global, store: &Store, program: &Program) -> Result<Value, CallStop>
    ensures { Gives data_of (full_path (world_of store.now).facts.settings.source_root program.now) result }
{
    full_path(alloc, source_root(store), program)
}

/// Returns the result of the method of a program with this name: `found`, `full_path` or `path`.
///
/// A path is the first word of the machine file's command, or the absolute path of a file below the source root. Refusals are E9 for a
/// program that was not found, and E22 for a path that is too long.
pub fn program_answer(
    alloc: Global,
    store: &Store,
    program: &Program,
    name: &MethodName,
) -> Result<Value, CallStop>
    ensures { Gives data_of (answer (world_of store.now).facts.settings.source_root program.now name.now) result }
{
    match name.of_program() {
        Some(ProgramMethod::Found) => Ok(Value::Boolean(is_found(program))),
        Some(ProgramMethod::FullPath) => path_of(alloc, store, program),
        None => Err(OperationRefusal::UnknownMethod.into()),
    }
}
