//! Implements `find_program`: <https://mesonbuild.com/Reference-manual_functions.html#find_program>.
ghost use Rattle.std.specs.Prelude.{map, option_map, string_bytes};
ghost use Rattle.world.specs.Prelude.{Does, MayFail, arguments_data, data_of};
ghost use Rattle.resource_calls.specs.Programs.{file_named, find_program, first_program, named_path, no_program};
ghost use Rattle.resource_calls.specs.Programs.{program_at, program_named, program_wanted};
ghost use Rattle.resource_calls.specs.Required.{required_by};

use crate::call_results::return_object;
use crate::required::{gives_disabler, object_or, read_required};
use arguments::{Arguments, Requirement, Rule};
use ports::{Outputs, Tree};
use resources::program_words;
use support::faults::Refusal;
use support::paths::tree_path;
use values::{Object, Program, Text, Value};
use world::{Caller, Stop};

// ---- the program with a name

// Returns the program at a path if the file is present.
fn program_at<T: Tree, O: Outputs>(
    caller: &Caller<'_, T, O>,
    path: String,
    is_there: bool,
) -> Result<Option<Program>, Stop>
    ensures { Does T.seen O.seen (λ p. p) (program_at (string_bytes path) is_there) caller.now result caller.now }
{
    if !is_there {
        return Ok(None);
    }
    let answer = Text::new(caller.alloc, path)?;
    let text = caller.answer(answer)?;
    Ok(Some(Program::File(text)))
}

// Returns the path that a name refers to, and refuses one outside the source directory with E9.
fn named_path<T: Tree, O: Outputs>(caller: &Caller<'_, T, O>, name: &str) -> Result<String, Stop>
    ensures { Does T.seen O.seen string_bytes (named_path name.now) caller.now result caller.now }
{
    let source_root = caller.store.settings().source_root();
    let path = tree_path(caller.alloc, source_root, caller.store.folder(), name)?;
    match path {
        Some(path) => Ok(path),
        None => caller.refuse_by(Rule::NamesFile, name),
    }
}

// Returns the program that a name refers to if the file is present. The path counts as looked at.
fn file_named<T: Tree, O: Outputs>(
    caller: &mut Caller<'_, T, O>,
    name: &str,
) -> Result<Option<Program>, Stop>
    requires { MayFail T.seen O.seen caller.old }
    ensures { Does T.seen O.seen (λ p. p) (file_named name.now) caller.old result caller.new }
{
    let path = named_path(caller, name)?;
    let found = caller.is_there(path.as_str())?;
    program_at(caller, path, found)
}

// Returns the program with a name: that of the machine file, and otherwise a file.
fn program_named<T: Tree, O: Outputs>(
    caller: &mut Caller<'_, T, O>,
    name: &str,
) -> Result<Option<Program>, Stop>
    requires { MayFail T.seen O.seen caller.old }
    ensures { Does T.seen O.seen (λ p. p) (program_named name.now) caller.old result caller.new }
{
    caller.ask_key("binaries", name)?;
    let words = program_words(caller.alloc, caller.store.machine(), name);
    match caller.settle(words)? {
        Some(words) => Ok(Some(Program::Words(words))),
        None => file_named(caller, name),
    }
}

// ---- the first program that is found

// Returns the first program that is found. The names are looked up one after another.
fn first_program<T: Tree, O: Outputs>(
    caller: &mut Caller<'_, T, O>,
    names: &[&str],
) -> Result<Option<Program>, Stop>
    requires { MayFail T.seen O.seen caller.old }
    ensures { Does T.seen O.seen (λ p. p) (first_program (map (λ n. n.now) names.now)) caller.old result caller.new }
{
    for name in names {
        let found = program_named(caller, name)?;
        if let Some(program) = found {
            return Ok(Some(program));
        }
    }
    Ok(None)
}

// Returns the first program that is found, and `None` if nothing is found or looked up.
fn program_wanted<T: Tree, O: Outputs>(
    caller: &mut Caller<'_, T, O>,
    arguments: &Arguments,
) -> Result<Option<Program>, Stop>
    requires { MayFail T.seen O.seen caller.old }
    ensures { let a = arguments_data arguments.now in Does T.seen O.seen (λ p. p) (program_wanted (required_by a) a)
        caller.old result caller.new }
{
    match read_required(arguments) {
        Requirement::Disabled => Ok(None),
        Requirement::Required | Requirement::Optional => {
            let names = arguments.all_texts(caller.alloc)?;
            first_program(caller, &names)
        }
    }
}

// ---- the call

// Returns the result if no name is found. Refuses with E17 of the first name if the program is required.
fn no_program<T: Tree, O: Outputs>(
    caller: &Caller<'_, T, O>,
    arguments: &Arguments,
) -> Result<Option<Value>, Stop>
    ensures { let a = arguments_data arguments.now in Does T.seen O.seen (option_map data_of) (no_program (required_by a) a)
        caller.now result caller.now }
{
    match read_required(arguments) {
        Requirement::Required => caller.refuse(Refusal::NotFound, arguments.text_at(0)),
        Requirement::Optional | Requirement::Disabled => {
            let missing = Object::Program(Program::NotFound);
            return_object(caller, object_or(missing, gives_disabler(arguments)))
        }
    }
}

/// Runs `find_program(names..)`, which returns the first name that the machine file has or that is a file in the source directory.
///
/// Refuses a name outside the source directory with E9, and with E17 if a required program is not found.
pub fn find_program<T: Tree, O: Outputs>(
    caller: &mut Caller<'_, T, O>,
    arguments: &Arguments,
) -> Result<Option<Value>, Stop>
    requires { MayFail T.seen O.seen caller.old }
    ensures { Does T.seen O.seen (option_map data_of) (find_program (arguments_data arguments.now)) caller.old result caller.new }
{
    let found = program_wanted(caller, arguments)?;
    match found {
        Some(program) => return_object(caller, Object::Program(program)),
        None => no_program(caller, arguments),
    }
}
