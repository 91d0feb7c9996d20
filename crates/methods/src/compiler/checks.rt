//! Implements the checks of the compiler, and `find_library`.
ghost use Rattle.std.specs.Prelude.{◌≡◌, IfOk, Some, map, option_and_then, option_map, string_bytes};
ghost use Rattle.arguments.specs.Given.{argument};
ghost use Rattle.arguments.specs.Stops.{Gives};
ghost use Rattle.values.specs.Data.{text_in};
ghost use Rattle.machine_file.specs.Questions.{answer_to, check_topic};
ghost use Rattle.resources.specs.Beside.{call_question};
ghost use Rattle.world.specs.Prelude.{Does, arguments_data, data_of};
ghost use Rattle.world.specs.Deed.{consult};
ghost use Rattle.methods.specs.CompilerChecks.{check, checked_for, find_library, is_checked, library};
ghost use Rattle.methods.specs.CompilerChecks.{library_argument, library_named, required_as};

use crate::compiler::answers::is_true;
use arguments::{Arguments, CallStop, Requirement};
use machine_file::Topic;
use ports::{Outputs, Tree};
use resources::{call_question, found_dependency, missing_dependency};
use std::alloc::{AllocError, Global};
use values::{Dependency, Object, OperationRefusal, Text, Value};
use world::{Caller, Stop};

// Returns whether a check is true. A required check that is false is refused with E17 and a name. For a disabled requirement the result is
// false.
fn require_as<T: Tree, O: Outputs>(
    caller: &Caller<'_, T, O>,
    requirement: Requirement,
    is_so: bool,
    name: &str,
) -> Result<bool, Stop>
    ensures { Does T.seen O.seen (λ b. b) (required_as requirement is_so name.now) caller.now result caller.now }
{
    match requirement {
        Requirement::Required => {
            caller.need(is_so, support::faults::Refusal::NotFound, name)?;
            Ok(is_so)
        }
        Requirement::Optional => Ok(is_so),
        Requirement::Disabled => Ok(false),
    }
}

/// Asks the machine file for a check of these texts. The question carries what the arguments of the call say.
pub fn ask_check<T: Tree, O: Outputs>(
    caller: &mut Caller<'_, T, O>,
    method: &str,
    texts: &[&str],
    arguments: &Arguments,
) -> Result<(), Stop>
    ensures deed { Does T.seen O.seen (λ u. answer_to caller.old.store.now.machine (check_topic method.now (map (λ t. t.now) texts.now)))
        (consult (call_question (check_topic method.now (map (λ t. t.now) texts.now)) (arguments_data arguments.now)))
        caller.old result caller.new }
    ensures machine { caller.new.store.now.machine ≡ caller.old.store.now.machine }
{
    let topic = Topic::check(caller.alloc, method, texts)?;
    let question = call_question(caller.alloc, topic, arguments)?;
    caller.ask(question)
}

// Returns whether the machine file answers true to the check of this method with the texts of a call.
fn is_checked<T: Tree, O: Outputs>(
    caller: &mut Caller<'_, T, O>,
    method: &str,
    arguments: &Arguments,
) -> Result<bool, Stop>
    ensures { Does T.seen O.seen (λ b. b) (is_checked method.now (arguments_data arguments.now)) caller.old result caller.new }
{
    let texts = arguments.all_texts(caller.alloc)?;
    ask_check(caller, method, &texts, arguments)?;
    let is_so = is_true(caller.alloc, caller.store.machine(), method, &texts)?;
    Ok(is_so)
}

// Returns the result of a check, and refuses with E17 a required one that is false.
fn check_for<T: Tree, O: Outputs>(
    caller: &mut Caller<'_, T, O>,
    default: Requirement,
    method: &str,
    arguments: &Arguments,
) -> Result<bool, Stop>
    ensures { Does T.seen O.seen (λ b. b) (checked_for default method.now (arguments_data arguments.now)) caller.old result caller.new }
{
    let is_so = is_checked(caller, method, arguments)?;
    let requirement = arguments.requirement(default);
    require_as(caller, requirement, is_so, arguments.text_at(0))
}

/// Runs a check, such as `has_function(name)`. The result is false if it is not required and the machine file has no answer.
pub fn check<T: Tree, O: Outputs>(
    caller: &mut Caller<'_, T, O>,
    method: &str,
    arguments: &Arguments,
) -> Result<Option<Value>, Stop>
    ensures { Does T.seen O.seen (option_map data_of) (check method.now (arguments_data arguments.now)) caller.old result caller.new }
{
    let is_so = check_for(caller, Requirement::Optional, method, arguments)?;
    Ok(Some(Value::Boolean(is_so)))
}

// ---- libraries

fn library_argument(alloc: Global, name: &str) -> Result<String, AllocError>
    ensures { IfOk result (λ s. string_bytes s ≡ library_argument name.now) }
{
    let mut argument = String::from_str(alloc, "-l")?;
    argument.push_str(name)?;
    Ok(argument)
}

// Returns the dependency for a library.
fn library(alloc: Global, is_so: bool, name: &Text) -> Result<Dependency, CallStop>
    ensures { Gives (λ d. d) (library is_so name.now) result }
{
    if is_so {
        let link_args = [library_argument(alloc, name.as_str())?];
        found_dependency(alloc, name.as_str(), "unknown", &[], &link_args)
    } else {
        missing_dependency(alloc, name.as_str())
    }
}

// Returns the text of the first argument, if it is a text.
fn first_text(arguments: &Arguments) -> Option<&Text>
    ensures { option_map (λ t. t.now) result ≡ option_and_then text_in (argument 0 (arguments_data arguments.now)) }
{
    match arguments.argument(0) {
        Some(value) => value.as_text(),
        None => None,
    }
}

fn library_named(alloc: Global, is_so: bool, name: Option<&Text>) -> Result<Value, CallStop>
    ensures { Gives data_of (library_named is_so (option_map (λ t. t.now) name.entry)) result }
{
    let Some(name) = name else {
        return Err(OperationRefusal::Arguments.into());
    };
    let dependency = library(alloc, is_so, name)?;
    Ok(Value::of_object(alloc, Object::Dependency(dependency))?)
}

/// Runs `find_library(name)`, which returns a dependency without a version. If the check of that name is true, the dependency is found, and
/// its linker argument is `-lNAME`.
///
/// Refuses with E17 a library that is required and not found. A library is required by default.
pub fn find_library<T: Tree, O: Outputs>(
    caller: &mut Caller<'_, T, O>,
    arguments: &Arguments,
) -> Result<Option<Value>, Stop>
    ensures { Does T.seen O.seen (option_map data_of) (find_library (arguments_data arguments.now)) caller.old result caller.new }
{
    let is_so = check_for(caller, Requirement::Required, "find_library", arguments)?;
    let value = caller.settle(library_named(caller.alloc, is_so, first_text(arguments)))?;
    Ok(Some(value))
}
