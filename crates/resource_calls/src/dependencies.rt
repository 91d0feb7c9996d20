//! Implements `dependency`: <https://mesonbuild.com/Reference-manual_functions.html#dependency>.
ghost use Rattle.std.specs.Prelude.{◌≡◌, IfOk, codes, map, option_map};
ghost use Rattle.std.specs.Option.{option_transpose};
ghost use Rattle.arguments.specs.Given.{texts};
ghost use Rattle.arguments.specs.Stops.{Gives};
ghost use Rattle.build.specs.project.View.{answer_view};
ghost use Rattle.machine_file.specs.Questions.{answer_to, dependency_topic};
ghost use Rattle.resources.specs.Fitting.{dependency_that_fits};
ghost use Rattle.world.specs.Prelude.{Does, MayFail, arguments_data, data_of};
ghost use Rattle.resource_calls.specs.Dependency.{answer_of, dependency, dependency_named, first_said, fitting_dependency};
ghost use Rattle.resource_calls.specs.Dependency.{note_dependency, none_fits};
ghost use Rattle.resource_calls.specs.Required.{required_by};

use crate::call_results::return_object;
use crate::required::{gives_disabler, object_or, read_required};
use arguments::{Arguments, CallStop, Requirement};
use build::project::Answer;
use machine_file::Topic;
use ports::{Outputs, Tree};
use resources::{call_question, dependency_that_fits, missing_dependency};
use std::alloc::{AllocError, Global};
use support::faults::Refusal;
use values::{Dependency, Object, Value};
use world::{Caller, Stop, Store};

// Returns the dependency with a name if the machine file has it in a version that the call accepts.
fn said_dependency(
    alloc: Global,
    store: &Store,
    name: &str,
    arguments: &Arguments,
) -> Result<Option<Dependency>, CallStop>
    ensures { Gives (λ d. d) (option_transpose (dependency_that_fits (texts (codes "version") (arguments_data arguments.now)) name.now
        (answer_to store.now.machine (dependency_topic name.now)))) result }
{
    let conditions = arguments.texts(alloc, "version")?;
    dependency_that_fits(alloc, store.machine(), name, &conditions)
}

// Returns the dependency with a name if the machine file has it in a version that fits, and refuses one that is too large with E22. For
// the empty name, the machine file is not queried. The question carries what the arguments of the call say.
fn dependency_named<T: Tree, O: Outputs>(
    caller: &mut Caller<'_, T, O>,
    name: &str,
    arguments: &Arguments,
) -> Result<Option<Dependency>, Stop>
    ensures { Does T.seen O.seen (λ d. d) (dependency_named name.now (arguments_data arguments.now)) caller.old result caller.new }
{
    if name.is_empty() {
        return Ok(None);
    }
    let topic = Topic::dependency(caller.alloc, name)?;
    let question = call_question(caller.alloc, topic, arguments)?;
    caller.ask(question)?;
    let said = said_dependency(caller.alloc, caller.store, name, arguments);
    caller.settle(said)
}

// Returns what the machine file says of the first of these names that fits.
fn first_said<T: Tree, O: Outputs>(
    caller: &mut Caller<'_, T, O>,
    names: &[&str],
    arguments: &Arguments,
) -> Result<Option<Dependency>, Stop>
    ensures { Does T.seen O.seen (λ d. d) (first_said (arguments_data arguments.now) (map (λ n. n.now) names.now))
        caller.old result caller.new }
{
    for name in names {
        let said = dependency_named(caller, name, arguments)?;
        if let Some(dependency) = said {
            return Ok(Some(dependency));
        }
    }
    Ok(None)
}

// Returns what the machine file says of the first name that fits. If `required` is a disabled feature, the machine file is not queried.
fn fitting_dependency<T: Tree, O: Outputs>(
    caller: &mut Caller<'_, T, O>,
    arguments: &Arguments,
) -> Result<Option<Dependency>, Stop>
    ensures { let a = arguments_data arguments.now in Does T.seen O.seen (λ d. d) (fitting_dependency (required_by a) a)
        caller.old result caller.new }
{
    match read_required(arguments) {
        Requirement::Disabled => Ok(None),
        Requirement::Required | Requirement::Optional => {
            let names = arguments.all_texts(caller.alloc)?;
            first_said(caller, &names, arguments)
        }
    }
}

fn answer_of(alloc: Global, dependency: &Dependency) -> Result<Answer, AllocError>
    ensures { IfOk result (λ a. answer_view a ≡ answer_of dependency.now) }
{
    Ok(Answer {
        name: String::from_str(alloc, dependency.name.as_str())?,
        version: String::from_str(alloc, dependency.version.as_str())?,
        is_found: dependency.is_found,
    })
}

// Records a dependency, and returns it or a disabler in its place.
fn note_dependency<T: Tree, O: Outputs>(
    caller: &mut Caller<'_, T, O>,
    dependency: Dependency,
    is_disabled: bool,
) -> Result<Option<Value>, Stop>
    ensures { Does T.seen O.seen (option_map data_of) (note_dependency dependency is_disabled) caller.old result caller.new }
{
    let answer = answer_of(caller.alloc, &dependency)?;
    caller.add_dependency(answer)?;
    return_object(
        caller,
        object_or(Object::Dependency(dependency), is_disabled),
    )
}

// Returns the result if no name fits. Refuses with E17 of the first name if the dependency is required, and otherwise with E22 if that name
// is too long for a text.
fn none_fits<T: Tree, O: Outputs>(
    caller: &mut Caller<'_, T, O>,
    arguments: &Arguments,
) -> Result<Option<Value>, Stop>
    ensures { Does T.seen O.seen (option_map data_of)
        (none_fits (required_by (arguments_data arguments.now)) (arguments_data arguments.now)) caller.old result caller.new }
{
    match read_required(arguments) {
        Requirement::Required => caller.refuse(Refusal::NotFound, arguments.text_at(0)),
        Requirement::Optional | Requirement::Disabled => {
            let missing = caller.settle(missing_dependency(caller.alloc, arguments.text_at(0)))?;
            note_dependency(caller, missing, gives_disabler(arguments))
        }
    }
}

/// Runs `dependency(names..)`, which returns the first name that the machine file has in a version that fits.
///
/// Refuses with E17 if a required one is not found, and with E22 if one is too large. Each result is recorded.
pub fn dependency<T: Tree, O: Outputs>(
    caller: &mut Caller<'_, T, O>,
    arguments: &Arguments,
) -> Result<Option<Value>, Stop>
    requires { MayFail T.seen O.seen caller.old }
    ensures { Does T.seen O.seen (option_map data_of) (dependency (arguments_data arguments.now)) caller.old result caller.new }
{
    let found = fitting_dependency(caller, arguments)?;
    match found {
        Some(dependency) => note_dependency(caller, dependency, false),
        None => none_fits(caller, arguments),
    }
}
