//! Reads what a test runs, and with which environment variables.
ghost use Rattle.std.specs.Prelude.{◌≡◌, option_map};
ghost use Rattle.arguments.specs.Stops.{Says};
ghost use Rattle.world.specs.Prelude.{arguments_data, data_of, here_view};
ghost use Rattle.resource_calls.specs.Runs.{object_rule, program_rule, run_of};
ghost use Rattle.resource_calls.specs.RunsView.{run_view};

use crate::commands::command_given;
use arguments::{Arguments, CallStop, Rule};
use resources::environment;
use values::{Object, Value};
use world::Here;

/// Says what a test runs.
#[derive(Drop)]
pub struct Run {
    /// The program and its arguments.
    pub command: Vec<String>,
    /// Texts `NAME=VALUE`.
    pub environment: Vec<String>,
}

// Returns the rule that something that cannot run breaks: a program was not found, and anything else is a library.
fn object_rule(object: &Object) -> Rule
    ensures { result ≡ object_rule object.now }
{
    match object {
        Object::Program(_) => Rule::RunsProgram,
        _ => Rule::RunsNoLibrary,
    }
}

fn program_rule(program: Option<&Value>) -> Rule
    ensures { result ≡ program_rule (option_map (λ v. data_of v.now) program.entry) }
{
    match program {
        Some(Value::Object(object)) => object_rule(object),
        _ => Rule::RunsNoLibrary,
    }
}

/// Returns the command and the variables of a call, or its refusal. Refused are a program that cannot run, with the test's name as detail,
/// and a text that is no variable.
pub fn run_of(here: &Here<'_>, arguments: &Arguments) -> Result<Run, CallStop>
    ensures { Says run_view (run_of (here_view here.now) (arguments_data arguments.now)) result }
{
    let Some(command) = command_given(here, arguments)? else {
        let rule = program_rule(arguments.argument(1));
        return Err(rule.refuse(here.alloc, arguments.text_at(0))?.into());
    };
    let environment = environment(here.alloc, arguments)?;
    Ok(Run {
        command,
        environment,
    })
}
