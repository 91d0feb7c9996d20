//! Implements `test`: <https://mesonbuild.com/Reference-manual_functions.html#test>.
ghost use Rattle.std.specs.Prelude.{◌≡◌, option_map};
ghost use Rattle.arguments.specs.Stops.{Gives};
ghost use Rattle.build.specs.project.View.{test_view};
ghost use Rattle.world.specs.Prelude.{Does, MayFail, arguments_data, data_of};
ghost use Rattle.resource_calls.specs.RunsView.{run_view};
ghost use Rattle.resource_calls.specs.Tests.{seconds_given, test, test_given};

use crate::runs::{Run, run_of};
use arguments::{Arguments, CallStop};
use build::project::Test;
use ports::{Outputs, Tree};
use resources::seconds_of;
use std::alloc::Global;
use values::Value;
use world::{Caller, Stop};

// Returns the seconds of the keyword `timeout`, which are 30 by default, or `OperationRefusal::Range` if they do not fit in 64 bits.
fn seconds_given(arguments: &Arguments) -> Result<i64, values::OperationRefusal>
    ensures { result ≡ seconds_given (arguments_data arguments.now) }
{
    seconds_of(arguments.integer("timeout", 30))
}

// Returns the test that the arguments describe, or `OperationRefusal::Range` for its timeout.
fn test_given(alloc: Global, arguments: &Arguments, run: Run) -> Result<Test, CallStop>
    ensures { Gives test_view (test_given (arguments_data arguments.now) (run_view run)) result }
{
    let seconds = seconds_given(arguments)?;
    let name = String::from_str(alloc, arguments.text_at(0))?;
    let suites = arguments.texts(alloc, "suite")?;
    Ok(Test {
        name,
        command: run.command,
        environment: run.environment,
        suites,
        should_fail: arguments.flag("should_fail", false),
        timeout: seconds,
    })
}

/// Runs `test(name, program)`. Refuses with E9, then with E7 for a `timeout` that does not fit in 64 bits.
pub fn test<T: Tree, O: Outputs>(
    caller: &mut Caller<'_, T, O>,
    arguments: &Arguments,
) -> Result<Option<Value>, Stop>
    requires { MayFail T.seen O.seen caller.old }
    ensures { Does T.seen O.seen (option_map data_of) (test (arguments_data arguments.now)) caller.old result caller.new }
{
    let run = caller.settle(run_of(&caller.here(), arguments))?;
    let planned = caller.settle(test_given(caller.alloc, arguments, run))?;
    caller.add_test(planned)?;
    Ok(None)
}
