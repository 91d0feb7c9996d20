//! Calls functions on their arguments.
ghost use Rattle.std.specs.Prelude.{◌≡◌, ◌&&◌, option_map};
ghost use Rattle.arguments.specs.RowView.{row_data};
ghost use Rattle.world.specs.Prelude.{Does, MayFail, arguments_data, data_of};
ghost use Rattle.world.specs.Fit.{fit};
ghost use Rattle.interp.specs.Functions.{call, has_unwanted_disabler, row_for, row_of, without_disabler};

use crate::project_functions::{project_function, project_function_row};
use arguments::{ArgumentKind, Arguments, Row, any_values, gives_disabler, some_texts, values};
use configuration_calls::{has_meson_format, other_format_row};
use language_calls::disabler_effect::makes_file;
use language_calls::disablers::{disabler, is_disabler};
use language_calls::messages::{assert, error, message, warning};
use language_calls::path_joining::join_paths;
use language_calls::ranges::range;
use language_calls::rows::subdir_row;
use language_calls::variables::{get_variable, is_variable, set_variable, unset_variable};
use ports::{Outputs, Tree};
use project_calls::{project, project_row};
use support::faults::Refusal;
use values::Value;
use values::language_names::Function;
use world::{Caller, Stop};

/// Returns what arguments a function takes.
pub fn row(function: Function) -> Row
    ensures { row_data result ≡ row_of function }
{
    match function {
        Function::Assert => values(&[ArgumentKind::Boolean, ArgumentKind::Text], 1),
        Function::Disabler | Function::SubdirDone => values(&[], 0),
        Function::Error | Function::Message | Function::Warning => any_values(),
        Function::GetVariable => values(&[ArgumentKind::Text, ArgumentKind::Any], 1),
        Function::IsDisabler => values(&[ArgumentKind::Any], 1),
        Function::IsVariable | Function::UnsetVariable => values(&[ArgumentKind::Text], 1),
        Function::JoinPaths => some_texts(),
        Function::OfProject(function) => project_function_row(function),
        Function::Project => project_row(),
        Function::Range => values(
            &[
                ArgumentKind::Integer,
                ArgumentKind::Integer,
                ArgumentKind::Integer,
            ],
            1,
        ),
        Function::SetVariable => values(&[ArgumentKind::Text, ArgumentKind::Any], 2),
        Function::Subdir => subdir_row(),
    }
}

// Returns what the function takes if it gets these arguments. `configure_file` with a format other than `'meson'` has a row of its own.
fn row_for(function: Function, arguments: &Arguments) -> Row
    ensures { row_data result ≡ row_for function (arguments_data arguments.now) }
{
    if makes_file(function) && !has_meson_format(arguments) {
        other_format_row()
    } else {
        row(function)
    }
}

// Returns whether `project` gets a disabler.
fn has_unwanted_disabler(function: Function, arguments: &Arguments) -> bool
    ensures { result ≡ has_unwanted_disabler function (arguments_data arguments.now) }
{
    match function {
        Function::Project => gives_disabler(arguments),
        _ => false,
    }
}

// Refuses a disabler among the arguments of `project`.
fn refuse_disabler<T: Tree, O: Outputs>(
    caller: &Caller<'_, T, O>,
    function: Function,
    arguments: &Arguments,
) -> Result<(), Stop>
    ensures { Does T.seen O.seen (λ u. u) (without_disabler function (arguments_data arguments.now)) caller.now result caller.now }
{
    let unwanted = has_unwanted_disabler(function, arguments);
    caller.need(
        !unwanted,
        Refusal::Arguments,
        "arguments: takes no disabler",
    )
}

// Refuses arguments that the function does not take.
fn fit<T: Tree, O: Outputs>(
    caller: &Caller<'_, T, O>,
    function: Function,
    arguments: &Arguments,
) -> Result<(), Stop>
    ensures { Does T.seen O.seen (λ u. u) (fit (row_for function (arguments_data arguments.now)) (arguments_data arguments.now))
        caller.now result caller.now }
{
    caller.fit(&row_for(function, arguments), arguments)
}

/// Calls a function on its arguments, after checking them against its row. Returns its value, or `None` if it has none.
///
/// A disabler among the arguments of `project` is E9, whatever its row says.
pub fn call<T: Tree, O: Outputs>(
    caller: &mut Caller<'_, T, O>,
    function: Function,
    arguments: &Arguments,
) -> Result<Option<Value>, Stop>
    requires { MayFail T.seen O.seen caller.old }
    ensures { Does T.seen O.seen (option_map data_of) (call function (arguments_data arguments.now)) caller.old result caller.new }
{
    fit(caller, function, arguments)?;
    refuse_disabler(caller, function, arguments)?;
    match function {
        Function::Assert => assert(caller, arguments),
        Function::Disabler => disabler(caller),
        Function::Error => error(caller, arguments),
        Function::GetVariable => get_variable(caller, arguments),
        Function::IsDisabler => is_disabler(caller, arguments),
        Function::IsVariable => is_variable(caller, arguments),
        Function::JoinPaths => join_paths(caller, arguments),
        Function::Message => message(caller, arguments),
        Function::OfProject(function) => project_function(caller, function, arguments),
        Function::Project => project(caller, arguments),
        Function::Range => range(caller, arguments),
        Function::SetVariable => set_variable(caller, arguments),
        Function::Subdir => Ok(None),
        Function::SubdirDone => Ok(None),
        Function::UnsetVariable => unset_variable(caller, arguments),
        Function::Warning => warning(caller, arguments),
    }
}
