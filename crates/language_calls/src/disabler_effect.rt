//! Decides what a disabler among the arguments does to a call.
ghost use Rattle.std.specs.Prelude.{◌≡◌, ◌&&◌};
ghost use Rattle.world.specs.Prelude.{arguments_data};
ghost use Rattle.language_calls.specs.Turning.{is_turned_off, makes_file, takes_disablers};

use arguments::{Arguments, gives_disabler};
use values::language_names::{Function, ProjectFunction};

fn takes_disablers(function: Function) -> bool
    ensures { result ≡ takes_disablers function }
{
    matches!(
        function,
        Function::GetVariable
            | Function::IsDisabler
            | Function::IsVariable
            | Function::Project
            | Function::SetVariable
            | Function::UnsetVariable
    )
}

/// Returns whether a disabler among the arguments turns the call off.
pub fn is_turned_off(function: Function, arguments: &Arguments) -> bool
    ensures { result ≡ is_turned_off function (arguments_data arguments.now) }
{
    !takes_disablers(function) && gives_disabler(arguments)
}

/// Returns whether a function is `configure_file`.
pub fn makes_file(function: Function) -> bool
    ensures { result ≡ makes_file function }
{
    matches!(
        function,
        Function::OfProject(ProjectFunction::ConfigureFile)
    )
}
