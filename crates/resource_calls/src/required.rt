//! Reads whether a call requires what it looks for, and what it returns if that is not found.
ghost use Rattle.std.specs.Prelude.{◌≡◌};
ghost use Rattle.world.specs.Prelude.{arguments_data};
ghost use Rattle.resource_calls.specs.Required.{gives_disabler, object_or, required_by};

use arguments::{Arguments, Requirement};
use values::Object;

/// Returns what the keyword `required` says, which is true by default.
pub fn read_required(arguments: &Arguments) -> Requirement
    ensures { result ≡ required_by (arguments_data arguments.now) }
{
    arguments.requirement(Requirement::Required)
}

/// Returns whether the keyword `disabler` requests a disabler for something that was not found.
pub fn gives_disabler(arguments: &Arguments) -> bool
    ensures { result ≡ gives_disabler (arguments_data arguments.now) }
{
    arguments.flag("disabler", false)
}

/// Returns the object, or a disabler if `is_disabled` is true.
pub fn object_or(object: Object, is_disabled: bool) -> Object
    ensures { result ≡ object_or object is_disabled }
{
    if is_disabled {
        Object::Disabler
    } else {
        object
    }
}
