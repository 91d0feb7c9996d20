//! Decides whether there are disablers among arguments.
ghost use Rattle.std.specs.Prelude.{◌≡◌, map};
ghost use Rattle.arguments.specs.Arguments.{arguments_data, named_data};
ghost use Rattle.arguments.specs.Disablers.{gives_disabler, named_have_disabler, one_has_disabler};
ghost use Rattle.values.specs.Prelude.{data_of};

use crate::arguments::{Arguments, Named};
use values::Value;

fn one_has_disabler(values: &[Value]) -> bool
    ensures { result ≡ one_has_disabler (map data_of values.now) }
{
    for value in values {
        if value.has_disabler() {
            return true;
        }
    }
    false
}

fn named_have_disabler(named: &[Named]) -> bool
    ensures { result ≡ named_have_disabler (map named_data named.now) }
{
    for one in named {
        if one.value.has_disabler() {
            return true;
        }
    }
    false
}

/// Returns whether one of the arguments is a disabler, or a list that contains one at any depth of lists. Each list stores whether it does.
pub fn gives_disabler(arguments: &Arguments) -> bool
    ensures { result ≡ gives_disabler (arguments_data arguments.now) }
{
    one_has_disabler(&arguments.positional) || named_have_disabler(&arguments.named)
}
