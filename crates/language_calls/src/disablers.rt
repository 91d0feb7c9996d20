//! Implements `disabler` and `is_disabler`.
ghost use Rattle.std.specs.Prelude.{option_map};
ghost use Rattle.world.specs.Prelude.{Does, arguments_data, data_of};
ghost use Rattle.language_calls.specs.Disablers.{disabler_value, tell_disabler};

use arguments::Arguments;
use ports::{Outputs, Tree};
use values::{Object, Value};
use world::{Caller, Stop};

/// Runs `disabler()`.
pub fn disabler<T: Tree, O: Outputs>(caller: &Caller<'_, T, O>) -> Result<Option<Value>, Stop>
    ensures { Does T.seen O.seen (option_map data_of) disabler_value caller.now result caller.now }
{
    Ok(Some(Value::of_object(caller.alloc, Object::Disabler)?))
}

/// Runs `is_disabler(value)`, which is false for a list that contains a disabler.
pub fn is_disabler<T: Tree, O: Outputs>(
    caller: &Caller<'_, T, O>,
    arguments: &Arguments,
) -> Result<Option<Value>, Stop>
    ensures { Does T.seen O.seen (option_map data_of) (tell_disabler (arguments_data arguments.now)) caller.now result caller.now }
{
    let _ = caller.alloc;
    match arguments.argument(0) {
        Some(value) => Ok(Some(Value::Boolean(value.is_disabler()))),
        None => Ok(Some(Value::Boolean(false))),
    }
}
