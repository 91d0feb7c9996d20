//! Implements `custom_target`.
ghost use Rattle.std.specs.Prelude.{option_map};
ghost use Rattle.world.specs.Prelude.{Does, MayFail, arguments_data, data_of};
ghost use Rattle.target_calls.specs.CustomCalls.{custom_target};

use crate::build_target_calls::require_fit;
use crate::custom::{count_named, declare_custom};
use crate::custom_installs::add_custom;
use crate::tree::require_all;
use arguments::Arguments;
use ports::{Outputs, Tree};
use values::{Object, Value};
use world::{Caller, Stop};

/// Runs `custom_target(name)`. Refuses with E9, E14, E21, E11, E22 in this order.
pub fn custom_target<T: Tree, O: Outputs>(
    caller: &mut Caller<'_, T, O>,
    arguments: &Arguments,
) -> Result<Option<Value>, Stop>
    requires { MayFail T.seen O.seen caller.old }
    ensures { Does T.seen O.seen (option_map data_of) (custom_target (arguments_data arguments.now)) caller.old result caller.new }
{
    let outputs = count_named(arguments, "output");
    let named = caller.settle(declare_custom(&caller.here(), arguments))?;
    require_fit(caller, &named.target)?;
    require_all(caller, named.files)?;
    let number = add_custom(caller, arguments, named.target)?;
    let value = Value::of_object(caller.alloc, Object::CustomTarget { number, outputs })?;
    Ok(Some(value))
}
