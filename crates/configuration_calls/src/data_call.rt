//! Implements `configuration_data`.
ghost use Rattle.std.specs.Prelude.{option_map};
ghost use Rattle.arguments.specs.Stops.{Says};
ghost use Rattle.world.specs.Prelude.{Does, arguments_data, data_of};
ghost use Rattle.configuration_calls.specs.ConfigurationData.{configuration_data, said_data};
ghost use Rattle.configuration_calls.specs.Given.{data_given, data_in};

use crate::contents::entries_in;
use arguments::{Arguments, CallStop, Rule};
use ports::{Outputs, Tree};
use std::alloc::Global;
use template::ConfigData;
use values::{Object, Value};
use world::{Caller, Stop};

fn data_in(alloc: Global, value: &Value) -> Result<ConfigData, CallStop>
    ensures { Says (λ c. c) (data_in (data_of value.now)) result }
{
    match value {
        Value::Dictionary(dictionary) => entries_in(alloc, dictionary),
        _ => Err(Rule::IsValueName.refuse(alloc, "")?.into()),
    }
}

fn data_given(alloc: Global, value: Option<&Value>) -> Result<ConfigData, CallStop>
    ensures { Says (λ c. c) (data_given (option_map (λ v. data_of v.now) value.entry)) result }
{
    match value {
        Some(value) => data_in(alloc, value),
        None => Ok(ConfigData::new(alloc)),
    }
}

// Returns the data that the arguments describe, and refuses bad ones with E9.
fn said_data<T: Tree, O: Outputs>(
    caller: &Caller<'_, T, O>,
    arguments: &Arguments,
) -> Result<ConfigData, Stop>
    ensures { Does T.seen O.seen (λ c. c) (said_data (arguments_data arguments.now)) caller.now result caller.now }
{
    caller.settle(data_given(caller.alloc, arguments.argument(0)))
}

/// Runs `configuration_data(dictionary)`. Refuses with E9 a key that is no name, and a value that is no text, integer or boolean.
pub fn configuration_data<T: Tree, O: Outputs>(
    caller: &mut Caller<'_, T, O>,
    arguments: &Arguments,
) -> Result<Option<Value>, Stop>
    ensures { Does T.seen O.seen (option_map data_of) (configuration_data (arguments_data arguments.now)) caller.old result caller.new }
{
    let values = said_data(caller, arguments)?;
    let number = caller.add_configuration(values)?;
    let value = Value::of_object(caller.alloc, Object::ConfigurationData(number))?;
    Ok(Some(value))
}
