//! Implements `get_option`.
ghost use Rattle.std.specs.Prelude.{option_map};
ghost use Rattle.world.specs.Prelude.{Does, arguments_data, data_of};
ghost use Rattle.project_calls.specs.GetOption.{get_option};

use crate::option_as_value::as_data;
use arguments::{Arguments, Rule};
use ports::{Outputs, Tree};
use support::faults::Refusal;
use values::Value;
use world::{Caller, Stop};

/// Runs `get_option(name)`. Refuses an unknown name with E15, and a value that is too large for the language with E22.
pub fn get_option<T: Tree, O: Outputs>(
    caller: &Caller<'_, T, O>,
    arguments: &Arguments,
) -> Result<Option<Value>, Stop>
    ensures { Does T.seen O.seen (option_map data_of) (get_option (arguments_data arguments.now)) caller.now result caller.now }
{
    let name = arguments.text_at(0);
    match caller.store.option(name) {
        Some(option) => {
            let value = caller.settle(as_data(caller.alloc, option))?;
            Ok(Some(value))
        }
        None => caller.refuse_for(Refusal::OptionValue, Rule::IsOption, name),
    }
}
