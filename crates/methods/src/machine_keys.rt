//! Reads the machine file by key.
ghost use Rattle.std.specs.Prelude.{option_map};
ghost use Rattle.world.specs.Prelude.{Does, data_of};
ghost use Rattle.methods.specs.Keys.{text_of_key};

use crate::new_values::text_value;
use ports::{Outputs, Tree};
use values::Value;
use world::{Caller, Stop};

/// Returns the text that a section of the machine file has for a key, and otherwise the default. Refuses one that is too long with E22.
pub fn read_key<T: Tree, O: Outputs>(
    caller: &mut Caller<'_, T, O>,
    section: &str,
    key: &str,
    default: &str,
) -> Result<Option<Value>, Stop>
    ensures { Does T.seen O.seen (option_map data_of) (text_of_key section.now key.now default.now) caller.old result caller.new }
{
    caller.ask_key(section, key)?;
    let text = caller.store.machine().text_or(section, key, default);
    let answer = text_value(caller.alloc, text);
    let value = caller.settle(answer)?;
    Ok(Some(value))
}
