//! Makes the result of a call.
ghost use Rattle.std.specs.Prelude.{Some, option_map};
ghost use Rattle.values.specs.Data.{object};
ghost use Rattle.world.specs.Prelude.{Does, data_of};
ghost use Rattle.world.specs.Deed.{give};

use ports::{Outputs, Tree};
use values::{Object, Value};
use world::{Caller, Stop};

/// Returns the object as a value.
pub fn return_object<T: Tree, O: Outputs>(
    caller: &Caller<'_, T, O>,
    given: Object,
) -> Result<Option<Value>, Stop>
    ensures { Does T.seen O.seen (option_map data_of) (give (Some (object given))) caller.now result caller.now }
{
    let value = Value::of_object(caller.alloc, given)?;
    Ok(Some(value))
}
