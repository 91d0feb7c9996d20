//! Makes the values that methods return.
ghost use Rattle.std.specs.Prelude.{string_bytes};
ghost use Rattle.arguments.specs.Stops.{Gives};
ghost use Rattle.values.specs.Data.{list, text as text_data};
ghost use Rattle.world.specs.Prelude.{data_of, items_of, within};

use arguments::CallStop;
use std::alloc::Global;
use values::{List, Value};

/// Returns a copy of a text as a value, or `OperationRefusal::Limit` if it is too long.
pub fn text_value(alloc: Global, text: &str) -> Result<Value, CallStop>
    ensures { Gives data_of (within (text_data text.now)) result }
{
    Ok(Value::of_str(alloc, text)??)
}

/// Returns a string as a value, or `OperationRefusal::Limit` if it is too long.
pub fn string_value(alloc: Global, string: String) -> Result<Value, CallStop>
    ensures { Gives data_of (within (text_data (string_bytes string))) result }
{
    Ok(Value::of_string(alloc, string)??)
}

/// Returns the list of these values, or `OperationRefusal::Limit` if it is too large.
pub fn list_value(alloc: Global, values: Vec<Value>) -> Result<Value, CallStop>
    ensures { Gives data_of (within (list (items_of values.items))) result }
{
    let list = List::from_items(values)?;
    Ok(Value::of_list(alloc, list)?)
}
