//! States laws of all values. A law is the contract of a function that does nothing.
ghost use Rattle.std.specs.Prelude.{◌≤◌};
ghost use Rattle.values.specs.Few.{item_count};
ghost use Rattle.values.specs.View.{data_of};

use crate::value::Value;

/// Proves that no list and no dictionary has more than 65,536 items. Each item is a value too, so this holds at any depth.
pub fn values_have_few_items(value: &Value)
    ensures { item_count (data_of value.now) ≤ 65536 }
{
    match value {
        Value::List(list) => {
            let _few = list.len();
        }
        Value::Dictionary(dictionary) => {
            let _few = dictionary.len();
        }
        Value::Boolean(_) | Value::Integer(_) | Value::Text(_) | Value::Object(_) => {}
    }
}
