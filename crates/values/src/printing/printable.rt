//! Decides which values can be printed.

ghost use Rattle.std.specs.Prelude.{◌≡◌};
ghost use Rattle.values.specs.Prelude.{data_of, items_of};
ghost use Rattle.values.specs.printing.Printed.{is_printable, are_printable};

use crate::Value;

/// Returns whether a value neither is nor contains an object.
#[cycle(printable)]
pub fn is_printable(value: &Value) -> bool
    ensures { result ≡ is_printable (data_of value.now) }
{
    match value {
        Value::Boolean(_) | Value::Integer(_) | Value::Text(_) => true,
        Value::List(list) => are_printable(list.items()),
        Value::Dictionary(dictionary) => are_printable(dictionary.values()),
        Value::Object(_) => false,
    }
}

#[cycle(printable)]
fn are_printable(items: &[Value]) -> bool
    ensures { result ≡ are_printable (items_of items.now) }
{
    for item in items {
        if !is_printable(item) {
            return false;
        }
    }
    true
}
