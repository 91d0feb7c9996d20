//! Decides whether dependencies in lists of any depth were found.
ghost use Rattle.std.specs.Prelude.{◌≡◌};
ghost use Rattle.arguments.specs.Dependencies.{all_found, are_found};
ghost use Rattle.values.specs.Prelude.{data_of, items_of};

use values::{Object, Value};

/// Returns whether all dependencies in a value were found. Any other value counts as found.
#[cycle(found)]
pub fn are_found(value: &Value) -> bool
    ensures { result ≡ are_found (data_of value.now) }
{
    match value {
        Value::Object(object) => match &**object {
            Object::Dependency(dependency) => dependency.is_found,
            _ => false,
        },
        Value::List(list) => all_found(list.items()),
        _ => true,
    }
}

#[cycle(found)]
fn all_found(items: &[Value]) -> bool
    ensures { result ≡ all_found (items_of items.now) }
{
    for item in items {
        if !are_found(item) {
            return false;
        }
    }
    true
}
