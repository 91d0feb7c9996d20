//! Evaluates `in` and `not in`.

ghost use Rattle.std.specs.Prelude.{◌≡◌, not, option_map};
ghost use Rattle.values.specs.Prelude.{data_of};
ghost use Rattle.operations.specs.operators.Rows.{is_item, membership as membership_row};

use values::texts::contains;
use values::{List, Value, is_equal};

/// Returns whether a value is an item of a list, a text is a key of a dictionary, or a text contains another. Returns `None` for other
/// types.
pub fn membership(value: &Value, whole: &Value) -> Option<bool>
    ensures { result ≡ membership_row (data_of value.now) (data_of whole.now) }
{
    match (value, whole) {
        (_, Value::List(list)) => Some(is_item(value, list)),
        (Value::Text(key), Value::Dictionary(dictionary)) => Some(dictionary.get(key).is_some()),
        (Value::Text(text), Value::Text(whole)) => Some(contains(whole.as_str(), text.as_str())),
        _ => None,
    }
}

/// Returns the negation of `membership`, for `not in`.
pub fn non_membership(value: &Value, whole: &Value) -> Option<bool>
    ensures { result ≡ option_map not (membership_row (data_of value.now) (data_of whole.now)) }
{
    Some(!membership(value, whole)?)
}

fn is_item(value: &Value, list: &List) -> bool
    ensures { result ≡ is_item (data_of value.now) list.now }
{
    let items = list.items();
    for item in items {
        if is_equal(value, item) {
            return true;
        }
    }
    false
}
