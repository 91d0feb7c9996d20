//! Evaluates equality and order.

ghost use Rattle.std.specs.Prelude.{◌≡◌, false, not, option_map};
ghost use Rattle.values.specs.Prelude.{data_of};
ghost use Rattle.operations.specs.operators.Operations.{are_integers};
ghost use Rattle.operations.specs.operators.Types.{is_one_kind, is_one_type};
ghost use Rattle.operations.specs.operators.Rows.{equality as equality_row, order as order_row};

use std::cmp::Ordering;
use values::{Object, Value, is_equal};

/// Returns whether two values of one type are equal by structure, and `None` for values of different types.
pub fn equality(left: &Value, right: &Value) -> Option<bool>
    ensures { result ≡ equality_row (data_of left.now) (data_of right.now) }
{
    if is_one_type(left, right) {
        Some(is_equal(left, right))
    } else {
        None
    }
}

/// Returns whether two values of one type differ, and `None` for values of different types.
pub fn inequality(left: &Value, right: &Value) -> Option<bool>
    ensures { result ≡ option_map not (equality_row (data_of left.now) (data_of right.now)) }
{
    Some(!equality(left, right)?)
}

/// Returns the order of two texts, by their bytes, and `None` for other types. Two integers are compared elsewhere.
pub fn order(left: &Value, right: &Value) -> Option<Ordering>
    requires { are_integers (data_of left.now) (data_of right.now) ≡ false }
    ensures { result ≡ order_row (data_of left.now) (data_of right.now) }
{
    match (left, right) {
        (Value::Text(s), Value::Text(t)) => Some(s.as_str().cmp(t.as_str())),
        _ => None,
    }
}

fn is_one_type(left: &Value, right: &Value) -> bool
    ensures { result ≡ is_one_type (data_of left.now) (data_of right.now) }
{
    match (left, right) {
        (Value::Boolean(_), Value::Boolean(_)) => true,
        (Value::Integer(_), Value::Integer(_)) => true,
        (Value::Text(_), Value::Text(_)) => true,
        (Value::List(_), Value::List(_)) => true,
        (Value::Dictionary(_), Value::Dictionary(_)) => true,
        (Value::Object(object), Value::Object(other)) => is_one_kind(object, other),
        _ => false,
    }
}

fn is_one_kind(object: &Object, other: &Object) -> bool
    ensures { result ≡ is_one_kind object.now other.now }
{
    match object {
        Object::Feature(_) => matches!(other, Object::Feature(_)),
        Object::Dependency(_) => matches!(other, Object::Dependency(_)),
        Object::Program(_) => matches!(other, Object::Program(_)),
        Object::BuildTarget(_) | Object::CustomTarget { .. } => {
            matches!(other, Object::BuildTarget(_) | Object::CustomTarget { .. })
        }
        Object::CustomOutput { .. } => matches!(other, Object::CustomOutput { .. }),
        Object::File { .. } => matches!(other, Object::File { .. }),
        Object::IncludeDirectories(_) => matches!(other, Object::IncludeDirectories(_)),
        Object::Machine => matches!(other, Object::Machine),
        Object::Meson => matches!(other, Object::Meson),
        Object::Compiler => matches!(other, Object::Compiler),
        Object::ConfigurationData(_) => matches!(other, Object::ConfigurationData(_)),
        Object::Disabler => matches!(other, Object::Disabler),
    }
}
