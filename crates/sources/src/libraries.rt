//! Finds the build targets that `link_with` names.
ghost use Rattle.std.specs.Prelude.{◌≡◌, IfOk, map, option_map};
ghost use Rattle.values.specs.Prelude.{data_of};
ghost use Rattle.sources.specs.Libraries.{build_target_in, numbers_of, of_object};

use std::alloc::{AllocError, Global};
use values::{Object, Value};

fn of_object(object: &Object) -> Option<usize>
    ensures { result ≡ of_object object.now }
{
    match object {
        Object::BuildTarget(number) => Some(*number),
        _ => None,
    }
}

fn build_target_in(value: &Value) -> Option<usize>
    ensures { result ≡ build_target_in (data_of value.now) }
{
    match value {
        Value::Object(object) => of_object(object),
        _ => None,
    }
}

/// Returns the numbers of the build targets of all values, in order, and `None` if one is no build target. The lists in the values are
/// already flattened.
pub fn numbers_of(alloc: Global, values: &[&Value]) -> Result<Option<Vec<usize>>, AllocError>
    ensures { IfOk result (λ ns. option_map (λ v. v.items) ns ≡ numbers_of (map (λ v. data_of v.now) values.now)) }
{
    let mut numbers = Vec::new(alloc);
    for value in values {
        match build_target_in(value) {
            Some(number) => numbers.push(number)?,
            None => return Ok(None),
        }
    }
    Ok(Some(numbers))
}
