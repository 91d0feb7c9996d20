//! Writes the details of refusals of operations on values. They are made only when a run ends.
ghost use Rattle.std.specs.Prelude.{◌≡◌, IfOk, map, string_bytes};
ghost use Rattle.world.specs.Prelude.{data_of};
ghost use Rattle.expressions.specs.Details.{key_twice, method_detail, method_words};

use arguments::values_words;
use operations::methods::takes_words;
use std::alloc::{AllocError, Global};
use values::language_names::MethodName;
use values::{OperationRefusal, Value};

/// Returns the detail that this key of a dictionary occurs twice.
pub fn key_twice(alloc: Global, key: &str) -> Result<String, AllocError>
    ensures { IfOk result (λ text. string_bytes text ≡ key_twice key.now) }
{
    format!(in alloc; "key '{key}': occurs twice")
}

// Returns what the method with this name takes and what it got, as in `contains: takes one text, and got an integer`.
fn method_words(
    alloc: Global,
    receiver: &Value,
    name: &MethodName,
    values: &[Value],
) -> Result<String, AllocError>
    ensures { IfOk result (λ text. string_bytes text ≡ method_words (data_of receiver.now) name.now (map data_of values.now)) }
{
    let takes = takes_words(receiver, name);
    let name = name.as_str();
    let got = values_words(alloc, values)?;
    format!(in alloc; "{name}: takes {takes}, and got {got}")
}

/// Returns what a method takes and what it got if its arguments are refused, and an empty text for other refusals.
pub fn method_detail(
    alloc: Global,
    receiver: &Value,
    name: &MethodName,
    values: &[Value],
    refusal: OperationRefusal,
) -> Result<String, AllocError>
    ensures { IfOk result (λ text. string_bytes text
        ≡ method_detail (data_of receiver.now) name.now (map data_of values.now) refusal) }
{
    match refusal {
        OperationRefusal::Arguments => method_words(alloc, receiver, name, values),
        _ => Ok(String::new(alloc)),
    }
}
