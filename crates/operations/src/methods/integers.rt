//! Implements the methods of integers: the type `int` of the page "Reference manual".

ghost use Rattle.std.specs.Prelude.{◌≡◌, map};
ghost use Rattle.values.specs.Prelude.{data_of};
ghost use Rattle.operations.specs.methods.Steps.{Gives};
ghost use Rattle.operations.specs.methods.Integers.{argument_words, is_even, is_odd, to_string, answer};

use crate::methods::readers::none;
use crate::methods::stop::MethodStop;
use std::alloc::Global;
use values::language_names::{IntegerMethod, MethodName};
use values::printing::print;
use values::{OperationRefusal, Value};

/// Calls the method of an integer with this name and returns its result. Refusals are E8 for an unknown name and E9 for wrong arguments.
pub fn integer_method(
    alloc: Global,
    integer: i128,
    name: &MethodName,
    arguments: &[Value],
) -> Result<Value, MethodStop>
    ensures { Gives (answer integer name.now (map data_of arguments.now)) result }
{
    let method = name.of_integer().ok_or(OperationRefusal::UnknownMethod)?;
    match method {
        IntegerMethod::IsEven => is_even(integer, arguments),
        IntegerMethod::IsOdd => is_odd(integer, arguments),
        IntegerMethod::ToString => to_string(alloc, integer, arguments),
    }
}

/// Describes in words what a method of an integer takes.
pub fn argument_words(method: IntegerMethod) -> &'static str
    ensures { result.now ≡ argument_words method }
{
    match method {
        IntegerMethod::IsEven | IntegerMethod::IsOdd | IntegerMethod::ToString => "no arguments",
    }
}

fn is_even(integer: i128, arguments: &[Value]) -> Result<Value, MethodStop>
    ensures { Gives (is_even integer (map data_of arguments.now)) result }
{
    none(arguments)?;
    Ok(Value::Boolean(integer.unsigned_abs() % 2 == 0))
}

fn is_odd(integer: i128, arguments: &[Value]) -> Result<Value, MethodStop>
    ensures { Gives (is_odd integer (map data_of arguments.now)) result }
{
    none(arguments)?;
    Ok(Value::Boolean(integer.unsigned_abs() % 2 != 0))
}

fn to_string(alloc: Global, integer: i128, arguments: &[Value]) -> Result<Value, MethodStop>
    ensures { Gives (to_string integer (map data_of arguments.now)) result }
{
    none(arguments)?;
    let text = print(alloc, &Value::Integer(integer))??;
    let _within = text.as_str();
    Ok(Value::Text(text))
}
