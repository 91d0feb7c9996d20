//! Implements the methods of booleans: the type `bool` of the page "Reference manual".

ghost use Rattle.std.specs.Prelude.{◌≡◌, [], map};
ghost use Rattle.values.specs.Prelude.{data_of};
ghost use Rattle.operations.specs.methods.Steps.{Gives};
ghost use Rattle.operations.specs.methods.Booleans.{argument_words, to_int, to_string, answer};

use crate::methods::readers::none;
use crate::methods::stop::MethodStop;
use std::alloc::Global;
use values::language_names::{BooleanMethod, MethodName};
use values::{OperationRefusal, Value};

/// Calls the method of a boolean with this name and returns its result. Refusals are E8 for an unknown name and E9 for wrong arguments.
pub fn boolean_method(
    alloc: Global,
    boolean: bool,
    name: &MethodName,
    arguments: &[Value],
) -> Result<Value, MethodStop>
    ensures { Gives (answer boolean name.now (map data_of arguments.now)) result }
{
    let method = name.of_boolean().ok_or(OperationRefusal::UnknownMethod)?;
    match method {
        BooleanMethod::ToInt => to_int(boolean, arguments),
        BooleanMethod::ToString => to_string(alloc, boolean, arguments),
    }
}

/// Describes in words what a method of a boolean takes.
pub fn argument_words(method: BooleanMethod) -> &'static str
    ensures { result.now ≡ argument_words method }
{
    match method {
        BooleanMethod::ToInt => "no arguments",
        BooleanMethod::ToString => "no arguments, or two texts",
    }
}

fn to_int(boolean: bool, arguments: &[Value]) -> Result<Value, MethodStop>
    ensures { Gives (to_int boolean (map data_of arguments.now)) result }
{
    none(arguments)?;
    Ok(Value::Integer(if boolean { 1 } else { 0 }))
}

// Returns `true` or `false` as a text.
fn plain_word(alloc: Global, boolean: bool) -> Result<Value, MethodStop>
    ensures { Gives (to_string boolean []) result }
{
    let word = if boolean { "true" } else { "false" };
    Ok(Value::of_str(alloc, word)??)
}

fn to_string(alloc: Global, boolean: bool, arguments: &[Value]) -> Result<Value, MethodStop>
    ensures { Gives (to_string boolean (map data_of arguments.now)) result }
{
    match arguments {
        [] => plain_word(alloc, boolean),
        [Value::Text(yes), Value::Text(no)] => {
            let word = if boolean { yes } else { no };
            Ok(Value::Text(word.clone()?))
        }
        _ => Err(MethodStop::Refused(OperationRefusal::Arguments)),
    }
}
