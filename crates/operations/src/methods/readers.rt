//! Reads the arguments of a call. Each function returns `OperationRefusal::Arguments` unless the arguments have the count and types that it
//! requires.

ghost use Rattle.std.specs.Prelude.{◌≡◌, MatchResult, Ok, Err, Some, None, option_map, map};
ghost use Rattle.values.specs.Prelude.{data_of};
ghost use Rattle.operations.specs.methods.Arguments.{no_arguments, one_argument, key_and_fallback, text_argument, integer_argument};
ghost use Rattle.operations.specs.methods.Arguments.{one_text, two_texts, bounds};

use values::{OperationRefusal, Text, Value};

/// Checks that there are no arguments.
pub fn none(arguments: &[Value]) -> Result<(), OperationRefusal>
    ensures { result ≡ no_arguments (map data_of arguments.now) }
{
    if arguments.is_empty() {
        Ok(())
    } else {
        Err(OperationRefusal::Arguments)
    }
}

/// Returns the only argument.
pub fn one(arguments: &[Value]) -> Result<&Value, OperationRefusal>
    ensures { MatchResult result
        (λ v. one_argument (map data_of arguments.now) ≡ Ok (data_of v.now))
        (λ e. one_argument (map data_of arguments.now) ≡ Err e) }
{
    match arguments {
        [argument] => Ok(argument),
        _ => Err(OperationRefusal::Arguments),
    }
}

/// Returns a key or an index, and the fallback value, which is optional.
pub fn key_and_fallback(arguments: &[Value]) -> Result<(&Value, Option<&Value>), OperationRefusal>
    ensures { MatchResult result
        (λ p. key_and_fallback (map data_of arguments.now) ≡ Ok (data_of p.0.now, option_map (λ v. data_of v.now) p.1))
        (λ e. key_and_fallback (map data_of arguments.now) ≡ Err e) }
{
    match arguments {
        [key] => Ok((key, None)),
        [key, fallback] => Ok((key, Some(fallback))),
        _ => Err(OperationRefusal::Arguments),
    }
}

/// Returns the text of an argument.
pub fn text(argument: &Value) -> Result<&Text, OperationRefusal>
    ensures { MatchResult result
        (λ t. text_argument (data_of argument.now) ≡ Ok t.now)
        (λ e. text_argument (data_of argument.now) ≡ Err e) }
{
    match argument {
        Value::Text(text) => Ok(text),
        _ => Err(OperationRefusal::Arguments),
    }
}

/// Returns the integer of an argument.
pub fn integer(argument: &Value) -> Result<i128, OperationRefusal>
    ensures { result ≡ integer_argument (data_of argument.now) }
{
    match argument {
        Value::Integer(integer) => Ok(*integer),
        _ => Err(OperationRefusal::Arguments),
    }
}

/// Returns the text of the only argument.
pub fn one_text(arguments: &[Value]) -> Result<&Text, OperationRefusal>
    ensures { MatchResult result
        (λ t. one_text (map data_of arguments.now) ≡ Ok t.now)
        (λ e. one_text (map data_of arguments.now) ≡ Err e) }
{
    text(one(arguments)?)
}

/// Returns the texts of the only two arguments.
pub fn two_texts(arguments: &[Value]) -> Result<(&Text, &Text), OperationRefusal>
    ensures { MatchResult result
        (λ p. two_texts (map data_of arguments.now) ≡ Ok (p.0.now, p.1.now))
        (λ e. two_texts (map data_of arguments.now) ≡ Err e) }
{
    match arguments {
        [first, second] => Ok((text(first)?, text(second)?)),
        _ => Err(OperationRefusal::Arguments),
    }
}

/// Returns two integers, of which the second or both are optional.
pub fn bounds(arguments: &[Value]) -> Result<(Option<i128>, Option<i128>), OperationRefusal>
    ensures { result ≡ bounds (map data_of arguments.now) }
{
    match arguments {
        [] => Ok((None, None)),
        [from] => Ok((Some(integer(from)?), None)),
        [from, to] => Ok((Some(integer(from)?), Some(integer(to)?))),
        _ => Err(OperationRefusal::Arguments),
    }
}
