//! Implements the methods of lists: the type `list` of the page "Reference manual".

ghost use Rattle.std.specs.Prelude.{◌≡◌, map, option_map};
ghost use Rattle.values.specs.Prelude.{data_of, items_of};
ghost use Rattle.operations.specs.methods.Steps.{Gives};
ghost use Rattle.operations.specs.methods.Lists.{argument_words, stands_in, stands_inside, contains, get, found_or, len, answer};

use crate::methods::readers::{integer, key_and_fallback, none, one};
use crate::methods::stop::MethodStop;
use crate::operators::indexed_item;
use values::language_names::{ListMethod, MethodName};
use values::{List, OperationRefusal, Value, is_equal};

/// Calls the method of a list with this name and returns its result. Refusals are E8 for an unknown name, E9 for wrong arguments and E10
/// for an absent index.
pub fn list_method(list: &List, name: &MethodName, arguments: &[Value]) -> Result<Value, MethodStop>
    ensures { Gives (answer list.now name.now (map data_of arguments.now)) result }
{
    let method = name.of_list().ok_or(OperationRefusal::UnknownMethod)?;
    match method {
        ListMethod::Contains => contains(list, arguments),
        ListMethod::Get => get(list, arguments),
        ListMethod::Length => len(list, arguments),
    }
}

/// Describes in words what a method of a list takes.
pub fn argument_words(method: ListMethod) -> &'static str
    ensures { result.now ≡ argument_words method }
{
    match method {
        ListMethod::Contains => "one value",
        ListMethod::Get => "an integer, or an integer and a value in its place",
        ListMethod::Length => "no arguments",
    }
}

fn contains(list: &List, arguments: &[Value]) -> Result<Value, MethodStop>
    ensures { Gives (contains list.now (map data_of arguments.now)) result }
{
    let value = one(arguments)?;
    Ok(Value::Boolean(stands_in(value, list.items())))
}

// Returns whether a value is one of the items, or is in an item that is a list, at any depth.
#[cycle(depths)]
fn stands_in(value: &Value, items: &[Value]) -> bool
    ensures { result ≡ stands_in (data_of value.now) (items_of items.now) }
{
    for item in items {
        if is_equal(value, item) || stands_inside(value, item) {
            return true;
        }
    }
    false
}

#[cycle(depths)]
fn stands_inside(value: &Value, whole: &Value) -> bool
    ensures { result ≡ stands_inside (data_of value.now) (data_of whole.now) }
{
    match whole {
        Value::List(list) => stands_in(value, list.items()),
        _ => false,
    }
}

fn get(list: &List, arguments: &[Value]) -> Result<Value, MethodStop>
    ensures { Gives (get list.now (map data_of arguments.now)) result }
{
    let (index, fallback) = key_and_fallback(arguments)?;
    let index = integer(index)?;
    take_or(indexed_item(list, index), fallback)
}

/// Returns a copy of the value that was found, otherwise of the fallback, and the refusal E10 if there is neither.
pub fn take_or(found: Option<&Value>, fallback: Option<&Value>) -> Result<Value, MethodStop>
    ensures { Gives (found_or (option_map (λ v. data_of v.now) found.entry) (option_map (λ v. data_of v.now) fallback.entry)) result }
{
    if let Some(value) = found {
        return Ok(value.clone()?);
    }
    match fallback {
        Some(value) => Ok(value.clone()?),
        None => Err(MethodStop::Refused(OperationRefusal::Absent)),
    }
}

fn len(list: &List, arguments: &[Value]) -> Result<Value, MethodStop>
    ensures { Gives (len list.now (map data_of arguments.now)) result }
{
    none(arguments)?;
    Ok(Value::Integer(list.len() as i128))
}
