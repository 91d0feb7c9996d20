//! Evaluates `whole[index]`: returns parts of values by index or key.

ghost use Rattle.std.specs.Prelude.{◌≡◌, IfOk, option_map, ok_or};
ghost use Rattle.values.specs.declared.refusal.OperationRefusal.TheVariants as refusal;
ghost use Rattle.values.specs.Prelude.{Answers, data_of};
ghost use Rattle.operations.specs.operators.Index.{place, indexed_item, indexed_char, index_answer, char_text, output_outcome};

use std::alloc::{AllocError, Global};
use values::{List, Object, OperationRefusal, Text, Value};

/// Returns `whole[index]`: an item of a list, a character of a text as a text, the value of a key of a dictionary, or an output of a custom
/// target. Negative integers count from the end.
///
/// Refusals are E6 for types that cannot be indexed like this, and E10 if there is no such part. A disabler, as the whole or as the index,
/// gives a disabler.
pub fn index(
    alloc: Global,
    whole: &Value,
    index: &Value,
) -> Result<Result<Value, OperationRefusal>, AllocError>
    ensures { IfOk result (λ r. Answers (index_answer (data_of whole.now) (data_of index.now)) r) }
{
    if whole.is_disabler() {
        return Ok(Ok(whole.clone()?));
    }
    if index.is_disabler() {
        return Ok(Ok(index.clone()?));
    }
    match (whole, index) {
        (Value::List(list), Value::Integer(index)) => found_value(indexed_item(list, *index)),
        (Value::Text(text), Value::Integer(index)) => text_of(alloc, indexed_char(text, *index)),
        (Value::Dictionary(dictionary), Value::Text(key)) => found_value(dictionary.get(key)),
        (Value::Object(object), Value::Integer(index)) => match indexed_output(object, *index) {
            Ok(output) => Ok(Ok(Value::of_object(alloc, output)?)),
            Err(refusal) => Ok(Err(refusal)),
        },
        _ => Ok(Err(OperationRefusal::Type)),
    }
}

// Returns the position that an index denotes among `len` parts, and `None` if it is out of range.
fn place(index: i128, len: usize) -> Option<usize>
    ensures { result ≡ place index len }
{
    let len = len as i128;
    let place = if index < 0 { index + len } else { index };
    if 0 <= place && place < len {
        Some(place as usize)
    } else {
        None
    }
}

/// Returns the item of a list at an index, and `None` if it is out of range. A negative index counts from the end.
pub fn indexed_item(list: &List, index: i128) -> Option<&Value>
    ensures { option_map (λ v. data_of v.now) result ≡ indexed_item list.now index }
{
    let at = place(index, list.len())?;
    list.items().get(at)
}

// Returns the character at an index. The characters are counted only for a negative index.
fn indexed_char(text: &Text, index: i128) -> Option<char>
    ensures { result ≡ indexed_char text.now index }
{
    let at = match usize::try_from(index) {
        Ok(at) => at,
        Err(_) => place(index, text.char_count())?,
    };
    text.char_at(at)
}

fn indexed_output(object: &Object, index: i128) -> Result<Object, OperationRefusal>
    ensures { output_outcome object.now index ≡ result }
{
    match object {
        Object::CustomTarget { number, outputs } => {
            let output = place(index, *outputs).ok_or(OperationRefusal::Absent)?;
            Ok(Object::CustomOutput {
                target: *number,
                output,
            })
        }
        _ => Err(OperationRefusal::Type),
    }
}

// Returns a copy of the value that was found, and E10 if there is none.
fn found_value(value: Option<&Value>) -> Result<Result<Value, OperationRefusal>, AllocError>
    ensures { IfOk result (λ r. Answers (ok_or (option_map (λ v. data_of v.now) value.entry) refusal.Absent) r) }
{
    let Some(value) = value else {
        return Ok(Err(OperationRefusal::Absent));
    };
    Ok(Ok(value.clone()?))
}

// Returns the text of the character that was found, and E10 if there is none.
fn text_of(
    alloc: Global,
    character: Option<char>,
) -> Result<Result<Value, OperationRefusal>, AllocError>
    ensures { IfOk result (λ r. Answers (ok_or (char_text character) refusal.Absent) r) }
{
    match character {
        Some(character) => {
            let mut text = String::new(alloc);
            text.push(character)?;
            Value::of_string(alloc, text)
        }
        None => Ok(Err(OperationRefusal::Absent)),
    }
}
