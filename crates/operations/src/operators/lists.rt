//! Adds lists and dictionaries. A value that nobody else shares is changed in place.

ghost use Rattle.std.specs.Prelude.{IfOk};
ghost use Rattle.values.specs.Data.{list as list_data, dictionary as dictionary_data, items_append, item, no_items, merged_entries};
ghost use Rattle.values.specs.Prelude.{Answers, data_of, within};

use std::alloc::{AllocError, Global};
use std::rc::Rc;
use values::{Dictionary, DictionaryBuilder, List, OperationRefusal, Value};

/// Returns the items of one list followed by those of another, or E22 past a limit.
pub fn append_all(
    alloc: Global,
    mut list: Rc<List>,
    others: &List,
) -> Result<Result<Value, OperationRefusal>, AllocError>
    ensures { IfOk result (λ r. Answers (within (list_data (items_append list.value others.now))) r) }
{
    if !list.has_room_for(others) {
        return Ok(Err(OperationRefusal::Limit));
    }
    if let Some(own) = Rc::get_mut(&mut list) {
        own.extend(others)?;
        return Ok(Ok(Value::List(list)));
    }
    let mut copy = List::copy_of(alloc, &list)?;
    copy.extend(others)?;
    Ok(Ok(Value::of_list(alloc, copy)?))
}

/// Returns the items of a list followed by a value, or E22 past a limit.
pub fn append(
    alloc: Global,
    mut list: Rc<List>,
    value: Value,
) -> Result<Result<Value, OperationRefusal>, AllocError>
    ensures { IfOk result (λ r. Answers (within (list_data (items_append list.value (item (data_of value) no_items)))) r) }
{
    if !list.has_room(&value) {
        return Ok(Err(OperationRefusal::Limit));
    }
    if let Some(own) = Rc::get_mut(&mut list) {
        own.push(value)?;
        return Ok(Ok(Value::List(list)));
    }
    let mut copy = List::copy_of(alloc, &list)?;
    copy.push(value)?;
    Ok(Ok(Value::of_list(alloc, copy)?))
}

/// Returns one dictionary updated with the entries of another, or E22 past a limit.
pub fn merge(
    alloc: Global,
    mut dictionary: Rc<Dictionary>,
    others: &Dictionary,
) -> Result<Result<Value, OperationRefusal>, AllocError>
    ensures { IfOk result (λ r. Answers (within (dictionary_data (merged_entries dictionary.value others.now))) r) }
{
    if let Some(own) = Rc::get_mut(&mut dictionary) {
        let answer = own.merge(alloc, others)?;
        return match answer {
            Ok(()) => Ok(Ok(Value::Dictionary(dictionary))),
            Err(refusal) => Ok(Err(refusal)),
        };
    }
    let mut builder = DictionaryBuilder::copy_of(alloc, &dictionary)?;
    builder.put_all(others)?;
    match builder.finish() {
        Ok(dictionary) => Ok(Ok(Value::of_dictionary(alloc, dictionary)?)),
        Err(refusal) => Ok(Err(refusal)),
    }
}
