//! Evaluates literals of lists and dictionaries, and makes lists of texts.

ghost use Rattle.std.specs.Prelude.{◌≡◌, ◌+◌, ◌<◌, ◌≤◌, ◌^◌, IfOk, MatchResult, Ok, Err, map};
ghost use Rattle.values.specs.Data.{no_entries, no_items, list as list_data};
ghost use Rattle.values.specs.Prelude.{Answers, data_of, items_of, within};
ghost use Rattle.values.specs.Weight.{entries_weight};
ghost use Rattle.operations.specs.operators.TextLists.{PutsText, items_in, text_list, texts_behind};
ghost use Rattle.operations.specs.operators.Literal.{with_entry, with_entries, literal_answer, pairs_of, Makes};

use std::alloc::{AllocError, Global};
use thiserror::Error;
use values::{Content, DictionaryBuilder, List, OperationRefusal, Text, Value};

/// Says why keys and values make no dictionary.
#[derive(Debug, Drop, Error)]
pub enum LiteralRefusal {
    /// E11: an earlier entry has this key.
    #[error("{}: key '{}'", OperationRefusal::Duplicate, .0.as_str())]
    Twice(Text),
    /// A key is no text, or the dictionary is past a limit.
    #[error(transparent)]
    Refused(OperationRefusal),
}

/// Returns the list of a literal's items, or E22 if it is past a limit.
pub fn list(alloc: Global, items: Vec<Value>) -> Result<Result<Value, OperationRefusal>, AllocError>
    ensures { IfOk result (λ r. Answers (within (list_data (items_of items.items))) r) }
{
    match List::from_items(items) {
        Ok(list) => Ok(Ok(Value::of_list(alloc, list)?)),
        Err(refusal) => Ok(Err(refusal)),
    }
}

// Appends a text to the values. It is built in its final place, since moving a short text has to wait for its bytes.
fn push_text(
    alloc: Global,
    values: &mut Vec<Value>,
    text: &str,
) -> Result<Result<(), OperationRefusal>, AllocError>
    ensures { IfOk result (λ r. PutsText values.old.items text.now values.new.items r) }
{
    let at = values.len();
    values.push(Value::Text(Text::empty()))?;
    let put = match &mut values[at] {
        Value::Text(made) => made.push(alloc, text)?,
        _ => unreachable!(),
    };
    Ok(put)
}

// Returns these texts as values, or `OperationRefusal::Limit` if one is too long.
fn text_values(
    alloc: Global,
    texts: &[&str],
) -> Result<Result<Vec<Value>, OperationRefusal>, AllocError>
    ensures { IfOk result (λ r. items_in r ≡ texts_behind no_items (map (λ t. t.now) texts.now)) }
{
    let mut values = Vec::with_capacity(alloc, texts.len())?;
    for text in texts {
        if let Err(refusal) = push_text(alloc, &mut values, text)? {
            return Ok(Err(refusal));
        }
    }
    Ok(Ok(values))
}

/// Returns the list of these texts, or `OperationRefusal::Limit` if one of them or the list is past a limit.
pub fn text_list(
    alloc: Global,
    texts: &[&str],
) -> Result<Result<Value, OperationRefusal>, AllocError>
    ensures { IfOk result (λ r. Answers (text_list (map (λ t. t.now) texts.now)) r) }
{
    match text_values(alloc, texts)? {
        Ok(values) => list(alloc, values),
        Err(refusal) => Ok(Err(refusal)),
    }
}

/// Returns the dictionary of a literal's keys and values, in order.
///
/// The first key that is no text (E6) or equal to an earlier one (E11) decides. Otherwise the refusal is E22 if the dictionary is past a
/// limit.
pub fn dictionary(
    alloc: Global,
    entries: Vec<(Value, Value)>,
) -> Result<Result<Value, LiteralRefusal>, AllocError>
    ensures { IfOk result (λ r. Makes (literal_answer (pairs_of entries.items)) r) }
{
    let mut builder = DictionaryBuilder::new(alloc);
    if let Err(refusal) = put_entries(&mut builder, entries)? {
        return Ok(Err(refusal));
    }
    match builder.finish() {
        Ok(dictionary) => Ok(Ok(Value::of_dictionary(alloc, dictionary)?)),
        Err(refusal) => Ok(Err(LiteralRefusal::Refused(refusal))),
    }
}

// Adds the entries of a literal to an empty builder, until one is refused.
fn put_entries(
    builder: &mut DictionaryBuilder,
    entries: Vec<(Value, Value)>,
) -> Result<Result<(), LiteralRefusal>, AllocError>
    requires { builder.old ≡ no_entries }
    ensures { IfOk result (λ r. MatchResult r
        (λ _. with_entries no_entries (pairs_of entries.items) ≡ Ok builder.new)
        (λ e. with_entries no_entries (pairs_of entries.items) ≡ Err e)) }
{
    for (key, value) in entries {
        if let Err(refusal) = put_entry(builder, key, value)? {
            return Ok(Err(refusal));
        }
    }
    Ok(Ok(()))
}

// Adds one entry, unless its key is refused.
fn put_entry(
    builder: &mut DictionaryBuilder,
    key: Value,
    value: Value,
) -> Result<Result<(), LiteralRefusal>, AllocError>
    requires { entries_weight builder.old < 2 ^ 100 }
    ensures put { IfOk result (λ r. MatchResult r
        (λ _. with_entry builder.old (data_of key) (data_of value) ≡ Ok builder.new)
        (λ e. with_entry builder.old (data_of key) (data_of value) ≡ Err e)) }
    ensures light { IfOk result (λ _. entries_weight builder.new ≤ entries_weight builder.old + 2 ^ 26) }
{
    let Content::Text(key) = key.into_content() else {
        return Ok(Err(LiteralRefusal::Refused(OperationRefusal::Type)));
    };
    if builder.contains_key(&key) {
        return Ok(Err(LiteralRefusal::Twice(key)));
    }
    // Both weights are bounded, so that the sum cannot overflow.
    let _key = key.as_str();
    let _weight = value.weight();
    builder.put(key, value)?;
    Ok(Ok(()))
}
