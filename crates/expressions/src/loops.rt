//! Iterates over the rounds of a loop: "Foreach statements" of the page "Syntax".
ghost use Rattle.std.specs.Prelude.{IfOk, false, true};
ghost use Rattle.world.specs.Prelude.{data_of, items_of};
ghost use Rattle.expressions.specs.Rounds.{HasFewRounds, Loops, RoundAt, entry_rounds, item_rounds, rounds_in};

use std::alloc::{AllocError, Global};
use support::faults::Refusal;
use values::{Dictionary, Value, values_have_few_items};

/// Holds the values of a round's variables: of the first, and of the second if there is one.
#[derive(Drop)]
pub struct Round {
    pub first: Value,
    pub second: Option<Value>,
}

// Returns the item of a list at an index, and `None` past the last.
fn item_at(items: &[Value], at: usize) -> Result<Option<Round>, AllocError>
    ensures { IfOk result (λ r. RoundAt (item_rounds (items_of items.now)) at r) }
{
    if at >= items.len() {
        return Ok(None);
    }
    let item = items[at].clone()?;
    Ok(Some(Round {
        first: item,
        second: None,
    }))
}

// Returns the key and the value of a dictionary at an index, and `None` past the last. The bytes of the key are shared.
fn entry_at(dictionary: &Dictionary, at: usize) -> Result<Option<Round>, AllocError>
    ensures { IfOk result (λ r. RoundAt (entry_rounds dictionary.now) at r) }
{
    if at >= dictionary.len() {
        return Ok(None);
    }
    let values = dictionary.values();
    let key = dictionary.key(at).clone()?;
    let value = values[at].clone()?;
    Ok(Some(Round {
        first: Value::Text(key),
        second: Some(value),
    }))
}

/// Returns the round over a list or a dictionary at an index, and `None` past the last. Its values are shared with the list or dictionary.
#[inline(always)]
pub fn round_at(whole: &Value, at: usize) -> Result<Option<Round>, AllocError>
    ensures { IfOk result (λ r. RoundAt (rounds_in (data_of whole.now)) at r) }
{
    match whole {
        Value::List(list) => item_at(list.items(), at),
        Value::Dictionary(dictionary) => entry_at(dictionary, at),
        Value::Boolean(_) | Value::Integer(_) | Value::Text(_) | Value::Object(_) => Ok(None),
    }
}

// Refuses a value over which a loop with two names cannot iterate.
fn check_entries(whole: &Value) -> Result<(), Refusal>
    ensures { Loops true (data_of whole.now) result }
{
    match whole.as_dictionary() {
        Some(_) => Ok(()),
        None => Err(Refusal::Type),
    }
}

// Refuses a value over which a loop with one name cannot iterate.
fn check_items(whole: &Value) -> Result<(), Refusal>
    ensures { Loops false (data_of whole.now) result }
{
    match whole.as_list() {
        Some(_) => Ok(()),
        None => Err(Refusal::Type),
    }
}

/// Refuses a value over which a loop cannot iterate (E6): with one name it needs a list, with two a dictionary.
pub fn check_loop(has_second: bool, whole: &Value) -> Result<(), Refusal>
    ensures loops { Loops has_second (data_of whole.now) result }
    ensures few { HasFewRounds (data_of whole.now) }
{
    // The law that `few` follows from; the call does nothing.
    values_have_few_items(whole);
    if has_second {
        check_entries(whole)
    } else {
        check_items(whole)
    }
}
