//! Implements `range`, which makes a list of integers.
ghost use Rattle.std.specs.Prelude.{◌≡◌, ◌<◌, ◌≤◌, ◌-◌, ◌^◌, IfOk, option_map, pos};
ghost use Rattle.arguments.specs.Stops.{Gives};
ghost use Rattle.values.specs.Data.{integer as integer_data};
ghost use Rattle.world.specs.Prelude.{Does, arguments_data, data_of, items_of};
ghost use Rattle.language_calls.specs.Range.{how_many, integer_at, integers_from, range, range_answer, range_of, range_list};

use arguments::{Arguments, CallStop, Rule};
use ports::{Outputs, Tree};
use std::alloc::{AllocError, Global};
use support::limits::ITEMS;
use values::{List, OperationRefusal, Value};
use world::{Caller, Stop};

/// The most items of a list.
const MOST_ITEMS: u128 = ITEMS as u128;

// Returns how many integers are in a range, from the start up to but not including the stop.
fn how_many(start: u128, stop: u128, step: u128) -> u128
    requires order { start ≤ stop }
    requires stop { stop < 2 ^ 127 }
    requires step { 0 < step }
    requires short { step < 2 ^ 127 }
    ensures { result ≡ how_many start stop (step - 1) }
{
    (stop - start + (step - 1)) / step
}

// Returns the value of a number.
fn integer(number: u128) -> Value
    requires { number < 2 ^ 127 }
    ensures { data_of result ≡ integer_data (pos number) }
{
    Value::Integer(number as i128)
}

// Returns the integers of a range.
fn integers(alloc: Global, start: u128, stop: u128, step: u128) -> Result<Vec<Value>, AllocError>
    requires stop { stop < 2 ^ 127 }
    requires step { 0 < step }
    requires short { step < 2 ^ 127 }
    ensures { IfOk result (λ vs. items_of vs.items ≡ integers_from (how_many start stop (step - 1)) start step) }
{
    let mut integers = Vec::new(alloc);
    let mut next = start;
    while next < stop {
        integers.push(integer(next))?;
        next += step;
    }
    Ok(integers)
}

// Returns the list of a range, or `OperationRefusal::Limit` past 65,536 integers.
fn step_through(alloc: Global, start: u128, stop: u128, step: u128) -> Result<Value, CallStop>
    requires order { start ≤ stop }
    requires stop { stop < 2 ^ 127 }
    requires step { 0 < step }
    requires short { step < 2 ^ 127 }
    ensures { Gives data_of (range_list start stop (step - 1)) result }
{
    if how_many(start, stop, step) > MOST_ITEMS {
        return Err(OperationRefusal::Limit.into());
    }
    let list = List::from_items(integers(alloc, start, stop, step)?)?;
    Ok(Value::of_list(alloc, list)?)
}

// Returns the list of a range, and `OperationRefusal::Arguments` for a bad start, stop or step.
fn range_answer(alloc: Global, start: i128, stop: i128, step: i128) -> Result<Value, CallStop>
    ensures { Gives data_of (range_answer start stop step) result }
{
    if start < 0 || stop < start || step < 1 {
        return Err(OperationRefusal::Arguments.into());
    }
    step_through(
        alloc,
        start.unsigned_abs(),
        stop.unsigned_abs(),
        step.unsigned_abs(),
    )
}

// Returns the integer argument at a position.
fn integer_at(arguments: &Arguments, place: usize) -> i128
    ensures { result ≡ integer_at place (arguments_data arguments.now) }
{
    match arguments.argument(place) {
        Some(value) => value.as_integer().unwrap_or(0),
        None => 0,
    }
}

// Returns the list of a range, given one, two or three integers.
fn range_of(alloc: Global, arguments: &Arguments) -> Result<Value, CallStop>
    ensures { Gives data_of (range_of (arguments_data arguments.now).positional (arguments_data arguments.now)) result }
{
    let first = integer_at(arguments, 0);
    let second = integer_at(arguments, 1);
    match arguments.positional.as_slice() {
        [_] => range_answer(alloc, 0, first, 1),
        [_, _] => range_answer(alloc, first, second, 1),
        _ => range_answer(alloc, first, second, integer_at(arguments, 2)),
    }
}

/// Runs `range(stop)`, `range(start, stop)` or `range(start, stop, step)`. Refuses with E9 if an integer is negative, the stop is below the
/// start or the step is less than one, and with E22 past 65,536 integers.
pub fn range<T: Tree, O: Outputs>(
    caller: &Caller<'_, T, O>,
    arguments: &Arguments,
) -> Result<Option<Value>, Stop>
    ensures { Does T.seen O.seen (option_map data_of) (range (arguments_data arguments.now)) caller.now result caller.now }
{
    let value = caller.settle_by(Rule::GoesUp, "range", range_of(caller.alloc, arguments))?;
    Ok(Some(value))
}
