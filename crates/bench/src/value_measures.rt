//! Times so many operations of one kind on values. The measures are:
//!
//! - `append`: items appended to a list that is not shared.
//! - `characters`: characters appended to a text that is not shared.
//! - `double`: a text appended to itself up to so many bytes.
//! - `entries`: entries added to a dictionary that is not shared.
//! - `replaced`: the same, and each replaced.
//! - `lookups`: the same, and each looked up.
//! - `format`: a text with so many places.
//! - `unused`: the same, with a long text that no place names.
//! - `join`: so many texts.

use crate::measured::{Measured, count_of};
use crate::stop::Stop;
use operations::methods::method;
use operations::operators::{Binary, binary, dictionary, index};
use std::alloc::Global;
use std::time::Instant;
use values::language_names::MethodName;
use values::{List, Text, Value};

/// Carries out the operations of this measure, and what they need, `count` times.
pub fn measure(rt: &HostRuntime, measure: &str, of: &str) -> Result<Measured, Stop> {
    let count = count_of(of)?;
    let start = Instant::now(rt)?;
    let made = make(rt.alloc(), measure, count)?;
    Measured::since(rt, start, made)
}

// Returns the size of what so many operations make.
fn make(alloc: Global, measure: &str, count: usize) -> Result<usize, Stop> {
    match measure {
        "append" => append(alloc, count),
        "characters" => characters(alloc, count),
        "double" => double(alloc, count),
        "entries" => entries(alloc, count),
        "replaced" => replace(alloc, count),
        "lookups" => lookups(alloc, count),
        "format" => format_places(alloc, count, "word"),
        "unused" => format_unused(alloc, count),
        "join" => join(alloc, count),
        _ => Err(Stop("there is no such measure of values")),
    }
}

// Returns the value of an operation that is not refused.
fn accept<E: Drop>(answer: Result<Value, E>) -> Result<Value, Stop> {
    match answer {
        Ok(value) => Ok(value),
        Err(_) => Err(Stop("an operation is refused")),
    }
}

// Returns what the method with a name gives.
fn call(alloc: Global, receiver: &Value, name: &str, values: &[Value]) -> Result<Value, Stop> {
    let Ok(name) = Text::of_str(alloc, name)? else {
        return Err(Stop("the name of a method is too long"));
    };
    let name = MethodName::new(name);
    accept(method(alloc, receiver, &name, values)?)
}

fn text(alloc: Global, string: String) -> Result<Value, Stop> {
    accept(Value::of_string(alloc, string)?)
}

// Returns how many items a list has, entries a dictionary or bytes a text.
fn size(value: &Value) -> usize {
    match value {
        Value::List(list) => list.len(),
        Value::Dictionary(dictionary) => dictionary.len(),
        Value::Text(text) => text.as_str().len(),
        _ => 0,
    }
}

fn append(alloc: Global, count: usize) -> Result<usize, Stop> {
    let mut list = Value::of_list(alloc, List::new(alloc))?;
    for _ in 0..count {
        list = accept(binary(alloc, Binary::Add, list, Value::Integer(7))?)?;
    }
    Ok(size(&list))
}

fn characters(alloc: Global, count: usize) -> Result<usize, Stop> {
    let mut grown = text(alloc, String::new(alloc))?;
    let character = text(alloc, String::from_str(alloc, "a")?)?;
    for _ in 0..count {
        grown = accept(binary(alloc, Binary::Add, grown, character.clone()?)?)?;
    }
    Ok(size(&grown))
}

fn double(alloc: Global, bytes: usize) -> Result<usize, Stop> {
    let mut grown = text(alloc, String::from_str(alloc, "a")?)?;
    for _ in 0..24 {
        if size(&grown) < bytes {
            let same = grown.clone()?;
            grown = accept(binary(alloc, Binary::Add, grown, same)?)?;
        }
    }
    Ok(size(&grown))
}

fn key(alloc: Global, number: usize) -> Result<Value, Stop> {
    text(alloc, format!(in alloc; "key{number}")?)
}

fn empty_table(alloc: Global) -> Result<Value, Stop> {
    accept(dictionary(alloc, Vec::new(alloc))?)
}

// Returns a dictionary to which so many entries were added one by one.
fn put_each(alloc: Global, table: Value, count: usize) -> Result<Value, Stop> {
    let mut table = table;
    for i in 0..count {
        let pair = (key(alloc, i)?, Value::Integer(7));
        let entry = accept(dictionary(alloc, vec![in alloc; pair]?)?)?;
        table = accept(binary(alloc, Binary::Add, table, entry)?)?;
    }
    Ok(table)
}

fn entries(alloc: Global, count: usize) -> Result<usize, Stop> {
    Ok(size(&put_each(alloc, empty_table(alloc)?, count)?))
}

fn replace(alloc: Global, count: usize) -> Result<usize, Stop> {
    let table = put_each(alloc, empty_table(alloc)?, count)?;
    Ok(size(&put_each(alloc, table, count)?))
}

fn lookups(alloc: Global, count: usize) -> Result<usize, Stop> {
    let table = put_each(alloc, empty_table(alloc)?, count)?;
    for i in 0..count {
        let _value = accept(index(alloc, &table, &key(alloc, i)?)?)?;
    }
    Ok(size(&table))
}

// Returns one piece, repeated.
fn repeat(alloc: Global, piece: &str, count: usize) -> Result<String, Stop> {
    let mut text = String::new(alloc);
    for _ in 0..count {
        text.push_str(piece)?;
    }
    Ok(text)
}

fn format_places(alloc: Global, count: usize, unused: &str) -> Result<usize, Stop> {
    let places = text(alloc, repeat(alloc, "@0@ @1@ ", count / 2)?)?;
    let values = vec![in alloc;
        Value::Integer(7),
        text(alloc, String::from_str(alloc, "word")?)?,
        text(alloc, String::from_str(alloc, unused)?)?,
    ]?;
    let formatted = call(alloc, &places, "format", &values)?;
    Ok(size(&formatted))
}

fn format_unused(alloc: Global, count: usize) -> Result<usize, Stop> {
    let unused = repeat(alloc, "word", count)?;
    format_places(alloc, count, unused.as_str())
}

fn join(alloc: Global, count: usize) -> Result<usize, Stop> {
    let separator = text(alloc, String::from_str(alloc, ", ")?)?;
    let mut words = Vec::new(alloc);
    for i in 0..count {
        words.push(key(alloc, i)?)?;
    }
    let joined = call(alloc, &separator, "join", &words)?;
    Ok(size(&joined))
}
