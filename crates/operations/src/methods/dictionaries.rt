//! Implements the methods of dictionaries: the type `dict` of the page "Reference manual".

ghost use Rattle.std.specs.Prelude.{◌≡◌, [], map, IfOk};
ghost use Rattle.values.specs.Data.{keys_in};
ghost use Rattle.values.specs.Prelude.{data_of, items_of};
ghost use Rattle.operations.specs.methods.Steps.{Gives};
ghost use Rattle.operations.specs.methods.TextLists.{texts};
ghost use Rattle.operations.specs.methods.Dictionaries.{argument_words, get, has_key, keys, sorted_with, answer};

use crate::methods::lists::take_or;
use crate::methods::readers::{key_and_fallback, none, one, text};
use crate::methods::stop::MethodStop;
use crate::operators::list;
use std::alloc::{AllocError, Global};
use std::collections::BTreeSet;
use values::language_names::{DictionaryMethod, MethodName};
use values::{Dictionary, OperationRefusal, Text, Value};

/// Calls the method of a dictionary with this name and returns its result. Refusals are E8 for an unknown name, E9 for wrong arguments and
/// E10 for an absent key.
pub fn dictionary_method(
    alloc: Global,
    dictionary: &Dictionary,
    name: &MethodName,
    arguments: &[Value],
) -> Result<Value, MethodStop>
    ensures { Gives (answer dictionary.now name.now (map data_of arguments.now)) result }
{
    let method = name.of_dictionary().ok_or(OperationRefusal::UnknownMethod)?;
    match method {
        DictionaryMethod::Get => get(dictionary, arguments),
        DictionaryMethod::HasKey => has_key(dictionary, arguments),
        DictionaryMethod::Keys => keys(alloc, dictionary, arguments),
    }
}

/// Describes in words what a method of a dictionary takes.
pub fn argument_words(method: DictionaryMethod) -> &'static str
    ensures { result.now ≡ argument_words method }
{
    match method {
        DictionaryMethod::Get => "a text, or a text and a value in its place",
        DictionaryMethod::HasKey => "one text",
        DictionaryMethod::Keys => "no arguments",
    }
}

fn get(dictionary: &Dictionary, arguments: &[Value]) -> Result<Value, MethodStop>
    ensures { Gives (get dictionary.now (map data_of arguments.now)) result }
{
    let (key, fallback) = key_and_fallback(arguments)?;
    let key = text(key)?;
    take_or(dictionary.get(key), fallback)
}

fn has_key(dictionary: &Dictionary, arguments: &[Value]) -> Result<Value, MethodStop>
    ensures { Gives (has_key dictionary.now (map data_of arguments.now)) result }
{
    let key = text(one(arguments)?)?;
    Ok(Value::Boolean(dictionary.get(key).is_some()))
}

fn keys(alloc: Global, dictionary: &Dictionary, arguments: &[Value]) -> Result<Value, MethodStop>
    ensures { Gives (keys dictionary.now (map data_of arguments.now)) result }
{
    none(arguments)?;
    let keys = key_values(alloc, &sorted_keys(alloc, dictionary)?)?;
    Ok(list(alloc, keys)??)
}

// Returns the keys, sorted by bytes.
fn sorted_keys(alloc: Global, dictionary: &Dictionary) -> Result<Vec<&Text>, AllocError>
    ensures { IfOk result (λ ks. map (λ k. k.now) ks.items ≡ sorted_with [] (keys_in dictionary.now)) }
{
    let sorted = key_set(alloc, dictionary.keys())?;
    sorted.into_iter().collect(alloc)
}

fn key_set<'d>(alloc: Global, keys: &'d [Text]) -> Result<BTreeSet<&'d Text>, AllocError>
    ensures { IfOk result (λ s. map (λ k. k.now) s.keys ≡ sorted_with [] keys.entry.now) }
{
    let mut sorted = BTreeSet::new(alloc);
    for key in keys {
        sorted.insert(key)?;
    }
    Ok(sorted)
}

// Returns the keys as values. They are shared, and no byte is copied.
fn key_values(alloc: Global, keys: &[&Text]) -> Result<Vec<Value>, AllocError>
    ensures { IfOk result (λ vs. items_of vs.items ≡ texts (map (λ k. k.now) keys.now)) }
{
    let mut values = Vec::new(alloc);
    for key in keys {
        values.push(Value::Text((*key).clone()?))?;
    }
    Ok(values)
}
