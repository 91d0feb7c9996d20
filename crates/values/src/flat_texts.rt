//! Collects the texts in lists of any depth.

ghost use Rattle.std.specs.Prelude.{◌≡◌, ◌++◌, map, IfOk, OnOk};
ghost use Rattle.values.specs.View.{data_of, items_of};
ghost use Rattle.values.specs.Flat.{is_texts, are_texts, items_are_texts, flat, flat_all, flat_items};

use crate::Value;
use std::alloc::{AllocError, Global};

/// Returns whether a value is a text, or a list of such values of any depth.
#[cycle(texts)]
pub fn is_texts(value: &Value) -> bool
    ensures { result ≡ is_texts (data_of value.now) }
{
    match value {
        Value::Text(_) => true,
        Value::List(list) => items_are_texts(list.items()),
        _ => false,
    }
}

#[cycle(texts)]
fn items_are_texts(items: &[Value]) -> bool
    ensures { result ≡ items_are_texts (items_of items.now) }
{
    for item in items {
        if !is_texts(item) {
            return false;
        }
    }
    true
}

/// Returns whether each of some values is a text, or a list of texts of any depth.
pub fn are_texts(values: &[Value]) -> bool
    ensures { result ≡ are_texts (map data_of values.now) }
{
    items_are_texts(values)
}

// Appends the texts of a value to those already found.
#[cycle(collect)]
fn collect<'v>(found: &mut Vec<&'v str>, value: &'v Value) -> Result<(), AllocError>
    ensures { OnOk result (map (λ t. t.now) found.new.items ≡ map (λ t. t.now) found.old.items ++ flat (data_of value.now)) }
{
    match value {
        Value::Text(text) => {
            found.push(text.as_str())?;
            Ok(())
        }
        Value::List(list) => collect_items(found, list.items()),
        _ => Ok(()),
    }
}

#[cycle(collect)]
fn collect_items<'v>(found: &mut Vec<&'v str>, items: &'v [Value]) -> Result<(), AllocError>
    ensures { OnOk result (map (λ t. t.now) found.new.items ≡ map (λ t. t.now) found.old.items ++ flat_items (items_of items.now)) }
{
    for item in items {
        collect(found, item)?;
    }
    Ok(())
}

/// Returns the texts in a value, in order, with all lists flattened. A value that is neither a text nor a list is skipped.
pub fn flat(alloc: Global, value: &Value) -> Result<Vec<&str>, AllocError>
    ensures { IfOk result (λ found. map (λ t. t.now) found.items ≡ flat (data_of value.now)) }
{
    let mut found = Vec::new(alloc);
    collect(&mut found, value)?;
    Ok(found)
}

/// Returns the texts in some values, in order, with all lists flattened. A value that is neither a text nor a list is skipped.
pub fn flat_all(alloc: Global, values: &[Value]) -> Result<Vec<&str>, AllocError>
    ensures { IfOk result (λ found. map (λ t. t.now) found.items ≡ flat_all (map data_of values.now)) }
{
    let mut found = Vec::new(alloc);
    collect_items(&mut found, values)?;
    Ok(found)
}
