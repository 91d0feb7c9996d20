//! Flattens nested lists of values.

ghost use Rattle.std.specs.Prelude.{◌≡◌, ◌≤◌, ◌++◌, length, map, IfOk, OnOk};
ghost use Rattle.values.specs.View.{data_of, items_of};
ghost use Rattle.values.specs.Flat.{opened, opened_all, opened_items};
ghost use Rattle.values.specs.Weight.{items_weight};

use crate::Value;
use std::alloc::{AllocError, Global};

// Appends a value, or the items of a list with all nested lists flattened.
#[cycle(open)]
fn open<'v>(found: &mut Vec<&'v Value>, value: &'v Value) -> Result<(), AllocError>
    ensures { OnOk result (map (λ v. data_of v.now) found.new.items
        ≡ map (λ v. data_of v.now) found.old.items ++ opened (data_of value.now)) }
{
    match value {
        Value::List(list) => open_items(found, list.items()),
        _ => {
            found.push(value)?;
            Ok(())
        }
    }
}

#[cycle(open)]
fn open_items<'v>(found: &mut Vec<&'v Value>, items: &'v [Value]) -> Result<(), AllocError>
    ensures { OnOk result (map (λ v. data_of v.now) found.new.items
        ≡ map (λ v. data_of v.now) found.old.items ++ opened_items (items_of items.now)) }
{
    for item in items {
        open(found, item)?;
    }
    Ok(())
}

/// Returns the items of a list with all nested lists flattened. Any other value is returned alone.
pub fn flatten_value(alloc: Global, value: &Value) -> Result<Vec<&Value>, AllocError>
    ensures { IfOk result (λ found. map (λ v. data_of v.now) found.items ≡ opened (data_of value.now)) }
{
    let mut found = Vec::new(alloc);
    open(&mut found, value)?;
    Ok(found)
}

/// Returns some values, in order, with all lists flattened, so that none of the results is a list.
pub fn flatten_values(alloc: Global, values: &[Value]) -> Result<Vec<&Value>, AllocError>
    ensures { IfOk result (λ found. map (λ v. data_of v.now) found.items ≡ opened_all (map data_of values.now)) }
{
    let mut found = Vec::new(alloc);
    open_items(&mut found, values)?;
    Ok(found)
}

/// Returns how many values `flatten_value` would return.
#[cycle(count)]
pub fn flattened_count(value: &Value) -> usize
    ensures { result ≡ length (opened (data_of value.now)) }
{
    match value {
        Value::List(list) => count_items(list.items()),
        _ => 1,
    }
}

#[cycle(count)]
fn count_items(items: &[Value]) -> usize
    requires { items_weight (items_of items.now) ≤ 33554432 }
    ensures { result ≡ length (opened_items (items_of items.now)) }
{
    let mut found = 0;
    for item in items {
        found += flattened_count(item);
    }
    found
}
