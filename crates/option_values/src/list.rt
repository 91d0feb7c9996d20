//! Reads texts that give the items of a list.

ghost use Rattle.std.specs.Prelude.{◌≡◌, IfOk};
ghost use Rattle.std.specs.Option.{option_map};
ghost use Rattle.option_values.specs.Lists.{are_among, begins_list, items_of, items_of_literal, parts_of, word_items_of};
ghost use Rattle.option_values.specs.View.{choices_in, strings_in, texts_of};

use crate::choices::Choices;
use crate::words::words_of;
use machine_file::{Blanks, MachineValue, read_value, trim};
use std::alloc::{AllocError, Global};

// Returns whether each item is one of the choices.
fn all_among(choices: &Choices, items: &[String]) -> bool
    ensures { result ≡ are_among (Some (texts_of choices.now)) (strings_in items.now) }
{
    items.iter().all(|item| choices.has(item.as_str()))
}

/// Returns whether each item is one of the choices, if there are choices.
pub fn are_among(choices: &Option<Choices>, items: &[String]) -> bool
    ensures { result ≡ are_among (choices_in choices.now) (strings_in items.now) }
{
    match choices {
        Some(choices) => all_among(choices, items),
        None => true,
    }
}

// Returns the parts between commas, without spaces at their ends. An empty text has none.
fn parts_of(alloc: Global, text: &str) -> Result<Vec<String>, AllocError>
    ensures { IfOk result (λ parts. strings_in parts.items ≡ parts_of text.now) }
{
    let mut parts = Vec::new(alloc);
    if text.is_empty() {
        return Ok(parts);
    }
    for part in text.split(',') {
        parts.push(String::from_str(alloc, trim(Blanks::Spaces, part))?)?;
    }
    Ok(parts)
}

fn begins_list(text: &str) -> bool
    ensures { result ≡ begins_list text.now }
{
    let bytes = text.as_bytes();
    !bytes.is_empty() && bytes[0] == b'['
}

// Returns the items of a list literal of plain strings, or `None` if the text is no list literal of plain strings.
fn to_list(alloc: Global, text: &str) -> Result<Option<Vec<String>>, AllocError>
    ensures { IfOk result (λ items. option_map (λ i. strings_in i.items) items ≡ items_of_literal text.now) }
{
    match read_value(alloc, text)? {
        Some(MachineValue::Texts(items)) => Ok(Some(items)),
        _ => Ok(None),
    }
}

/// Returns the items of an array: a list literal, or the parts between commas.
pub fn items_of(alloc: Global, text: &str) -> Result<Option<Vec<String>>, AllocError>
    ensures { IfOk result (λ items. option_map (λ i. strings_in i.items) items ≡ items_of text.now) }
{
    if begins_list(text) {
        return to_list(alloc, text);
    }
    Ok(Some(parts_of(alloc, text)?))
}

/// Returns the items of words: a list literal, or words.
pub fn word_items_of(alloc: Global, text: &str) -> Result<Option<Vec<String>>, AllocError>
    ensures { IfOk result (λ items. option_map (λ i. strings_in i.items) items ≡ word_items_of text.now) }
{
    if begins_list(text) {
        return to_list(alloc, text);
    }
    words_of(alloc, text)
}
