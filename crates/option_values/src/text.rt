//! Converts texts to values of options.

ghost use Rattle.std.specs.Prelude.{◌≡◌, IfOk, Some};
ghost use Rattle.std.specs.Option.{option_and_then, option_map};
ghost use Rattle.option_values.specs.Integers.{integer_within};
ghost use Rattle.option_values.specs.Lists.{items_of, word_items_of};
ghost use Rattle.option_values.specs.Texts.{array_of, choice_of, state_of, boolean_of, value_of};
ghost use Rattle.option_values.specs.Values as value;
ghost use Rattle.option_values.specs.View.{choices_in, kind_in, strings_in, texts_of, value_in};

use crate::choices::Choices;
use crate::integer::integer_within;
use crate::kind::{FeatureState, OptionKind, OptionValue};
use crate::list::{are_among, items_of, word_items_of};
use std::alloc::{AllocError, Global};

fn boolean_of(text: &str) -> Option<bool>
    ensures { result ≡ boolean_of text.now }
{
    match text {
        "true" => Some(true),
        "false" => Some(false),
        _ => None,
    }
}

fn state_of(text: &str) -> Option<FeatureState>
    ensures { result ≡ state_of text.now }
{
    match text {
        "enabled" => Some(FeatureState::Enabled),
        "disabled" => Some(FeatureState::Disabled),
        "auto" => Some(FeatureState::Auto),
        _ => None,
    }
}

fn text_of(alloc: Global, text: &str) -> Result<OptionValue, AllocError>
    ensures { IfOk result (λ v. value_in v ≡ value.Text text.now) }
{
    Ok(OptionValue::Text(String::from_str(alloc, text)?))
}

// Returns a text as the value of a combo, if it is one of the choices.
fn choice_of(
    alloc: Global,
    choices: &Choices,
    text: &str,
) -> Result<Option<OptionValue>, AllocError>
    ensures { IfOk result (λ v. option_map value_in v ≡ choice_of (texts_of choices.now) text.now) }
{
    if !choices.has(text) {
        return Ok(None);
    }
    let choice = String::from_str(alloc, text)?;
    Ok(Some(OptionValue::Combo(choice)))
}

/// Returns a list of these items, if the choices allow them.
pub fn array_of(choices: &Option<Choices>, items: Vec<String>) -> Option<OptionValue>
    ensures { option_map value_in result ≡ array_of (choices_in choices.now) (strings_in items.items) }
{
    if are_among(choices, &items) {
        Some(OptionValue::Array(items))
    } else {
        None
    }
}

// Returns the list that a text gives, if the choices allow its items.
fn array_of_text(
    alloc: Global,
    choices: &Option<Choices>,
    text: &str,
) -> Result<Option<OptionValue>, AllocError>
    ensures { IfOk result (λ v. option_map value_in v ≡ option_and_then (array_of (choices_in choices.now)) (items_of text.now)) }
{
    match items_of(alloc, text)? {
        Some(items) => Ok(array_of(choices, items)),
        None => Ok(None),
    }
}

fn words_of_text(alloc: Global, text: &str) -> Result<Option<OptionValue>, AllocError>
    ensures { IfOk result (λ v. option_map value_in v ≡ option_map value.Array (word_items_of text.now)) }
{
    match word_items_of(alloc, text)? {
        Some(items) => Ok(Some(OptionValue::Array(items))),
        None => Ok(None),
    }
}

fn boolean_of_text(text: &str) -> Option<OptionValue>
    ensures { option_map value_in result ≡ option_map value.Boolean (boolean_of text.now) }
{
    let boolean = boolean_of(text)?;
    Some(OptionValue::Boolean(boolean))
}

fn integer_of_text(least: Option<i64>, greatest: Option<i64>, text: &str) -> Option<OptionValue>
    ensures { option_map value_in result ≡ option_map value.Integer (integer_within least greatest text.now) }
{
    let number = integer_within(least, greatest, text)?;
    Some(OptionValue::Integer(number))
}

fn state_of_text(text: &str) -> Option<OptionValue>
    ensures { option_map value_in result ≡ option_map value.Feature (state_of text.now) }
{
    let state = state_of(text)?;
    Some(OptionValue::Feature(state))
}

/// Returns the value that a text gives an option of this kind, or `None` if the option does not take it.
///
/// A string and a combo's choice are the text itself. A boolean is `true` or `false`, a feature `enabled`, `disabled` or `auto`. An integer
/// has 64 bits and is digits after at most one minus sign.
///
/// A text that begins with `[` is a list literal of plain strings. Otherwise the items of an array are the parts between commas, without
/// spaces at their ends, and words are cut as a shell cuts them. If a list has choices, each item must be one of them.
pub fn value_of_text(
    alloc: Global,
    kind: &OptionKind,
    text: &str,
) -> Result<Option<OptionValue>, AllocError>
    ensures { IfOk result (λ v. option_map value_in v ≡ value_of (kind_in kind.now) text.now) }
{
    match kind {
        OptionKind::Text => Ok(Some(text_of(alloc, text)?)),
        OptionKind::Boolean => Ok(boolean_of_text(text)),
        OptionKind::Combo(choices) => choice_of(alloc, choices, text),
        OptionKind::Integer { min, max } => Ok(integer_of_text(*min, *max, text)),
        OptionKind::Array(choices) => array_of_text(alloc, choices, text),
        OptionKind::Words => words_of_text(alloc, text),
        OptionKind::Feature => Ok(state_of_text(text)),
    }
}
