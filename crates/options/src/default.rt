//! Computes the default values of declared options.

ghost use Rattle.std.specs.Prelude.{◌≡◌, ℕ, List, IfOk};
ghost use Rattle.std.specs.Option.{option_map};
ghost use Rattle.options.specs.option_file.View.{given_in, option_in};
ghost use Rattle.option_values.specs.View.{kind_in, strings_in, texts_of, value_in};
ghost use Rattle.options.specs.Defaults.{first_of, value_of_kind, boolean_of, integer_of, items_of};
ghost use Rattle.options.specs.Defaults.{declared_value, value_or_kind, default_of};

use crate::option_file::{Declaration, DeclaredValue};
use option_values::{
    Choices, FeatureState, OptionKind, OptionValue, is_within, value_of_items, value_of_text,
};
use std::alloc::{AllocError, Global};
use support::text_lists::copies;

// Returns a combo's first choice.
fn first_of(alloc: Global, choices: &Choices) -> Result<Option<OptionValue>, AllocError>
    ensures { IfOk result (λ v. option_map value_in v ≡ first_of (texts_of choices.now)) }
{
    match choices.texts() {
        [] => Ok(None),
        [first, ..] => {
            let text = String::from_str(alloc, first.as_str())?;
            Ok(Some(OptionValue::Combo(text)))
        }
    }
}

// Returns the value of an array without a default: its choices, if it has any, or else no items.
fn all_choices(alloc: Global, choices: &Option<Choices>) -> Result<Option<OptionValue>, AllocError>
    ensures { IfOk result (λ v. option_map value_in v ≡ value_of_kind (kind_in (OptionKind.Array choices.now))) }
{
    match choices {
        Some(choices) => Ok(Some(OptionValue::Array(copies(alloc, choices.texts())?))),
        None => Ok(Some(OptionValue::Array(Vec::new(alloc)))),
    }
}

// Returns the value of an option that is declared without one. An integer has none.
fn value_of_kind(alloc: Global, kind: &OptionKind) -> Result<Option<OptionValue>, AllocError>
    ensures { IfOk result (λ v. option_map value_in v ≡ value_of_kind (kind_in kind.now)) }
{
    match kind {
        OptionKind::Text => Ok(Some(OptionValue::Text(String::new(alloc)))),
        OptionKind::Boolean => Ok(Some(OptionValue::Boolean(true))),
        OptionKind::Combo(choices) => first_of(alloc, choices),
        OptionKind::Integer { .. } => Ok(None),
        OptionKind::Array(choices) => all_choices(alloc, choices),
        OptionKind::Words => Ok(Some(OptionValue::Array(Vec::new(alloc)))),
        OptionKind::Feature => Ok(Some(OptionValue::Feature(FeatureState::Auto))),
    }
}

fn boolean_of(kind: &OptionKind, boolean: bool) -> Option<OptionValue>
    ensures { option_map value_in result ≡ boolean_of (kind_in kind.now) boolean }
{
    match kind {
        OptionKind::Boolean => Some(OptionValue::Boolean(boolean)),
        OptionKind::Text => None,
        OptionKind::Combo(_) => None,
        OptionKind::Integer { .. } => None,
        OptionKind::Array(_) => None,
        OptionKind::Words => None,
        OptionKind::Feature => None,
    }
}

fn integer_of(kind: &OptionKind, number: i64) -> Option<OptionValue>
    ensures { option_map value_in result ≡ integer_of (kind_in kind.now) number }
{
    match kind {
        OptionKind::Integer { min, max } => {
            is_within(*min, *max, number).then_some(OptionValue::Integer(number))
        }
        OptionKind::Text => None,
        OptionKind::Boolean => None,
        OptionKind::Combo(_) => None,
        OptionKind::Array(_) => None,
        OptionKind::Words => None,
        OptionKind::Feature => None,
    }
}

fn items_of(
    alloc: Global,
    kind: &OptionKind,
    items: &[String],
) -> Result<Option<OptionValue>, AllocError>
    ensures { IfOk result (λ v. option_map value_in v ≡ items_of (kind_in kind.now) (strings_in items.now)) }
{
    match kind {
        OptionKind::Array(_) => value_of_items(alloc, kind, items),
        OptionKind::Text => Ok(None),
        OptionKind::Boolean => Ok(None),
        OptionKind::Combo(_) => Ok(None),
        OptionKind::Integer { .. } => Ok(None),
        OptionKind::Words => Ok(None),
        OptionKind::Feature => Ok(None),
    }
}

fn declared_value(
    alloc: Global,
    kind: &OptionKind,
    given: &DeclaredValue,
) -> Result<Option<OptionValue>, AllocError>
    ensures { IfOk result (λ v. option_map value_in v ≡ declared_value (kind_in kind.now) (given_in given.now)) }
{
    match given {
        DeclaredValue::Text(text) => value_of_text(alloc, kind, text.as_str()),
        DeclaredValue::Boolean(boolean) => Ok(boolean_of(kind, *boolean)),
        DeclaredValue::Integer(number) => Ok(integer_of(kind, *number)),
        DeclaredValue::Texts(items) => items_of(alloc, kind, items),
        DeclaredValue::Other => Ok(None),
    }
}

fn value_or_kind(
    alloc: Global,
    kind: &OptionKind,
    value: &Option<DeclaredValue>,
) -> Result<Option<OptionValue>, AllocError>
    ensures { IfOk result (λ v. option_map value_in v ≡ value_or_kind (kind_in kind.now) (option_map given_in value.now)) }
{
    match value {
        Some(given) => declared_value(alloc, kind, given),
        None => value_of_kind(alloc, kind),
    }
}

/// Returns the default value of a declaration, or `None` if what it gives is no value of its option.
#[tactic(auto, unfolding(crate::specs::Defaults::default_of))]
pub fn default_of(
    alloc: Global,
    declaration: &Declaration,
) -> Result<Option<OptionValue>, AllocError>
    ensures { IfOk result (λ v. (name : List ℕ) → option_map value_in v ≡ default_of (option_in name declaration.now)) }
{
    value_or_kind(alloc, &declaration.kind, &declaration.value)
}
