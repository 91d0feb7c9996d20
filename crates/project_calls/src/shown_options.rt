//! Lists options with their types and values.
ghost use Rattle.std.specs.Prelude.{◌≡◌, IfOk, map};
ghost use Rattle.option_values.specs.View.{value_in};
ghost use Rattle.option_values.specs.SettingsView.{options_in};
ghost use Rattle.build.specs.View.{option_entry_view, option_view};
ghost use Rattle.project_calls.specs.Entries.{entries_in, entry_of, listed_value, type_of, word_of};

use build::edge::copies;
use build::{OptionEntry, OptionType};
use options::{FeatureState, OptionValue, Options};
use std::alloc::{AllocError, Global};

fn type_of(value: &OptionValue) -> OptionType
    ensures { result ≡ type_of (value_in value.now) }
{
    match value {
        OptionValue::Text(_) => OptionType::String,
        OptionValue::Boolean(_) => OptionType::Boolean,
        OptionValue::Combo(_) => OptionType::Combo,
        OptionValue::Integer(_) => OptionType::Integer,
        OptionValue::Array(_) => OptionType::Array,
        OptionValue::Feature(_) => OptionType::Feature,
    }
}

fn word_of(state: FeatureState) -> &'static str
    ensures { result.now ≡ word_of state }
{
    match state {
        FeatureState::Enabled => "enabled",
        FeatureState::Disabled => "disabled",
        FeatureState::Auto => "auto",
    }
}

fn show(alloc: Global, value: &OptionValue) -> Result<build::OptionValue, AllocError>
    ensures { IfOk result (λ v. option_view v ≡ listed_value (value_in value.now)) }
{
    match value {
        OptionValue::Text(text) => Ok(build::OptionValue::Text(text.clone()?)),
        OptionValue::Boolean(boolean) => Ok(build::OptionValue::Boolean(*boolean)),
        OptionValue::Combo(choice) => Ok(build::OptionValue::Text(choice.clone()?)),
        OptionValue::Integer(number) => Ok(build::OptionValue::Integer(*number)),
        OptionValue::Array(items) => Ok(build::OptionValue::Texts(copies(alloc, items)?)),
        OptionValue::Feature(state) => {
            let word = String::from_str(alloc, word_of(*state))?;
            Ok(build::OptionValue::Text(word))
        }
    }
}

fn entry_of(alloc: Global, name: &str, value: &OptionValue) -> Result<OptionEntry, AllocError>
    ensures { IfOk result (λ e. option_entry_view e ≡ entry_of (name.now, value_in value.now)) }
{
    Ok(OptionEntry {
        name: String::from_str(alloc, name)?,
        kind: type_of(value),
        value: show(alloc, value)?,
    })
}

/// Returns all options as they are listed: built-in ones first, then declared ones.
pub fn option_entries(alloc: Global, options: &Options) -> Result<Vec<OptionEntry>, AllocError>
    ensures { IfOk result (λ es. map option_entry_view es.items ≡ entries_in (options_in options.now)) }
{
    let mut entries = Vec::new(alloc);
    for i in 0..options.len() {
        let Some((name, value)) = options.at(i) else {
            return Ok(entries);
        };
        entries.push(entry_of(alloc, name, value)?)?;
    }
    Ok(entries)
}
