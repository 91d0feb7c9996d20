//! Reads the keyword `default_options` of `project`.
ghost use Rattle.std.specs.Prelude.{◌≡◌, ◌++◌, IfOk, map, option_map};
ghost use Rattle.arguments.specs.Stops.{Gives};
ghost use Rattle.values.specs.Data.{entry_values, keys_in};
ghost use Rattle.option_values.specs.View.{strings_in};
ghost use Rattle.options.specs.Verdicts.{Assignment};
ghost use Rattle.options.specs.View.{defaults_in};
ghost use Rattle.world.specs.Prelude.{arguments_data, items_of};
ghost use Rattle.project_calls.specs.Defaults.{dictionary_given, entries_given, entry_defaults, first_unprinted};
ghost use Rattle.project_calls.specs.Defaults.{printed_all};
ghost use Rattle.project_calls.specs.DefaultsView.{strings_of};

use arguments::{Arguments, CallStop};
use options::ProjectDefault;
use std::alloc::{AllocError, Global};
use values::printing::print;
use values::{Dictionary, Text, Value};

// Returns the dictionary that the keyword has, if it has one.
fn dictionary_given(arguments: &Arguments) -> Option<&Dictionary>
    ensures { option_map (λ d. d.now) result ≡ dictionary_given (arguments_data arguments.now) }
{
    match arguments.keyword("default_options") {
        Some(value) => value.as_dictionary(),
        None => None,
    }
}

/// Returns the values of the keyword's dictionary. The result is empty if the keyword has no dictionary.
pub fn values_given(arguments: &Arguments) -> &[Value]
    ensures { items_of result.now ≡ entry_values (entries_given (arguments_data arguments.now)) }
{
    match dictionary_given(arguments) {
        Some(dictionary) => dictionary.values(),
        None => &[],
    }
}

/// Returns the keys of the dictionary that the keyword has, and none if it has no dictionary.
pub fn keys_given(arguments: &Arguments) -> &[Text]
    ensures { result.now ≡ keys_in (entries_given (arguments_data arguments.now)) }
{
    match dictionary_given(arguments) {
        Some(dictionary) => dictionary.keys(),
        None => &[],
    }
}

/// Returns printed values. The refusal is `OperationRefusal::Arguments` if one is or contains an object, and `OperationRefusal::Limit` if
/// one is too long.
pub fn print_all(alloc: Global, values: &[Value]) -> Result<Vec<String>, CallStop>
    ensures { Gives strings_of (printed_all (items_of values.now)) result }
{
    let mut texts = Vec::new(alloc);
    for value in values {
        let text = print(alloc, value)??;
        texts.push(String::from_str(alloc, text.as_str())?)?;
    }
    Ok(texts)
}

/// Returns the name of the first of these values that cannot be printed, and `""` if all can.
#[tactic(auto, using(crate::proofs::Unprinted::unprinted_cases))]
pub fn first_unprinted<'n>(
    alloc: Global,
    names: &'n [Text],
    values: &[Value],
) -> Result<&'n str, AllocError>
    ensures { IfOk result (λ name. name.now ≡ first_unprinted names.now (items_of values.now)) }
{
    for (i, value) in values.iter().enumerate() {
        let Some(name) = names.get(i) else {
            return Ok("");
        };
        match print(alloc, value)? {
            Ok(_) => {}
            Err(_) => return Ok(name.as_str()),
        }
    }
    Ok("")
}

/// Returns the defaults that a call gives: texts, and keys with their printed values.
pub fn defaults<'a>(
    alloc: Global,
    texts: &'a [String],
    keys: &'a [Text],
    printed: &'a [String],
) -> Result<Vec<ProjectDefault<'a>>, AllocError>
    ensures { IfOk result (λ v. defaults_in v.items
        ≡ map Assignment (strings_in texts.now) ++ entry_defaults keys.now (strings_in printed.now)) }
{
    let mut defaults = Vec::new(alloc);
    for text in texts {
        defaults.push(ProjectDefault::Assignment(text.as_str()))?;
    }
    for (i, key) in keys.iter().enumerate() {
        let Some(value) = printed.get(i) else {
            return Ok(defaults);
        };
        defaults.push(ProjectDefault::Entry(key.as_str(), value.as_str()))?;
    }
    Ok(defaults)
}
