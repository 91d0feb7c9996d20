//! Reads the arguments of `configure_file`.
ghost use Rattle.std.specs.Prelude.{◌≡◌, IfOk, codes, map, option_map, string_bytes};
ghost use Rattle.arguments.specs.Said.{found_value};
ghost use Rattle.arguments.specs.Stops.{Says};
ghost use Rattle.arguments.specs.declared.rule.Rule.TheVariants.{TakesTreeFile};
ghost use Rattle.values.specs.Data.{text as text_data};
ghost use Rattle.world.specs.Prelude.{Does, arguments_data, data_of, here_view, world_of};
ghost use Rattle.configuration_calls.specs.ConfigureFile.{has_meson_format, input_given, values_given};
ghost use Rattle.configuration_calls.specs.Given.{configuration_given, dictionary_given, given_by};
ghost use Rattle.configuration_calls.specs.GivenView.{given_view};
ghost use Rattle.configuration_calls.specs.Inputs.{file_named, input_named, one_file, tree_file};

use crate::contents::entries_in;
use crate::methods::number_in;
use arguments::{Arguments, CallStop, Rule};
use ports::{Outputs, Tree};
use std::alloc::{AllocError, Global};
use support::paths::tree_path;
use template::ConfigData;
use values::{Object, Value};
use world::{Caller, Here, Stop, Store};

/// Holds the values given to a call, and the number of the configuration data that has them. A dictionary has no number.
#[derive(Drop)]
pub struct GivenValues {
    pub values: ConfigData,
    pub number: Option<usize>,
}

/// Returns whether `configure_file` has no `format` or the format `'meson'`.
///
/// Any other format is refused with E23. That is checked before E9, by the row [`crate::other_format_row`].
pub fn has_meson_format(arguments: &Arguments) -> bool
    ensures { result ≡ has_meson_format (arguments_data arguments.now) }
{
    match arguments.keyword("format") {
        Some(Value::Text(format)) => format.as_str() == "meson",
        Some(_) => false,
        None => true,
    }
}

// Returns the path of a file object in the source directory, and `None` for any other object.
fn tree_file(alloc: Global, object: &Object) -> Result<Option<String>, AllocError>
    ensures { IfOk result (λ p. option_map string_bytes p ≡ tree_file object.now) }
{
    match object {
        Object::File { path, is_built } => {
            if *is_built {
                Ok(None)
            } else {
                Ok(Some(String::from_str(alloc, path.as_str())?))
            }
        }
        _ => Ok(None),
    }
}

// Returns the path in the source directory that a text names, or its refusal.
fn text_named(here: &Here<'_>, text: &str) -> Result<String, CallStop>
    ensures { Says string_bytes (file_named (here_view here.now).source_root (here_view here.now).folder (text_data text.now)) result }
{
    match tree_path(here.alloc, here.source_root, here.folder, text)? {
        Some(path) => Ok(path),
        None => Err(Rule::NamesFile.refuse(here.alloc, text)?.into()),
    }
}

// Returns the path of a file object in the source directory, or the refusal of any other object.
fn object_named(alloc: Global, object: &Object) -> Result<String, CallStop>
    ensures { Says string_bytes (found_value (tree_file object.now) TakesTreeFile (codes "input")) result }
{
    match tree_file(alloc, object)? {
        Some(path) => Ok(path),
        None => Err(Rule::TakesTreeFile.refuse(alloc, "input")?.into()),
    }
}

// Returns the path in the source directory that a value names in the present definition file, or its refusal.
fn file_named(here: &Here<'_>, value: &Value) -> Result<String, CallStop>
    ensures { Says string_bytes (file_named (here_view here.now).source_root (here_view here.now).folder (data_of value.now)) result }
{
    match value {
        Value::Text(text) => text_named(here, text.as_str()),
        Value::Object(object) => object_named(here.alloc, object),
        _ => Err(Rule::TakesTreeFile.refuse(here.alloc, "input")?.into()),
    }
}

// Returns the path that exactly one value names, or the refusal.
fn one_file(here: &Here<'_>, values: &[&Value]) -> Result<String, CallStop>
    ensures { Says string_bytes
        (one_file (here_view here.now).source_root (here_view here.now).folder (map (λ v. data_of v.now) values.now)) result }
{
    match values {
        [value] => file_named(here, value),
        _ => Err(Rule::TakesOneFile.refuse(here.alloc, "input")?.into()),
    }
}

// Returns the path that the keyword `input` names, which is optional, or its refusal.
fn input_named(here: &Here<'_>, arguments: &Arguments) -> Result<Option<String>, CallStop>
    ensures { Says (option_map string_bytes)
        (input_named (here_view here.now).source_root (here_view here.now).folder (arguments_data arguments.now)) result }
{
    if arguments.keyword("input").is_none() {
        return Ok(None);
    }
    let values = arguments.leaves(here.alloc, "input")?;
    Ok(Some(one_file(here, &values)?))
}

/// Returns the path of the template, if there is one.
pub fn input_given<T: Tree, O: Outputs>(
    caller: &Caller<'_, T, O>,
    arguments: &Arguments,
) -> Result<Option<String>, Stop>
    ensures { Does T.seen O.seen (option_map string_bytes) (input_given (arguments_data arguments.now)) caller.now result caller.now }
{
    caller.settle(input_named(&caller.here(), arguments))
}

// Returns the values of a dictionary, or its refusal.
fn dictionary_given(alloc: Global, value: &Value) -> Result<GivenValues, CallStop>
    ensures { Says given_view (dictionary_given (data_of value.now)) result }
{
    match value {
        Value::Dictionary(dictionary) => Ok(GivenValues {
            values: entries_in(alloc, dictionary)?,
            number: None,
        }),
        _ => Err(Rule::IsValueName.refuse(alloc, "")?.into()),
    }
}

// Returns the values of configuration data or of a dictionary, or the refusal of any other value.
fn read_given(alloc: Global, store: &Store, value: &Value) -> Result<GivenValues, CallStop>
    ensures { Says given_view (given_by (world_of store.now).facts (data_of value.now)) result }
{
    match number_in(value) {
        Some(number) => Ok(GivenValues {
            values: store.copy_of_configuration(alloc, number)?,
            number: Some(number),
        }),
        None => dictionary_given(alloc, value),
    }
}

// Returns the values of the keyword `configuration`, or their refusal.
fn configuration_given(
    alloc: Global,
    store: &Store,
    arguments: &Arguments,
) -> Result<GivenValues, CallStop>
    ensures { Says given_view (configuration_given (world_of store.now).facts (arguments_data arguments.now)) result }
{
    match arguments.keyword("configuration") {
        Some(value) => read_given(alloc, store, value),
        None => Err(Rule::IsValueName.refuse(alloc, "")?.into()),
    }
}

/// Returns the values of the keyword `configuration`. Refuses wrong ones with E9.
pub fn values_given<T: Tree, O: Outputs>(
    caller: &Caller<'_, T, O>,
    arguments: &Arguments,
) -> Result<GivenValues, Stop>
    ensures { Does T.seen O.seen given_view (values_given (arguments_data arguments.now)) caller.now result caller.now }
{
    caller.settle(configuration_given(caller.alloc, caller.store, arguments))
}
