//! Converts values of the language to contents of configuration data, and back.
ghost use Rattle.std.specs.Prelude.{◌≡◌, [], IfOk, OnOk, option_map};
ghost use Rattle.std.specs.List.{list_all};
ghost use Rattle.arguments.specs.Stops.{Gives, Says};
ghost use Rattle.template.specs.Config.{with_value};
ghost use Rattle.template.specs.ConfigData.{content_of};
ghost use Rattle.template.specs.Line.{is_placeholder_name, is_name_byte};
ghost use Rattle.world.specs.Prelude.{data_of, items_of, within};
ghost use Rattle.configuration_calls.specs.Contents.{all_set, content_at, content_in, data_with, entries_in};
ghost use Rattle.configuration_calls.specs.Contents.{fallback_given, found_or, value_of_content, given_text, unquoted_text};

use arguments::{CallStop, Rule};
use std::alloc::{AllocError, Global};
use template::{ConfigData, ConfigValue};
use values::{Dictionary, OperationRefusal, Text, Value};

fn is_name_byte(byte: u8) -> bool
    ensures { result ≡ is_name_byte byte }
{
    byte.is_ascii_alphanumeric() || byte == b'-' || byte == b'_'
}

fn are_name_bytes(bytes: &[u8]) -> bool
    ensures { result ≡ list_all is_name_byte bytes.now }
{
    bytes.iter().all(|byte| is_name_byte(*byte))
}

/// Returns whether configuration data may have this name: one or more letters, digits, `-` and `_`.
#[tactic(auto, unfolding(template::specs::Line::is_placeholder_name))]
pub fn is_placeholder_name(name: &str) -> bool
    ensures { result ≡ is_placeholder_name name.now }
{
    let bytes = name.as_bytes();
    !bytes.is_empty() && are_name_bytes(bytes)
}

/// Returns the content for a value, and `None` for any but a text, an integer or a boolean.
pub fn content_in(alloc: Global, value: &Value) -> Result<Option<ConfigValue>, AllocError>
    ensures { IfOk result (λ c. option_map content_of c ≡ content_in (data_of value.now)) }
{
    match value {
        Value::Boolean(boolean) => Ok(Some(ConfigValue::Boolean(*boolean))),
        Value::Integer(integer) => Ok(Some(ConfigValue::Integer(*integer))),
        Value::Text(text) => {
            let text = String::from_str(alloc, text.as_str())?;
            Ok(Some(ConfigValue::Text(text)))
        }
        _ => Ok(None),
    }
}

// Returns the content of a name, or the refusal of a bad name or of a value of another type.
fn content_at(alloc: Global, name: &str, value: &Value) -> Result<ConfigValue, CallStop>
    ensures { Says content_of (content_at name.now (data_of value.now)) result }
{
    if !is_placeholder_name(name) {
        return Err(Rule::IsValueName.refuse(alloc, name)?.into());
    }
    match content_in(alloc, value)? {
        Some(content) => Ok(content),
        None => Err(Rule::IsSetting.refuse(alloc, name)?.into()),
    }
}

// Sets a value in data that is not frozen. It can only run out of memory.
fn set(held: &mut ConfigData, name: &str, content: ConfigValue) -> Result<(), AllocError>
    ensures { OnOk result (held.new ≡ record held.old { entries = with_value held.old.entries name.now (content_of content) }) }
{
    match held.set(name, content) {
        Ok(()) => Ok(()),
        Err(_) => Err(AllocError),
    }
}

// Returns data with these values at these names, or the refusal of the first one that cannot be set.
fn all_set(alloc: Global, names: &[Text], values: &[Value]) -> Result<ConfigData, CallStop>
    ensures { Says (λ c. c) (data_with (all_set [] names.now (items_of values.now))) result }
{
    let mut held = ConfigData::new(alloc);
    for (i, name) in names.iter().enumerate() {
        let Some(value) = values.get(i) else {
            return Ok(held);
        };
        let content = content_at(alloc, name.as_str(), value)?;
        set(&mut held, name.as_str(), content)?;
    }
    Ok(held)
}

/// Returns a dictionary as configuration data, or the refusal of a key that is no name, or of a value that is no text, integer or boolean.
pub fn entries_in(alloc: Global, dictionary: &Dictionary) -> Result<ConfigData, CallStop>
    ensures { Says (λ c. c) (data_with (entries_in dictionary.now)) result }
{
    all_set(alloc, dictionary.keys(), dictionary.values())
}

fn unquoted_text(text: &str) -> &str
    ensures { result.now ≡ unquoted_text text.now }
{
    match text.strip_prefix("\"") {
        Some(rest) => match rest.strip_suffix("\"") {
            Some(inside) => inside,
            None => text,
        },
        None => text,
    }
}

/// Says whether quotes at the ends of a text are kept, as by `get`, or removed, as by `get_unquoted`.
#[derive(Clone, Copy)]
pub enum Quotes {
    Kept,
    Cut,
}

// Returns a text with its quotes kept or removed.
fn given_text(quotes: Quotes, text: &str) -> &str
    ensures { result.now ≡ given_text quotes text.now }
{
    match quotes {
        Quotes::Kept => text,
        Quotes::Cut => unquoted_text(text),
    }
}

// Returns the value of a content, or `OperationRefusal::Limit` for a text that is too long.
fn convert_content(alloc: Global, quotes: Quotes, content: &ConfigValue) -> Result<Value, CallStop>
    ensures { Gives data_of (within (value_of_content quotes (content_of content.now))) result }
{
    match content {
        ConfigValue::Boolean(boolean) => Ok(Value::Boolean(*boolean)),
        ConfigValue::Integer(integer) => Ok(Value::Integer(*integer)),
        ConfigValue::Text(text) => Ok(Value::of_str(alloc, given_text(quotes, text.as_str()))??),
    }
}

fn fallback_given(
    alloc: Global,
    quotes: Quotes,
    fallback: Option<&Value>,
) -> Result<Value, CallStop>
    ensures { Gives data_of (fallback_given quotes (option_map (λ v. data_of v.now) fallback.entry)) result }
{
    let Some(value) = fallback else {
        return Err(OperationRefusal::Absent.into());
    };
    match (quotes, value) {
        (Quotes::Cut, Value::Text(text)) => {
            Ok(Value::of_str(alloc, unquoted_text(text.as_str()))??)
        }
        _ => Ok(value.clone()?),
    }
}

/// Returns the value of a name, or the fallback if the name has none. Refuses with `OperationRefusal::Absent` if there is neither.
pub fn take_or(
    alloc: Global,
    quotes: Quotes,
    content: Option<&ConfigValue>,
    fallback: Option<&Value>,
) -> Result<Value, CallStop>
    ensures { Gives data_of (found_or quotes (option_map (λ c. content_of c.now) content.entry)
        (option_map (λ v. data_of v.now) fallback.entry)) result }
{
    match content {
        Some(content) => convert_content(alloc, quotes, content),
        None => fallback_given(alloc, quotes, fallback),
    }
}
