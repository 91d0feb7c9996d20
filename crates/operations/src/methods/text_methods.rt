//! Implements the methods of texts: the type `str` of the page "Reference manual".

ghost use Rattle.std.specs.Prelude.{◌≡◌, [], ◌∷◌, map, string_bytes};
ghost use Rattle.values.specs.Data.{text as text_data};
ghost use Rattle.values.specs.Prelude.{data_of, within};
ghost use Rattle.operations.specs.methods.Steps.{Gives};
ghost use Rattle.operations.specs.operators.TextLists.{text_list};
ghost use Rattle.operations.specs.methods.TextMethods.{answer, argument_words, contains, starts_with, ends_with, format, join};
ghost use Rattle.operations.specs.methods.TextMethods.{replace, split, split_lines, strip, substring, to_int, to_lower};
ghost use Rattle.operations.specs.methods.TextMethods.{to_upper, underscorify, version_compare};

use crate::methods::flattening::flat_texts;
use crate::methods::formatted::format_text;
use crate::methods::readers::{bounds, none, one_text, two_texts};
use crate::methods::stop::MethodStop;
use crate::operators::text_list;
use std::alloc::Global;
use values::language_names::{MethodName, TextMethod};
use values::{OperationRefusal, Text, Value};

/// Calls the method of a text with this name and returns its result. Refusals are E8 for an unknown name, E9 for wrong arguments, and those
/// of the method.
pub fn text_method(
    alloc: Global,
    text: &Text,
    name: &MethodName,
    arguments: &[Value],
) -> Result<Value, MethodStop>
    ensures { Gives (answer text.now name.now (map data_of arguments.now)) result }
{
    let method = name.of_text().ok_or(OperationRefusal::UnknownMethod)?;
    let string = text.as_str();
    match method {
        TextMethod::Contains => contains(string, arguments),
        TextMethod::StartsWith => starts_with(string, arguments),
        TextMethod::EndsWith => ends_with(string, arguments),
        TextMethod::Format => format(alloc, string, arguments),
        TextMethod::Join => join(alloc, string, arguments),
        TextMethod::Replace => replace(alloc, string, arguments),
        TextMethod::Split => split(alloc, string, arguments),
        TextMethod::SplitLines => split_lines(alloc, string, arguments),
        TextMethod::Strip => strip(alloc, string, arguments),
        TextMethod::Substring => substring(alloc, text, arguments),
        TextMethod::ToInt => to_int(string, arguments),
        TextMethod::ToLower => to_lower(alloc, string, arguments),
        TextMethod::ToUpper => to_upper(alloc, string, arguments),
        TextMethod::Underscorify => underscorify(alloc, string, arguments),
        TextMethod::VersionCompare => version_compare(string, arguments),
    }
}

/// Describes in words what a method of a text takes.
pub fn argument_words(method: TextMethod) -> &'static str
    ensures { result.now ≡ argument_words method }
{
    match method {
        TextMethod::Contains => "one text",
        TextMethod::StartsWith => "one text",
        TextMethod::EndsWith => "one text",
        TextMethod::Format => "values that are no objects and hold none",
        TextMethod::Join => "texts and lists of texts",
        TextMethod::Replace => "two texts, of which the first is not empty",
        TextMethod::Split => "no arguments, or one text that is not empty",
        TextMethod::SplitLines => "no arguments",
        TextMethod::Strip => "no arguments, or one text",
        TextMethod::Substring => "at most two integers",
        TextMethod::ToInt => "no arguments, of a text that is an integer",
        TextMethod::ToLower => "no arguments",
        TextMethod::ToUpper => "no arguments",
        TextMethod::Underscorify => "no arguments",
        TextMethod::VersionCompare => "one text",
    }
}

fn contains(text: &str, arguments: &[Value]) -> Result<Value, MethodStop>
    ensures { Gives (contains text.now (map data_of arguments.now)) result }
{
    let part = one_text(arguments)?;
    Ok(Value::Boolean(values::texts::contains(text, part.as_str())))
}

fn starts_with(text: &str, arguments: &[Value]) -> Result<Value, MethodStop>
    ensures { Gives (starts_with text.now (map data_of arguments.now)) result }
{
    let part = one_text(arguments)?;
    Ok(Value::Boolean(values::texts::starts_with(text, part.as_str())))
}

fn ends_with(text: &str, arguments: &[Value]) -> Result<Value, MethodStop>
    ensures { Gives (ends_with text.now (map data_of arguments.now)) result }
{
    let part = one_text(arguments)?;
    Ok(Value::Boolean(values::texts::ends_with(text, part.as_str())))
}

fn format(alloc: Global, text: &str, arguments: &[Value]) -> Result<Value, MethodStop>
    ensures { Gives (format text.now (map data_of arguments.now)) result }
{
    let formatted = format_text(alloc, text, arguments)??;
    value_of_text(formatted)
}

fn join(alloc: Global, text: &str, arguments: &[Value]) -> Result<Value, MethodStop>
    ensures { Gives (join text.now (map data_of arguments.now)) result }
{
    let pieces = flat_texts(alloc, arguments)??;
    let joined = values::texts::join(alloc, text, &pieces)??;
    value_of_text(joined)
}

fn replace(alloc: Global, text: &str, arguments: &[Value]) -> Result<Value, MethodStop>
    ensures { Gives (replace text.now (map data_of arguments.now)) result }
{
    let (old, new) = two_texts(arguments)?;
    let replaced = values::texts::replace(alloc, text, old.as_str(), new.as_str())??;
    value_of_text(replaced)
}

fn split(alloc: Global, text: &str, arguments: &[Value]) -> Result<Value, MethodStop>
    ensures { Gives (split text.now (map data_of arguments.now)) result }
{
    if arguments.is_empty() {
        return split_blank(alloc, text);
    }
    split_at(alloc, text, one_text(arguments)?)
}

fn split_blank(alloc: Global, text: &str) -> Result<Value, MethodStop>
    ensures { Gives (split text.now []) result }
{
    let words = values::texts::split_blank(alloc, text)??;
    value_of_list(alloc, &words)
}

fn split_at(alloc: Global, text: &str, separator: &Text) -> Result<Value, MethodStop>
    ensures { Gives (split text.now (text_data separator.now ∷ [])) result }
{
    let parts = values::texts::split_at(alloc, text, separator.as_str())??;
    value_of_list(alloc, &parts)
}

fn split_lines(alloc: Global, text: &str, arguments: &[Value]) -> Result<Value, MethodStop>
    ensures { Gives (split_lines text.now (map data_of arguments.now)) result }
{
    none(arguments)?;
    let lines = values::texts::split_lines(alloc, text)??;
    value_of_list(alloc, &lines)
}

fn strip(alloc: Global, text: &str, arguments: &[Value]) -> Result<Value, MethodStop>
    ensures { Gives (strip text.now (map data_of arguments.now)) result }
{
    if arguments.is_empty() {
        return value_of_slice(alloc, values::texts::strip(text));
    }
    let set = one_text(arguments)?;
    value_of_slice(alloc, values::texts::strip_of(alloc, text, set.as_str())?)
}

fn substring(alloc: Global, text: &Text, arguments: &[Value]) -> Result<Value, MethodStop>
    ensures { Gives (substring text.now (map data_of arguments.now)) result }
{
    let (from, to) = bounds(arguments)?;
    value_of_slice(alloc, values::texts::substring(text, from, to))
}

fn to_int(text: &str, arguments: &[Value]) -> Result<Value, MethodStop>
    ensures { Gives (to_int text.now (map data_of arguments.now)) result }
{
    none(arguments)?;
    let integer = values::texts::to_int(text)?;
    Ok(Value::Integer(integer))
}

fn to_lower(alloc: Global, text: &str, arguments: &[Value]) -> Result<Value, MethodStop>
    ensures { Gives (to_lower text.now (map data_of arguments.now)) result }
{
    none(arguments)?;
    value_of(alloc, values::texts::to_lower(alloc, text)?)
}

fn to_upper(alloc: Global, text: &str, arguments: &[Value]) -> Result<Value, MethodStop>
    ensures { Gives (to_upper text.now (map data_of arguments.now)) result }
{
    none(arguments)?;
    value_of(alloc, values::texts::to_upper(alloc, text)?)
}

fn underscorify(alloc: Global, text: &str, arguments: &[Value]) -> Result<Value, MethodStop>
    ensures { Gives (underscorify text.now (map data_of arguments.now)) result }
{
    none(arguments)?;
    value_of(alloc, values::texts::underscorify(alloc, text)?)
}

fn version_compare(text: &str, arguments: &[Value]) -> Result<Value, MethodStop>
    ensures { Gives (version_compare text.now (map data_of arguments.now)) result }
{
    let condition = one_text(arguments)?;
    Ok(Value::Boolean(values::texts::version_compare(text, condition.as_str())))
}

fn value_of_text(text: Text) -> Result<Value, MethodStop>
    ensures { Gives (within (text_data text)) result }
{
    let _within = text.as_str();
    Ok(Value::Text(text))
}

fn value_of(alloc: Global, string: String) -> Result<Value, MethodStop>
    ensures { Gives (within (text_data (string_bytes string))) result }
{
    let value = Value::of_string(alloc, string)??;
    Ok(value)
}

fn value_of_list(alloc: Global, texts: &[&str]) -> Result<Value, MethodStop>
    ensures { Gives (text_list (map (λ t. t.now) texts.now)) result }
{
    Ok(text_list(alloc, texts)??)
}

fn value_of_slice(alloc: Global, text: &str) -> Result<Value, MethodStop>
    ensures { Gives (within (text_data text.now)) result }
{
    let value = Value::of_str(alloc, text)??;
    Ok(value)
}
