//! Converts lists and values of a machine file to values of options.

ghost use Rattle.std.specs.Prelude.{◌≡◌, ◌++◌, [], IfOk, OnOk, string_bytes};
ghost use Rattle.std.specs.Option.{option_map};
ghost use Rattle.machine_file.specs.View.{value_in as machine_value_in};
ghost use Rattle.option_values.specs.Given.{printed_list, quoted_texts, boolean_text, value_of_given, value_of_items};
ghost use Rattle.option_values.specs.Texts.{value_of};
ghost use Rattle.option_values.specs.View.{kind_in, strings_in, value_in};

use crate::kind::{OptionKind, OptionValue};
use crate::text::{array_of, value_of_text};
use itoa::Buffer;
use machine_file::MachineValue;
use std::alloc::{AllocError, Global};
use support::text_lists::copies;

/// Appends the items in single quotes, separated by a comma and a space. Nothing in them is escaped.
pub fn push_quoted(text: &mut String, items: &[String]) -> Result<(), AllocError>
    ensures { OnOk result (string_bytes text.new ≡ string_bytes text.old ++ quoted_texts [] (strings_in items.now)) }
{
    let mut separator = "";
    for item in items {
        text.push_str(separator)?;
        text.push_str("'")?;
        text.push_str(item.as_str())?;
        text.push_str("'")?;
        separator = ", ";
    }
    Ok(())
}

// Returns a list in printed form.
fn print(alloc: Global, items: &[String]) -> Result<String, AllocError>
    ensures { IfOk result (λ text. string_bytes text ≡ printed_list (strings_in items.now)) }
{
    let mut text = String::from_str(alloc, "[")?;
    push_quoted(&mut text, items)?;
    text.push_str("]")?;
    Ok(text)
}

// Returns the value that the printed list gives an option of this kind.
fn value_of_printed(
    alloc: Global,
    kind: &OptionKind,
    items: &[String],
) -> Result<Option<OptionValue>, AllocError>
    ensures { IfOk result (λ v. option_map value_in v ≡ value_of (kind_in kind.now) (printed_list (strings_in items.now))) }
{
    let text = print(alloc, items)?;
    value_of_text(alloc, kind, text.as_str())
}

/// Returns the value that a list of texts gives an option of this kind, or `None` if the option does not take it.
///
/// An array takes the items, if each is one of its choices, and words take them unchanged. For every other option the list counts as its
/// printed text, such as `['a', 'b']`.
pub fn value_of_items(
    alloc: Global,
    kind: &OptionKind,
    items: &[String],
) -> Result<Option<OptionValue>, AllocError>
    ensures { IfOk result (λ v. option_map value_in v ≡ value_of_items (kind_in kind.now) (strings_in items.now)) }
{
    match kind {
        OptionKind::Array(choices) => Ok(array_of(choices, copies(alloc, items)?)),
        OptionKind::Words => Ok(Some(OptionValue::Array(copies(alloc, items)?))),
        _ => value_of_printed(alloc, kind, items),
    }
}

fn boolean_text(boolean: bool) -> &'static str
    ensures { result.now ≡ boolean_text boolean }
{
    if boolean { "true" } else { "false" }
}

/// Returns the value that a value of a machine file gives an option of this kind, or `None` if the option does not take it.
///
/// A value counts as its printed text, and a list as its items, as for [`value_of_items`].
pub fn value_of_given(
    alloc: Global,
    kind: &OptionKind,
    given: &MachineValue,
) -> Result<Option<OptionValue>, AllocError>
    ensures { IfOk result (λ v. option_map value_in v ≡ value_of_given (kind_in kind.now) (machine_value_in given.now)) }
{
    match given {
        MachineValue::Text(text) => value_of_text(alloc, kind, text.as_str()),
        MachineValue::Integer(number) => {
            let mut buffer = Buffer::new();
            value_of_text(alloc, kind, buffer.format(*number))
        }
        MachineValue::Boolean(boolean) => value_of_text(alloc, kind, boolean_text(*boolean)),
        MachineValue::Texts(items) => value_of_items(alloc, kind, items),
    }
}
