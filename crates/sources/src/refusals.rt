//! Refuses values that name nothing.
ghost use Rattle.std.specs.Prelude.{◌≡◌, IfOk};
ghost use Rattle.arguments.specs.Refused.{breaks, refused_data};
ghost use Rattle.values.specs.Prelude.{data_of};
ghost use Rattle.sources.specs.Unnamed.{text_said};

use arguments::{ArgumentError, Rule};
use std::alloc::{AllocError, Global};
use values::Value;

fn text_said(value: &Value) -> &str
    ensures { result.now ≡ text_said (data_of value.now) }
{
    match value {
        Value::Text(text) => text.as_str(),
        _ => "",
    }
}

/// Returns the refusal of a value that breaks a rule, with its text as detail. For a value of another type the detail is empty.
pub(crate) fn refuse_unnamed(
    alloc: Global,
    rule: Rule,
    value: &Value,
) -> Result<ArgumentError, AllocError>
    ensures { IfOk result (λ refused. refused_data refused ≡ breaks rule (text_said (data_of value.now))) }
{
    rule.refuse(alloc, text_said(value))
}
