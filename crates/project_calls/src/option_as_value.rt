//! Converts the values of options to values of the language.
ghost use Rattle.std.specs.Prelude.{◌≡◌, map, string_bytes};
ghost use Rattle.arguments.specs.Stops.{Gives};
ghost use Rattle.option_values.specs.View.{value_in};
ghost use Rattle.world.specs.Prelude.{data_of};
ghost use Rattle.project_calls.specs.GetOption.{as_data, feature_of};
ghost use Rattle.operations.specs.operators.TextLists.{text_list};

use arguments::CallStop;
use operations::operators::text_list;
use options::{FeatureState, OptionValue};
use std::alloc::Global;
use values::{Feature, Object, Value};

fn feature_of(state: FeatureState) -> Feature
    ensures { result ≡ feature_of state }
{
    match state {
        FeatureState::Enabled => Feature::Enabled,
        FeatureState::Disabled => Feature::Disabled,
        FeatureState::Auto => Feature::Auto,
    }
}

// Returns the list of these strings, or `OperationRefusal::Limit` if one of them or the list is too long.
fn list_of(alloc: Global, strings: &[String]) -> Result<Value, CallStop>
    ensures { Gives data_of (text_list (map string_bytes strings.now)) result }
{
    let mut texts = Vec::with_capacity(alloc, strings.len())?;
    for string in strings {
        texts.push(string.as_str())?;
    }
    let list = text_list(alloc, &texts)??;
    Ok(list)
}

/// Returns the value of an option as a value of the language, or `OperationRefusal::Limit` if it is too large. The value of a feature
/// option is an object.
#[tactic(auto, unfolding(crate::specs::GetOption::as_data))]
pub fn as_data(alloc: Global, value: &OptionValue) -> Result<Value, CallStop>
    ensures { Gives data_of (as_data (value_in value.now)) result }
{
    match value {
        OptionValue::Text(text) => Ok(Value::of_str(alloc, text.as_str())??),
        OptionValue::Boolean(boolean) => Ok(Value::Boolean(*boolean)),
        OptionValue::Combo(choice) => Ok(Value::of_str(alloc, choice.as_str())??),
        OptionValue::Integer(number) => Ok(Value::Integer(i128::from(*number))),
        OptionValue::Array(items) => list_of(alloc, items),
        OptionValue::Feature(state) => {
            let object = Object::Feature(feature_of(*state));
            Ok(Value::of_object(alloc, object)?)
        }
    }
}
