//! Implements the methods of a feature: the type `feature` of the page "Reference manual".
ghost use Rattle.std.specs.Prelude.{◌≡◌};
ghost use Rattle.world.specs.Prelude.{Answers};
ghost use Rattle.methods.specs.Features.{answer, tells};

use values::language_names::{FeatureMethod, MethodName};
use values::{Feature, OperationRefusal, Value};

fn tells(method: FeatureMethod, feature: Feature) -> bool
    ensures { result ≡ tells method feature }
{
    match method {
        FeatureMethod::Allowed => !matches!(feature, Feature::Disabled),
        FeatureMethod::Auto => matches!(feature, Feature::Auto),
        FeatureMethod::Disabled => matches!(feature, Feature::Disabled),
        FeatureMethod::Enabled => matches!(feature, Feature::Enabled),
    }
}

/// Returns the result of the method of a feature with this name. `enabled`, `disabled` and `auto` say which state it has, and `allowed`
/// whether it is not disabled.
pub fn feature_answer(feature: Feature, name: &MethodName) -> Result<Value, OperationRefusal>
    ensures { Answers (answer feature name.now) result }
{
    match name.of_feature() {
        Some(method) => Ok(Value::Boolean(tells(method, feature))),
        None => Err(OperationRefusal::UnknownMethod),
    }
}
