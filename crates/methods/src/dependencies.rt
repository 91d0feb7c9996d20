//! Implements the methods of a dependency: the type `dep` of the page "Reference manual".
ghost use Rattle.arguments.specs.Stops.{Gives};
ghost use Rattle.world.specs.Prelude.{data_of};
ghost use Rattle.methods.specs.Dependencies.{answer, version_of};

use crate::new_values::text_value;
use arguments::CallStop;
use std::alloc::Global;
use values::language_names::{DependencyMethod, MethodName};
use values::{Dependency, OperationRefusal, Value};

fn version_of(alloc: Global, dependency: &Dependency) -> Result<Value, CallStop>
    ensures { Gives data_of (version_of dependency.now) result }
{
    if dependency.is_found {
        return Ok(Value::Text(dependency.version.clone()?));
    }
    text_value(alloc, "unknown")
}

/// Returns the result of the method of a dependency with this name: `found`, `name` or `version`. The version is `unknown` if the
/// dependency was not found.
pub fn dependency_answer(
    alloc: Global,
    dependency: &Dependency,
    name: &MethodName,
) -> Result<Value, CallStop>
    ensures { Gives data_of (answer dependency.now name.now) result }
{
    match name.of_dependency() {
        Some(DependencyMethod::Found) => Ok(Value::Boolean(dependency.is_found)),
        Some(DependencyMethod::Name) => Ok(Value::Text(dependency.name.clone()?)),
        Some(DependencyMethod::Version) => version_of(alloc, dependency),
        None => Err(OperationRefusal::UnknownMethod.into()),
    }
}
