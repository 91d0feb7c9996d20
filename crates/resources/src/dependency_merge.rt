//! Implements `declare_dependency`: <https://mesonbuild.com/Reference-manual_functions.html#declare_dependency>.
ghost use Rattle.std.specs.Prelude.{◌≡◌, ◌++◌, ◌&&◌, map, IfOk, OnOk};
ghost use Rattle.arguments.specs.Stops.{Gives};
ghost use Rattle.values.specs.Prelude.{data_of, items_of};
ghost use Rattle.resources.specs.Joined.{dependencies_in, dependencies_of, is_within, dependency_with_others, with_lists};

use arguments::CallStop;
use std::alloc::{AllocError, Global};
use values::{Dependency, Object, OperationRefusal, Value};

/// Returns the dependencies in a value, with lists of any depth flattened. Any other value is skipped.
pub fn dependencies_in(alloc: Global, value: &Value) -> Result<Vec<&Dependency>, AllocError>
    ensures { IfOk result (λ ds. map (λ d. d.now) ds.items ≡ dependencies_in (data_of value.now)) }
{
    let mut found = Vec::new(alloc);
    collect(&mut found, value)?;
    Ok(found)
}

#[cycle(collect)]
fn collect<'v>(found: &mut Vec<&'v Dependency>, value: &'v Value) -> Result<(), AllocError>
    ensures { OnOk result (map (λ d. d.now) found.new.items ≡ map (λ d. d.now) found.old.items ++ dependencies_in (data_of value.now)) }
{
    match value {
        Value::Object(object) => match &**object {
            Object::Dependency(dependency) => {
                found.push(dependency)?;
                Ok(())
            }
            _ => Ok(()),
        },
        Value::List(list) => collect_items(found, list.items()),
        _ => Ok(()),
    }
}

#[cycle(collect)]
fn collect_items<'v>(found: &mut Vec<&'v Dependency>, items: &'v [Value]) -> Result<(), AllocError>
    ensures { OnOk result (map (λ d. d.now) found.new.items ≡ map (λ d. d.now) found.old.items ++ dependencies_of (items_of items.now)) }
{
    for item in items {
        collect(found, item)?;
    }
    Ok(())
}

// Returns whether no list of a dependency has more than 65,536 items.
fn is_within(dependency: &Dependency) -> bool
    ensures { result ≡ is_within dependency.now }
{
    dependency.include_directories.as_slice().len() <= support::limits::ITEMS
        && dependency.compile_args.as_slice().len() <= support::limits::ITEMS
        && dependency.link_args.as_slice().len() <= support::limits::ITEMS
        && dependency.link_with.as_slice().len() <= support::limits::ITEMS
        && dependency.sources.as_slice().len() <= support::limits::ITEMS
}

// Appends the lists of another dependency if it was found. Texts are shared, and no byte is copied.
fn extend(both: &mut Dependency, other: &Dependency) -> Result<(), AllocError>
    ensures { OnOk result (both.new ≡ with_lists both.old other.now) }
{
    if other.is_found {
        both.include_directories
            .extend(other.include_directories.as_slice())?;
        both.compile_args.extend(other.compile_args.as_slice())?;
        both.link_args.extend(other.link_args.as_slice())?;
        both.link_with.extend(other.link_with.as_slice())?;
        both.sources.extend(other.sources.as_slice())?;
    }
    Ok(())
}

// Returns a dependency with the lists of another appended.
fn with_lists(dependency: Dependency, other: &Dependency) -> Result<Dependency, AllocError>
    ensures { IfOk result (λ d. d ≡ with_lists dependency other.now) }
{
    let mut both = dependency;
    extend(&mut both, other)?;
    Ok(both)
}

/// Returns a dependency with the lists of others appended, in order; those that were not found are skipped. Returns
/// `OperationRefusal::Limit` if one of the lists then has more than 65,536 items.
pub fn join(dependency: Dependency, others: &[&Dependency]) -> Result<Dependency, CallStop>
    ensures { Gives (λ d. d) (dependency_with_others dependency (map (λ d. d.now) others.now)) result }
{
    let mut all = dependency;
    for other in others {
        if !is_within(&all) {
            return Err(OperationRefusal::Limit.into());
        }
        all = with_lists(all, other)?;
    }
    if is_within(&all) {
        Ok(all)
    } else {
        Err(OperationRefusal::Limit.into())
    }
}
