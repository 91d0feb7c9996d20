//! Reads what dependencies add to a target.
ghost use Rattle.std.specs.Prelude.{◌≡◌, IfOk, codes, map, option_map};
ghost use Rattle.arguments.specs.Leaves.{leaves_named};
ghost use Rattle.build.specs.DeclaredTargetViews.{declared_target_views};
ghost use Rattle.build.specs.View.{lists_view};
ghost use Rattle.sources.specs.SourcesView.{named_view};
ghost use Rattle.world.specs.Prelude.{arguments_data, data_of, here_view};
ghost use Rattle.target_calls.specs.Dependencies.{dependencies_of, found_in, lists_of, named_of};

use crate::source_lookup::sources_in;
use arguments::Arguments;
use build::{DeclaredTarget, Lists};
use sources::NamedSource;
use std::alloc::{AllocError, Global};
use std::rc::Rc;
use values::{Dependency, Object, Value, strings};
use world::Here;

fn to_named(alloc: Global, source: &values::Source) -> Result<NamedSource, AllocError>
    ensures { IfOk result (λ n. named_view n ≡ named_of source.now) }
{
    match source {
        values::Source::File { path, is_built } => {
            if *is_built {
                Ok(NamedSource::Built(path.clone()?))
            } else {
                Ok(NamedSource::Tree(String::from_str(alloc, path.as_str())?))
            }
        }
        values::Source::CustomTarget { number, .. } => Ok(NamedSource::Outputs(*number)),
        values::Source::CustomOutput { target, output } => Ok(NamedSource::Output {
            target: *target,
            place: *output,
        }),
    }
}

fn all_named(alloc: Global, sources: &[values::Source]) -> Result<Vec<NamedSource>, AllocError>
    ensures { IfOk result (λ v. map named_view v.items ≡ map named_of sources.now) }
{
    let mut named = Vec::new(alloc);
    for source in sources {
        named.push(to_named(alloc, source)?)?;
    }
    Ok(named)
}

// Returns the lists that a dependency adds, and `None` if it has a source that no target makes.
fn lists_of(
    alloc: Global,
    earlier: &[DeclaredTarget],
    dependency: &Dependency,
) -> Result<Option<Lists>, AllocError>
    ensures { IfOk result (λ l. option_map lists_view l ≡ lists_of (declared_target_views earlier.now) dependency.now) }
{
    let named = all_named(alloc, dependency.sources.as_slice())?;
    let Some(sources) = sources_in(alloc, earlier, named)? else {
        return Ok(None);
    };
    let mut link_with = Vec::new(alloc);
    link_with.extend_from_slice(dependency.link_with.as_slice())?;
    Ok(Some(Lists {
        sources,
        include_folders: strings(alloc, dependency.include_directories.as_slice())?,
        compile_args: strings(alloc, dependency.compile_args.as_slice())?,
        link_args: strings(alloc, dependency.link_args.as_slice())?,
        link_with,
    }))
}

fn find_in_object(object: &Object) -> Option<&Dependency>
    ensures { option_map (λ d. d.now) result ≡ Rattle.target_calls.specs.Dependencies.found_in_object object.now }
{
    match object {
        Object::Dependency(dependency) => {
            if dependency.is_found {
                Some(dependency)
            } else {
                None
            }
        }
        _ => None,
    }
}

// Returns the dependency of a value if it was found.
fn find_in(value: &Value) -> Option<&Dependency>
    ensures { option_map (λ d. d.now) result ≡ found_in (data_of value.now) }
{
    match value {
        Value::Object(object) => find_in_object(object),
        _ => None,
    }
}

// Returns the lists that the dependencies among values add; one that was not found adds nothing. Returns `None` if one has a source that no
// target makes.
fn dependencies_of(
    alloc: Global,
    earlier: &[DeclaredTarget],
    values: &[&Value],
) -> Result<Option<Vec<Rc<Lists>>>, AllocError>
    ensures { IfOk result (λ ls. option_map (λ v. map (λ l. lists_view l.value) v.items) ls
        ≡ dependencies_of (declared_target_views earlier.now) (map (λ v. data_of v.now) values.now)) }
{
    let mut all = Vec::new(alloc);
    for value in values {
        if let Some(dependency) = find_in(value) {
            match lists_of(alloc, earlier, dependency)? {
                Some(lists) => all.push(Rc::new(alloc, lists)?)?,
                None => return Ok(None),
            }
        }
    }
    Ok(Some(all))
}

/// Returns the lists that the dependencies of the keyword `dependencies` add, and `None` if one has a source that no target makes.
pub fn dependencies_given(
    here: &Here<'_>,
    arguments: &Arguments,
) -> Result<Option<Vec<Rc<Lists>>>, AllocError>
    ensures { IfOk result (λ ls. option_map (λ v. map (λ l. lists_view l.value) v.items) ls
        ≡ dependencies_of (here_view here.now).earlier (leaves_named (codes "dependencies") (arguments_data arguments.now))) }
{
    let values = arguments.leaves(here.alloc, "dependencies")?;
    dependencies_of(here.alloc, here.earlier, &values)
}
