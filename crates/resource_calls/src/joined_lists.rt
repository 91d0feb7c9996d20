//! Makes the result of `declare_dependency`: its own lists followed by those of its dependencies, all within the limits.
ghost use Rattle.std.specs.Prelude.{◌≡◌, codes, IfOk, map};
ghost use Rattle.arguments.specs.Given.{keyword};
ghost use Rattle.arguments.specs.Stops.{Gives};
ghost use Rattle.sources.specs.SourcesView.{named_view};
ghost use Rattle.build.specs.DeclaredTargetViews.{declared_target_views};
ghost use Rattle.world.specs.Prelude.{arguments_data, here_view};
ghost use Rattle.resource_calls.specs.JoinedLists.{count_at, dependencies_given, joined_dependency, own_dependency, source_of};
ghost use Rattle.resource_calls.specs.JoinedLists.{sources_within, tree_source, version_or, with_arguments, with_own};
ghost use Rattle.resource_calls.specs.OwnListsView.{own_view};

use crate::own_lists::Own;
use arguments::{Arguments, CallStop};
use build::DeclaredTarget;
use resources::{dependencies_in, found_dependency, join};
use sources::{NamedSource, outputs_at};
use std::alloc::{AllocError, Global};
use values::{Dependency, Source, Sources, Text, Texts, within_texts};
use world::Here;

// ---- sources

// Returns how many outputs a target has.
#[tactic(auto, using(crate::proofs::Counting::as_many))]
fn count_at(earlier: &[DeclaredTarget], number: usize) -> usize
    ensures { result ≡ count_at (declared_target_views earlier.now) number }
{
    match outputs_at(earlier, number) {
        Some(paths) => paths.len(),
        None => 0,
    }
}

fn tree_source(alloc: Global, path: &str) -> Result<Source, CallStop>
    ensures { Gives (λ s. s) (tree_source path.now) result }
{
    Ok(Source::File {
        path: Text::of_str(alloc, path)??,
        is_built: false,
    })
}

fn source_of(
    alloc: Global,
    earlier: &[DeclaredTarget],
    named: &NamedSource,
) -> Result<Source, CallStop>
    ensures { Gives (λ s. s) (source_of (declared_target_views earlier.now) (named_view named.now)) result }
{
    match named {
        NamedSource::Tree(path) => tree_source(alloc, path.as_str()),
        NamedSource::Built(path) => Ok(Source::File {
            path: path.clone()?,
            is_built: true,
        }),
        NamedSource::Outputs(number) => Ok(Source::CustomTarget {
            number: *number,
            outputs: count_at(earlier, *number),
        }),
        NamedSource::Output { target, place } => Ok(Source::CustomOutput {
            target: *target,
            output: *place,
        }),
    }
}

// Returns the sources that are named, or `OperationRefusal::Limit` if the path of one is too long for a text.
fn sources_within(
    alloc: Global,
    earlier: &[DeclaredTarget],
    named: &[NamedSource],
) -> Result<Sources, CallStop>
    ensures { Gives (λ s. s) (sources_within (declared_target_views earlier.now) (map named_view named.now)) result }
{
    let mut sources = Sources::new(alloc);
    for one in named {
        sources.push(source_of(alloc, earlier, one)?)?;
    }
    Ok(sources)
}

// ---- the dependency

// Returns the keyword `version`, and otherwise the version of the project.
fn version_or<'a>(project: &'a str, arguments: &'a Arguments) -> &'a str
    ensures { result.now ≡ version_or project.now (arguments_data arguments.now) }
{
    match arguments.text_given("version") {
        Some(version) => version.as_str(),
        None => project,
    }
}

fn with_own(
    dependency: Dependency,
    folders: Texts,
    libraries: &[usize],
    sources: Sources,
) -> Result<Dependency, AllocError>
    ensures { IfOk result (λ d. d ≡ with_own dependency folders libraries.now sources) }
{
    let mut whole = dependency;
    whole.include_directories = folders;
    whole.sources = sources;
    whole.link_with.extend(libraries)?;
    Ok(whole)
}

// Returns the dependency with its version and arguments, without directories, libraries and sources.
fn with_arguments(
    alloc: Global,
    project: &str,
    arguments: &Arguments,
) -> Result<Dependency, CallStop>
    ensures { Gives (λ d. d) (with_arguments project.now (arguments_data arguments.now)) result }
{
    let compile_args = arguments.texts(alloc, "compile_args")?;
    let link_args = arguments.texts(alloc, "link_args")?;
    let version = version_or(project, arguments);
    found_dependency(alloc, "", version, &compile_args, &link_args)
}

fn dependencies_given(alloc: Global, arguments: &Arguments) -> Result<Vec<&Dependency>, AllocError>
    ensures { IfOk result (λ ds. map (λ d. d.now) ds.items
        ≡ dependencies_given (keyword (codes "dependencies") (arguments_data arguments.now))) }
{
    match arguments.keyword("dependencies") {
        Some(value) => dependencies_in(alloc, value),
        None => Ok(Vec::new(alloc)),
    }
}

// Returns the dependency that has only the lists of the call itself.
fn own_dependency(
    here: &Here<'_>,
    project: &str,
    arguments: &Arguments,
    own: &Own,
) -> Result<Dependency, CallStop>
    ensures { Gives (λ d. d)
        (own_dependency project.now (here_view here.now).earlier (arguments_data arguments.now) (own_view own.now)) result }
{
    let dependency = with_arguments(here.alloc, project, arguments)?;
    let folders = within_texts(here.alloc, &own.folders)??;
    let sources = sources_within(here.alloc, here.earlier, &own.sources)?;
    Ok(with_own(dependency, folders, &own.libraries, sources)?)
}

/// Returns the dependency of a call with these own lists, in a project of this version, or `OperationRefusal::Limit` if one of its lists is
/// too long.
pub fn joined_dependency(
    here: &Here<'_>,
    project: &str,
    arguments: &Arguments,
    own: &Own,
) -> Result<Dependency, CallStop>
    ensures { Gives (λ d. d)
        (joined_dependency project.now (here_view here.now).earlier (arguments_data arguments.now) (own_view own.now)) result }
{
    let whole = own_dependency(here, project, arguments, own)?;
    let others = dependencies_given(here.alloc, arguments)?;
    join(whole, &others)
}
