//! Reads an executable or a library from the arguments of a call.
ghost use Rattle.std.specs.Prelude.{◌≡◌, IfOk, codes, map, option_map, string_bytes};
ghost use Rattle.arguments.specs.Given.{text_given};
ghost use Rattle.arguments.specs.Stops.{Says};
ghost use Rattle.build.specs.View.{build_view, lists_view, source_view};
ghost use Rattle.sources.specs.SourcesView.{named_view, named_views};
ghost use Rattle.world.specs.Prelude.{arguments_data, data_of, here_view};
ghost use Rattle.target_calls.specs.BuildTargets.{build_target, declared_target, declared_from, named_sources, number_in, own_lists};
ghost use Rattle.target_calls.specs.BuildTargets.{source_values, soversion_given, version_fits};
ghost use Rattle.target_calls.specs.BuildTargetsView.{named_target_view};

use crate::dependencies::dependencies_given;
use crate::source_lookup::{files_among, sources_in};
use arguments::{Arguments, CallStop, Rule};
use build::{BuildTarget, Lists, Source, Target, TargetKind};
use itoa::Buffer;
use sources::{NamedSource, folders_named, is_library_version, numbers_named, sources_of};
use std::alloc::{AllocError, Global};
use std::rc::Rc;
use values::Value;
use world::Here;

/// Says what a call declares.
#[derive(Drop)]
pub struct NamedTarget {
    pub target: Target,
    /// The source files that the call requires, in the order of the arguments.
    pub files: Vec<String>,
}

// ---- the keywords of a shared library

fn version_of(alloc: Global, arguments: &Arguments) -> Result<Option<String>, AllocError>
    ensures { IfOk result (λ v. option_map string_bytes v ≡ text_given (codes "version") (arguments_data arguments.now)) }
{
    match arguments.text_given("version") {
        Some(version) => Ok(Some(String::from_str(alloc, version.as_str())?)),
        None => Ok(None),
    }
}

// Returns whether `version` is absent, or is one to three numbers separated by dots.
fn version_fits(alloc: Global, arguments: &Arguments) -> Result<bool, AllocError>
    ensures { IfOk result (λ fits. fits ≡ version_fits (text_given (codes "version") (arguments_data arguments.now))) }
{
    match arguments.text_given("version") {
        Some(version) => is_library_version(alloc, version.as_str()),
        None => Ok(true),
    }
}

// Returns a text, or the decimal digits of an integer, and `None` for any other value.
fn number_in(alloc: Global, value: &Value) -> Result<Option<String>, AllocError>
    ensures { IfOk result (λ n. option_map string_bytes n ≡ number_in (data_of value.now)) }
{
    match value {
        Value::Text(text) => Ok(Some(String::from_str(alloc, text.as_str())?)),
        Value::Integer(number) => {
            let mut buffer = Buffer::new();
            Ok(Some(String::from_str(alloc, buffer.format(*number))?))
        }
        _ => Ok(None),
    }
}

fn soversion_of(alloc: Global, arguments: &Arguments) -> Result<Option<String>, AllocError>
    ensures { IfOk result (λ n. option_map string_bytes n ≡ soversion_given (arguments_data arguments.now)) }
{
    match arguments.keyword("soversion") {
        Some(value) => number_in(alloc, value),
        None => Ok(None),
    }
}

// ---- lists

// Returns the sources that a call gives: those after the target's name, then those of the keyword.
fn source_values<'v>(alloc: Global, arguments: &'v Arguments) -> Result<Vec<&'v Value>, AllocError>
    ensures { IfOk result (λ vs. map (λ v. data_of v.now) vs.items ≡ source_values (arguments_data arguments.now)) }
{
    let mut values = arguments.leaves_behind(alloc, 1)?;
    let mut more = arguments.leaves(alloc, "sources")?;
    values.append(&mut more)?;
    Ok(values)
}

// Returns the sources that a call names, or the refusal of a path that is not below the source root.
fn named_sources(here: &Here<'_>, arguments: &Arguments) -> Result<Vec<NamedSource>, CallStop>
    ensures { Says named_views (named_sources (here_view here.now) (arguments_data arguments.now)) result }
{
    let values = source_values(here.alloc, arguments)?;
    sources_of(here.alloc, here.source_root, here.folder, &values)
}

// Returns the lists that the target has itself, with these sources, or the refusal of a bad directory or library.
fn own_lists(
    here: &Here<'_>,
    arguments: &Arguments,
    sources: Vec<Source>,
) -> Result<Lists, CallStop>
    ensures { Says lists_view
        (own_lists (here_view here.now) (arguments_data arguments.now) (map source_view sources.items)) result }
{
    let Here {
        alloc,
        source_root,
        folder,
        ..
    } = *here;
    let key = "include_directories";
    let include_folders = folders_named(alloc, source_root, folder, arguments, key)?;
    let Some(link_with) = numbers_named(alloc, arguments, "link_with")? else {
        return Err(Rule::TakesLibraries.refuse(alloc, "link_with")?.into());
    };
    Ok(Lists {
        sources,
        include_folders,
        compile_args: arguments.texts(alloc, "c_args")?,
        link_args: arguments.texts(alloc, "link_args")?,
        link_with,
    })
}

// ---- the target

fn build_target(
    here: &Here<'_>,
    kind: TargetKind,
    arguments: &Arguments,
    own: Lists,
    dependencies: Vec<Rc<Lists>>,
) -> Result<BuildTarget, AllocError>
    ensures { IfOk result (λ t. build_view t ≡ build_target (here_view here.now) kind (arguments_data arguments.now)
        (lists_view own) (map (λ l. lists_view l.value) dependencies.items)) }
{
    Ok(BuildTarget {
        kind,
        folder: String::from_str(here.alloc, here.folder)?,
        name: String::from_str(here.alloc, arguments.text_at(0))?,
        own,
        dependencies,
        version: version_of(here.alloc, arguments)?,
        soversion: soversion_of(here.alloc, arguments)?,
        is_default: arguments.flag("build_by_default", true),
        is_installed: arguments.flag("install", false),
    })
}

// Returns what a call with these sources declares, or its refusal.
fn declare_from(
    here: &Here<'_>,
    kind: TargetKind,
    arguments: &Arguments,
    named: Vec<NamedSource>,
) -> Result<NamedTarget, CallStop>
    ensures { Says named_target_view
        (declared_from (here_view here.now) kind (arguments_data arguments.now) (map named_view named.items)) result }
{
    let files = files_among(here.alloc, &named)?;
    let Some(sources) = sources_in(here.alloc, here.earlier, named)? else {
        return Err(Rule::NamesFile.refuse(here.alloc, "")?.into());
    };
    let own = own_lists(here, arguments, sources)?;
    let Some(dependencies) = dependencies_given(here, arguments)? else {
        return Err(Rule::NamesFile.refuse(here.alloc, "")?.into());
    };
    let target = build_target(here, kind, arguments, own, dependencies)?;
    Ok(NamedTarget {
        target: Target::Build(Box::new(here.alloc, target)?),
        files,
    })
}

/// Returns what a call declares, or its refusal. Refused are a bad `version` and a path that leads out of the source directory.
#[tactic(auto, unfolding(crate::specs::BuildTargets::declared_target))]
pub fn declare_target(
    here: &Here<'_>,
    kind: TargetKind,
    arguments: &Arguments,
) -> Result<NamedTarget, CallStop>
    ensures { Says named_target_view (declared_target (here_view here.now) kind (arguments_data arguments.now)) result }
{
    let fits = version_fits(here.alloc, arguments)?;
    if !fits {
        let version = arguments.text("version");
        return Err(Rule::IsLibraryVersion.refuse(here.alloc, version)?.into());
    }
    let named = named_sources(here, arguments)?;
    declare_from(here, kind, arguments, named)
}
