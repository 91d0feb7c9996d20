//! Decides which targets a project accepts.
ghost use Rattle.std.specs.Prelude.{◌≡◌, ◌+◌, min, IfOk, ◌&&◌, ◌||◌, string_bytes, option_map};
ghost use Rattle.std.specs.List.{list_any, list_all, sum_by};
ghost use Rattle.support.specs.Limits.{items};
ghost use Rattle.build.specs.edge.Texts.{texts, holds as is_held};
ghost use Rattle.support.specs.paths.Names.{has_slash, is_file_name};
ghost use Rattle.build.specs.DeclaredTargetViews.{declared_target_views};
ghost use Rattle.build.specs.View.{source_view, lists_view, build_view, custom_view, target_view};
ghost use Rattle.build.specs.Sources.{is_c as is_c_path};
ghost use Rattle.build.specs.project.World.{reserved_paths, is_made_in};
ghost use Rattle.build.specs.project.Adding.{begins_with_dash, is_folder, sources_of, is_made_source, is_present};
ghost use Rattle.build.specs.project.Adding.{is_target_name};
ghost use Rattle.build.specs.project.Adding.{has_c_in, has_c, names_fit, optional_file_name, build_fits, custom_fits, length_in, length_of};
ghost use Rattle.build.specs.Data.{Custom};
ghost use Rattle.build.specs.project.Adding.{is_short, is_within, is_build, paths_in};

use crate::edge::{holds, is_upward};
use crate::{
    BuildTarget, CustomTarget, DeclaredTarget, Lists, Source, Target, file_name,
    has_foreign_source, is_c, link_names, links_libraries,
};
use std::alloc::{AllocError, Global};
use support::paths::{has_slash, is_file_name};
use support::tables::SipSet;

// ---- names

fn all_file_names(names: &[String]) -> bool
    ensures { result ≡ list_all is_file_name (texts names.now) }
{
    names.iter().all(|name| is_file_name(name))
}

fn is_optional_file_name(name: &Option<String>) -> bool
    ensures { result ≡ optional_file_name (option_map string_bytes name.now) }
{
    match name {
        None => true,
        Some(name) => is_file_name(name),
    }
}

fn begins_with_dash(name: &str) -> bool
    ensures { result ≡ begins_with_dash name.now }
{
    matches!(name.as_bytes(), [b'-', ..])
}

fn is_target_name(name: &str) -> bool
    ensures { result ≡ is_target_name name.now }
{
    !(name == "" || has_slash(name) || begins_with_dash(name))
}

/// Returns whether the path may be that of a folder of the source tree.
pub fn is_folder(folder: &str) -> bool
    ensures { result ≡ is_folder folder.now }
{
    !(is_upward(folder) || folder == "..")
}

fn names_fit(alloc: Global, target: &BuildTarget) -> Result<bool, AllocError>
    ensures { IfOk result (λ fit. fit ≡ names_fit (build_view target.now)) }
{
    let file = file_name(alloc, target)?;
    let links = link_names(alloc, target)?;
    Ok(is_target_name(&target.name) && is_file_name(&file) && all_file_names(&links))
}

// ---- made sources

fn is_reserved(path: &str) -> bool
    ensures { result ≡ is_held path.now reserved_paths }
{
    matches!(path, "all" | "build.ninja" | "meson-info/introspect.json")
}

fn is_made(taken: &SipSet<String>, path: &str) -> bool
    ensures { result ≡ is_made_in (texts taken.now.keys) path.now }
{
    holds(taken, path) && !is_reserved(path)
}

fn each_is_made(taken: &SipSet<String>, paths: &[String]) -> bool
    ensures { result ≡ list_all (λ s. is_made_in (texts taken.now.keys) (string_bytes s)) paths.now }
{
    paths.iter().all(|path| is_made(taken, path))
}

fn are_made(taken: &SipSet<String>, paths: &[String]) -> bool
    ensures { result ≡ list_all (is_made_in (texts taken.now.keys)) (texts paths.now) }
{
    each_is_made(taken, paths)
}

fn is_made_source(taken: &SipSet<String>, source: &Source) -> bool
    ensures { result ≡ is_made_source (is_made_in (texts taken.now.keys)) (source_view source.now) }
{
    match source {
        Source::Tree(_) => true,
        Source::Built(path) => is_made(taken, path),
        Source::Made(paths) => are_made(taken, paths),
    }
}

fn are_made_sources(taken: &SipSet<String>, sources: &[Source]) -> bool
    ensures { result ≡ list_all (λ s. is_made_source (is_made_in (texts taken.now.keys)) (source_view s)) sources.now }
{
    sources.iter().all(|source| is_made_source(taken, source))
}

fn bring_made_sources(taken: &SipSet<String>, target: &BuildTarget) -> bool
    ensures { result ≡ list_all (λ l. list_all
        (λ s. is_made_source (is_made_in (texts taken.now.keys)) (source_view s)) l.value.sources.items) target.now.dependencies.items }
{
    target
        .dependencies
        .iter()
        .all(|lists| are_made_sources(taken, &lists.sources))
}

// Returns whether each source of a build target that is in the build directory is made. The sources of its dependencies count too.
fn build_has_made(taken: &SipSet<String>, target: &BuildTarget) -> bool
    ensures { result ≡ (list_all (λ s. is_made_source (is_made_in (texts taken.now.keys)) (source_view s)) target.now.own.sources.items
        && list_all (λ l. list_all (λ s. is_made_source (is_made_in (texts taken.now.keys))
        (source_view s)) l.value.sources.items) target.now.dependencies.items) }
{
    are_made_sources(taken, &target.own.sources) && bring_made_sources(taken, target)
}

fn custom_has_made(taken: &SipSet<String>, target: &CustomTarget) -> bool
    ensures { result ≡ (list_all (λ s. is_made_source (is_made_in (texts taken.now.keys)) (source_view s)) target.now.inputs.items
        && list_all (λ s. is_made_source (is_made_in (texts taken.now.keys)) (source_view s)) target.now.needs.items) }
{
    are_made_sources(taken, &target.inputs) && are_made_sources(taken, &target.needs)
}

/// Returns whether each source of the target that is in the build directory is made.
pub fn has_made_sources(taken: &SipSet<String>, target: &Target) -> bool
    ensures { result ≡ list_all (is_made_source (is_made_in (texts taken.now.keys))) (sources_of (target_view target.now)) }
{
    match target {
        Target::Build(target) => build_has_made(taken, target),
        Target::Custom(target) => custom_has_made(taken, target),
    }
}

// ---- present sources

fn is_present(present: &SipSet<String>, source: &Source) -> bool
    ensures { result ≡ is_present (texts present.now.keys) (source_view source.now) }
{
    match source {
        Source::Tree(path) => holds(present, path),
        Source::Built(_) | Source::Made(_) => true,
    }
}

fn are_present(present: &SipSet<String>, sources: &[Source]) -> bool
    ensures { result ≡ list_all (λ s. is_present (texts present.now.keys) (source_view s)) sources.now }
{
    sources.iter().all(|source| is_present(present, source))
}

fn bring_present(present: &SipSet<String>, target: &BuildTarget) -> bool
    ensures { result ≡ list_all (λ l. list_all
        (λ s. is_present (texts present.now.keys) (source_view s)) l.value.sources.items) target.now.dependencies.items }
{
    target
        .dependencies
        .iter()
        .all(|lists| are_present(present, &lists.sources))
}

// Returns whether each file of the tree that a build target names is present. The sources of its dependencies count too.
fn build_has_present(present: &SipSet<String>, target: &BuildTarget) -> bool
    ensures { result ≡ (list_all (λ s. is_present (texts present.now.keys) (source_view s)) target.now.own.sources.items
        && list_all (λ l. list_all (λ s. is_present (texts present.now.keys)
        (source_view s)) l.value.sources.items) target.now.dependencies.items) }
{
    are_present(present, &target.own.sources) && bring_present(present, target)
}

fn custom_has_present(present: &SipSet<String>, target: &CustomTarget) -> bool
    ensures { result ≡ (list_all (λ s. is_present (texts present.now.keys) (source_view s)) target.now.inputs.items
        && list_all (λ s. is_present (texts present.now.keys) (source_view s)) target.now.needs.items) }
{
    are_present(present, &target.inputs) && are_present(present, &target.needs)
}

/// Returns whether each file of the tree that the target names is present.
pub fn has_present_sources(present: &SipSet<String>, target: &Target) -> bool
    ensures { result ≡ list_all (is_present (texts present.now.keys)) (sources_of (target_view target.now)) }
{
    match target {
        Target::Build(target) => build_has_present(present, target),
        Target::Custom(target) => custom_has_present(present, target),
    }
}

// ---- compiled sources

fn are_some_c(paths: &[String]) -> bool
    ensures { result ≡ list_any is_c_path (texts paths.now) }
{
    paths.iter().any(|path| is_c(path))
}

fn has_c_in(source: &Source) -> bool
    ensures { result ≡ has_c_in (source_view source.now) }
{
    match source {
        Source::Tree(path) | Source::Built(path) => is_c(path),
        Source::Made(paths) => are_some_c(paths),
    }
}

fn have_c(sources: &[Source]) -> bool
    ensures { result ≡ list_any (λ s. has_c_in (source_view s)) sources.now }
{
    sources.iter().any(has_c_in)
}

fn bring_c(target: &BuildTarget) -> bool
    ensures { result ≡ list_any (λ l. list_any (λ s. has_c_in (source_view s)) l.value.sources.items) target.now.dependencies.items }
{
    target
        .dependencies
        .iter()
        .any(|lists| have_c(&lists.sources))
}

fn has_or_brings_c(target: &BuildTarget) -> bool
    ensures { result ≡ (list_any (λ s. has_c_in (source_view s)) target.now.own.sources.items
        || list_any (λ l. list_any (λ s. has_c_in (source_view s)) l.value.sources.items) target.now.dependencies.items) }
{
    have_c(&target.own.sources) || bring_c(target)
}

fn has_c(target: &BuildTarget) -> bool
    ensures { result ≡ has_c (build_view target.now) }
{
    has_or_brings_c(target)
}

// ---- a target

/// Returns whether a build target fits.
///
/// Its folder and its names must be valid, and its sources must be C sources and headers, of which at least one is compiled. It may link
/// only earlier libraries.
pub fn build_fits(
    alloc: Global,
    earlier: &[DeclaredTarget],
    target: &BuildTarget,
) -> Result<bool, AllocError>
    ensures { IfOk result (λ fit. fit ≡ build_fits (declared_target_views earlier.now) (build_view target.now)) }
{
    let names = names_fit(alloc, target)?;
    Ok(
        is_folder(&target.folder)
            && names
            && !has_foreign_source(target)
            && has_c(target)
            && links_libraries(earlier, target),
    )
}

/// Returns whether the folder of a custom target and the names of its files are valid.
pub fn custom_fits(target: &CustomTarget) -> bool
    ensures { result ≡ custom_fits (custom_view target.now) }
{
    is_folder(&target.folder)
        && all_file_names(&target.outputs)
        && is_optional_file_name(&target.depfile)
}

/// Returns whether the target is a build target.
pub fn is_build(target: &Target) -> bool
    ensures { result ≡ is_build (target_view target.now) }
{
    match target {
        Target::Build(_) => true,
        Target::Custom(_) => false,
    }
}

// ---- limits

/// Names one of the lists of a build target.
#[derive(Clone, Copy)]
pub enum ListOf {
    OfSources,
    OfFolders,
    OfCompileArgs,
    OfLinkArgs,
    OfLibraries,
}

fn length_in(lists: &Lists, which: ListOf) -> usize
    ensures { result ≡ length_in which (lists_view lists.now) }
{
    match which {
        ListOf::OfSources => lists.sources.len(),
        ListOf::OfFolders => lists.include_folders.len(),
        ListOf::OfCompileArgs => lists.compile_args.len(),
        ListOf::OfLinkArgs => lists.link_args.len(),
        ListOf::OfLibraries => lists.link_with.len(),
    }
}

// Returns the length of the list, at most one more than is allowed.
fn length_up_to(target: &BuildTarget, which: ListOf) -> usize
    ensures { result ≡ min (items + 1) (length_of which (build_view target.now)) }
{
    let most = support::limits::ITEMS + 1;
    let mut count = most.min(length_in(&target.own, which));
    for lists in &target.dependencies {
        count = most.min(count + most.min(length_in(lists, which)));
    }
    count
}

fn is_short(target: &BuildTarget, which: ListOf) -> bool
    ensures { result ≡ is_short which (build_view target.now) }
{
    length_up_to(target, which) <= support::limits::ITEMS
}

fn paths_in(source: &Source) -> usize
    ensures { result ≡ paths_in (source_view source.now) }
{
    match source {
        Source::Tree(_) => 1,
        Source::Built(_) => 1,
        Source::Made(paths) => paths.len(),
    }
}

// Returns how many paths the command needs, at most one more than is allowed.
fn needs_up_to(target: &CustomTarget) -> usize
    ensures { result ≡ min (items + 1) (sum_by paths_in (custom_view target.now).needs) }
{
    let most = support::limits::ITEMS + 1;
    let mut count = 0;
    for source in &target.needs {
        count = most.min(count + most.min(paths_in(source)));
    }
    count
}

fn is_short_custom(target: &CustomTarget) -> bool
    ensures { result ≡ is_within (Custom (custom_view target.now)) }
{
    target.longest <= support::limits::ITEMS
        && target.words.len() <= support::limits::ITEMS
        && needs_up_to(target) <= support::limits::ITEMS
}

/// Returns whether no list of the target has more than 65,536 items. The items of its dependencies count too.
pub fn is_within(target: &Target) -> bool
    ensures { result ≡ is_within (target_view target.now) }
{
    match target {
        Target::Build(target) => {
            is_short(target, ListOf::OfSources)
                && is_short(target, ListOf::OfFolders)
                && is_short(target, ListOf::OfCompileArgs)
                && is_short(target, ListOf::OfLinkArgs)
                && is_short(target, ListOf::OfLibraries)
        }
        Target::Custom(target) => is_short_custom(target),
    }
}
