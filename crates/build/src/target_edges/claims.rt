//! Computes what a project needs to know of a target's edges before it accepts the target, without making them. Only the edges of symbolic
//! links are made.
ghost use Rattle.std.specs.Prelude.{◌≡◌, ◌∷◌, [], ◌++◌, ◌&&◌, ◌||◌, map, flat_map, IfOk, option_map, string_bytes};
ghost use Rattle.std.specs.List.{list_all};
ghost use Rattle.build.specs.edge.Holding.{is_path as is_path_of, are_writable as are_writable_of};
ghost use Rattle.build.specs.edge.Texts.{texts};
ghost use Rattle.build.specs.edge.View.{edge_view};
ghost use Rattle.build.specs.Data.{Build, Custom};
ghost use Rattle.build.specs.Files.{default_paths};
ghost use Rattle.build.specs.DeclaredTargetViews.{declared_target_views};
ghost use Rattle.build.specs.View.{build_view, custom_view, source_view, surroundings_view, target_view};
ghost use Rattle.build.specs.target_edges.Claims.{AreClaims};
ghost use Rattle.build.specs.target_edges.Edges.{build_edges, custom_edge, target_edges};
ghost use Rattle.build.specs.target_edges.Parts.{command_held, compiles_held, custom_held, depfile_held, is_none, source_held};

use crate::edge::{
    Edge, are_paths, are_writable, can_hold_path, can_hold_value, can_hold_values, is_path,
    is_some_list, push_copies,
};
use crate::target_edges::edge_parts::names;
use crate::target_edges::link_and_archive::{LinkContext, file_is_held};
use crate::target_edges::word_checks::words_are_held;
use crate::{
    BuildTarget, CustomTarget, Input, Source, Target, compiled_sources, file_path,
    generated_outputs, objects, output_paths,
};
use std::alloc::{AllocError, Global};

/// Holds what a project needs to know of a target's edges.
#[derive(Drop)]
pub struct Claims {
    /// Whether `build.ninja` can hold each of the edges.
    pub writable: bool,
    /// The objects that they make.
    pub objects: Vec<String>,
    /// The other paths that they make, by which the edge `all` names the target.
    pub asked: Vec<String>,
}

fn sources_are_paths(inputs: &[Input]) -> bool
    ensures { result ≡ list_all (λ i. is_path_of (string_bytes i.path)) inputs.now }
{
    inputs.iter().all(|input| is_path(&input.path))
}

fn own_are_held(inputs: &[Input], objects: &[String]) -> bool
    ensures { result ≡ (list_all is_path_of (texts objects.now) && list_all (λ i. is_path_of (string_bytes i.path)) inputs.now) }
{
    are_paths(objects) && sources_are_paths(inputs)
}

// Returns whether `build.ninja` can hold what the edges that compile share.
fn shared_is_held(context: &LinkContext, target: &BuildTarget) -> Result<bool, AllocError>
    ensures { IfOk result (λ held. held
        ≡ compiles_held (surroundings_view context.now.surroundings.now) (build_view target.now)) }
{
    let made = generated_outputs(context.alloc, target)?;
    Ok(are_paths(&made) && words_are_held(context.surroundings, target))
}

// Returns whether `build.ninja` can hold each of the edges that compile these inputs to these objects. The shared parts are checked once,
// and each edge's own paths.
fn compiles_are_held(
    context: &LinkContext,
    target: &BuildTarget,
    inputs: &[Input],
    objects: &[String],
) -> Result<bool, AllocError>
    ensures { let shared = compiles_held (surroundings_view context.now.surroundings.now) (build_view target.now) in
        let own = list_all is_path_of (texts objects.now) && list_all (λ i. is_path_of (string_bytes i.path)) inputs.now in
        IfOk result (λ held. held ≡ (is_none inputs.now || (shared && own))) }
{
    let shared = shared_is_held(context, target)?;
    Ok(inputs.is_empty() || (shared && own_are_held(inputs, objects)))
}

// Appends the outputs of the edges.
fn push_outputs(paths: &mut Vec<String>, edges: &[Edge]) -> Result<(), AllocError>
    ensures { IfOk result (λ _. texts paths.new.items ≡ texts paths.old.items ++ flat_map (λ e. e.outputs) (map edge_view edges.now)) }
{
    for edge in edges {
        push_copies(paths, &edge.outputs)?;
    }
    Ok(())
}

// Returns a file, followed by the outputs of these edges.
fn list_asked(alloc: Global, file: String, names: &[Edge]) -> Result<Vec<String>, AllocError>
    ensures { IfOk result (λ v. texts v.items
        ≡ string_bytes file ∷ flat_map (λ e. e.outputs) (map edge_view names.now)) }
{
    let mut asked = Vec::with_capacity(alloc, 1)?;
    asked.push(file)?;
    push_outputs(&mut asked, names)?;
    Ok(asked)
}

fn all_are_held(compiles: bool, made: bool, names: &[Edge]) -> bool
    ensures { result ≡ (compiles && (made && are_writable_of (map edge_view names.now))) }
{
    compiles && made && are_writable(names)
}

fn build_claims(context: &LinkContext, target: &BuildTarget) -> Result<Claims, AllocError>
    ensures { let edges = build_edges (surroundings_view context.now.surroundings.now)
        (declared_target_views context.now.earlier.now) context.now.libraries.now (build_view target.now) in
        IfOk result (λ c. AreClaims c edges (default_paths (Build (build_view target.now)))) }
{
    let inputs = compiled_sources(context.alloc, context.surroundings.facts.depth, target)?;
    let file = file_path(context.alloc, target)?;
    let names = names(context, target, &file)?;
    let objects = objects(context.alloc, &file, &inputs)?;
    let compiles = compiles_are_held(context, target, &inputs, &objects)?;
    let made = file_is_held(context, target, &file, &objects)?;
    let writable = all_are_held(compiles, made, &names);
    let asked = list_asked(context.alloc, file, &names)?;
    Ok(Claims {
        writable,
        objects,
        asked,
    })
}

// ---- custom targets

fn source_is_held(source: &Source) -> bool
    ensures { result ≡ source_held (source_view source.now) }
{
    match source {
        Source::Tree(path) => can_hold_path(path),
        Source::Built(path) => is_path(path),
        Source::Made(paths) => are_paths(paths),
    }
}

fn each_is_held(sources: &[Source]) -> bool
    ensures { result ≡ list_all (λ s. source_held (source_view s)) sources.now }
{
    sources.iter().all(source_is_held)
}

fn sources_are_held(sources: &[Source]) -> bool
    ensures { result ≡ list_all source_held (map source_view sources.now) }
{
    each_is_held(sources)
}

fn depfile_is_held(folder: &str, depfile: &Option<String>) -> bool
    ensures { result ≡ depfile_held folder.now (option_map string_bytes depfile.now) }
{
    match depfile {
        None => true,
        Some(name) => can_hold_value(folder) && can_hold_value(name),
    }
}

fn command_is_held(target: &CustomTarget) -> bool
    ensures { result ≡ command_held (custom_view target.now) }
{
    is_some_list(&target.words)
        && can_hold_values(&target.words)
        && depfile_is_held(&target.folder, &target.depfile)
}

// Returns whether `build.ninja` can hold the edge of a custom target with these outputs.
fn custom_is_held(target: &CustomTarget, outputs: &[String]) -> bool
    ensures { result ≡ custom_held (custom_view target.now) (texts outputs.now) }
{
    is_some_list(outputs)
        && are_paths(outputs)
        && sources_are_held(&target.inputs)
        && sources_are_held(&target.needs)
        && command_is_held(target)
}

fn custom_claims(context: &LinkContext, target: &CustomTarget) -> Result<Claims, AllocError>
    ensures { let edge = custom_edge (surroundings_view context.now.surroundings.now).facts.depth (custom_view target.now) in
        IfOk result (λ c. AreClaims c (edge ∷ []) (default_paths (Custom (custom_view target.now)))) }
{
    let asked = output_paths(context.alloc, target)?;
    let writable = custom_is_held(target, &asked);
    Ok(Claims {
        writable,
        objects: Vec::new(context.alloc),
        asked,
    })
}

/// Returns what a project needs to know of the target's edges.
pub fn claims_of(context: &LinkContext, target: &Target) -> Result<Claims, AllocError>
    ensures { let edges = target_edges (surroundings_view context.now.surroundings.now)
        (declared_target_views context.now.earlier.now) context.now.libraries.now (target_view target.now) in
        IfOk result (λ c. AreClaims c edges (default_paths (target_view target.now))) }
{
    match target {
        Target::Build(target) => build_claims(context, target),
        Target::Custom(target) => custom_claims(context, target),
    }
}
