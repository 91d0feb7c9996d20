//! Computes the edges of a target, in parts.
ghost use Rattle.std.specs.Prelude.{◌≡◌, ◌∷◌, [], map, IfOk};
ghost use Rattle.build.specs.edge.Paths.{object_path};
ghost use Rattle.build.specs.edge.View.{edge_view};
ghost use Rattle.build.specs.Files.{file_path as path_of};
ghost use Rattle.build.specs.Inputs.{input_view};
ghost use Rattle.build.specs.DeclaredTargetViews.{declared_target_views};
ghost use Rattle.build.specs.View.{surroundings_view, build_view, target_view};
ghost use Rattle.build.specs.target_edges.Edges.{file_edge, link_edges, build_edges, target_edges};
ghost use Rattle.build.specs.target_edges.PartsView.{build_parts_edges, parts_edges};

use crate::edge::Edge;
use crate::target_edges::compile_words::front_words;
use crate::target_edges::custom::custom_parts;
use crate::target_edges::link_and_archive::{LinkContext, file_edge, link_edges};
use crate::target_edges::parts::{BuildParts, TargetParts};
use crate::{
    BuildTarget, DeclaredTarget, Input, Target, compiled_sources, file_name, file_path,
    generated_outputs, link_paths, objects,
};
use std::alloc::{AllocError, Global};

/// Returns the edges that make the symbolic links to the target's file.
pub fn names(
    context: &LinkContext,
    target: &BuildTarget,
    file: &str,
) -> Result<Vec<Edge>, AllocError>
    requires { file.now ≡ path_of (build_view target.now) }
    ensures { IfOk result (λ v. map edge_view v.items ≡ link_edges (build_view target.now)) }
{
    let links = link_paths(context.alloc, target)?;
    if links.is_empty() {
        return Ok(Vec::new(context.alloc));
    }
    let name = file_name(context.alloc, target)?;
    link_edges(context.alloc, file, &name, &links)
}

// Returns the edge that makes the target's file from the objects of these inputs, and the edges of the links to it.
fn file_edges(
    context: &LinkContext,
    target: &BuildTarget,
    file: &str,
    inputs: &[Input],
) -> Result<Vec<Edge>, AllocError>
    requires { file.now ≡ path_of (build_view target.now) }
    ensures { IfOk result (λ v. map edge_view v.items
        ≡ file_edge (surroundings_view context.now.surroundings.now)
        (declared_target_views context.now.earlier.now) context.now.libraries.now (build_view target.now) file.now
        (map (λ i. object_path file.now i.name) (map input_view inputs.now)) ∷ link_edges (build_view target.now)) }
{
    let objects = objects(context.alloc, file, inputs)?;
    let mut edges = Vec::new(context.alloc);
    edges.push(file_edge(context, target, file, objects)?)?;
    let mut names = names(context, target, file)?;
    edges.append(&mut names)?;
    Ok(edges)
}

fn build_parts(context: &LinkContext, target: &BuildTarget) -> Result<BuildParts, AllocError>
    ensures { IfOk result (λ p. build_parts_edges p
        ≡ build_edges (surroundings_view context.now.surroundings.now)
        (declared_target_views context.now.earlier.now) context.now.libraries.now (build_view target.now)) }
{
    let alloc = context.alloc;
    let generated = generated_outputs(alloc, target)?;
    let words = front_words(alloc, context.surroundings, target)?;
    let file = file_path(alloc, target)?;
    let inputs = compiled_sources(alloc, context.surroundings.facts.depth, target)?;
    let rest = file_edges(context, target, &file, &inputs)?;
    Ok(BuildParts {
        words,
        generated,
        file,
        inputs,
        rest,
    })
}

/// Returns the parts of no edges.
pub fn no_parts<'a>(alloc: Global) -> TargetParts<'a>
    ensures { parts_edges result ≡ [] }
{
    TargetParts::Build(BuildParts {
        words: Vec::new(alloc),
        generated: Vec::new(alloc),
        file: String::new(alloc),
        inputs: Vec::new(alloc),
        rest: Vec::new(alloc),
    })
}

/// Returns the edges of a target.
///
/// A build target has edges that compile its sources, one that makes its file, and those that make symbolic links to it. A custom target
/// has one, which runs its command.
pub fn target_parts<'a>(
    context: &LinkContext,
    one: &'a DeclaredTarget,
) -> Result<TargetParts<'a>, AllocError>
    ensures { IfOk result (λ p. parts_edges p
        ≡ target_edges (surroundings_view context.now.surroundings.now)
        (declared_target_views context.now.earlier.now) context.now.libraries.now (target_view one.now.target)) }
{
    match &one.target {
        Target::Build(target) => Ok(TargetParts::Build(build_parts(context, target)?)),
        Target::Custom(target) => {
            let depth = context.surroundings.facts.depth;
            let parts = custom_parts(context.alloc, depth, target, &one.paths)?;
            Ok(TargetParts::Custom(parts))
        }
    }
}
