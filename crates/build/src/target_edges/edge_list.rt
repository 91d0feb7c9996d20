//! Returns the edges of a target as a list.
ghost use Rattle.std.specs.Prelude.{◌≡◌, ◌++◌, [], IfOk, map, option_map, string_bytes};
ghost use Rattle.build.specs.edge.Own.{lent_view};
ghost use Rattle.build.specs.edge.Texts.{texts};
ghost use Rattle.build.specs.edge.View.{edge_view};
ghost use Rattle.build.specs.Inputs.{input_view};
ghost use Rattle.build.specs.target_edges.Parts.{joined_edge, last_words};
ghost use Rattle.build.specs.target_edges.PartsView.{build_parts_edges, parts_edges};

use crate::Input;
use crate::edge::{Edge, EdgeRule, LentEdge, copies, push_all, strings};
use crate::target_edges::parts::{BuildParts, TargetParts};
use crate::target_edges::source_parts::{SourceTexts, last_words, source_texts};
use std::alloc::{AllocError, Global};

fn copy_text(alloc: Global, text: Option<&str>) -> Result<Option<String>, AllocError>
    ensures { IfOk result (λ t. option_map string_bytes t ≡ option_map (λ s. s.now) text.entry) }
{
    match text {
        None => Ok(None),
        Some(text) => Ok(Some(String::from_str(alloc, text)?)),
    }
}

// Returns a copy of the edge.
fn copied(alloc: Global, edge: &LentEdge) -> Result<Edge, AllocError>
    ensures { IfOk result (λ e. edge_view e ≡ lent_view edge.now) }
{
    Ok(Edge {
        rule: edge.rule,
        outputs: copies(alloc, edge.outputs)?,
        inputs: copies(alloc, edge.inputs)?,
        implicit: copies(alloc, edge.implicit)?,
        order_only: copies(alloc, edge.order_only)?,
        words: copies(alloc, edge.words)?,
        redirect: copy_text(alloc, edge.redirect)?,
        description: String::from_str(alloc, edge.description)?,
        depfile: copy_text(alloc, edge.depfile)?,
    })
}

// Returns the words of the command that compiles a source.
fn compile_words(
    alloc: Global,
    front: &[String],
    own: &SourceTexts,
    source: &str,
) -> Result<Vec<String>, AllocError>
    ensures { IfOk result (λ ws. texts ws.items
        ≡ texts front.now ++ last_words (string_bytes own.now.object) (string_bytes own.now.depfile) source.now) }
{
    let mut words = copies(alloc, front)?;
    push_all(&mut words, &last_words(own, source))?;
    Ok(words)
}

// Returns the edge that compiles an input.
fn compile_edge(alloc: Global, parts: &BuildParts, input: &Input) -> Result<Edge, AllocError>
    ensures { let p = parts.now in
        let edge = joined_edge (texts p.words.items) (texts p.generated.items) (string_bytes p.file) (input_view input.now) in
        IfOk result (λ e. edge_view e ≡ edge) }
{
    let made = source_texts(alloc, &parts.file, input)?;
    let words = compile_words(alloc, &parts.words, &made, &input.path)?;
    let SourceTexts {
        object,
        depfile,
        description,
    } = made;
    Ok(Edge {
        rule: EdgeRule::CCompile,
        outputs: strings(alloc, &[&object])?,
        inputs: strings(alloc, &[&input.path])?,
        implicit: Vec::new(alloc),
        order_only: copies(alloc, &parts.generated)?,
        words,
        redirect: None,
        description,
        depfile: Some(depfile),
    })
}

fn compile_edges(alloc: Global, parts: &BuildParts) -> Result<Vec<Edge>, AllocError>
    ensures { let p = parts.now in
        let edge = joined_edge (texts p.words.items) (texts p.generated.items) (string_bytes p.file) in
        IfOk result (λ es. map edge_view es.items ≡ map edge (map input_view p.inputs.items)) }
{
    let mut edges = Vec::with_capacity(alloc, parts.inputs.len())?;
    for input in &parts.inputs {
        edges.push(compile_edge(alloc, parts, input)?)?;
    }
    Ok(edges)
}

fn build_edges(alloc: Global, mut parts: BuildParts) -> Result<Vec<Edge>, AllocError>
    ensures { IfOk result (λ es. map edge_view es.items ≡ build_parts_edges parts) }
{
    let mut edges = compile_edges(alloc, &parts)?;
    edges.append(&mut parts.rest)?;
    Ok(edges)
}

impl TargetParts<'_> {
    /// Returns the edges, in the order of `build.ninja`.
    pub fn into_edges(self, alloc: Global) -> Result<Vec<Edge>, AllocError>
        ensures { IfOk result (λ es. map edge_view es.items ≡ parts_edges self.entry) }
    {
        match self {
            TargetParts::Build(parts) => build_edges(alloc, parts),
            TargetParts::Custom(parts) => {
                let mut edges = Vec::with_capacity(alloc, 1)?;
                edges.push(copied(alloc, &parts.edge())?)?;
                Ok(edges)
            }
        }
    }
}
