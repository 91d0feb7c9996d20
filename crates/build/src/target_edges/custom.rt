//! Computes the edge of a custom target. The edge borrows from the target.
ghost use Rattle.std.specs.Prelude.{◌≡◌, ◌++◌, [], flat_map, IfOk, string_bytes, option_map, codes, None, if◌then◌else◌};
ghost use Rattle.build.specs.edge.Texts.{texts};
ghost use Rattle.build.specs.edge.Own.{lent_view};
ghost use Rattle.build.specs.Files.{output_paths};
ghost use Rattle.build.specs.View.{custom_view};
ghost use Rattle.build.specs.target_edges.Edges.{first_of, custom_rule, and_path, custom_edge};
ghost use Rattle.build.specs.target_edges.PartsView.{custom_parts_edge};

use crate::edge::{EdgeRule, LentEdge, lend_text};
use crate::target_edges::parts::CustomParts;
use crate::{CustomTarget, depfile_path, source_paths};
use std::alloc::{AllocError, Global};

fn custom_rule(depfile: &Option<String>) -> EdgeRule
    ensures { result ≡ custom_rule (option_map string_bytes depfile.now) }
{
    match depfile {
        None => EdgeRule::Custom,
        Some(_) => EdgeRule::CustomDep,
    }
}

fn first_of(paths: &[String]) -> Option<&str>
    ensures { option_map (λ p. p.now) result ≡ first_of (texts paths.now) }
{
    match paths {
        [] => None,
        [first, ..] => Some(first.as_str()),
    }
}

// Returns the file that receives the output of the command, if one does.
fn redirect(captures: bool, outputs: &[String]) -> Option<&str>
    ensures { option_map (λ p. p.now) result ≡ (if captures then first_of (texts outputs.now) else None) }
{
    if captures { first_of(outputs) } else { None }
}

// Appends a space and the path.
fn push_spaced(text: &mut String, path: &str) -> Result<(), AllocError>
    ensures { IfOk result (λ _. string_bytes text.new ≡ string_bytes text.old ++ and_path path.now) }
{
    text.push_str(" ")?;
    text.push_str(path)
}

// The initial capacity in bytes of a description, which is enough for most.
const ROOM: usize = 64;

fn description(alloc: Global, paths: &[String]) -> Result<String, AllocError>
    ensures { IfOk result (λ s. string_bytes s ≡ codes "Generating" ++ flat_map and_path (texts paths.now)) }
{
    let mut text = String::with_capacity(alloc, ROOM)?;
    text.push_str("Generating")?;
    for path in paths {
        push_spaced(&mut text, path)?;
    }
    Ok(text)
}

impl<'a> CustomParts<'a> {
    /// Returns the edge.
    pub fn edge(&self) -> LentEdge<'_>
        ensures { lent_view result ≡ custom_parts_edge self.now }
    {
        LentEdge {
            rule: self.rule,
            outputs: self.outputs,
            inputs: &self.inputs,
            implicit: &self.needs,
            order_only: &[],
            words: self.words,
            redirect: self.redirect,
            description: &self.description,
            depfile: lend_text(&self.depfile),
        }
    }
}

/// Returns the parts of the edge that runs the command of a custom target with these outputs.
pub fn custom_parts<'a>(
    alloc: Global,
    depth: usize,
    target: &'a CustomTarget,
    outputs: &'a [String],
) -> Result<CustomParts<'a>, AllocError>
    requires { texts outputs.now ≡ output_paths (custom_view target.now) }
    ensures { IfOk result (λ p. custom_parts_edge p ≡ custom_edge depth (custom_view target.now)) }
{
    Ok(CustomParts {
        rule: custom_rule(&target.depfile),
        outputs,
        inputs: source_paths(alloc, depth, &target.inputs)?,
        needs: source_paths(alloc, depth, &target.needs)?,
        words: &target.words,
        redirect: redirect(target.captures, outputs),
        description: description(alloc, outputs)?,
        depfile: depfile_path(alloc, target)?,
    })
}
