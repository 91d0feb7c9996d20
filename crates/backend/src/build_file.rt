//! Writes `build.ninja`, part by part.
ghost use Rattle.std.specs.Prelude.{◌≡◌, true, ◌++◌, codes, flat_map, string_bytes};
ghost use Rattle.ports.specs.Endings.{HasRoom, ending_of_result};
ghost use Rattle.ports.specs.Outputs.{IsOpen, Makes, Writes, puts};
ghost use Rattle.build.specs.edge.Holding.{is_some_list};
ghost use Rattle.build.specs.edge.Paths.{object_path};
ghost use Rattle.build.specs.edge.Texts.{texts};
ghost use Rattle.build.specs.edge.View.{edge_view};
ghost use Rattle.build.specs.Inputs.{input_view};
ghost use Rattle.build.specs.target_edges.Parts.{joined_edge};
ghost use Rattle.build.specs.target_edges.PartsView.{build_parts_edges, parts_edges};
ghost use Rattle.ninja.specs.Writing.{edge_text, edges_text};
ghost use Rattle.backend.specs.BuildFile.{build_steps, ending_of};
ghost use Rattle.backend.specs.Parts.{parts_steps, target_steps, targets_steps};

use crate::stop::WriteStop;
use build::Input;
use build::edge::{Edge, EdgeRule, SharedParts};
use build::project::{Project, edges_stand_in_order, parts};
use build::target_edges::{
    BuildParts, SourceTexts, TargetParts, last_words, own_parts, source_texts,
};
use ninja::{write_edge, write_head, write_joined, write_tail};
use ports::{DeviceFault, Outputs};
use std::alloc::Global;

// ---- the edges of a target

// Writes the edge that compiles an input. The edge is not made, because it shares most of its parts with the other compile edges of the
// target.
fn write_source<O: Outputs>(
    parts: &BuildParts,
    input: &Input,
    own: &SourceTexts,
    out: &mut O,
) -> Result<(), DeviceFault>
    requires object { string_bytes own.now.object ≡ object_path (string_bytes parts.now.file) (string_bytes input.now.name) }
    requires depfile { string_bytes own.now.depfile
        ≡ object_path (string_bytes parts.now.file) (string_bytes input.now.name) ++ codes ".d" }
    requires description { string_bytes own.now.description
        ≡ codes "Compiling C object " ++ object_path (string_bytes parts.now.file) (string_bytes input.now.name) }
    requires first { is_some_list (texts parts.now.words.items) ≡ true }
    requires out { IsOpen (O.seen out.old) }
    ensures { let p = parts.now in
        let edge = joined_edge (texts p.words.items) (texts p.generated.items) (string_bytes p.file) (input_view input.now) in
        Writes (O.seen out.old) (puts (edge_text edge)) (ending_of_result result) (O.seen out.new) }
{
    let words = last_words(own, &input.path);
    let shared = SharedParts {
        rule: EdgeRule::CCompile,
        order_only: &parts.generated,
        words: &parts.words,
    };
    write_joined(&shared, &own_parts(own, &input.path, &words), out)
}

fn write_compile<O: Outputs>(
    alloc: Global,
    parts: &BuildParts,
    input: &Input,
    out: &mut O,
) -> Result<(), WriteStop>
    requires first { is_some_list (texts parts.now.words.items) ≡ true }
    requires out { IsOpen (O.seen out.old) }
    ensures { let p = parts.now in
        let edge = joined_edge (texts p.words.items) (texts p.generated.items) (string_bytes p.file) (input_view input.now) in
        Writes (O.seen out.old) (puts (edge_text edge)) (ending_of result) (O.seen out.new) }
{
    let own = source_texts(alloc, &parts.file, input)?;
    write_source(parts, input, &own, out)?;
    Ok(())
}

#[tactic(auto, using(ports::proofs::Sending::sending))]
fn write_compiles<O: Outputs>(
    alloc: Global,
    parts: &BuildParts,
    out: &mut O,
) -> Result<(), WriteStop>
    requires { IsOpen (O.seen out.old) }
    ensures { let p = parts.now in
        let edge = joined_edge (texts p.words.items) (texts p.generated.items) (string_bytes p.file) in
        let run = flat_map (λ i. puts (edge_text (edge (input_view i)))) p.inputs.items in
        Writes (O.seen out.old) run (ending_of result) (O.seen out.new) }
{
    for input in &parts.inputs {
        write_compile(alloc, parts, input, out)?;
    }
    Ok(())
}

fn write_made<O: Outputs>(edge: &Edge, out: &mut O) -> Result<(), DeviceFault>
    requires { IsOpen (O.seen out.old) }
    ensures { Writes (O.seen out.old) (puts (edge_text (edge_view edge.now))) (ending_of_result result) (O.seen out.new) }
{
    write_edge(&edge.lend(), out)
}

#[tactic(auto, using(ports::proofs::Sending::writing))]
fn write_edges<O: Outputs>(edges: &[Edge], out: &mut O) -> Result<(), DeviceFault>
    requires { IsOpen (O.seen out.old) }
    ensures { Writes (O.seen out.old) (flat_map (λ e. puts (edge_text (edge_view e))) edges.now) (ending_of_result result)
        (O.seen out.new) }
{
    for edge in edges {
        write_made(edge, out)?;
    }
    Ok(())
}

// Writes the edges of one build target.
#[tactic(auto, using(ports::proofs::Sending::sending))]
fn write_build<O: Outputs>(alloc: Global, parts: &BuildParts, out: &mut O) -> Result<(), WriteStop>
    requires { IsOpen (O.seen out.old) }
    ensures { Writes (O.seen out.old) (puts (edges_text (build_parts_edges parts.now))) (ending_of result) (O.seen out.new) }
{
    write_compiles(alloc, parts, out)?;
    write_edges(&parts.rest, out)?;
    Ok(())
}

fn write_parts_of<O: Outputs>(
    alloc: Global,
    parts: &TargetParts,
    out: &mut O,
) -> Result<(), WriteStop>
    requires { IsOpen (O.seen out.old) }
    ensures { Writes (O.seen out.old) (puts (edges_text (parts_edges parts.now))) (ending_of result) (O.seen out.new) }
{
    match parts {
        TargetParts::Build(parts) => write_build(alloc, parts, out),
        TargetParts::Custom(parts) => {
            write_edge(&parts.edge(), out)?;
            Ok(())
        }
    }
}

// Writes the edges of one target. Only the parts of this target are in memory.
#[tactic(auto, using(ports::proofs::Sending::sending))]
fn write_target<O: Outputs>(
    alloc: Global,
    project: &Project,
    number: usize,
    out: &mut O,
) -> Result<(), WriteStop>
    requires { IsOpen (O.seen out.old) }
    ensures { Writes (O.seen out.old) (target_steps project.now number) (ending_of result) (O.seen out.new) }
{
    let parts = parts(project, number)?;
    write_parts_of(alloc, &parts, out)
}

// ---- the file

#[tactic(auto, using(ports::proofs::Sending::sending))]
fn write_targets<O: Outputs>(alloc: Global, project: &Project, out: &mut O) -> Result<(), WriteStop>
    requires { IsOpen (O.seen out.old) }
    ensures { Writes (O.seen out.old) (targets_steps project.now) (ending_of result) (O.seen out.new) }
{
    for number in 0..project.targets().len() {
        write_target(alloc, project, number, out)?;
    }
    Ok(())
}

#[tactic(auto, using(ports::proofs::Sending::sending))]
fn write_parts<O: Outputs>(alloc: Global, project: &Project, out: &mut O) -> Result<(), WriteStop>
    requires { HasRoom (O.seen out.old).failures }
    ensures { Makes (O.seen out.old) (parts_steps project.now) (ending_of result) (O.seen out.new) }
{
    out.open("build.ninja")?;
    write_head(out)?;
    write_targets(alloc, project, out)?;
    write_tail(project, out)?;
    out.close()?;
    Ok(())
}

/// Writes `build.ninja`: the head, the edges of each target in the order of their declaration, and the tail.
///
/// With [`WriteStop::Device`] one device failed, and with [`WriteStop::Memory`] none did. In both cases the outputs took a beginning.
pub fn write_build_file<O: Outputs>(
    alloc: Global,
    project: &Project,
    out: &mut O,
) -> Result<(), WriteStop>
    requires { HasRoom (O.seen out.old).failures }
    ensures { Makes (O.seen out.old) (build_steps project.now) (ending_of result) (O.seen out.new) }
{
    edges_stand_in_order(project);
    write_parts(alloc, project, out)
}
