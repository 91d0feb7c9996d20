//! Writes the blocks of edges.
ghost use Rattle.std.specs.Prelude.{◌≡◌, true, ℕ, List, ◌++◌, option_map};
ghost use Rattle.ports.specs.Endings.{ending_of_result};
ghost use Rattle.ports.specs.Outputs.{IsOpen, Writes, puts};
ghost use Rattle.build.specs.edge.Holding.{is_some_list, is_writable};
ghost use Rattle.build.specs.edge.Own.{lent_view, own_view, shared_view};
ghost use Rattle.build.specs.edge.Parts.{edge_of_parts};
ghost use Rattle.build.specs.edge.Texts.{texts};
ghost use Rattle.ninja.specs.Escapes.{value_text};
ghost use Rattle.ninja.specs.Words.{words_text};
ghost use Rattle.ninja.specs.Writing.{edge_text, rule_text};
ghost use Rattle.ninja.specs.Reading.{Manifest, reads_from};
ghost use Rattle.ninja.specs.Meaning.{RunsWords, after_reading, edge_seen, six_rules, with_edge};
ghost use Rattle.ninja.specs.Steps.{bindings_steps, build_steps, end_steps, own_bindings_steps, own_build_steps, paths_steps};
ghost use Rattle.ninja.specs.Steps.{shared_steps, signed_paths_steps, spaced_path_steps};

use crate::escapes::{write_path, write_value};
use crate::words::{write_last_words, write_words};
use build::edge::{EdgeRule, LentEdge, OwnParts, SharedParts};
use ports::{DeviceFault, Outputs, put_all};

fn rule_name(rule: EdgeRule) -> &'static [u8]
    ensures { result.now ≡ rule_text rule }
{
    match rule {
        EdgeRule::CCompile => b"c_compile",
        EdgeRule::Ar => b"ar",
        EdgeRule::CLink => b"c_link",
        EdgeRule::Symlink => b"symlink",
        EdgeRule::Custom => b"custom",
        EdgeRule::CustomDep => b"custom_dep",
    }
}

#[tactic(auto, using(ports::proofs::Sending::writing))]
fn write_spaced_path<O: Outputs>(path: &str, out: &mut O) -> Result<(), DeviceFault>
    requires { IsOpen (O.seen out.old) }
    ensures { Writes (O.seen out.old) (spaced_path_steps path.now) (ending_of_result result) (O.seen out.new) }
{
    put_all(out, b" ")?;
    write_path(path, out)
}

/// Writes paths, each after a space.
#[tactic(auto, using(ports::proofs::Sending::writing))]
pub fn write_paths<O: Outputs>(paths: &[String], out: &mut O) -> Result<(), DeviceFault>
    requires { IsOpen (O.seen out.old) }
    ensures { Writes (O.seen out.old) (paths_steps paths.now) (ending_of_result result) (O.seen out.new) }
{
    for path in paths {
        write_spaced_path(path, out)?;
    }
    Ok(())
}

// Writes the paths after a sign, if there are any.
#[tactic(auto, using(ports::proofs::Sending::writing))]
fn write_signed_paths<O: Outputs>(
    sign: &[u8],
    paths: &[String],
    out: &mut O,
) -> Result<(), DeviceFault>
    requires { IsOpen (O.seen out.old) }
    ensures { Writes (O.seen out.old) (signed_paths_steps sign.now paths.now) (ending_of_result result) (O.seen out.new) }
{
    match paths {
        [] => Ok(()),
        [_, ..] => {
            put_all(out, sign)?;
            write_paths(paths, out)
        }
    }
}

// Writes the line with the outputs, the rule and the needed paths, without its end.
#[tactic(auto, using(ports::proofs::Sending::writing))]
fn write_build<O: Outputs>(edge: &LentEdge, out: &mut O) -> Result<(), DeviceFault>
    requires { IsOpen (O.seen out.old) }
    ensures { Writes (O.seen out.old) (build_steps edge.now) (ending_of_result result) (O.seen out.new) }
{
    put_all(out, b"build")?;
    write_paths(edge.outputs, out)?;
    put_all(out, b": ")?;
    put_all(out, rule_name(edge.rule))?;
    write_paths(edge.inputs, out)?;
    write_signed_paths(b" |", edge.implicit, out)?;
    write_signed_paths(b" ||", edge.order_only, out)
}

#[tactic(auto, using(ports::proofs::Sending::writing))]
fn write_end<O: Outputs>(depfile: Option<&str>, out: &mut O) -> Result<(), DeviceFault>
    requires { IsOpen (O.seen out.old) }
    ensures { Writes (O.seen out.old) (end_steps (option_map (λ d. d.now) depfile.entry)) (ending_of_result result) (O.seen out.new) }
{
    match depfile {
        None => put_all(out, b"\n"),
        Some(path) => {
            put_all(out, b" DEPFILE = ")?;
            write_value(path, out)?;
            put_all(out, b"\n\n")
        }
    }
}

fn write_command<O: Outputs>(edge: &LentEdge, out: &mut O) -> Result<(), DeviceFault>
    requires { IsOpen (O.seen out.old) }
    ensures { let e = lent_view edge.now in
        Writes (O.seen out.old) (puts (value_text (words_text e.words e.redirect))) (ending_of_result result) (O.seen out.new) }
{
    write_words(edge.words, edge.redirect, out)
}

// Writes the lines that belong to the edge, after the end of its own.
#[tactic(auto, using(ports::proofs::Sending::writing))]
fn write_bindings<O: Outputs>(edge: &LentEdge, out: &mut O) -> Result<(), DeviceFault>
    requires { IsOpen (O.seen out.old) }
    ensures { Writes (O.seen out.old) (bindings_steps edge.now) (ending_of_result result) (O.seen out.new) }
{
    put_all(out, b"\n COMMAND = ")?;
    write_command(edge, out)?;
    put_all(out, b"\n DESC = ")?;
    write_value(edge.description, out)?;
    put_all(out, b"\n")?;
    write_end(edge.depfile, out)
}

#[tactic(auto, using(ports::proofs::Sending::writing))]
fn write_block<O: Outputs>(edge: &LentEdge, out: &mut O) -> Result<(), DeviceFault>
    requires { IsOpen (O.seen out.old) }
    ensures { Writes (O.seen out.old) (build_steps edge.now ++ bindings_steps edge.now) (ending_of_result result) (O.seen out.new) }
{
    write_build(edge, out)?;
    write_bindings(edge, out)
}

/// Writes the block of an edge.
///
/// The block has the line with its outputs, its rule and the paths that it needs. Then it has its command, its description, its depfile if
/// there is one, and an empty line (Ninja manual, “Ninja file reference”).
pub fn write_edge<O: Outputs>(edge: &LentEdge, out: &mut O) -> Result<(), DeviceFault>
    requires { IsOpen (O.seen out.old) }
    ensures text { Writes (O.seen out.old) (puts (edge_text (lent_view edge.now))) (ending_of_result result) (O.seen out.new) }
    // A reader reads the text as the edge, whatever comes before and after it.
    ensures read { is_writable (lent_view edge.now) ≡ true → (m : Manifest) (rest : List ℕ)
        → reads_from (after_reading m) (edge_text (lent_view edge.now) ++ rest)
        ≡ reads_from (after_reading (with_edge m (edge_seen (lent_view edge.now)))) rest }
    // Under the six rules, the edge's command is its words.
    ensures runs { is_writable (lent_view edge.now) ≡ true → (m : Manifest) → m.rules ≡ six_rules → RunsWords m (lent_view edge.now) }
{
    write_block(edge, out)
}

// ---- edges that share parts

#[tactic(auto, using(ports::proofs::Sending::writing))]
fn write_own_build<O: Outputs>(
    shared: &SharedParts,
    own: &OwnParts,
    out: &mut O,
) -> Result<(), DeviceFault>
    requires { IsOpen (O.seen out.old) }
    ensures { Writes (O.seen out.old) (own_build_steps shared.now own.now) (ending_of_result result) (O.seen out.new) }
{
    put_all(out, b"build")?;
    write_spaced_path(own.output, out)?;
    put_all(out, b": ")?;
    put_all(out, rule_name(shared.rule))?;
    write_spaced_path(own.input, out)
}

#[tactic(auto, using(ports::proofs::Sending::writing))]
fn write_shared<O: Outputs>(shared: &SharedParts, out: &mut O) -> Result<(), DeviceFault>
    requires { IsOpen (O.seen out.old) }
    ensures { Writes (O.seen out.old) (shared_steps shared.now) (ending_of_result result) (O.seen out.new) }
{
    write_signed_paths(b" ||", shared.order_only, out)?;
    put_all(out, b"\n COMMAND = ")?;
    write_words(shared.words, None, out)
}

#[tactic(auto, using(ports::proofs::Sending::writing))]
fn write_own_bindings<O: Outputs>(own: &OwnParts, out: &mut O) -> Result<(), DeviceFault>
    requires { IsOpen (O.seen out.old) }
    ensures { Writes (O.seen out.old) (own_bindings_steps own.now) (ending_of_result result) (O.seen out.new) }
{
    write_last_words(own.words, out)?;
    put_all(out, b"\n DESC = ")?;
    write_value(own.description, out)?;
    put_all(out, b"\n DEPFILE = ")?;
    write_value(own.depfile, out)?;
    put_all(out, b"\n\n")
}

#[tactic(auto, using(ports::proofs::Sending::writing))]
fn write_joined_block<O: Outputs>(
    shared: &SharedParts,
    own: &OwnParts,
    out: &mut O,
) -> Result<(), DeviceFault>
    requires { IsOpen (O.seen out.old) }
    ensures { Writes (O.seen out.old)
        (own_build_steps shared.now own.now ++ (shared_steps shared.now ++ own_bindings_steps own.now)) (ending_of_result result)
        (O.seen out.new) }
{
    write_own_build(shared, own, out)?;
    write_shared(shared, out)?;
    write_own_bindings(own, out)
}

/// Writes the block of an edge that shares its rule, its order-only paths and the first words of its command with others. There must be a
/// first word. The edge itself is not made.
pub fn write_joined<O: Outputs>(
    shared: &SharedParts,
    own: &OwnParts,
    out: &mut O,
) -> Result<(), DeviceFault>
    requires open { IsOpen (O.seen out.old) }
    requires first { is_some_list (texts shared.now.words.now) ≡ true }
    ensures { Writes (O.seen out.old) (puts (edge_text (edge_of_parts (shared_view shared.now) (own_view own.now))))
        (ending_of_result result)
        (O.seen out.new) }
{
    write_joined_block(shared, own, out)
}
