//! Writes the head and the tail of the file.
ghost use Rattle.std.specs.Prelude.{◌≡◌};
ghost use Rattle.std.specs.List.{flat_map};
ghost use Rattle.ports.specs.Endings.{ending_of_result};
ghost use Rattle.ports.specs.Outputs.{IsOpen, Writes, puts};
ghost use Rattle.build.specs.View.{target_view};
ghost use Rattle.ninja.specs.Defaults.{default_outputs, is_default};
ghost use Rattle.ninja.specs.Steps.{paths_steps};
ghost use Rattle.ninja.specs.Tail.{all_steps, default_steps};
ghost use Rattle.ninja.specs.Writing.{head_text, tail_text};

use crate::edges::write_paths;
use build::project::Project;
use build::{DeclaredTarget, Target};
use ports::{DeviceFault, Outputs, put_all};

const HEAD: &[u8] = b"ninja_required_version = 1.3

rule c_compile
 command = $COMMAND
 description = $DESC
 depfile = $DEPFILE
 deps = gcc

rule ar
 command = $COMMAND
 description = $DESC

rule c_link
 command = $COMMAND
 description = $DESC

rule symlink
 command = $COMMAND
 description = $DESC

rule custom
 command = $COMMAND
 description = $DESC

rule custom_dep
 command = $COMMAND
 description = $DESC
 depfile = $DEPFILE

";

/// Writes the text before the edges: the version of Ninja that the file needs, and the six rules.
pub fn write_head<O: Outputs>(out: &mut O) -> Result<(), DeviceFault>
    requires { IsOpen (O.seen out.old) }
    ensures { Writes (O.seen out.old) (puts head_text) (ending_of_result result) (O.seen out.new) }
{
    put_all(out, HEAD)
}

fn is_default(target: &Target) -> bool
    ensures { result ≡ is_default (target_view target.now) }
{
    match target {
        Target::Build(target) => target.is_default,
        Target::Custom(target) => target.is_default,
    }
}

// Writes the paths by which `all` names a target.
#[tactic(auto, using(ports::proofs::Sending::writing))]
fn write_default<O: Outputs>(linked: &DeclaredTarget, out: &mut O) -> Result<(), DeviceFault>
    requires { IsOpen (O.seen out.old) }
    ensures { Writes (O.seen out.old) (default_steps linked.now) (ending_of_result result) (O.seen out.new) }
{
    if is_default(&linked.target) {
        write_paths(&linked.paths, out)
    } else {
        Ok(())
    }
}

#[tactic(auto, using(ports::proofs::Sending::writing))]
fn write_defaults<O: Outputs>(targets: &[DeclaredTarget], out: &mut O) -> Result<(), DeviceFault>
    requires { IsOpen (O.seen out.old) }
    ensures { Writes (O.seen out.old) (flat_map default_steps targets.now) (ending_of_result result) (O.seen out.new) }
{
    for linked in targets {
        write_default(linked, out)?;
    }
    Ok(())
}

#[tactic(auto, using(ports::proofs::Sending::writing))]
fn write_all<O: Outputs>(targets: &[DeclaredTarget], out: &mut O) -> Result<(), DeviceFault>
    requires { IsOpen (O.seen out.old) }
    ensures { Writes (O.seen out.old) (all_steps targets.now) (ending_of_result result) (O.seen out.new) }
{
    put_all(out, b"build all: phony")?;
    write_defaults(targets, out)?;
    put_all(out, b"\n\ndefault all\n")
}

/// Writes the text after the edges: the edge `all`, which makes everything that is built by default, and the `default` statement that names
/// it.
pub fn write_tail<O: Outputs>(project: &Project, out: &mut O) -> Result<(), DeviceFault>
    requires { IsOpen (O.seen out.old) }
    ensures { Writes (O.seen out.old) (puts (tail_text (default_outputs project.now))) (ending_of_result result) (O.seen out.new) }
{
    write_all(project.targets(), out)
}
