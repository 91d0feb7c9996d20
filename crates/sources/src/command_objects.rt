//! Finds objects that may be in a command.
ghost use Rattle.std.specs.Prelude.{◌≡◌, option_map};
ghost use Rattle.build.specs.DeclaredTargetViews.{declared_target_views};
ghost use Rattle.sources.specs.Things.{thing_of};
ghost use Rattle.sources.specs.ThingsView.{thing_view};

use crate::outputs::{output_at, outputs_at};
use build::{BuildTarget, DeclaredTarget, build_target_at};
use values::{Object, Program};

/// Holds a thing that may be in a command: a program, a file, a target or outputs of one.
#[derive(Clone, Copy)]
pub enum Thing<'t> {
    Program(&'t Program),
    /// A file in the source directory, or one that is built, by its path.
    File { path: &'t str, is_built: bool },
    /// An executable or a library.
    Target(&'t BuildTarget),
    /// All outputs of a custom target, by their paths.
    Outputs(&'t [String]),
    /// One output of a custom target, by its path.
    Output(&'t str),
}

/// Returns the thing that an object refers to, given the targets so far. Returns `None` if the object has another type, or if no target has
/// its number.
pub fn thing_of<'t>(earlier: &'t [DeclaredTarget], object: &'t Object) -> Option<Thing<'t>>
    ensures { option_map thing_view result ≡ thing_of (declared_target_views earlier.now) object.now }
{
    match object {
        Object::Program(program) => Some(Thing::Program(program)),
        Object::File { path, is_built } => Some(Thing::File {
            path: path.as_str(),
            is_built: *is_built,
        }),
        Object::BuildTarget(number) => Some(Thing::Target(build_target_at(earlier, *number)?)),
        Object::CustomTarget { number, .. } => Some(Thing::Outputs(outputs_at(earlier, *number)?)),
        Object::CustomOutput { target, output } => {
            Some(Thing::Output(output_at(earlier, *target, *output)?))
        }
        _ => None,
    }
}
