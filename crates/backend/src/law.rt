//! States what `build.ninja` means.
ghost use Rattle.backend.specs.Means.{Means};

use build::project::{Project, edges_are_writable, needs_are_made, no_circle, outputs_differ};
use ninja::file_law;

/// Proves that Ninja and a shell read `build.ninja` as what the project declares.
///
/// The Ninja manual reads the file as exactly the six rules, the project's edges, the edge `all` and the default `all`. A shell reads each
/// command as its edge's words and redirection. The following holds of all these edges, including `all`:
/// - No path is made twice. None makes `build.ninja`, the document or an output of `configure_file`.
/// - Each path that an edge needs is a file of the tree that was looked at, an output of `configure_file`, or an output of an earlier edge.
/// - `all` needs only outputs.
/// - No edge depends on itself.
pub fn meaning(project: &Project)
    ensures { Means project.now }
{
    file_law();
    edges_are_writable(project);
    outputs_differ(project);
    needs_are_made(project);
    no_circle(project);
}
