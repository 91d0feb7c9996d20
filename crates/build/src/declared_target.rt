//! Holds a target as a project keeps it.
ghost use Rattle.std.specs.Prelude.{◌≡◌};
ghost use Rattle.build.specs.edge.Texts.{texts};
ghost use Rattle.build.specs.Files.{default_paths};
ghost use Rattle.build.specs.View.{target_view};

use crate::target::Target;

/// Holds a target and its paths, which are computed once.
pub struct DeclaredTarget {
    pub target: Target,
    /// The paths by which the edge `all` names the target: its outputs and the symbolic links.
    pub paths: Vec<String>,
    pub ghost paths_are: { texts paths.items ≡ default_paths (target_view target) },
}

impl Drop for DeclaredTarget {
    fn drop(self) {
        let DeclaredTarget {
            target: _,
            paths: _,
        } = self;
    }
}
