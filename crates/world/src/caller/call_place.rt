//! Describes the place of a call.
ghost use Rattle.std.specs.Prelude.{◌≡◌};
ghost use Rattle.world.specs.Here.{here_of};
ghost use Rattle.world.specs.HereView.{here_view};

use crate::caller::Caller;
use build::DeclaredTarget;
use ports::{Outputs, Tree};
use std::alloc::Global;

/// Holds the place of a call: the roots, the present folder and the targets so far.
#[derive(Clone, Copy)]
pub struct Here<'a> {
    pub alloc: Global,
    /// An absolute path, like `build_root`.
    pub source_root: &'a str,
    pub build_root: &'a str,
    /// How many levels the build directory is below the source root.
    pub depth: usize,
    /// The folder of the definition file, `""` for the root.
    pub folder: &'a str,
    /// The targets declared before the call.
    pub earlier: &'a [DeclaredTarget],
}

impl<'a, T: Tree, O: Outputs> Caller<'a, T, O> {
    ghost use Rattle.world.specs.Caller.{state_of};

    /// Returns the place of the call.
    pub fn here(&self) -> Here<'_>
        ensures { here_view result ≡ here_of (state_of T.seen O.seen self.now).world.facts }
    {
        Here {
            alloc: self.alloc,
            source_root: self.store.settings().source_root(),
            build_root: self.store.settings().build_root(),
            depth: self.store.settings().depth(),
            folder: self.store.folder(),
            earlier: self.store.project().targets(),
        }
    }
}
