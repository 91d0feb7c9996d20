//! Names folders of the source tree from the build directory.
ghost use Rattle.std.specs.Prelude.{◌≡◌, IfOk, string_bytes};
ghost use Rattle.build.specs.edge.Folders.{build_folder, source_folder};

use crate::edge::seen_paths::{source_path, source_root};
use std::alloc::{AllocError, Global};

/// Returns a folder of the source tree as the build directory has it. The root's is `.`.
pub fn build_folder(folder: &str) -> &str
    ensures { result.now ≡ build_folder folder.now }
{
    if folder.is_empty() { "." } else { folder }
}

/// Returns a folder of the source tree, seen from the build directory, which is `depth` folders below the source root, at least one.
pub fn source_folder(alloc: Global, depth: usize, folder: &str) -> Result<String, AllocError>
    ensures { IfOk result (λ s. string_bytes s ≡ source_folder depth folder.now) }
{
    if folder.is_empty() {
        source_root(alloc, depth)
    } else {
        source_path(alloc, depth, folder)
    }
}
