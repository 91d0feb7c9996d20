//! Looks at the path of a definition file.
ghost use Rattle.std.specs.Prelude.{◌≡◌, ℕ, List, nat_le, length, IfOk};
ghost use Rattle.ports.specs.Endings.{HasRoom as HasRoomOf};
ghost use Rattle.ports.specs.Tree.{bytes_at, Stays};
ghost use Rattle.world.specs.Caller.{Does, MayFail};
ghost use Rattle.world.specs.DefinitionFiles.{most_bytes};
ghost use Rattle.world.specs.Finding.{find, found_by};
ghost use Rattle.world.specs.FindingView.{found_in};
ghost use Rattle.world.specs.FileReading.{IsNoFault};
ghost use Rattle.world.specs.Gives.{Holds, failures_after};

use crate::caller::Caller;
use crate::definition_files::contents::read_file;
use crate::stop::Stop;
use ports::{Outputs, Tree};
use std::alloc::Global;

/// States how many bytes a definition file may have.
pub const MOST_BYTES: u64 = support::limits::TEXT_BYTES as u64;

/// Says what is at the path of a definition file.
#[derive(Drop)]
pub enum Found {
    /// There is no file.
    Nothing,
    /// A file that is longer than a definition file may be.
    TooLong,
    /// All bytes of a file.
    Bytes(Vec<u8>),
}

// Returns the bytes of a file of this size, or `TooLong`.
fn content<T: Tree>(alloc: Global, tree: &mut T, path: &str, size: u64) -> Result<Found, Stop>
    requires { HasRoomOf (T.seen tree.old).failures }
    ensures found { (files : List (List ℕ × List ℕ)) → Holds (T.seen tree.old) files → size ≡ length (bytes_at files path.now)
        → IfOk result (λ f. found_in f ≡ found_by (nat_le size most_bytes) (bytes_at files path.now)) }
    ensures no_fault { IsNoFault result }
    ensures stays { Stays (T.seen tree.old) (T.seen tree.new) }
    ensures failures { (T.seen tree.new).failures ≡ failures_after (T.seen tree.old).failures result }
{
    if size > MOST_BYTES {
        return Ok(Found::TooLong);
    }
    let bytes = read_file(alloc, tree, path, size as usize)?;
    Ok(Found::Bytes(bytes))
}

/// Looks at the path of a definition file, which counts as looked at. No more bytes are read than a definition file may have.
pub fn find<T: Tree, O: Outputs>(caller: &mut Caller<'_, T, O>, path: &str) -> Result<Found, Stop>
    requires { MayFail T.seen O.seen caller.old }
    ensures { Does T.seen O.seen found_in (find path.now) caller.old result caller.new }
{
    let size = caller.tree.size(path)?;
    caller.store.note_look(caller.alloc, path, size.is_some())?;
    match size {
        Some(size) => content(caller.alloc, caller.tree, path, size),
        None => Ok(Found::Nothing),
    }
}
