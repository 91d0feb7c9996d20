//! Reads the bytes of a definition file.
ghost use Rattle.std.specs.Prelude.{◌≡◌, ℕ, ◌≤◌, List, length, take, IfOk};
ghost use Rattle.ports.specs.Endings.{HasRoom, ending_of_result};
ghost use Rattle.ports.specs.Reading.{GivenWhole};
ghost use Rattle.ports.specs.Tree.{bytes_at, Asks, Stays};
ghost use Rattle.world.specs.DefinitionFiles.{line_at, refusal_of};
ghost use Rattle.world.specs.FileReading.{IsNoFault};
ghost use Rattle.world.specs.Gives.{Holds, failures_after};

use crate::stop::Stop;
use ports::{DeviceFault, Tree};
use std::alloc::Global;
use support::faults::Refusal;
use syntax::fault::FaultKind;

// Reads until the buffer is full or the file ends, and returns how many bytes it read.
fn fill<T: Tree>(tree: &mut T, path: &str, buffer: &mut [u8]) -> Result<usize, DeviceFault>
    requires { HasRoom (T.seen tree.old).failures }
    ensures within { IfOk result (λ n. n ≤ length buffer.old) }
    ensures bytes { (files : List (List ℕ × List ℕ)) → Holds (T.seen tree.old) files
        → length buffer.old ≡ length (bytes_at files path.now)
        → IfOk result (λ n. (n ≡ length buffer.old) × (buffer.new ≡ bytes_at files path.now)) }
    ensures given { IfOk result (λ n. GivenWhole T.gives path.now (length buffer.old) tree.old (take n buffer.new) tree.new) }
    ensures asks { Asks (T.seen tree.old) (ending_of_result result) (T.seen tree.new) }
{
    let mut at = 0;
    while at < buffer.len() {
        let count = tree.read_at(path, at as u64, &mut buffer[at..])?;
        if count == 0 {
            break;
        }
        at += count;
    }
    Ok(at)
}

/// Returns the first bytes of the file at this path, at most `size` of them. A shorter file is read as a whole.
pub fn read_file<T: Tree>(
    alloc: Global,
    tree: &mut T,
    path: &str,
    size: usize,
) -> Result<Vec<u8>, Stop>
    requires { HasRoom (T.seen tree.old).failures }
    ensures bytes { (files : List (List ℕ × List ℕ)) → Holds (T.seen tree.old) files → size ≡ length (bytes_at files path.now)
        → IfOk result (λ bytes. bytes.items ≡ bytes_at files path.now) }

    // For any tree, steady or not: these are just the bytes that the tree gave. No byte past `size` is requested, and an earlier end ends
    // the read.
    ensures given { IfOk result (λ bytes. GivenWhole T.gives path.now size tree.old bytes.items tree.new) }
    ensures within { IfOk result (λ bytes. length bytes.items ≤ size) }
    ensures no_fault { IsNoFault result }
    ensures stays { Stays (T.seen tree.old) (T.seen tree.new) }
    ensures failures { (T.seen tree.new).failures ≡ failures_after (T.seen tree.old).failures result }
{
    let mut buffer = vec![in alloc; 0; size]?;
    let count = fill(tree, path, &mut buffer)?;
    buffer.truncate(count);
    Ok(buffer)
}

/// Returns the line of the byte at an offset, from 1.
pub fn line_at(bytes: &[u8], at: usize) -> usize
    requires { at ≤ length bytes.now }
    ensures { result ≡ line_at bytes.now at }
{
    1 + bytes[..at].iter().filter(|b| b'\n' == **b).count()
}

/// Returns the refusal for a source that has no syntax tree.
pub fn refusal_of(kind: FaultKind) -> Refusal
    ensures { result ≡ refusal_of kind }
{
    match kind {
        FaultKind::Token => Refusal::Token,
        FaultKind::Grammar => Refusal::Grammar,
        FaultKind::Nesting => Refusal::Nesting,
    }
}
