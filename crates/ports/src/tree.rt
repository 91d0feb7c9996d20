//! Defines the interface of a tree of files.
ghost use Rattle.std.specs.Prelude.{◌≡◌, ℕ, ◌≤◌, List, Option, length, take, IsTrue, IfOk, ⊤};
ghost use Rattle.std.specs.Option.{option_map};
ghost use Rattle.ports.specs.Endings.{HasRoom, ending_of_result};
ghost use Rattle.ports.specs.Tree.{TreeState, file_at, bytes_at, Asks, Reads};

use crate::DeviceFault;

/// Gives a run the files that it reads, by their paths. A path has parts separated by `/`, none of them empty, `.` or `..`.
///
/// Contracts see a tree as its files, a finite map from paths to bytes, the count of its failures, and whether it is `steady`. While a tree
/// is steady, each call answers from the map, or with a device fault, and leaves the map unchanged. The clauses about bytes and sizes hold
/// for steady trees. The other clauses hold for every tree, even for one with arbitrary answers.
///
/// `tells_size` and `gives` record the answer of a call, also for a tree that is not steady. A function over any tree knows only what its
/// own calls recorded in them. So its contract can say which calls it made and what they gave (`GivenWhole`).
pub trait Tree {
    ghost seen: { Self → TreeState };

    // From the first state, a call of `size` for this path returned this size, and left the second state.
    ghost tells_size: { Self → List ℕ → Option ℕ → Self → Type 0 } = { λ _ _ _ _. ⊤ };

    // From the first state, a call of `read_at` for this path, from this position on and for at most this many bytes, gave these bytes, and
    // left the second state.
    ghost gives: { Self → List ℕ → ℕ → ℕ → List ℕ → Self → Type 0 } = { λ _ _ _ _ _ _. ⊤ };

    /// Returns how many calls have failed. A device fault adds one to the count, and nothing else changes it. Each call requires that the
    /// count is below the greatest `u64`.
    fn failures(&self) -> u64
        ensures { result ≡ (seen self.now).failures };

    /// Returns the size in bytes of the file at this path, or `None` if there is no file.
    fn size(&mut self, path: &str) -> Result<Option<u64>, DeviceFault>
        requires { HasRoom (seen self.old).failures }
        ensures size { IsTrue (seen self.old).steady
            → IfOk result (λ size. size ≡ option_map length (file_at (seen self.old).files path.now)) }
        ensures tells { IfOk result (λ size. tells_size self.old path.now size self.new) }
        ensures asks { Asks (seen self.old) (ending_of_result result) (seen self.new) };

    /// Reads bytes of the file at this path, from position `at` on, into the front of the buffer, and returns how many. It reads at least
    /// one byte if some are left and the buffer is not empty. An absent file has no bytes.
    fn read_at(&mut self, path: &str, at: u64, buf: &mut [u8]) -> Result<usize, DeviceFault>
        requires { HasRoom (seen self.old).failures }
        ensures within { IfOk result (λ n. n ≤ length buf.old) }
        ensures bytes { IsTrue (seen self.old).steady
            → IfOk result (λ n. Reads (bytes_at (seen self.old).files path.now) at (length buf.old) n buf.new) }
        ensures gives { IfOk result (λ n. gives self.old path.now at (length buf.old) (take n buf.new) self.new) }
        ensures asks { Asks (seen self.old) (ending_of_result result) (seen self.new) };
}
