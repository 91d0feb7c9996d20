//! Defines the interface of outputs.
ghost use Rattle.std.specs.Prelude.{◌≡◌, ◌<◌, ◌≤◌, [], length, is_ok, IfOk, OnOk, if◌then◌else◌};
ghost use Rattle.ports.specs.Endings.{HasRoom, ending_of_result};
ghost use Rattle.ports.specs.Outputs.{OutputState, IsOpen, Took, puts, logs, faults, taken_bytes, opening_steps, closing_steps};

use crate::DeviceFault;

/// Takes what a run writes: outputs with names, of which at most one is open, a log, and fault lines.
///
/// Contracts see outputs as the list of the events that they took, the name of the open output, if any, the count of their failures, and
/// whether they tell. While outputs tell, each call appends what its result says: `Ok(n)` the first `n` bytes, a device fault nothing. The
/// clauses about events hold for outputs that tell, and no call ends that. The other clauses, such as those about the open name, hold for
/// all outputs.
pub trait Outputs {
    ghost seen: { Self → OutputState };

    /// Returns how many calls have failed. A device fault adds one to the count, and nothing else changes it. Each call requires that the
    /// count is below the greatest `u64`.
    fn failures(&self) -> u64
        ensures { result ≡ (seen self.now).failures };

    /// Opens the output of this name, in place of one that was open before.
    fn open(&mut self, name: &str) -> Result<(), DeviceFault>
        requires { HasRoom (seen self.old).failures }
        ensures took { Took (seen self.old) (if is_ok result then opening_steps name.now else []) (ending_of_result result)
            (seen self.new) }
        ensures is_open { OnOk result (IsOpen (seen self.new)) };

    /// Closes the open output. After a device fault it is still open.
    fn close(&mut self) -> Result<(), DeviceFault>
        requires { IsOpen (seen self.old) }
        ensures { Took (seen self.old) (if is_ok result then closing_steps else []) (ending_of_result result) (seen self.new) };

    /// Takes the first of these bytes into the open output, at least one if there are any, and returns how many.
    fn put(&mut self, bytes: &[u8]) -> Result<usize, DeviceFault>
        requires { IsOpen (seen self.old) }
        ensures within { IfOk result (λ n. n ≤ length bytes.now) }
        ensures some { IfOk result (λ n. 0 < length bytes.now → 0 < n) }
        ensures took { Took (seen self.old) (puts (taken_bytes bytes.now result)) (ending_of_result result) (seen self.new) };

    /// Takes the first of these bytes into the log, at least one if there are any, and says how many.
    fn log(&mut self, bytes: &[u8]) -> Result<usize, DeviceFault>
        requires { HasRoom (seen self.old).failures }
        ensures within { IfOk result (λ n. n ≤ length bytes.now) }
        ensures some { IfOk result (λ n. 0 < length bytes.now → 0 < n) }
        ensures took { Took (seen self.old) (logs (taken_bytes bytes.now result)) (ending_of_result result) (seen self.new) };

    /// Takes the first of these bytes of a fault's line, at least one if there are any, and says how many.
    fn fault(&mut self, bytes: &[u8]) -> Result<usize, DeviceFault>
        requires { HasRoom (seen self.old).failures }
        ensures within { IfOk result (λ n. n ≤ length bytes.now) }
        ensures some { IfOk result (λ n. 0 < length bytes.now → 0 < n) }
        ensures took { Took (seen self.old) (faults (taken_bytes bytes.now result)) (ending_of_result result) (seen self.new) };
}
