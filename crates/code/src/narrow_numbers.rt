//! Converts numbers to 32 bits, to keep nodes small.
ghost use Rattle.std.specs.Prelude.{◌≡◌, IfOk};

use std::alloc::AllocError;

/// Returns the number of a line or a node in 32 bits. A larger one is reported as out of memory: such a file has more than four billion
/// lines or nodes.
pub fn narrow(number: usize) -> Result<u32, AllocError>
    ensures { IfOk result (λ n. n ≡ number) }
{
    match u32::try_from(number) {
        Ok(narrow) => Ok(narrow),
        Err(_) => Err(AllocError),
    }
}
