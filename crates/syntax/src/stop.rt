//! Says why reading tokens stops.

ghost use Rattle.std.specs.Prelude.{◌≡◌};
ghost use Rattle.syntax.specs.declared.stop.ReadError.TheVariants.{Memory};

use std::alloc::{AllocError, AllocFailed};

/// Says why no file continues, with the number of tokens that are left.
#[derive(Clone, Copy)]
pub enum ParseStop {
    Unexpected(usize),
    TooDeep(usize),
}

/// Reports a stop, or that memory ran out.
#[derive(Clone, Copy)]
pub enum ReadError {
    Memory,
    Stop(ParseStop),
}

impl From<AllocError> for ReadError {
    ghost from_gives = { λ _ e. e ≡ Memory };

    fn from(_: AllocError) -> Self {
        ReadError::Memory
    }
}

impl<T: Drop> From<AllocFailed<T>> for ReadError {
    ghost from_gives = { λ _ e. e ≡ Memory };

    fn from(_: AllocFailed<T>) -> Self {
        ReadError::Memory
    }
}
