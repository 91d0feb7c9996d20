//! Defines why the program ends.

use std::alloc::{AllocError, AllocFailed};
use std::io;

/// Says why the program ends before its last measure, in the words that are shown.
#[derive(Clone, Copy, Debug)]
pub struct Stop(pub &'static str);

const OUT_OF_MEMORY: Stop = Stop("out of memory");

impl From<AllocError> for Stop {
    fn from(_error: AllocError) -> Stop {
        OUT_OF_MEMORY
    }
}

impl<T: Drop> From<AllocFailed<T>> for Stop {
    fn from(_error: AllocFailed<T>) -> Stop {
        OUT_OF_MEMORY
    }
}

impl From<io::Error> for Stop {
    fn from(_error: io::Error) -> Stop {
        Stop("a file, a stream or the clock failed")
    }
}
