//! Holds what came of a measure.

use crate::stop::Stop;
use std::time::{Duration, Instant};

/// Holds how many items were made or found, and how long the calls took.
#[derive(Clone, Copy)]
pub struct Measured {
    pub made: usize,
    pub taken: Duration,
}

impl Measured {
    /// Returns the measure of so many items, made by calls that began at `start` and end now.
    pub fn since(rt: &HostRuntime, start: Instant, made: usize) -> Result<Measured, Stop> {
        let taken = start.elapsed(rt)?;
        Ok(Measured { made, taken })
    }
}

/// Returns the number that a word spells.
pub fn count_of(word: &str) -> Result<usize, Stop> {
    match word.parse::<usize>() {
        Ok(count) => Ok(count),
        Err(_) => Err(Stop("the count is a number")),
    }
}
