//! States laws of all calls. A law is the contract of a function that does nothing.
ghost use Rattle.language_calls.specs.RangeLaw.{RangeIsBelow};

/// Proves that `range` returns the start and all that steps from it reach below the stop, in order, and nothing else.
pub fn range_is_below()
    ensures { RangeIsBelow }
{}
