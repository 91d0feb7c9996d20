//! Says how statements end.
ghost use Rattle.std.specs.Prelude.{◌≡◌};
ghost use Rattle.interp.specs.Blocks.{behind_loop, goes_round, is_next};

/// Says how a statement ends.
#[derive(Clone, Copy)]
pub enum Flow {
    /// The next statement follows.
    Next,
    /// The iteration of the loop is left.
    Continued,
    /// The loop is left.
    Broken,
    /// The file is left.
    Finished,
}

impl Flow {
    /// Returns whether the next statement follows.
    pub fn is_next(self) -> bool
        ensures { result ≡ is_next self }
    {
        match self {
            Flow::Next => true,
            Flow::Continued => false,
            Flow::Broken => false,
            Flow::Finished => false,
        }
    }

    /// Returns whether the loop continues after an iteration that ended in this way.
    pub fn goes_round(self) -> bool
        ensures { result ≡ goes_round self }
    {
        match self {
            Flow::Next => true,
            Flow::Continued => true,
            Flow::Broken => false,
            Flow::Finished => false,
        }
    }

    /// Returns how a loop ends after an iteration that left it.
    pub fn behind_loop(self) -> Flow
        ensures { result ≡ behind_loop self }
    {
        match self {
            Flow::Next => Flow::Next,
            Flow::Continued => Flow::Next,
            Flow::Broken => Flow::Next,
            Flow::Finished => Flow::Finished,
        }
    }
}
