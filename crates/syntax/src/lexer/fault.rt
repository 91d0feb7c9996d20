//! Says why a source has no tokens, or why its tokens have no tree.

ghost use Rattle.std.specs.Prelude.{◌≡◌};
ghost use Rattle.syntax.specs.declared.lexer.fault.SyntaxError.TheVariants.{Memory};

use std::alloc::{AllocError, AllocFailed};
use thiserror::Error;

/// Says what is wrong with a source.
#[derive(Clone, Copy, Debug, Error)]
pub enum FaultKind {
    /// E2: no token begins here.
    #[error("E2 token")]
    Token,
    /// E3: no file begins with the tokens up to this one.
    #[error("E3 grammar")]
    Grammar,
    /// E4: more than 64 levels would be open here.
    #[error("E4 nesting over 64")]
    Nesting,
}

/// Holds a fault and the line, from 1, of the token at which it is.
#[derive(Clone, Copy, Debug, Error)]
#[error("line {line}: {kind}")]
pub struct SyntaxFault {
    pub kind: FaultKind,
    pub line: usize,
}

/// Reports a fault of the source, or that memory ran out.
#[derive(Clone, Copy, Debug, Error)]
pub enum SyntaxError {
    #[error("out of memory")]
    Memory,
    #[error(transparent)]
    Fault(SyntaxFault),
}

impl From<AllocError> for SyntaxError {
    ghost from_gives = { λ _ e. e ≡ Memory };

    fn from(_: AllocError) -> Self {
        SyntaxError::Memory
    }
}

impl<T: Drop> From<AllocFailed<T>> for SyntaxError {
    ghost from_gives = { λ _ e. e ≡ Memory };

    fn from(_: AllocFailed<T>) -> Self {
        SyntaxError::Memory
    }
}
