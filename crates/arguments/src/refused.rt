//! Defines refusals of arguments.
use support::faults::Refusal;
use thiserror::Error;

/// Holds a refusal of arguments, with its detail.
#[derive(Debug, Drop, Error)]
#[error("{refusal}{}{detail}", if .detail.is_empty() {""} else {": "})]
pub struct ArgumentError {
    pub refusal: Refusal,
    /// The message, which says what is wrong.
    pub detail: String,
}
