//! Lists the reasons why an operation returns no value.

use thiserror::Error;

/// Says why an operation on values is refused.
#[derive(Clone, Copy, Debug, Error)]
pub enum OperationRefusal {
    /// E6: there is no such operator for values of these types.
    #[error("E6 type in operator or condition")]
    Type,
    /// E7: an integer is out of range, or a divisor is zero.
    #[error("E7 number range or zero divisor")]
    Range,
    /// E8: there is no method with this name.
    #[error("E8 unknown function or method")]
    UnknownMethod,
    /// E9: the arguments have a wrong count, type or value.
    #[error("E9 arguments")]
    Arguments,
    /// E10: there is no item at this index, or no value for this key.
    #[error("E10 index or key")]
    Absent,
    /// E11: a key occurs twice.
    #[error("E11 duplicate")]
    Duplicate,
    /// E22: the result is past a limit.
    #[error("E22 limit")]
    Limit,
}
