//! Translates refusals of operations on values.
ghost use Rattle.std.specs.Prelude.{◌≡◌};
ghost use Rattle.world.specs.Operation.{of_operation};

use support::faults::Refusal;

/// Returns the refusal of a run for that of an operation on values.
pub fn of_operation(refusal: values::OperationRefusal) -> Refusal
    ensures { result ≡ of_operation refusal }
{
    match refusal {
        values::OperationRefusal::Type => Refusal::Type,
        values::OperationRefusal::Range => Refusal::Range,
        values::OperationRefusal::UnknownMethod => Refusal::UnknownFunction,
        values::OperationRefusal::Arguments => Refusal::Arguments,
        values::OperationRefusal::Absent => Refusal::Absent,
        values::OperationRefusal::Duplicate => Refusal::Duplicate,
        values::OperationRefusal::Limit => Refusal::Limit,
    }
}
