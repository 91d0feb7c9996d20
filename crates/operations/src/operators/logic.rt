//! Evaluates `and`, `or` and `not`.

ghost use Rattle.values.specs.Prelude.{Answers, data_of};
ghost use Rattle.operations.specs.operators.Operations.{unary_outcome};
ghost use Rattle.operations.specs.operators.Logic.{LeftAnswers, right_answer};
ghost use Rattle.operations.specs.declared.operators.operator.Unary.TheVariants.{Not};

use crate::operators::operator::Connective;
use values::{OperationRefusal, Value};

/// Says what the left side of `and` or `or` decides.
#[derive(Drop)]
pub enum Left {
    /// The value of the whole. The right side is skipped.
    Decides(Value),
    /// The right side decides.
    Open,
}

/// Returns the result of `not operand`.
pub fn negation(operand: &Value) -> Result<Value, OperationRefusal>
    ensures { Answers (unary_outcome Not (data_of operand.now)) result }
{
    match operand {
        Value::Boolean(boolean) => Ok(Value::Boolean(!*boolean)),
        _ => Err(OperationRefusal::Type),
    }
}

/// Returns whether the left side of `and` or `or` decides: `false and`, `true or` and a disabler do. Refuses any other value that is not a
/// boolean with E6.
pub fn left_side(connective: Connective, left: Value) -> Result<Left, OperationRefusal>
    ensures { LeftAnswers connective (data_of left) result }
{
    match (connective, &left) {
        (Connective::And, Value::Boolean(true)) => Ok(Left::Open),
        (Connective::Or, Value::Boolean(false)) => Ok(Left::Open),
        (_, Value::Boolean(_)) => Ok(Left::Decides(left)),
        _ => {
            if left.is_disabler() {
                Ok(Left::Decides(left))
            } else {
                Err(OperationRefusal::Type)
            }
        }
    }
}

/// Returns the value of `and` or `or` if the right side decides: a boolean or a disabler. Refuses any other value with E6.
pub fn right_side(right: Value) -> Result<Value, OperationRefusal>
    ensures { Answers (right_answer (data_of right)) result }
{
    match &right {
        Value::Boolean(boolean) => Ok(Value::Boolean(*boolean)),
        _ => {
            if right.is_disabler() {
                Ok(right)
            } else {
                Err(OperationRefusal::Type)
            }
        }
    }
}
