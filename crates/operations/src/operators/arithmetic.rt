//! Evaluates the operators of integers.

ghost use Rattle.std.specs.Prelude.{◌≡◌, ◌-ℤ◌, ◌*ℤ◌, IfSome, option_map};
ghost use Rattle.values.specs.Data.{integer as integer_data};
ghost use Rattle.values.specs.Prelude.{Answers, data_of};
ghost use Rattle.values.specs.declared.refusal.OperationRefusal.TheVariants as refusal;
ghost use Rattle.operations.specs.operators.Integers.{IsRest, quotient, remainder};
ghost use Rattle.operations.specs.operators.Operations.{answer, binary_outcome, unary_outcome};
ghost use Rattle.operations.specs.declared.operators.operator.Unary.TheVariants.{Negate};

use crate::operators::operator::Binary;
use values::{OperationRefusal, Value};

// Returns the value of a result in range, and E7 if there is none.
fn integer(result_in_range: Option<i128>) -> Result<Value, OperationRefusal>
    ensures { Answers (answer (option_map integer_data result_in_range) refusal.Range) result }
{
    match result_in_range {
        Some(integer) => Ok(Value::Integer(integer)),
        None => Err(OperationRefusal::Range),
    }
}

/// Returns the result of `-operand`.
pub fn opposite(operand: &Value) -> Result<Value, OperationRefusal>
    ensures { Answers (unary_outcome Negate (data_of operand.now)) result }
{
    match operand {
        Value::Integer(x) => integer(x.checked_neg()),
        _ => Err(OperationRefusal::Type),
    }
}

/// Returns the result of an operator for two integers. Refusals are E7 for a result out of range or a divisor of zero, and E6 for an
/// operator that integers do not have.
#[inline(always)]
pub fn of_integers(operator: Binary, x: i128, y: i128) -> Result<Value, OperationRefusal>
    ensures { Answers (binary_outcome operator (integer_data x) (integer_data y)) result }
{
    match operator {
        Binary::Add => integer(x.checked_add(y)),
        Binary::Subtract => integer(x.checked_sub(y)),
        Binary::Multiply => integer(x.checked_mul(y)),
        Binary::Divide => integer(integer_quotient(x, y)),
        Binary::Remainder => integer(integer_remainder(x, y)),
        Binary::Equal => Ok(Value::Boolean(x == y)),
        Binary::NotEqual => Ok(Value::Boolean(x != y)),
        Binary::Less => Ok(Value::Boolean(x < y)),
        Binary::LessOrEqual => Ok(Value::Boolean(x <= y)),
        Binary::Greater => Ok(Value::Boolean(x > y)),
        Binary::GreaterOrEqual => Ok(Value::Boolean(x >= y)),
        Binary::In | Binary::NotIn => Err(OperationRefusal::Type),
    }
}

// Returns the quotient rounded towards minus infinity, and `None` if the divisor is zero or the quotient is out of range.
fn integer_quotient(x: i128, y: i128) -> Option<i128>
    ensures value { result ≡ quotient x y }
    ensures rest { IfSome result (λ q. IsRest y (x -ℤ y *ℤ q)) }
{
    // The Euclidean remainder is never negative, so the quotient is one too large for some negative divisors.
    let quotient = x.checked_div_euclid(y)?;
    if y > 0 || x.rem_euclid(y) == 0 {
        return Some(quotient);
    }
    quotient.checked_sub(1)
}

// Returns the remainder, and `None` for a divisor of zero. It is in range even if the quotient is not.
fn integer_remainder(x: i128, y: i128) -> Option<i128>
    ensures { result ≡ remainder x y }
{
    if y == 0 {
        return None;
    }
    if y == -1 {
        return Some(0);
    }
    let rest = x.rem_euclid(y);
    if y > 0 || rest == 0 {
        return Some(rest);
    }
    Some(rest + y)
}
