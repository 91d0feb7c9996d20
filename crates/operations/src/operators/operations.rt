//! Evaluates the operators, by the types of their operands.

ghost use Rattle.std.specs.Prelude.{◌≡◌, ◌≢◌, IfOk, false, option_map};
ghost use Rattle.values.specs.Data.{boolean as boolean_data};
ghost use Rattle.values.specs.declared.refusal.OperationRefusal.TheVariants as refusal;
ghost use Rattle.values.specs.Prelude.{Answers, data_of};
ghost use Rattle.operations.specs.operators.Operations.{answer, are_integers, binary_outcome, unary_answer, binary_answer};
ghost use Rattle.operations.specs.declared.operators.operator.Binary.TheVariants.{Add, Divide};

use crate::operators::arithmetic::{of_integers, opposite};
use crate::operators::lists::{append, append_all, merge};
use crate::operators::logic::negation;
use crate::operators::membership::{membership, non_membership};
use crate::operators::operator::{Binary, Unary};
use crate::operators::relations::{equality, inequality, order};
use crate::operators::text_sums::{concatenate, path_text};
use std::alloc::{AllocError, Global};
use std::cmp::Ordering;
use values::{Content, OperationRefusal, Value};

/// Returns the result of an operator with one operand, or E6 for a wrong type and E7 for an integer out of range. A disabler gives a
/// disabler.
pub fn unary(operator: Unary, operand: Value) -> Result<Value, OperationRefusal>
    ensures { Answers (unary_answer operator (data_of operand)) result }
{
    if operand.is_disabler() {
        return Ok(operand);
    }
    match operator {
        Unary::Not => negation(&operand),
        Unary::Negate => opposite(&operand),
    }
}

/// Returns the result of an operator with two operands: a disabler if one of them is a disabler, and otherwise by their types.
///
/// The refusal is E6 for types that the operator does not take. It is E7 for an integer out of range or a divisor of zero, and E22 for a
/// value past a limit. A list, dictionary or text that nobody else shares is extended in place.
#[inline(always)]
pub fn binary(
    alloc: Global,
    operator: Binary,
    left: Value,
    right: Value,
) -> Result<Result<Value, OperationRefusal>, AllocError>
    ensures { IfOk result (λ r. Answers (binary_answer operator (data_of left) (data_of right)) r) }
{
    if let (Value::Integer(x), Value::Integer(y)) = (&left, &right) {
        return Ok(of_integers(operator, *x, *y));
    }
    of_others(alloc, operator, left, right)
}

// Returns the result of an operator if one of its operands is not an integer.
fn of_others(
    alloc: Global,
    operator: Binary,
    left: Value,
    right: Value,
) -> Result<Result<Value, OperationRefusal>, AllocError>
    requires { are_integers (data_of left) (data_of right) ≡ false }
    ensures { IfOk result (λ r. Answers (binary_answer operator (data_of left) (data_of right)) r) }
{
    if left.is_disabler() {
        return Ok(Ok(left));
    }
    if right.is_disabler() {
        return Ok(Ok(right));
    }
    match operator {
        Binary::Add => sum(alloc, left, right),
        _ => examine(alloc, operator, &left, &right),
    }
}

// Returns the result of an operator other than `+` for two operands that are not disablers.
fn examine(
    alloc: Global,
    operator: Binary,
    left: &Value,
    right: &Value,
) -> Result<Result<Value, OperationRefusal>, AllocError>
    requires other { operator ≢ Add }
    requires few { are_integers (data_of left.now) (data_of right.now) ≡ false }
    ensures { IfOk result (λ r. Answers (binary_outcome operator (data_of left.now) (data_of right.now)) r) }
{
    match operator {
        Binary::Add => unreachable!(),
        Binary::Subtract | Binary::Multiply | Binary::Remainder => Ok(Err(OperationRefusal::Type)),
        Binary::Divide => quotient(alloc, left, right),
        Binary::Equal => Ok(boolean(equality(left, right))),
        Binary::NotEqual => Ok(boolean(inequality(left, right))),
        Binary::Less => Ok(boolean(order(left, right).map(Ordering::is_lt))),
        Binary::LessOrEqual => Ok(boolean(order(left, right).map(Ordering::is_le))),
        Binary::Greater => Ok(boolean(order(left, right).map(Ordering::is_gt))),
        Binary::GreaterOrEqual => Ok(boolean(order(left, right).map(Ordering::is_ge))),
        Binary::In => Ok(boolean(membership(left, right))),
        Binary::NotIn => Ok(boolean(non_membership(left, right))),
    }
}

// Returns the value of a test, and E6 if the operands have no such test.
fn boolean(test: Option<bool>) -> Result<Value, OperationRefusal>
    ensures { Answers (answer (option_map boolean_data test) refusal.Type) result }
{
    match test {
        Some(boolean) => Ok(Value::Boolean(boolean)),
        None => Err(OperationRefusal::Type),
    }
}

// Returns the result of `left + right`.
fn sum(
    alloc: Global,
    left: Value,
    right: Value,
) -> Result<Result<Value, OperationRefusal>, AllocError>
    requires { are_integers (data_of left) (data_of right) ≡ false }
    ensures { IfOk result (λ r. Answers (binary_outcome Add (data_of left) (data_of right)) r) }
{
    match left.into_content() {
        Content::Text(text) => match &right {
            Value::Text(other) => concatenate(alloc, text, other.as_str()),
            _ => Ok(Err(OperationRefusal::Type)),
        },
        Content::List(list) => match &right {
            Value::List(others) => append_all(alloc, list, others),
            _ => append(alloc, list, right),
        },
        Content::Dictionary(dictionary) => match &right {
            Value::Dictionary(others) => merge(alloc, dictionary, others),
            _ => Ok(Err(OperationRefusal::Type)),
        },
        Content::Other => Ok(Err(OperationRefusal::Type)),
    }
}

// Returns the result of `left / right`.
fn quotient(
    alloc: Global,
    left: &Value,
    right: &Value,
) -> Result<Result<Value, OperationRefusal>, AllocError>
    requires { are_integers (data_of left.now) (data_of right.now) ≡ false }
    ensures { IfOk result (λ r. Answers (binary_outcome Divide (data_of left.now) (data_of right.now)) r) }
{
    match (left, right) {
        (Value::Text(s), Value::Text(t)) => match path_text(alloc, s.as_str(), t.as_str())? {
            Ok(path) => Ok(Ok(Value::Text(path))),
            Err(refusal) => Ok(Err(refusal)),
        },
        _ => Ok(Err(OperationRefusal::Type)),
    }
}
