//! Translates the operators of a chain.
ghost use Rattle.std.specs.Prelude.{◌≡◌};
ghost use Rattle.expressions.specs.Forms.{meaning_of, unary_of};

use operations::operators::{Binary, Connective, Unary};
use syntax::tree::{Operator, Prefix};

/// Says what an operator between two values does.
#[derive(Clone, Copy)]
pub enum InfixOperator {
    /// Both values are evaluated.
    Combines(Binary),
    /// The left value may decide alone.
    Connects(Connective),
}

/// Returns what an operator in a chain does.
pub fn meaning_of(operator: Operator) -> InfixOperator
    ensures { result ≡ meaning_of operator }
{
    match operator {
        Operator::Or => InfixOperator::Connects(Connective::Or),
        Operator::And => InfixOperator::Connects(Connective::And),
        Operator::Equal => InfixOperator::Combines(Binary::Equal),
        Operator::NotEqual => InfixOperator::Combines(Binary::NotEqual),
        Operator::Less => InfixOperator::Combines(Binary::Less),
        Operator::LessOrEqual => InfixOperator::Combines(Binary::LessOrEqual),
        Operator::Greater => InfixOperator::Combines(Binary::Greater),
        Operator::GreaterOrEqual => InfixOperator::Combines(Binary::GreaterOrEqual),
        Operator::In => InfixOperator::Combines(Binary::In),
        Operator::NotIn => InfixOperator::Combines(Binary::NotIn),
        Operator::Add => InfixOperator::Combines(Binary::Add),
        Operator::Subtract => InfixOperator::Combines(Binary::Subtract),
        Operator::Multiply => InfixOperator::Combines(Binary::Multiply),
        Operator::Divide => InfixOperator::Combines(Binary::Divide),
        Operator::Remainder => InfixOperator::Combines(Binary::Remainder),
    }
}

/// Returns what a prefix operator does.
pub fn unary_of(prefix: Prefix) -> Unary
    ensures { result ≡ unary_of prefix }
{
    match prefix {
        Prefix::Not => Unary::Not,
        Prefix::Negative => Unary::Negate,
    }
}
