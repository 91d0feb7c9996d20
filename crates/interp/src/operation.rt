//! Applies the operators of a chain.
ghost use Rattle.std.specs.Prelude.{◌≡◌, ℕ};
ghost use Rattle.operations.specs.operators.Logic.{left_answer};
ghost use Rattle.operations.specs.operators.Operations.{binary_answer};
ghost use Rattle.world.specs.Prelude.{data_of, failures_after};
ghost use Rattle.world.specs.Plan.{answer_at_line};
ghost use Rattle.interp.specs.Operations.{left_view};

use crate::evaluator::Evaluator;
use operations::operators::{Binary, Connective, Left, binary, left_side};
use ports::{Outputs, Tree};
use std::sync::ledger::Ledger;
use values::Value;
use world::{Stop, of_operation};

impl<'a, T: Tree, O: Outputs, L: Ledger> Evaluator<'a, T, O, L> {
    ghost use Rattle.expressions.specs.Contexts.{Answers};

    /// Returns what the left side of `and` or `or` decides.
    pub fn decide(&self, line: usize, connective: Connective, left: Value) -> Result<Left, Stop>
        ensures gives { Answers T.seen O.seen left_view (answer_at_line line (left_answer connective (data_of left)))
            self.now.context result self.now.context }
        ensures quiet { (n : ℕ) → failures_after n result ≡ n }
    {
        match left_side(connective, left) {
            Ok(left) => Ok(left),
            Err(refusal) => Ok(self.context.refuse(line, of_operation(refusal), "")?),
        }
    }

    /// Applies an operator to two values.
    pub fn combine(
        &self,
        line: usize,
        operator: Binary,
        left: Value,
        right: Value,
    ) -> Result<Value, Stop>
        ensures gives { Answers T.seen O.seen data_of (answer_at_line line (binary_answer operator (data_of left) (data_of right)))
            self.now.context result self.now.context }
        ensures quiet { (n : ℕ) → failures_after n result ≡ n }
    {
        let answer = binary(self.context.alloc, operator, left, right)?;
        self.context.answer(line, answer)
    }
}
