//! Chooses the branch of a condition: "If statements" of the page "Syntax".
ghost use Rattle.std.specs.Prelude.{◌≡◌, ℕ};
ghost use Rattle.values.specs.Data.{boolean_in, is_disabler};
ghost use Rattle.world.specs.Prelude.{data_of, failures_after};
ghost use Rattle.expressions.specs.Conditions.{choice_of};

use crate::context::Context;
use ports::{Outputs, Tree};
use std::sync::ledger::Ledger;
use support::faults::Refusal;
use values::Value;
use world::Stop;

/// Says what the value of a condition chooses.
#[derive(Clone, Copy)]
pub enum Choice {
    /// The statements of its own branch.
    Body,
    /// The branches after it.
    Others,
    /// Nothing of the whole `if`.
    Skip,
}

impl<'a, T: Tree, O: Outputs, L: Ledger> Context<'a, T, O, L> {
    ghost use Rattle.expressions.specs.Contexts.{Answers};

    /// Returns what the value of a condition chooses. A disabler skips the whole `if`. Refuses any other value that is not a boolean with
    /// E6.
    #[inline(always)]
    pub fn choose(&self, line: usize, value: &Value) -> Result<Choice, Stop>
        ensures gives { Answers T.seen O.seen (λ c. c) (choice_of line (boolean_in (data_of value.now)) (is_disabler (data_of value.now)))
            self.now result self.now }
        ensures quiet { (n : ℕ) → failures_after n result ≡ n }
    {
        match value.as_boolean() {
            Some(true) => Ok(Choice::Body),
            Some(false) => Ok(Choice::Others),
            None => {
                if value.is_disabler() {
                    Ok(Choice::Skip)
                } else {
                    self.refuse(line, Refusal::Type, "")
                }
            }
        }
    }
}
