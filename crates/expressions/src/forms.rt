//! Evaluates forms of expressions, given the values of their parts.
ghost use Rattle.std.specs.Prelude.{◌≡◌, ℕ, option_map};
ghost use Rattle.operations.specs.operators.Literal.{pairs_of};
ghost use Rattle.world.specs.Prelude.{Refuses, data_of, failures_after, items_of};
ghost use Rattle.expressions.specs.Details.{key_twice};
ghost use Rattle.expressions.specs.Forms.{list_value, dictionary_value, part_at, prefix_value};

use crate::context::Context;
use crate::details::key_twice;
use crate::meaning::unary_of;
use operations::operators::{LiteralRefusal, dictionary, index, list, unary};
use ports::{Outputs, Tree};
use std::sync::ledger::Ledger;
use support::faults::Refusal;
use syntax::tree::Prefix;
use values::Value;
use world::{Stop, of_operation};

impl<'a, T: Tree, O: Outputs, L: Ledger> Context<'a, T, O, L> {
    ghost use Rattle.expressions.specs.Contexts.{Answers, fault_on};

    /// Returns the value of `[first, second]`.
    pub fn list(&self, line: usize, values: Vec<Value>) -> Result<Value, Stop>
        ensures gives { Answers T.seen O.seen data_of (list_value line (items_of values.items)) self.now result self.now }
        ensures quiet { (n : ℕ) → failures_after n result ≡ n }
    {
        let answer = list(self.alloc, values)?;
        self.answer(line, answer)
    }

    // Refuses a key of a dictionary that occurs twice.
    fn refuse_key(&self, line: usize, key: &str) -> Result<Value, Stop>
        ensures { Refuses (fault_on self.now line Refusal.Duplicate (key_twice key.now)) result }
    {
        let detail = key_twice(self.alloc, key)?;
        self.refuse(line, Refusal::Duplicate, detail.as_str())
    }

    /// Returns the value of `{key : value, key : value}`.
    pub fn pair(&self, line: usize, pairs: Vec<(Value, Value)>) -> Result<Value, Stop>
        ensures gives { Answers T.seen O.seen data_of (dictionary_value line (pairs_of pairs.items)) self.now result self.now }
        ensures quiet { (n : ℕ) → failures_after n result ≡ n }
    {
        match dictionary(self.alloc, pairs)? {
            Ok(value) => Ok(value),
            Err(LiteralRefusal::Twice(key)) => self.refuse_key(line, key.as_str()),
            Err(LiteralRefusal::Refused(refusal)) => {
                self.refuse(line, of_operation(refusal), "")
            }
        }
    }

    /// Returns the value of `not value` or `-value`.
    pub fn prefix(&self, line: usize, prefix: Prefix, value: Value) -> Result<Value, Stop>
        ensures gives { Answers T.seen O.seen data_of (prefix_value line prefix (data_of value)) self.now result self.now }
        ensures quiet { (n : ℕ) → failures_after n result ≡ n }
    {
        let answer = unary(unary_of(prefix), value);
        self.answer(line, answer)
    }

    /// Returns the value of `whole[at]`.
    pub fn part_at(&self, line: usize, whole: &Value, at: &Value) -> Result<Option<Value>, Stop>
        ensures gives { Answers T.seen O.seen (option_map data_of) (part_at line (data_of whole.now) (data_of at.now))
            self.now result self.now }
        ensures quiet { (n : ℕ) → failures_after n result ≡ n }
    {
        let answer = index(self.alloc, whole, at)?;
        Ok(Some(self.answer(line, answer)?))
    }
}
