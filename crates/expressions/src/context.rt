//! Defines what an evaluation works on, and its small steps.
ghost use Rattle.std.specs.Prelude.{◌≡◌, ◌<◌, ℕ, Result, None, option_map};
ghost use Rattle.values.specs.Data.{Data, is_disabler};
ghost use Rattle.values.specs.declared.refusal.OperationRefusal.{OperationRefusal as OperationRefusal};
ghost use Rattle.arguments.specs.Refused.{answer_data};
ghost use Rattle.world.specs.Prelude.{Answers as AnswersSo, Refuses, data_of, failures_after};
ghost use Rattle.world.specs.Plan.{answer_at_line};
ghost use Rattle.expressions.specs.Forms.{check_at_line, needed_value, disabled_ternary};

use arguments::ArgumentError;
use ports::{Outputs, Tree};
use std::alloc::Global;
use std::sync::ledger::Ledger;
use support::faults::Refusal;
use values::Value;
use world::{Steps, Stop, Store, of_operation};

/// Holds the context of an evaluation: the world, the devices, and the counter of rules.
#[derive(Drop)]
pub struct Context<'a, T, O, L: Ledger> {
    pub alloc: Global,
    pub store: &'a mut Store,
    pub tree: &'a mut T,
    pub out: &'a mut O,
    pub steps: &'a mut Steps<L>,
}

impl<'a, T: Tree, O: Outputs, L: Ledger> Context<'a, T, O, L> {
    ghost use Rattle.expressions.specs.Contexts.{Answers, fault_on};

    /// Returns a context over these references.
    pub fn new(
        alloc: Global,
        store: &'a mut Store,
        tree: &'a mut T,
        out: &'a mut O,
        steps: &'a mut Steps<L>,
    ) -> Self
        ensures store_name { result.store.ghost_name ≡ store.entry.ghost_name }
        ensures tree_name { result.tree.ghost_name ≡ tree.entry.ghost_name }
        ensures out_name { result.out.ghost_name ≡ out.entry.ghost_name }
        ensures steps_name { result.steps.ghost_name ≡ steps.entry.ghost_name }
        ensures store { result.store.now ≡ store.old }
        ensures tree { result.tree.now ≡ tree.old }
        ensures out { result.out.now ≡ out.old }
        ensures steps { result.steps.now ≡ steps.old }
    {
        Context {
            alloc,
            store,
            tree,
            out,
            steps,
        }
    }

    /// Refuses a line of the present file, with a name, path or text as detail.
    #[cold]
    pub fn refuse<A>(&self, line: usize, refusal: Refusal, detail: &str) -> Result<A, Stop>
        ensures { Refuses (fault_on self.now line refusal detail.now) result }
    {
        self.store.refuse(self.alloc, line, refusal, detail)
    }

    /// Refuses this name, which is not supported.
    pub fn refuse_left_out<A>(&self, line: usize, name: &str) -> Result<A, Stop>
        ensures { Refuses (fault_on self.now line Refusal.LeftOut name.now) result }
    {
        self.refuse(line, Refusal::LeftOut, name)
    }

    /// Returns the value of an operation, or stops with its refusal.
    #[inline(always)]
    pub fn answer(
        &self,
        line: usize,
        answer: Result<Value, values::OperationRefusal>,
    ) -> Result<Value, Stop>
        ensures gives { (given : Result Data OperationRefusal) → AnswersSo given answer
            → Answers T.seen O.seen data_of (answer_at_line line given) self.now result self.now }
        ensures quiet { (n : ℕ) → failures_after n result ≡ n }
    {
        match answer {
            Ok(value) => Ok(value),
            Err(refusal) => Ok(self.refuse(line, of_operation(refusal), "")?),
        }
    }

    /// Returns the value of a call, and refuses one without a value with E6.
    #[inline(always)]
    pub fn need(&self, line: usize, answer: Option<Value>) -> Result<Value, Stop>
        ensures gives { Answers T.seen O.seen data_of (needed_value line (option_map data_of answer)) self.now result self.now }
        ensures quiet { (n : ℕ) → failures_after n result ≡ n }
    {
        match answer {
            Some(value) => Ok(value),
            None => Ok(self.refuse(line, Refusal::Type, "")?),
        }
    }

    /// Returns the value of a ternary whose condition is not a boolean: a disabler if it is one, and otherwise E6.
    pub fn refuse_choice(&self, line: usize, value: Value) -> Result<Value, Stop>
        ensures gives { Answers T.seen O.seen data_of (disabled_ternary line (is_disabler (data_of value))) self.now result self.now }
        ensures quiet { (n : ℕ) → failures_after n result ≡ n }
    {
        if value.is_disabler() {
            Ok(value)
        } else {
            self.refuse(line, Refusal::Type, "")
        }
    }

    /// Passes on the result of a check of arguments. If the check refused, stops with its refusal and detail.
    pub fn fit(&self, line: usize, answer: Result<(), ArgumentError>) -> Result<(), Stop>
        ensures gives { Answers T.seen O.seen (λ u. u) (check_at_line line (answer_data answer)) self.now result self.now }
        ensures quiet { (n : ℕ) → failures_after n result ≡ n }
    {
        match answer {
            Ok(()) => Ok(()),
            Err(refused) => self.refuse(line, refused.refusal, refused.detail.as_str()),
        }
    }
}
