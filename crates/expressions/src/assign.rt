//! Assigns variables.
ghost use Rattle.std.specs.Prelude.{◌≡◌, ◌<◌, ℕ, IsTrue, Some, length, nat_lt, option_map};
ghost use Rattle.arguments.specs.Rules.{breach_message};
ghost use Rattle.code.specs.Statements.{name_at, second_within};
ghost use Rattle.world.specs.Prelude.{Refuses, data_of, failures_after};
ghost use Rattle.world.specs.Configuring.{copy_configuration};
ghost use Rattle.world.specs.Plan.{deed, next};
ghost use Rattle.expressions.specs.Forms.{predefined_object};
ghost use Rattle.expressions.specs.Rounds.{round_data};
ghost use Rattle.expressions.specs.Assignments.{assignment_of_sum, variable_assignment, assignment_of_round, configuration_in};
ghost use Rattle.expressions.specs.Assignments.{configuration_of, copied_configuration, own, plus_assignment_of};

use crate::context::Context;
use crate::loops::Round;
use arguments::Rule;
use operations::operators::{Binary, binary};
use ports::{Outputs, Tree};
use std::sync::ledger::Ledger;
use support::faults::Refusal;
use values::language_names::is_predefined;
use values::{Object, Value};
use world::{Caller, Stop};

// Returns the number of configuration data, and `None` for any other object.
fn configuration_of(object: &Object) -> Option<usize>
    ensures { result ≡ configuration_of object.now }
{
    match object {
        Object::ConfigurationData(number) => Some(*number),
        _ => None,
    }
}

// Returns the number of configuration data, and `None` for any other value.
fn configuration_in(value: &Value) -> Option<usize>
    ensures { result ≡ configuration_in (data_of value.now) }
{
    configuration_of(value.as_object()?)
}

impl<'a, T: Tree, O: Outputs, L: Ledger> Context<'a, T, O, L> {
    ghost use Rattle.expressions.specs.Contexts.{Answers, Fails, HasRoom, Same, fault_on};

    // Adds a copy of configuration data, and returns its number.
    fn copy_made(&mut self, number: usize) -> Result<usize, Stop>
        requires room { HasRoom T.seen O.seen self.old }
        ensures same { Same self.old self.new }
        ensures device { Fails T.seen O.seen self.old result self.new }
        ensures gives { Answers T.seen O.seen (λ n. n) (deed (copy_configuration number)) self.old result self.new }
    {
        let mut caller = Caller {
            alloc: self.alloc,
            store: self.store,
            tree: self.tree,
            out: self.out,
        };
        caller.copy_configuration(number)
    }

    // Returns the value of a copy of configuration data.
    #[cold]
    fn copy_data(&mut self, number: usize) -> Result<Value, Stop>
        requires room { HasRoom T.seen O.seen self.old }
        ensures same { Same self.old self.new }
        ensures device { Fails T.seen O.seen self.old result self.new }
        ensures gives { Answers T.seen O.seen data_of (copied_configuration number) self.old result self.new }
    {
        let copy = self.copy_made(number)?;
        Ok(Value::of_object(self.alloc, Object::ConfigurationData(copy))?)
    }

    /// Returns what an assignment stores: a copy of configuration data, which is not frozen, and any other value unchanged.
    #[inline(always)]
    pub fn own(&mut self, value: Value) -> Result<Value, Stop>
        requires room { HasRoom T.seen O.seen self.old }
        ensures same { Same self.old self.new }
        ensures device { Fails T.seen O.seen self.old result self.new }
        ensures gives { Answers T.seen O.seen data_of (own (data_of value)) self.old result self.new }
    {
        match configuration_in(&value) {
            Some(number) => Ok(self.copy_data(number)?),
            None => Ok(value),
        }
    }

    // Refuses to assign the name with a number, which is predefined.
    #[cold]
    fn refuse_name(&self, line: usize, number: usize) -> Result<(), Stop>
        ensures refuses { number < length self.now.store.now.names → Refuses (fault_on self.now line Refusal.Arguments
            (breach_message Rule.IsSettable (name_at self.now.store.now.names number))) result }
        ensures quiet { (n : ℕ) → failures_after n result ≡ n }
    {
        let name = self.store.name(number);
        let detail = Rule::IsSettable.tell_breach(self.alloc, name)?;
        self.refuse(line, Refusal::Arguments, detail.as_str())
    }

    /// Assigns a value to the variable whose name has this number, and refuses a predefined name (E9).
    #[inline(always)]
    pub fn assign(&mut self, line: usize, number: usize, value: Value) -> Result<(), Stop>
        ensures same { Same self.old self.new }
        ensures device { Fails T.seen O.seen self.old result self.new }
        ensures gives { number < length self.old.store.now.names → Answers T.seen O.seen
            (λ u. u) (variable_assignment line (name_at self.old.store.now.names number) (data_of value)) self.old result self.new }
    {
        let name = self.store.name(number);
        if is_predefined(name) {
            return self.refuse_name(line, number);
        }
        self.store.put(number, value)?;
        Ok(())
    }

    /// Assigns the values of a loop round to its variables: the first, and the second if there is one.
    pub fn bind(
        &mut self,
        line: usize,
        first: usize,
        second: Option<usize>,
        round: Round,
    ) -> Result<(), Stop>
        ensures same { Same self.old self.new }
        ensures device { Fails T.seen O.seen self.old result self.new }
        ensures gives { first < length self.old.store.now.names → IsTrue (second_within (length self.old.store.now.names) second)
            → Answers T.seen O.seen (λ u. u) (assignment_of_round line (name_at self.old.store.now.names first) (option_map
            (name_at self.old.store.now.names) second) (round_data round)) self.old result self.new }
    {
        match second {
            Some(second) => self.bind_pair(line, first, second, round),
            None => self.assign(line, first, round.first),
        }
    }

    // Assigns the values of a loop round to two variables.
    fn bind_pair(
        &mut self,
        line: usize,
        first: usize,
        second: usize,
        round: Round,
    ) -> Result<(), Stop>
        ensures same { Same self.old self.new }
        ensures device { Fails T.seen O.seen self.old result self.new }
        ensures gives { first < length self.old.store.now.names → IsTrue (nat_lt second (length self.old.store.now.names))
            → Answers T.seen O.seen (λ u. u) (assignment_of_round line (name_at self.old.store.now.names first) (Some
            (name_at self.old.store.now.names second)) (round_data round)) self.old result self.new }
    {
        let Round {
            first: key,
            second: value,
        } = round;
        match value {
            Some(value) => self.assign_both(line, (first, key), (second, value)),
            None => self.assign(line, first, key),
        }
    }

    // Assigns two variables.
    fn assign_both(
        &mut self,
        line: usize,
        one: (usize, Value),
        other: (usize, Value),
    ) -> Result<(), Stop>
        ensures same { Same self.old self.new }
        ensures device { Fails T.seen O.seen self.old result self.new }
        ensures gives { one.0 < length self.old.store.now.names → IsTrue (nat_lt other.0 (length self.old.store.now.names))
            → Answers T.seen O.seen (λ u. u) (assignment_of_round line (name_at self.old.store.now.names one.0) (Some
            (name_at self.old.store.now.names other.0)) (data_of one.1, Some (data_of other.1))) self.old result self.new }
    {
        self.assign(line, one.0, one.1)?;
        let answer = self.assign(line, other.0, other.1);
        answer
    }

    /// Assigns to the variable whose name has this number the sum of its value and another. Its value is moved out first, so that a value
    /// that nobody else shares grows in place.
    pub fn add(&mut self, line: usize, number: usize, right: Value) -> Result<(), Stop>
        ensures same { Same self.old self.new }
        ensures device { Fails T.seen O.seen self.old result self.new }
        ensures gives { number < length self.old.store.now.names → Answers T.seen O.seen (λ u. u)
            (plus_assignment_of line (name_at self.old.store.now.names number) (data_of right)) self.old result self.new }
    {
        let is_thing = is_predefined(self.store.name(number));
        if is_thing {
            return self.add_to_thing(line, number, right);
        }
        let taken = self.store.take(number);
        match taken {
            Some(left) => self.sum(line, number, left, right),
            None => self.refuse_unknown(line, number),
        }
    }

    // Returns the object of the predefined variable whose name has this number.
    fn thing_at(&self, number: usize) -> Result<Value, Stop>
        ensures gives { number < length self.now.store.now.names
            → Answers T.seen O.seen data_of (predefined_object (name_at self.now.store.now.names number)) self.now result self.now }
        ensures quiet { (n : ℕ) → failures_after n result ≡ n }
    {
        let name = self.store.name(number);
        self.thing(name)
    }

    // Refuses the name with a number, whose variable has no value.
    fn refuse_unknown(&self, line: usize, number: usize) -> Result<(), Stop>
        ensures refuses { number < length self.now.store.now.names → Refuses (fault_on self.now line Refusal.UndefinedName
            (name_at self.now.store.now.names number)) result }
        ensures quiet { (n : ℕ) → failures_after n result ≡ n }
    {
        let name = self.store.name(number);
        self.refuse(line, Refusal::UndefinedName, name)
    }

    // Adds to a variable whose name is predefined.
    fn add_to_thing(&mut self, line: usize, number: usize, right: Value) -> Result<(), Stop>
        ensures same { Same self.old self.new }
        ensures device { Fails T.seen O.seen self.old result self.new }
        ensures gives { number < length self.old.store.now.names → Answers T.seen O.seen (λ u. u)
            (next (predefined_object (name_at self.old.store.now.names number))
            (λ d. assignment_of_sum line (name_at self.old.store.now.names number) d (data_of right))) self.old result self.new }
    {
        let thing = self.thing_at(number)?;
        self.sum(line, number, thing, right)
    }

    // Assigns the sum of two values to the variable whose name has this number.
    #[inline(always)]
    fn sum(&mut self, line: usize, number: usize, left: Value, right: Value) -> Result<(), Stop>
        ensures same { Same self.old self.new }
        ensures device { Fails T.seen O.seen self.old result self.new }
        ensures gives { number < length self.old.store.now.names → Answers T.seen O.seen (λ u. u)
            (assignment_of_sum line (name_at self.old.store.now.names number) (data_of left) (data_of right)) self.old result self.new }
    {
        let answer = binary(self.alloc, Binary::Add, left, right)?;
        let sum = self.answer(line, answer)?;
        self.assign(line, number, sum)
    }
}
