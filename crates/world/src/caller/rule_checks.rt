//! Refuses a call that breaks a rule.
ghost use Rattle.arguments.specs.Rules.{breach_message};
ghost use Rattle.support.specs.declared.faults.refusal.Refusal.TheVariants.{Arguments as ArgumentsRefused};
ghost use Rattle.world.specs.Answering.{IsAnsweredBy, Refuses};
ghost use Rattle.world.specs.Ruled.{obeyed_rule};
ghost use Rattle.world.specs.Store.{world_of};
ghost use Rattle.world.specs.World.{fault_here};

use crate::caller::Caller;
use crate::operation::of_operation;
use crate::stop::Stop;
use arguments::Rule;
use ports::{Outputs, Tree};
use support::faults::Refusal;

impl<'a, T: Tree, O: Outputs> Caller<'a, T, O> {
    ghost use Rattle.world.specs.Caller.{Does};

    /// Refuses the call with this refusal, since this text breaks the rule. The message is made only here.
    pub fn refuse_for<A>(&self, refusal: Refusal, rule: Rule, text: &str) -> Result<A, Stop>
        ensures { Refuses (fault_here (world_of self.now.store.now) refusal (breach_message rule text.now)) result }
    {
        let detail = rule.tell_breach(self.alloc, text)?;
        self.refuse(refusal, detail.as_str())
    }

    /// Refuses the call's arguments, since this text, or the keyword with this name, breaks the rule.
    pub fn refuse_by<A>(&self, rule: Rule, text: &str) -> Result<A, Stop>
        ensures { Refuses (fault_here (world_of self.now.store.now) ArgumentsRefused (breach_message rule text.now)) result }
    {
        self.refuse_for(Refusal::Arguments, rule, text)
    }

    /// Returns the value of an operation on values, or stops with its refusal. If its arguments are refused, this text breaks the rule.
    pub fn answer_by<A>(
        &self,
        rule: Rule,
        text: &str,
        answer: Result<A, values::OperationRefusal>,
    ) -> Result<A, Stop>
        ensures { IsAnsweredBy (world_of self.now.store.now) rule text.now answer result }
    {
        match answer {
            Ok(value) => Ok(value),
            Err(values::OperationRefusal::Arguments) => self.refuse_by(rule, text),
            Err(refusal) => self.refuse(of_operation(refusal), ""),
        }
    }

    /// Refuses the call's arguments unless `is_so` is true: otherwise this text, or the keyword with this name, breaks the rule.
    pub fn obey(&self, is_so: bool, rule: Rule, text: &str) -> Result<(), Stop>
        ensures { Does T.seen O.seen (λ u. u) (obeyed_rule is_so rule text.now) self.now result self.now }
    {
        if is_so {
            Ok(())
        } else {
            self.refuse_by(rule, text)
        }
    }
}
