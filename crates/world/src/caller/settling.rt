//! Settles what the parts of a call return.
ghost use Rattle.world.specs.Settling.{IsSettled, IsSettledBy};
ghost use Rattle.world.specs.Store.{world_of};

use crate::caller::Caller;
use crate::stop::Stop;
use arguments::{CallStop, Rule};
use ports::{Outputs, Tree};

impl<'a, T: Tree, O: Outputs> Caller<'a, T, O> {
    /// Returns the value of a part of the call, or stops as that part did.
    pub fn settle<A>(&self, answer: Result<A, CallStop>) -> Result<A, Stop>
        ensures { IsSettled (world_of self.now.store.now) answer result }
    {
        match answer {
            Ok(value) => Ok(value),
            Err(CallStop::Arguments(refused)) => self.pass(Err(refused)),
            Err(CallStop::Operation(refusal)) => self.answer(Err(refusal)),
            Err(CallStop::Memory) => Err(Stop::Memory),
        }
    }

    /// Returns the value of a part of the call, or stops as that part did. If an operation refused its arguments, this text breaks a rule.
    pub fn settle_by<A>(
        &self,
        rule: Rule,
        text: &str,
        answer: Result<A, CallStop>,
    ) -> Result<A, Stop>
        ensures { IsSettledBy (world_of self.now.store.now) rule text.now answer result }
    {
        match answer {
            Ok(value) => Ok(value),
            Err(CallStop::Arguments(refused)) => self.pass(Err(refused)),
            Err(CallStop::Operation(refusal)) => self.answer_by(rule, text, Err(refusal)),
            Err(CallStop::Memory) => Err(Stop::Memory),
        }
    }
}
