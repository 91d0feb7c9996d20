//! Runs iterations of a loop in place.
ghost use Rattle.std.specs.Prelude.{◌≤◌, IsTrue, length, nat_lt};
ghost use Rattle.code.specs.Statements.{second_within};
ghost use Rattle.expressions.specs.Rounds.{round_data, rounds_in};
ghost use Rattle.world.specs.Prelude.{data_of};
ghost use Rattle.interp.specs.Blocks.{BeginsDeep, ToursDeep};
ghost use Rattle.interp.specs.Frames.{Tours, Walks, round_by};

use crate::block_statements::BlockProgress;
use crate::evaluator::Evaluator;
use crate::flow::Flow;
use crate::frames::LoopHead;
use code::Code;
use expressions::{Round, round_at};
use ports::{Outputs, Tree};
use std::sync::ledger::Ledger;
use values::Value;
use world::{Stop, end_rule};

/// Says how far the iterations of a loop were run.
#[derive(Drop)]
pub enum LoopProgress {
    /// To their end, or until one of them left the loop.
    Ends(Flow),
    /// To a statement inside one iteration, which is still to be done. The iterations from `at` on follow.
    Stands { progress: BlockProgress, at: usize },
}

impl<'a, T: Tree, O: Outputs, L: Ledger> Evaluator<'a, T, O, L> {
    ghost use Rattle.expressions.specs.Contexts.{Fails, HasRoom, Same};

    /// Runs the iterations of a loop over a value, from an index on, as long as they need no stack.
    pub fn do_rounds(
        &mut self,
        code: &Code,
        head: &LoopHead,
        whole: &Value,
        from: usize,
    ) -> Result<LoopProgress, Stop>
        requires first { IsTrue (nat_lt head.now.first code.now.names) }
        requires second { IsTrue (second_within code.now.names head.now.second) }
        requires few { length (rounds_in (data_of whole.now)) ≤ 65536 }
        requires room { HasRoom T.seen O.seen self.old.context }
        ensures same { Same self.old.context self.new.context }
        ensures device { Fails T.seen O.seen self.old.context result self.new.context }
        ensures deep { ToursDeep code.now result }
        ensures gives { Tours T.seen O.seen head.now (rounds_in (data_of whole.now)) from code.now
            self.old.context result self.new.context }
    {
        for at in from..65_536 {
            let Some(round) = round_at(whole, at)? else {
                return Ok(LoopProgress::Ends(Flow::Next));
            };
            match self.do_round(code, head, round) {
                Ok(BlockProgress::Ends(flow)) => {
                    self.context.steps.tick();
                    if !flow.goes_round() {
                        return Ok(LoopProgress::Ends(flow.behind_loop()));
                    }
                }
                Ok(progress) => return Ok(LoopProgress::Stands {
                    progress,
                    at: at + 1,
                }),
                Err(stop) => return end_rule(Err(stop), self.context.steps),
            }
        }
        Ok(LoopProgress::Ends(Flow::Next))
    }

    // Runs an iteration: sets its variables, and runs its statements.
    #[inline(always)]
    fn do_round(
        &mut self,
        code: &Code,
        head: &LoopHead,
        round: Round,
    ) -> Result<BlockProgress, Stop>
        requires first { IsTrue (nat_lt head.now.first code.now.names) }
        requires second { IsTrue (second_within code.now.names head.now.second) }
        requires room { HasRoom T.seen O.seen self.old.context }
        ensures same { Same self.old.context self.new.context }
        ensures device { Fails T.seen O.seen self.old.context result self.new.context }
        ensures deep { BeginsDeep code.now result }
        ensures gives { Walks T.seen O.seen (λ table left. round_by table code.now left head.now (round_data round)) head.now.body code.now
            self.old.context result self.new.context }
    {
        self.context
            .bind(head.line, head.first, head.second, round)?;
        self.do_statements(code, head.body, 0)
    }
}
