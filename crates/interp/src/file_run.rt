//! Runs the statements of a file and of the files that it enters, on one stack of frames.
ghost use Rattle.std.specs.Prelude.{Bool, ◌≡◌, Ok, length};
ghost use Rattle.interp.specs.Bounds.{bounds};
ghost use Rattle.expressions.specs.Codes.{file_by};
ghost use Rattle.interp.specs.Blocks.{BeginsDeep};
ghost use Rattle.interp.specs.Evaluation.{root};
ghost use Rattle.interp.specs.Folders.{folder};
ghost use Rattle.interp.specs.Frames.{Does, Turns, others_by, parts_by, round_by, rounds_left, walk_left};
ghost use Rattle.interp.specs.Statements.{after_round, do_all, on_next, rounds_of};

use crate::block::Block;
use crate::block_statements::BlockProgress;
use crate::evaluator::Evaluator;
use crate::first_statement::line_before_project;
use crate::flow::Flow;
use crate::frame_stack::push_frame;
use crate::frames::{BlockRest, Frame, LoopRest, PendingCall};
use crate::halt::Halt;
use crate::loop_rounds::LoopProgress;
use crate::unwinding::unwind;
use crate::value_calls::call_function;
use code::Code;
use ports::{Outputs, Tree};
use std::mem::forget;
use std::rc::Rc;
use std::sync::ledger::Ledger;
use support::faults::Refusal;
use world::Stop;

impl<'a, T: Tree, O: Outputs, L: Ledger> Evaluator<'a, T, O, L> {
    ghost use Rattle.expressions.specs.Contexts.{Answers, Fails, HasRoom, Same};

    /// Runs the statements of the root file, the first of which must be a call of `project`. Folders may be nested 63 deep below the root.
    /// A fault ends the rules that are left on the stack.
    pub fn run(&mut self, code: Code) -> Result<Flow, Stop>
        requires known { code.names ≡ length self.old.context.store.now.names }
        requires room { HasRoom T.seen O.seen self.old.context }
        ensures same { Same self.old.context self.new.context }
        ensures device { Fails T.seen O.seen self.old.context result self.new.context }
        ensures gives { (few : Bool) → Answers T.seen O.seen (λ f. f) (root few (file_by self.old.context.store.now.names code))
            self.old.context result self.new.context }
    {
        match line_before_project(&code) {
            Some(line) => return self.context.refuse(line, Refusal::ProjectCall, ""),
            None => {}
        }
        let shared = Rc::new(self.context.alloc, code)?;
        // The code of the root file is needed to the end, and the process ends soon after it, so its parts are not dropped one by one.
        forget(shared.clone()?);
        let mut stack = Vec::new(self.context.alloc);
        stack.push(Frame::Block(BlockRest {
            code: shared,
            block: Block::File,
            at: 0,
            left: 63,
        }))?;
        let mut flow = Flow::Next;
        for _step in 0..u64::MAX {
            let Some(frame) = stack.pop() else {
                return Ok(flow);
            };
            match self.resume(frame, flow, &mut stack) {
                Ok(next) => flow = next,
                Err(stop) => return Err(unwind(stop, &stack, self.context.steps)),
            }
        }
        Err(Stop::Memory)
    }

    // Runs what is left of a frame that was taken from the stack.
    fn resume(&mut self, frame: Frame, flow: Flow, stack: &mut Vec<Frame>) -> Result<Flow, Stop>
        requires room { HasRoom T.seen O.seen self.old.context }
        ensures same { Same self.old.context self.new.context }
        ensures device { Fails T.seen O.seen self.old.context result self.new.context }
        ensures gives { Turns T.seen O.seen frame flow self.old.context stack.old.items result self.new.context stack.new.items }
    {
        match frame {
            Frame::Block(rest) => self.continue_block(rest, flow, stack),
            Frame::Loop(rest) => self.continue_loop(rest, flow, stack),
            Frame::Call(call) => {
                let PendingCall {
                    line,
                    function,
                    mut arguments,
                } = call;
                call_function(&mut self.context, line, function, &arguments)?;
                arguments.clear();
                *self.room = arguments;
                Ok(Flow::Next)
            }
            Frame::End => {
                self.context.steps.tick();
                Ok(flow)
            }
            Frame::Left(place) => {
                let _inner = self.context.store.go(place);
                Ok(Flow::Next)
            }
            Frame::Refuses(line) => self.context.refuse(line, Refusal::Type, ""),
        }
    }

    // Runs the rest of a block after a statement, up to one that needs the stack.
    fn continue_block(
        &mut self,
        rest: BlockRest,
        flow: Flow,
        stack: &mut Vec<Frame>,
    ) -> Result<Flow, Stop>
        requires room { HasRoom T.seen O.seen self.old.context }
        ensures same { Same self.old.context self.new.context }
        ensures device { Fails T.seen O.seen self.old.context result self.new.context }
        ensures gives { (few : Bool) → Does T.seen O.seen (λ table. on_next flow
            (do_all (folder (bounds few rest.left)) few (others_by table rest))) rest.code.value
            self.old.context stack.old.items result self.new.context stack.new.items }
    {
        if !flow.is_next() {
            return Ok(flow);
        }
        let BlockRest {
            code,
            block,
            at: from,
            left,
        } = rest;
        match self.do_statements(&code, block, from) {
            Ok(progress) => self.push_rest(progress, code, block, left, stack),
            Err(stop) => Err(stop),
        }
    }

    // Begins the statement that needs the stack, or enters the folder, and puts the rest of the block on the stack.
    fn push_rest(
        &mut self,
        progress: BlockProgress,
        code: Rc<Code>,
        block: Block,
        left: usize,
        stack: &mut Vec<Frame>,
    ) -> Result<Flow, Stop>
        requires deep { BeginsDeep code.value (Ok progress) }
        requires room { HasRoom T.seen O.seen self.old.context }
        ensures same { Same self.old.context self.new.context }
        ensures device { Fails T.seen O.seen self.old.context result self.new.context }
        ensures gives { (few : Bool) → Does T.seen O.seen (λ table.
            walk_left (parts_by table code.value (bounds few left) block) (bounds few left) progress) code.value
            self.old.context stack.old.items result self.new.context stack.new.items }
    {
        match progress {
            BlockProgress::Ends(flow) => Ok(flow),
            BlockProgress::Begins { number, at } => {
                let others = BlockRest {
                    code: code.clone()?,
                    block,
                    at,
                    left,
                };
                push_frame(stack, Frame::Block(others))?;
                match self.begin_statement(&code, number, left, stack) {
                    Ok(flow) => Ok(flow),
                    Err(Halt::Stops(stop)) => Err(stop),
                    Err(Halt::Enters(entry)) => self.enter_from_expression(entry, left, stack),
                }
            }
            BlockProgress::Enters { entry, at } => {
                let others = BlockRest {
                    code,
                    block,
                    at,
                    left,
                };
                push_frame(stack, Frame::Block(others))?;
                self.enter_from_expression(entry, left, stack)
            }
        }
    }

    // Runs the iterations that are left after one, up to a statement that needs the stack.
    fn continue_loop(
        &mut self,
        rest: LoopRest,
        flow: Flow,
        stack: &mut Vec<Frame>,
    ) -> Result<Flow, Stop>
        requires room { HasRoom T.seen O.seen self.old.context }
        ensures same { Same self.old.context self.new.context }
        ensures device { Fails T.seen O.seen self.old.context result self.new.context }
        ensures gives { (few : Bool) → Does T.seen O.seen (λ table. after_round flow
            (rounds_of (round_by table rest.code.value (bounds few rest.left) rest.head) (rounds_left rest))) rest.code.value
            self.old.context stack.old.items result self.new.context stack.new.items }
    {
        if !flow.goes_round() {
            return Ok(flow.behind_loop());
        }
        let LoopRest {
            code,
            head,
            whole,
            at: from,
            left,
        } = rest;
        match self.do_rounds(&code, &head, &whole, from) {
            Ok(LoopProgress::Ends(flow)) => Ok(flow),
            Ok(LoopProgress::Stands { progress, at }) => {
                let others = LoopRest {
                    code: code.clone()?,
                    head,
                    whole,
                    at,
                    left,
                };
                push_frame(stack, Frame::Loop(others))?;
                self.push_rest(progress, code, head.body, left, stack)
            }
            Err(stop) => Err(stop),
        }
    }
}
