//! Begins statements, and puts what they leave to do on the stack.
ghost use Rattle.std.specs.Prelude.{Bool, ◌≡◌, ◌<◌, ◌≤◌, ℕ, IsTrue, List, length, map, nat_lt, option_map};
ghost use Rattle.code.specs.Nodes.{tree_at};
ghost use Rattle.code.specs.Statements.{branch_at, name_at, second_within, statement_at};
ghost use Rattle.syntax.specs.Tree.{branches};
ghost use Rattle.world.specs.Plan.{next, ruled};
ghost use Rattle.interp.specs.Bounds.{bounds};
ghost use Rattle.expressions.specs.Codes.{block_by, expressions_by, statements_by};
ghost use Rattle.interp.specs.Blocks.{IsDeep, branch_or, node_at, statements_of};
ghost use Rattle.interp.specs.Expressions.{value_of};
ghost use Rattle.interp.specs.Folders.{folder};
ghost use Rattle.interp.specs.Frames.{Begins, ChoosesOf, above_branch, round_by};
ghost use Rattle.interp.specs.Parts.{above};
ghost use Rattle.interp.specs.Statements.{branches_of, do_all, does, expression_statement, rounds_within};
ghost use Rattle.expressions.specs.Rounds.{loop_rounds};
ghost use Rattle.interp.specs.declared.block.Block.TheVariants.{Part};
ghost use Rattle.interp.specs.declared.flow.Flow.TheVariants.{Next};

use crate::block::Block;
use crate::evaluator::Evaluator;
use crate::flow::Flow;
use crate::frames::{BlockRest, Frame, LoopHead, LoopRest, PendingCall};
use crate::halt::Halt;
use code::Code;
use code::node::{BranchNode, CallNode, ForeachNode, IfNode, Node, StatementNode};
use expressions::{Choice, check_loop};
use ports::{Outputs, Tree};
use std::rc::Rc;
use std::sync::ledger::Ledger;

impl<'a, T: Tree, O: Outputs, L: Ledger> Evaluator<'a, T, O, L> {
    ghost use Rattle.expressions.specs.Contexts.{HasRoom, Same};
    ghost use Rattle.interp.specs.Evaluates.{FailsInside};

    /// Begins the statement with this number, whose end is on the stack, and puts its parts there. `left` is how many more folders may be
    /// nested.
    pub fn begin_statement(
        &mut self,
        code: &Rc<Code>,
        number: usize,
        left: usize,
        stack: &mut Vec<Frame>,
    ) -> Result<Flow, Halt>
        requires there { number < length code.now.value.statements.items }
        requires deep { IsDeep (node_at code.now.value number) }
        requires room { HasRoom T.seen O.seen self.old.context }
        ensures same { Same self.old.context self.new.context }
        ensures device { FailsInside T.seen O.seen self.old.context result self.new.context }
        ensures gives { (few : Bool) → Begins T.seen O.seen (λ table.
            does (folder (bounds few left)) few (statement_at (statements_by table code.now.value) number)) (bounds few left)
            code.now.value self.old.context stack.old.items result self.new.context stack.new.items }
    {
        match &code.statements[number] {
            StatementNode::Expression { value, .. } => self.begin_expression(
                code,
                *value as usize,
                left,
                stack,
            ),
            StatementNode::If { node } => {
                let node: &IfNode = node;
                self.begin_branch(code, number, &node.branches, left, stack)
            }
            StatementNode::Foreach { node } => {
                let node: &ForeachNode = node;
                let head = LoopHead {
                    line: node.line,
                    first: node.first,
                    second: node.second,
                    body: Block::Part {
                        statement: number,
                        part: 0,
                    },
                };
                self.begin_loop(code, node.list, head, left, stack)
            }
            _ => unreachable!(),
        }
    }

    // Runs an expression as a statement. A call may enter a folder, and a value is dropped.
    fn begin_expression(
        &mut self,
        code: &Code,
        value: usize,
        left: usize,
        stack: &mut Vec<Frame>,
    ) -> Result<Flow, Halt>
        requires here { value < length code.now.nodes.items }
        requires room { HasRoom T.seen O.seen self.old.context }
        ensures same { Same self.old.context self.new.context }
        ensures device { FailsInside T.seen O.seen self.old.context result self.new.context }
        ensures gives { (few : Bool) → Begins T.seen O.seen (λ table.
            expression_statement (folder (bounds few left)) (tree_at (expressions_by table code.now) value)) (bounds few left) code.now
            self.old.context stack.old.items result self.new.context stack.new.items }
    {
        if let Node::Call { call, line } = &code.nodes[value] {
            let call: &CallNode = call;
            stack.push(Frame::End)?;
            let function = self.context.function_at(*line, &call.name)?;
            let arguments = self.arguments(code, &call.arguments)?;
            let call = PendingCall {
                line: *line,
                function,
                arguments,
            };
            Ok(self.begin_call(call, left, stack)?)
        } else {
            self.eval_statement(code, value)?;
            Ok(Flow::Next)
        }
    }

    // Begins a loop, and puts all of its iterations on the stack.
    fn begin_loop(
        &mut self,
        code: &Rc<Code>,
        list: usize,
        head: LoopHead,
        left: usize,
        stack: &mut Vec<Frame>,
    ) -> Result<Flow, Halt>
        requires here { list < length code.now.value.nodes.items }
        requires first { IsTrue (nat_lt head.first code.now.value.names) }
        requires second { IsTrue (second_within code.now.value.names head.second) }
        requires room { HasRoom T.seen O.seen self.old.context }
        ensures same { Same self.old.context self.new.context }
        ensures device { FailsInside T.seen O.seen self.old.context result self.new.context }
        ensures gives { (few : Bool) → Begins T.seen O.seen (λ table. next
            (ruled (value_of (folder (bounds few left)) (tree_at (expressions_by table code.now.value) list)))
            (λ d. rounds_within few head.line (round_by table code.now.value (bounds few left) head)
            (loop_rounds (option_map (name_at table) head.second) d))) (bounds few left)
            code.now.value self.old.context stack.old.items result self.new.context stack.new.items }
    {
        let whole = self.eval(code, list)?;
        match check_loop(head.second.is_some(), &whole) {
            Ok(()) => {
                stack.push(Frame::Loop(LoopRest {
                    code: code.clone()?,
                    head,
                    whole,
                    at: 0,
                    left,
                }))?;
                Ok(Flow::Next)
            }
            Err(refusal) => Ok(self.context.refuse(head.line, refusal, "")?),
        }
    }

    // Begins an `if`, and puts the statements of the chosen part on the stack.
    fn begin_branch(
        &mut self,
        code: &Rc<Code>,
        number: usize,
        parts: &[BranchNode],
        left: usize,
        stack: &mut Vec<Frame>,
    ) -> Result<Flow, Halt>
        requires here { above above_branch parts.now ≤ length code.now.value.nodes.items }
        requires room { HasRoom T.seen O.seen self.old.context }
        ensures same { Same self.old.context self.new.context }
        ensures device { FailsInside T.seen O.seen self.old.context result self.new.context }
        ensures gives { (few : Bool) (otherwise : List ℕ)
            → ((part : ℕ) → statements_of code.now.value (Part number part) ≡ branch_or otherwise parts.now part)
            → Begins T.seen O.seen (λ table. branches_of (folder (bounds few left)) few (branches (map (branch_at
            (expressions_by table code.now.value) (statements_by table code.now.value)) parts.now))
            (do_all (folder (bounds few left)) few (block_by table code.now.value otherwise))) (bounds few left)
            code.now.value self.old.context stack.old.items result self.new.context stack.new.items }
    {
        match self.choose_part(code, parts)? {
            Some(part) => {
                stack.push(Frame::Block(BlockRest {
                    code: code.clone()?,
                    block: Block::Part {
                        statement: number,
                        part,
                    },
                    at: 0,
                    left,
                }))?;
                Ok(Flow::Next)
            }
            None => Ok(Flow::Next),
        }
    }

    /// Returns the index of the first branch whose condition holds, or the index after them. Returns `None` if a disabler skips all.
    pub fn choose_part(&mut self, code: &Code, parts: &[BranchNode]) -> Result<Option<usize>, Halt>
        requires here { above above_branch parts.now ≤ length code.now.nodes.items }
        requires room { HasRoom T.seen O.seen self.old.context }
        ensures same { Same self.old.context self.new.context }
        ensures device { FailsInside T.seen O.seen self.old.context result self.new.context }
        ensures gives { ChoosesOf T.seen O.seen parts.now code.now self.old.context result self.new.context }
    {
        for part in 0..parts.len() {
            let branch = &parts[part];
            let value = self.eval(code, branch.condition)?;
            match self.context.choose(branch.line, &value)? {
                Choice::Body => return Ok(Some(part)),
                Choice::Others => {}
                Choice::Skip => return Ok(None),
            }
        }
        Ok(Some(parts.len()))
    }
}
