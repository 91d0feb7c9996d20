//! Runs statements in place, without the stack of frames.
ghost use Rattle.std.specs.Prelude.{true, ◌≡◌, ◌<◌, ◌≤◌, ℕ, List, drop, length, map, option_map};
ghost use Rattle.std.specs.List.{list_all};
ghost use Rattle.code.specs.Nodes.{tree_at};
ghost use Rattle.code.specs.Statements.{branch_at, name_at, statement_at};
ghost use Rattle.world.specs.Prelude.{data_of};
ghost use Rattle.world.specs.Plan.{give, next, ruled};
ghost use Rattle.expressions.specs.Assignments.{plus_assignment, variable_assignment, own};
ghost use Rattle.expressions.specs.Codes.{block_by, expressions_by, statements_by};
ghost use Rattle.syntax.specs.Tree.{branches};
ghost use Rattle.interp.specs.Blocks.{BeginsDeep, DeepIfNone, branch_or, is_simple_at, node_at, statements_of};
ghost use Rattle.interp.specs.Expressions.{given_by, value_of};
ghost use Rattle.interp.specs.Folders.{folder};
ghost use Rattle.interp.specs.Frames.{ComesHere, DoesHere, Walks, above_branch};
ghost use Rattle.interp.specs.Parts.{above};
ghost use Rattle.interp.specs.Statements.{branches_of, do_all, does};
ghost use Rattle.interp.specs.declared.block.Block.TheVariants.{Part};
ghost use Rattle.interp.specs.declared.flow.Flow.TheVariants.{Next};

use crate::block::{Block, are_simple, statements_of};
use crate::evaluator::Evaluator;
use crate::flow::Flow;
use crate::halt::{FolderEntry, Halt, end_rule_inside};
use code::Code;
use code::node::{BranchNode, IfNode, Node, StatementNode};
use ports::{Outputs, Tree};
use std::sync::ledger::Ledger;
use values::Value;
use world::{Stop, end_rule};

/// Says how far the statements of a block were run.
#[derive(Drop)]
pub enum BlockProgress {
    /// To their end, or until one of them left the block.
    Ends(Flow),
    /// Up to the statement with this number, whose parts are put on the stack. The statements from `at` on follow.
    Begins { number: usize, at: usize },
    /// Up to a folder that is entered inside an expression of the statement before `at`.
    Enters { entry: Box<FolderEntry>, at: usize },
}

impl<'a, T: Tree, O: Outputs, L: Ledger> Evaluator<'a, T, O, L> {
    ghost use Rattle.expressions.specs.Contexts.{Fails, HasRoom, Same};
    ghost use Rattle.interp.specs.Evaluates.{Evaluates, FailsInside};

    /// Runs the statements of a block, from an index on, as long as they need no stack.
    pub fn do_statements(
        &mut self,
        code: &Code,
        block: Block,
        from: usize,
    ) -> Result<BlockProgress, Stop>
        requires room { HasRoom T.seen O.seen self.old.context }
        ensures same { Same self.old.context self.new.context }
        ensures device { Fails T.seen O.seen self.old.context result self.new.context }
        ensures deep { BeginsDeep code.now result }
        ensures gives { Walks T.seen O.seen (λ table left.
            do_all (folder left) left.few (block_by table code.now (drop from (statements_of code.now block)))) block code.now
            self.old.context result self.new.context }
    {
        let numbers = statements_of(code, block);
        for place in from..numbers.len() {
            let number = numbers[place];
            match self.do_statement(code, number) {
                Ok(Some(flow)) => {
                    self.context.steps.tick();
                    if !flow.is_next() {
                        return Ok(BlockProgress::Ends(flow));
                    }
                }
                Ok(None) => return Ok(BlockProgress::Begins {
                    number,
                    at: place + 1,
                }),
                Err(Halt::Stops(stop)) => return end_rule(Err(stop), self.context.steps),
                Err(Halt::Enters(entry)) => return Ok(BlockProgress::Enters {
                    entry,
                    at: place + 1,
                }),
            }
        }
        Ok(BlockProgress::Ends(Flow::Next))
    }

    // Runs a statement that needs no stack. Returns `None`, and runs nothing, if it may need one. A call may enter a folder.
    fn do_statement(&mut self, code: &Code, number: usize) -> Result<Option<Flow>, Halt>
        requires there { number < length code.now.statements.items }
        requires room { HasRoom T.seen O.seen self.old.context }
        ensures same { Same self.old.context self.new.context }
        ensures device { FailsInside T.seen O.seen self.old.context result self.new.context }
        ensures deep { DeepIfNone (node_at code.now number) result }
        ensures gives { DoesHere T.seen O.seen (λ table left.
            does (folder left) left.few (statement_at (statements_by table code.now) number)) code.now
            self.old.context result self.new.context }
    {
        match &code.statements[number] {
            StatementNode::Expression { value, .. } => {
                if let Node::Call { .. } = &code.nodes[*value as usize] {
                    return Ok(None);
                }
                let _ = self.eval_statement(code, *value as usize)?;
                Ok(Some(Flow::Next))
            }
            StatementNode::If { node } => {
                let node: &IfNode = node;
                self.branch(code, number, &node.branches)
            }
            StatementNode::Foreach { .. } => Ok(None),
            _ => Ok(Some(self.do_simple_statement(code, number)?)),
        }
    }

    // Runs a statement that sets a variable or leaves its block.
    #[inline(always)]
    fn do_simple_statement(&mut self, code: &Code, number: usize) -> Result<Flow, Halt>
        requires there { number < length code.now.statements.items }
        requires do_simple_statement { is_simple_at code.now number ≡ true }
        requires room { HasRoom T.seen O.seen self.old.context }
        ensures same { Same self.old.context self.new.context }
        ensures device { FailsInside T.seen O.seen self.old.context result self.new.context }
        ensures gives { ComesHere T.seen O.seen (λ table left.
            does (folder left) left.few (statement_at (statements_by table code.now) number)) code.now
            self.old.context result self.new.context }
    {
        match &code.statements[number] {
            StatementNode::Assign { name, line, value } => {
                Ok(self.assign_value(code, *name as usize, *line as usize, *value as usize)?)
            }
            StatementNode::Append { name, line, value } => {
                Ok(self.append_value(code, *name as usize, *line as usize, *value as usize)?)
            }
            StatementNode::Break { .. } => Ok(Flow::Broken),
            StatementNode::Continue { .. } => Ok(Flow::Continued),
            _ => unreachable!(),
        }
    }

    // Runs an `if` whose parts have only simple statements. Returns `None`, and runs nothing, for another.
    fn branch(
        &mut self,
        code: &Code,
        number: usize,
        parts: &[BranchNode],
    ) -> Result<Option<Flow>, Halt>
        requires here { above above_branch parts.now ≤ length code.now.nodes.items }
        requires room { HasRoom T.seen O.seen self.old.context }
        ensures same { Same self.old.context self.new.context }
        ensures device { FailsInside T.seen O.seen self.old.context result self.new.context }
        ensures gives { (otherwise : List ℕ)
            → ((part : ℕ) → statements_of code.now (Part number part) ≡ branch_or otherwise parts.now part)
            → DoesHere T.seen O.seen (λ table left. branches_of (folder left) left.few (branches (map (branch_at
            (expressions_by table code.now) (statements_by table code.now)) parts.now))
            (do_all (folder left) left.few (block_by table code.now otherwise))) code.now self.old.context result self.new.context }
    {
        for part in 0..=parts.len() {
            if !are_simple(
                code,
                Block::Part {
                    statement: number,
                    part,
                },
            ) {
                return Ok(None);
            }
        }
        match self.choose_part(code, parts)? {
            Some(part) => {
                let block = Block::Part {
                    statement: number,
                    part: part.min(parts.len()),
                };
                Ok(Some(self.do_simple_block(code, block)?))
            }
            None => Ok(Some(Flow::Next)),
        }
    }

    // Runs the simple statements of a block.
    fn do_simple_block(&mut self, code: &Code, block: Block) -> Result<Flow, Halt>
        requires do_simple_statement { list_all (is_simple_at code.now) (statements_of code.now block) ≡ true }
        requires room { HasRoom T.seen O.seen self.old.context }
        ensures same { Same self.old.context self.new.context }
        ensures device { FailsInside T.seen O.seen self.old.context result self.new.context }
        ensures gives { ComesHere T.seen O.seen (λ table left.
            do_all (folder left) left.few (block_by table code.now (statements_of code.now block))) code.now
            self.old.context result self.new.context }
    {
        let numbers = statements_of(code, block);
        for place in 0..numbers.len() {
            let mut answer = self.do_simple_statement(code, numbers[place]);
            end_rule_inside(&mut answer, self.context.steps);
            let flow = answer?;
            if !flow.is_next() {
                return Ok(flow);
            }
        }
        Ok(Flow::Next)
    }

    // Runs `name = value`.
    #[inline(always)]
    fn assign_value(
        &mut self,
        code: &Code,
        name: usize,
        line: usize,
        value: usize,
    ) -> Result<Flow, Halt>
        requires here { value < length code.now.nodes.items }
        requires room { HasRoom T.seen O.seen self.old.context }
        ensures same { Same self.old.context self.new.context }
        ensures device { FailsInside T.seen O.seen self.old.context result self.new.context }
        ensures gives { name < length self.old.context.store.now.names → Evaluates T.seen O.seen (λ f. f) (λ into ts.
            next (ruled (value_of into (tree_at ts value))) (λ d. next (own d) (λ e. next (variable_assignment line
            (name_at self.old.context.store.now.names name) e) (λ _. give Next)))) code.now self.old.context result self.new.context }
    {
        let value = self.eval(code, value)?;
        let own = self.context.own(value)?;
        self.context.assign(line, name, own)?;
        Ok(Flow::Next)
    }

    // Runs `name += value`: adds the value to that of the variable.
    #[inline(always)]
    fn append_value(
        &mut self,
        code: &Code,
        name: usize,
        line: usize,
        value: usize,
    ) -> Result<Flow, Halt>
        requires here { value < length code.now.nodes.items }
        requires room { HasRoom T.seen O.seen self.old.context }
        ensures same { Same self.old.context self.new.context }
        ensures device { FailsInside T.seen O.seen self.old.context result self.new.context }
        ensures gives { name < length self.old.context.store.now.names → Evaluates T.seen O.seen (λ f. f) (λ into ts.
            next (plus_assignment line (name_at self.old.context.store.now.names name) (ruled (value_of into (tree_at ts value))))
            (λ _. give Next)) code.now self.old.context result self.new.context }
    {
        let _ = self.context.variable(name, line)?;
        let right = self.eval(code, value)?;
        self.context.add(line, name, right)?;
        Ok(Flow::Next)
    }

    /// Evaluates an expression that is a statement and not a call of a function. Its last method may have no value.
    pub fn eval_statement(&mut self, code: &Code, value: usize) -> Result<Option<Value>, Halt>
        requires here { value < length code.now.nodes.items }
        requires room { HasRoom T.seen O.seen self.old.context }
        ensures same { Same self.old.context self.new.context }
        ensures device { FailsInside T.seen O.seen self.old.context result self.new.context }
        ensures gives { Evaluates T.seen O.seen (option_map data_of) (λ into ts. ruled (given_by into (tree_at ts value))) code.now
            self.old.context result self.new.context }
    {
        let mut answer = self.eval_links_or_node(code, value);
        end_rule_inside(&mut answer, self.context.steps);
        answer
    }

    // Evaluates such an expression, before its rule has ended.
    fn eval_links_or_node(&mut self, code: &Code, value: usize) -> Result<Option<Value>, Halt>
        requires here { value < length code.now.nodes.items }
        requires room { HasRoom T.seen O.seen self.old.context }
        ensures same { Same self.old.context self.new.context }
        ensures device { FailsInside T.seen O.seen self.old.context result self.new.context }
        ensures gives { Evaluates T.seen O.seen (option_map data_of) (λ into ts. given_by into (tree_at ts value)) code.now
            self.old.context result self.new.context }
    {
        if let Node::Postfix { first, links, line } = &code.nodes[value] {
            self.ask_links(code, *first as usize, links, *line)
        } else {
            Ok(Some(self.eval_node(code, value)?))
        }
    }
}
