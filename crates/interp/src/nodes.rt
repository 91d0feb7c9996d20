//! Evaluates expressions, with one function for each form of node.
ghost use Rattle.std.specs.Prelude.{◌≡◌, ◌<◌, ◌≤◌, suc, max, Some, true, length, map, option_map};
ghost use Rattle.syntax.specs.ExpressionTree.{ListTree, DictionaryTree, ChainTree, expressions, entries as entry_trees};
ghost use Rattle.syntax.specs.ExpressionTree.{arguments as argument_trees, links as link_trees, operands as operand_trees};
ghost use Rattle.code.specs.Nodes.{tree_at, entry_at, argument_at, operand_at, link_at};
ghost use Rattle.arguments.specs.Arguments.{no_arguments};
ghost use Rattle.world.specs.Prelude.{arguments_data, data_of};
ghost use Rattle.world.specs.Plan.{next, ruled};
ghost use Rattle.interp.specs.Expressions.{value_of, arguments_of, link_of, links_of};
ghost use Rattle.interp.specs.Parts.{above, above_number, above_entry, above_argument, above_operand, above_link, has_parts_at, is_rare_at};

use crate::evaluator::Evaluator;
use crate::halt::{Halt, end_rule_inside};
use arguments::{Arguments, add_argument, no_arguments};
use code::Code;
use code::node::{ArgumentNode, CallNode, EntryNode, LinkNode, Node, OperandNode};
use expressions::{InfixOperator, meaning_of};
use operations::operators::{Left, right_side};
use ports::{Outputs, Tree};
use std::mem;
use std::sync::ledger::Ledger;
use values::Value;

impl<'a, T: Tree, O: Outputs, L: Ledger> Evaluator<'a, T, O, L> {
    ghost use Rattle.interp.specs.Evaluates.{Evaluates, FailsInside};
    ghost use Rattle.expressions.specs.Contexts.{HasRoom, Same};

    /// Returns the value of the expression with this number.
    #[cycle(eval)]
    pub fn eval(&mut self, code: &Code, node: usize) -> Result<Value, Halt>
        requires here { node < length code.now.nodes.items }
        requires room { HasRoom T.seen O.seen self.old.context }
        ensures same { Same self.old.context self.new.context }
        ensures device { FailsInside T.seen O.seen self.old.context result self.new.context }
        ensures gives { Evaluates T.seen O.seen data_of (λ into ts. ruled (value_of into (tree_at ts node))) code.now
            self.old.context result self.new.context }
    {
        let mut answer = self.eval_node(code, node);
        end_rule_inside(&mut answer, self.context.steps);
        answer
    }

    /// Returns the value before its rule has ended. Most nodes are names and literals, which this function handles itself, because one
    /// function for all forms would reserve stack for all of them.
    #[cycle(eval)]
    #[inline(always)]
    pub fn eval_node(&mut self, code: &Code, node: usize) -> Result<Value, Halt>
        requires here { node < length code.now.nodes.items }
        requires room { HasRoom T.seen O.seen self.old.context }
        ensures same { Same self.old.context self.new.context }
        ensures device { FailsInside T.seen O.seen self.old.context result self.new.context }
        ensures gives { Evaluates T.seen O.seen data_of (λ into ts. value_of into (tree_at ts node))
            code.now self.old.context result self.new.context }
    {
        match &code.nodes[node] {
            Node::Name { number, line } => Ok(self.context.variable(*number, *line)?),
            Node::Literal { line, literal } => {
                Ok(self.context.literal(*line as usize, literal)?)
            }
            _ => Ok(self.eval_parts(code, node)?),
        }
    }

    // Returns the value of a node that has parts, before its rule has ended. The result of a call is taken apart here and not passed on
    // whole, so that the result of each form is put together from registers.
    #[cycle(eval)]
    #[inline(never)]
    fn eval_parts(&mut self, code: &Code, node: usize) -> Result<Value, Halt>
        requires here { node < length code.now.nodes.items }
        requires parts { has_parts_at code.now node ≡ true }
        requires room { HasRoom T.seen O.seen self.old.context }
        ensures same { Same self.old.context self.new.context }
        ensures device { FailsInside T.seen O.seen self.old.context result self.new.context }
        ensures gives { Evaluates T.seen O.seen data_of (λ into ts. value_of into (tree_at ts node))
            code.now self.old.context result self.new.context }
    {
        match &code.nodes[node] {
            Node::Name { .. } | Node::Literal { .. } => unreachable!(),
            Node::Postfix { first, links, line } => {
                let given = self.ask_links(code, *first as usize, links, *line)?;
                Ok(self.context.need(*line, given)?)
            }
            Node::Chain {
                first,
                others,
                line,
            } => Ok(self.chain(code, *first as usize, others, *line)?),
            _ => Ok(self.eval_other(code, node)?),
        }
    }

    // Returns the value of a less frequent form, before its rule has ended.
    #[cycle(eval)]
    #[inline(never)]
    fn eval_other(&mut self, code: &Code, node: usize) -> Result<Value, Halt>
        requires here { node < length code.now.nodes.items }
        requires eval_other { is_rare_at code.now node ≡ true }
        requires room { HasRoom T.seen O.seen self.old.context }
        ensures same { Same self.old.context self.new.context }
        ensures device { FailsInside T.seen O.seen self.old.context result self.new.context }
        ensures gives { Evaluates T.seen O.seen data_of (λ into ts. value_of into (tree_at ts node))
            code.now self.old.context result self.new.context }
    {
        match &code.nodes[node] {
            Node::List { items, line } => Ok(self.list(code, items, *line)?),
            Node::Dictionary { entries, line } => Ok(self.dictionary(code, entries, *line)?),
            Node::Call { call, line } => {
                let call: &CallNode = call;
                let function = self.context.function_inside(*line, &call.name)?;
                let mut arguments = self.arguments(code, &call.arguments)?;
                let given = self.call_in_expression(*line, function, &arguments)?;
                arguments.clear();
                *self.room = arguments;
                Ok(given)
            }
            Node::Prefix {
                prefix,
                value,
                line,
            } => {
                let value = self.eval(code, *value)?;
                Ok(self.context.prefix(*line, *prefix, value)?)
            }
            Node::Ternary {
                test,
                yes,
                no,
                line,
            } => {
                let value = self.eval(code, *test)?;
                match value.as_boolean() {
                    Some(true) => self.eval(code, *yes),
                    Some(false) => self.eval(code, *no),
                    None => Ok(self.context.refuse_choice(*line, value)?),
                }
            }
            _ => unreachable!(),
        }
    }

    // Returns the value of `[first, second]`.
    #[cycle(eval)]
    #[inline(never)]
    fn list(&mut self, code: &Code, items: &[usize], line: usize) -> Result<Value, Halt>
        requires here { above above_number items.now ≤ length code.now.nodes.items }
        requires room { HasRoom T.seen O.seen self.old.context }
        ensures same { Same self.old.context self.new.context }
        ensures device { FailsInside T.seen O.seen self.old.context result self.new.context }
        ensures gives { Evaluates T.seen O.seen data_of (λ into ts. value_of into
            (ListTree (expressions (map (tree_at ts) items.now)) line)) code.now self.old.context result self.new.context }
    {
        let mut values = Vec::new(self.context.alloc);
        for item in items {
            let value = self.eval(code, *item)?;
            values.push(value)?;
        }
        Ok(self.context.list(line, values)?)
    }

    // Returns the value of `{key : value, key : value}`.
    #[cycle(eval)]
    #[inline(never)]
    fn dictionary(&mut self, code: &Code, entries: &[EntryNode], line: usize) -> Result<Value, Halt>
        requires here { above above_entry entries.now ≤ length code.now.nodes.items }
        requires room { HasRoom T.seen O.seen self.old.context }
        ensures same { Same self.old.context self.new.context }
        ensures device { FailsInside T.seen O.seen self.old.context result self.new.context }
        ensures gives { Evaluates T.seen O.seen data_of (λ into ts. value_of into (DictionaryTree (entry_trees
            (map (entry_at ts) entries.now)) line)) code.now self.old.context result self.new.context }
    {
        let mut pairs = Vec::new(self.context.alloc);
        for entry in entries {
            let key = self.eval(code, entry.key)?;
            let value = self.eval(code, entry.value)?;
            pairs.push((key, value))?;
        }
        Ok(self.context.pair(line, pairs)?)
    }

    /// Returns the values of these arguments, in order.
    #[cycle(eval)]
    #[inline(always)]
    pub fn arguments(&mut self, code: &Code, arguments: &[ArgumentNode]) -> Result<Arguments, Halt>
        requires here { above above_argument arguments.now ≤ length code.now.nodes.items }
        requires room { HasRoom T.seen O.seen self.old.context }
        ensures same { Same self.old.context self.new.context }
        ensures device { FailsInside T.seen O.seen self.old.context result self.new.context }
        ensures gives { Evaluates T.seen O.seen arguments_data (λ into ts. arguments_of into no_arguments (argument_trees
            (map (argument_at ts) arguments.now))) code.now self.old.context result self.new.context }
    {
        let mut evaluated = mem::replace(self.room, no_arguments(self.context.alloc));
        evaluated.clear();
        for argument in arguments {
            let value = self.eval(code, argument.value)?;
            add_argument(&mut evaluated, &argument.name, value)?;
        }
        Ok(evaluated)
    }

    /// Returns the value of an expression after its methods and indexes. Returns `None` if the last method returns no value.
    #[cycle(eval)]
    pub fn ask_links(
        &mut self,
        code: &Code,
        first: usize,
        links: &[LinkNode],
        line: usize,
    ) -> Result<Option<Value>, Halt>
        requires here { max (suc first) (above above_link links.now) ≤ length code.now.nodes.items }
        requires room { HasRoom T.seen O.seen self.old.context }
        ensures same { Same self.old.context self.new.context }
        ensures device { FailsInside T.seen O.seen self.old.context result self.new.context }
        ensures gives { Evaluates T.seen O.seen (option_map data_of) (λ into ts. next (ruled (value_of into (tree_at ts first)))
            (λ d. links_of into line (Some d) (link_trees (map (link_at ts) links.now))))
            code.now self.old.context result self.new.context }
    {
        let value = self.eval(code, first)?;
        let mut given = Some(value);
        for link in links {
            let whole = self.context.need(line, given)?;
            given = self.link(code, line, link, whole)?;
        }
        Ok(given)
    }

    // Applies one method or index to a value.
    #[cycle(eval)]
    fn link(
        &mut self,
        code: &Code,
        line: usize,
        link: &LinkNode,
        whole: Value,
    ) -> Result<Option<Value>, Halt>
        requires here { above_link link.now ≤ length code.now.nodes.items }
        requires room { HasRoom T.seen O.seen self.old.context }
        ensures same { Same self.old.context self.new.context }
        ensures device { FailsInside T.seen O.seen self.old.context result self.new.context }
        ensures gives { Evaluates T.seen O.seen (option_map data_of) (λ into ts. link_of into line (data_of whole)
            (link_at ts link.now)) code.now self.old.context result self.new.context }
    {
        match link {
            LinkNode::Method { name, arguments } => {
                self.method_at(line, &whole, name)?;
                let mut arguments = self.arguments(code, arguments)?;
                let given = self.method_called(line, &whole, name, &arguments)?;
                arguments.clear();
                *self.room = arguments;
                Ok(given)
            }
            LinkNode::Index { index } => {
                let at = self.eval(code, *index)?;
                Ok(self.context.part_at(line, &whole, &at)?)
            }
        }
    }

    // Returns the value of `first + second - third`.
    #[cycle(eval)]
    fn chain(
        &mut self,
        code: &Code,
        first: usize,
        others: &[OperandNode],
        line: usize,
    ) -> Result<Value, Halt>
        requires here { max (suc first) (above above_operand others.now) ≤ length code.now.nodes.items }
        requires room { HasRoom T.seen O.seen self.old.context }
        ensures same { Same self.old.context self.new.context }
        ensures device { FailsInside T.seen O.seen self.old.context result self.new.context }
        ensures gives { Evaluates T.seen O.seen data_of (λ into ts. value_of into (ChainTree (tree_at ts first) (operand_trees
            (map (operand_at ts) others.now)) line)) code.now self.old.context result self.new.context }
    {
        let mut value = self.eval(code, first)?;
        for operand in others {
            let connective = match meaning_of(operand.operator) {
                InfixOperator::Combines(operator) => {
                    let right = self.eval(code, operand.value)?;
                    value = self.combine(line, operator, value, right)?;
                    continue;
                }
                InfixOperator::Connects(connective) => connective,
            };
            let said = self.decide(line, connective, value)?;
            match said {
                Left::Decides(whole) => {
                    value = whole;
                    continue;
                }
                Left::Open => {}
            }
            let right = self.eval(code, operand.value)?;
            value = self.context.answer(line, right_side(right))?;
        }
        Ok(value)
    }
}
