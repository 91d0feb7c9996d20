//! Flattens expressions.
ghost use Rattle.std.specs.Prelude.{◌≡◌, IfOk, IsTrue, map, length, option_map};
ghost use Rattle.syntax.specs.ExpressionTree.{NameTree, LiteralTree, ListTree, DictionaryTree, FunctionTree, PostfixTree, PrefixTree};
ghost use Rattle.syntax.specs.ExpressionTree.{ChainTree, TernaryTree, expressions, entries as entry_trees, argument_trees};
ghost use Rattle.syntax.specs.ExpressionTree.{links as link_trees, operands as operand_trees, expression_of, entry_of, argument_of};
ghost use Rattle.syntax.specs.ExpressionTree.{operand_of, link_of};
ghost use Rattle.code.specs.Nodes.{argument_at, link_at, argument_within, link_within};

use crate::draft::Draft;
use crate::literal::LiteralNode;
use crate::narrow_numbers::narrow;
use crate::node::{ArgumentNode, CallNode, EntryNode, LinkNode, Node, OperandNode};
use std::alloc::{AllocError, Global};
use syntax::tree::{Argument, Entry, Expression, Link, Literal, Operand, Prefix};
use values::Text;
use values::language_names::{FunctionName, MethodName};

// Returns a copy of a name. A name that is too long for a text, which no file contains, is reported as out of memory.
fn own_name(alloc: Global, name: &str) -> Result<Text, AllocError>
    ensures { IfOk result (λ own. own ≡ name.now) }
{
    match Text::of_str(alloc, name)? {
        Ok(name) => Ok(name),
        Err(_) => Err(AllocError),
    }
}

// Returns a copy of the name of an argument, if it has one.
fn argument_name(alloc: Global, name: Option<&str>) -> Result<Option<Text>, AllocError>
    ensures { IfOk result (λ own. own ≡ option_map (λ n. n.now) name.entry) }
{
    match name {
        Some(name) => Ok(Some(own_name(alloc, name)?)),
        None => Ok(None),
    }
}

fn function_name(alloc: Global, name: &str) -> Result<FunctionName, AllocError>
    ensures { IfOk result (λ own. own ≡ name.now) }
{
    Ok(FunctionName::new(own_name(alloc, name)?))
}

fn method_name(alloc: Global, name: &str) -> Result<MethodName, AllocError>
    ensures { IfOk result (λ own. own ≡ name.now) }
{
    Ok(MethodName::new(own_name(alloc, name)?))
}

impl Draft {
    ghost use Rattle.code.specs.Draft.{trees_in, Grows, Stands, Parts};

    /// Appends the nodes of an expression, its own node last, and returns the number of that node.
    #[cycle(flatten)]
    pub fn expression(&mut self, expression: &Expression<'_>) -> Result<usize, AllocError>
        ensures grows { Grows self.old self.new }
        ensures stands { IfOk result (λ number. Stands (trees_in self.new) number (expression_of expression.now)) }
    {
        match expression {
            Expression::Name { name, line } => self.add_name(name, *line),
            Expression::Literal {
                literal,
                text,
                line,
            } => self.literal(*literal, text, *line),
            Expression::List { items, line } => self.list(items, *line),
            Expression::Dictionary { entries, line } => self.dictionary(entries, *line),
            Expression::Call {
                line,
                name,
                arguments,
            } => self.call(name, arguments, *line),
            Expression::Postfix { first, links, line } => self.postfix(first, links, *line),
            Expression::Prefix {
                prefix,
                value,
                line,
            } => self.prefix(*prefix, value, *line),
            Expression::Chain {
                first,
                others,
                line,
            } => self.chain(first, others, *line),
            Expression::Ternary {
                test,
                yes,
                no,
                line,
            } => self.ternary(test, yes, no, *line),
        }
    }

    // Appends a name.
    fn add_name(&mut self, name: &str, line: usize) -> Result<usize, AllocError>
        ensures grows { Grows self.old self.new }
        ensures stands { IfOk result (λ number. Stands (trees_in self.new) number (NameTree name.now line)) }
    {
        let number = self.name(name)?;
        self.push(Node::Name { number, line })
    }

    // Appends a literal.
    fn literal(&mut self, literal: Literal, text: &str, line: usize) -> Result<usize, AllocError>
        ensures grows { Grows self.old self.new }
        ensures stands { IfOk result (λ number. Stands (trees_in self.new) number (LiteralTree literal text.now line)) }
    {
        let line = narrow(line)?;
        let literal = LiteralNode::new(self.alloc, &self.names, literal, text)?;
        self.push(Node::Literal { line, literal })
    }

    // Appends `[first, second]`.
    #[cycle(flatten)]
    fn list(&mut self, items: &[Expression<'_>], line: usize) -> Result<usize, AllocError>
        ensures grows { Grows self.old self.new }
        ensures stands { IfOk result (λ number. Stands (trees_in self.new) number
            (ListTree (expressions (map expression_of items.now)) line)) }
    {
        let mut numbers = Vec::with_capacity(self.alloc, items.len())?;
        for item in items {
            let number = self.expression(item)?;
            numbers.push(number)?;
        }
        self.push(Node::List {
            items: numbers,
            line,
        })
    }

    // Appends `{key : value, key : value}`.
    #[cycle(flatten)]
    fn dictionary(&mut self, entries: &[Entry<'_>], line: usize) -> Result<usize, AllocError>
        ensures grows { Grows self.old self.new }
        ensures stands { IfOk result (λ number. Stands (trees_in self.new) number
            (DictionaryTree (entry_trees (map entry_of entries.now)) line)) }
    {
        let mut nodes = Vec::with_capacity(self.alloc, entries.len())?;
        for entry in entries {
            let key = self.expression(&entry.key)?;
            let value = self.expression(&entry.value)?;
            nodes.push(EntryNode { key, value })?;
        }
        self.push(Node::Dictionary {
            entries: nodes,
            line,
        })
    }

    // Appends `name(argument, name: argument)`.
    #[cycle(flatten)]
    fn call(
        &mut self,
        name: &str,
        arguments: &[Argument<'_>],
        line: usize,
    ) -> Result<usize, AllocError>
        ensures grows { Grows self.old self.new }
        ensures stands { IfOk result (λ number. Stands (trees_in self.new) number
            (FunctionTree name.now (argument_trees arguments.now) line)) }
    {
        let name = function_name(self.alloc, name)?;
        let arguments = self.arguments(arguments)?;
        let call = Box::new(self.alloc, CallNode { name, arguments })?;
        self.push(Node::Call { call, line })
    }

    // Appends `first.name(argument)[index]`.
    #[cycle(flatten)]
    fn postfix(
        &mut self,
        first: &Expression<'_>,
        links: &[Link<'_>],
        line: usize,
    ) -> Result<usize, AllocError>
        ensures grows { Grows self.old self.new }
        ensures stands { IfOk result (λ number. Stands (trees_in self.new) number
            (PostfixTree (expression_of first.now) (link_trees (map link_of links.now)) line)) }
    {
        let head = self.expression(first)?;
        let first = narrow(head)?;
        let mut nodes = Vec::with_capacity(self.alloc, links.len())?;
        for link in links {
            let node = self.link(link)?;
            nodes.push(node)?;
        }
        self.push(Node::Postfix {
            first,
            links: nodes,
            line,
        })
    }

    // Appends `not value` or `-value`.
    #[cycle(flatten)]
    fn prefix(
        &mut self,
        prefix: Prefix,
        value: &Expression<'_>,
        line: usize,
    ) -> Result<usize, AllocError>
        ensures grows { Grows self.old self.new }
        ensures stands { IfOk result (λ number. Stands (trees_in self.new) number (PrefixTree prefix (expression_of value.now) line)) }
    {
        let value = self.expression(value)?;
        self.push(Node::Prefix {
            prefix,
            value,
            line,
        })
    }

    // Appends `first + second - third`.
    #[cycle(flatten)]
    fn chain(
        &mut self,
        first: &Expression<'_>,
        others: &[Operand<'_>],
        line: usize,
    ) -> Result<usize, AllocError>
        ensures grows { Grows self.old self.new }
        ensures stands { IfOk result (λ number. Stands (trees_in self.new) number
            (ChainTree (expression_of first.now) (operand_trees (map operand_of others.now)) line)) }
    {
        let head = self.expression(first)?;
        let first = narrow(head)?;
        let mut nodes = Vec::with_capacity(self.alloc, others.len())?;
        for operand in others {
            let value = self.expression(&operand.value)?;
            nodes.push(OperandNode {
                operator: operand.operator,
                value,
            })?;
        }
        self.push(Node::Chain {
            first,
            others: nodes,
            line,
        })
    }

    // Appends `test ? yes : no`.
    #[cycle(flatten)]
    fn ternary(
        &mut self,
        test: &Expression<'_>,
        yes: &Expression<'_>,
        no: &Expression<'_>,
        line: usize,
    ) -> Result<usize, AllocError>
        ensures grows { Grows self.old self.new }
        ensures stands { IfOk result (λ number. Stands (trees_in self.new) number
            (TernaryTree (expression_of test.now) (expression_of yes.now) (expression_of no.now) line)) }
    {
        let test = self.expression(test)?;
        let yes = self.expression(yes)?;
        let no = self.expression(no)?;
        self.push(Node::Ternary {
            test,
            yes,
            no,
            line,
        })
    }

    #[cycle(flatten)]
    fn arguments(&mut self, arguments: &[Argument<'_>]) -> Result<Vec<ArgumentNode>, AllocError>
        ensures grows { Grows self.old self.new }
        ensures parts { IfOk result (λ v. Parts argument_within argument_at (trees_in self.new) v.items (map argument_of arguments.now)) }
    {
        let mut nodes = Vec::with_capacity(self.alloc, arguments.len())?;
        for argument in arguments {
            let name = argument_name(self.alloc, argument.name)?;
            let value = self.expression(&argument.value)?;
            nodes.push(ArgumentNode { name, value })?;
        }
        Ok(nodes)
    }

    #[cycle(flatten)]
    fn link(&mut self, link: &Link<'_>) -> Result<LinkNode, AllocError>
        ensures grows { Grows self.old self.new }
        ensures within { IfOk result (λ node. IsTrue (link_within (length (trees_in self.new)) node)) }
        ensures is { IfOk result (λ node. link_at (trees_in self.new) node ≡ link_of link.now) }
    {
        match link {
            Link::Method { name, arguments } => {
                let name = method_name(self.alloc, name)?;
                let arguments = self.arguments(arguments)?;
                Ok(LinkNode::Method { name, arguments })
            }
            Link::Index { index } => {
                let index = self.expression(index)?;
                Ok(LinkNode::Index { index })
            }
        }
    }
}
