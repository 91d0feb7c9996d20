//! Builds the code of a file.
ghost use Rattle.std.specs.Prelude.{◌≡◌, [], IsTrue, IfOk, length, nat_lt, option_map};
ghost use Rattle.syntax.specs.ExpressionTree.{expression_of};
ghost use Rattle.code.specs.Statements.{all_placed, statement_within, statement_tree, name_at, second_within};

use crate::draft::Draft;
use crate::names::Names;
use crate::node::StatementNode;
use std::alloc::{AllocError, Global};
use syntax::tree::Expression;

/// Holds the expressions and statements so far.
#[derive(Drop)]
pub struct FileDraft {
    pub draft: Draft,
    pub statements: Vec<StatementNode>,
    pub ghost placed: { IsTrue (all_placed (length draft.names) (length draft.nodes.items) 0 statements.items) },
}

impl FileDraft {
    ghost use Rattle.code.specs.Draft.{trees_in, Stands};
    ghost use Rattle.code.specs.FileDraft.{statements_in, Extends, IsStatement};

    /// Returns a draft without expressions and statements, which adds names to this table.
    pub fn new(alloc: Global, names: Names) -> FileDraft
        ensures names { result.draft.names ≡ names }
        ensures statements { statements_in result ≡ [] }
    {
        FileDraft {
            draft: Draft::new(alloc, names),
            statements: Vec::new(alloc),
        }
    }

    /// Returns the number of a name, which is added to the table if it is new.
    pub fn name(&mut self, name: &str) -> Result<usize, AllocError>
        ensures extends { Extends self.old self.new }
        ensures within { IfOk result (λ number. IsTrue (nat_lt number (length self.new.draft.names))) }
        ensures is { IfOk result (λ number. name_at self.new.draft.names number ≡ name.now) }
    {
        self.draft.name(name)
    }

    /// Returns the numbers of the names of a loop, which are added to the table if they are new. The second name is optional.
    pub fn loop_names(
        &mut self,
        first: &str,
        second: Option<&str>,
    ) -> Result<(usize, Option<usize>), AllocError>
        ensures extends { Extends self.old self.new }
        ensures within { IfOk result (λ p. IsTrue (nat_lt p.0 (length self.new.draft.names))) }
        ensures is { IfOk result (λ p. name_at self.new.draft.names p.0 ≡ first.now) }
        ensures second_within { IfOk result (λ p. IsTrue (second_within (length self.new.draft.names) p.1)) }
        ensures second_is { IfOk result (λ p. option_map (name_at self.new.draft.names) p.1 ≡ option_map (λ n. n.now) second.entry) }
    {
        self.draft.loop_names(first, second)
    }

    /// Appends the nodes of an expression, and returns the number of its own node.
    pub fn expression(&mut self, expression: &Expression<'_>) -> Result<usize, AllocError>
        ensures extends { Extends self.old self.new }
        ensures stands { IfOk result (λ number. Stands (trees_in self.new.draft) number (expression_of expression.now)) }
    {
        self.draft.expression(expression)
    }

    /// Appends a statement, and returns its number.
    pub fn push(&mut self, statement: StatementNode) -> Result<usize, AllocError>
        requires { IsTrue (statement_within (length self.old.draft.names) (length (trees_in self.old.draft))
            (length (statements_in self.old))
            statement) }
        ensures extends { Extends self.old self.new }
        ensures is { IfOk result (λ number. IsStatement self.new number
            (statement_tree self.old.draft.names (trees_in self.old.draft) (statements_in self.old) statement)) }
    {
        let number = self.statements.len();
        self.statements.push(statement)?;
        Ok(number)
    }
}
