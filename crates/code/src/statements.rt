//! Flattens statements.
ghost use Rattle.std.specs.Prelude.{◌≡◌, IsTrue, IfOk, map, length};
ghost use Rattle.std.specs.Option.{option_map};
ghost use Rattle.syntax.specs.ExpressionTree.{expression_of};
ghost use Rattle.syntax.specs.ReadingStatements.{set_tree};
ghost use Rattle.syntax.specs.Tree.{ValueTree, ForeachTree, IfTree, statement_of, branch_of, branches as branch_trees, statements};
ghost use Rattle.code.specs.Nodes.{are_below};
ghost use Rattle.code.specs.Statements.{statement_at, set_node};

use crate::file_draft::FileDraft;
use crate::narrow_numbers::narrow;
use crate::node::{BranchNode, ForeachNode, IfNode, StatementNode};
use std::alloc::AllocError;
use syntax::tree::{Branch, Expression, Statement};

// Returns the node that assigns a value to a name, or adds one to its value.
fn set(adds: bool, name: usize, line: usize, value: usize) -> Result<StatementNode, AllocError>
    ensures { IfOk result (λ node. node ≡ set_node adds name line value) }
{
    let name = narrow(name)?;
    let line = narrow(line)?;
    let value = narrow(value)?;
    if adds {
        Ok(StatementNode::Append { name, line, value })
    } else {
        Ok(StatementNode::Assign { name, line, value })
    }
}

impl FileDraft {
    ghost use Rattle.code.specs.FileDraft.{statements_in, Extends, IsStatement, AreStatements, AreBranches};

    // Appends `name = value`, or `name += value`, which adds to the value of the name.
    fn assign(
        &mut self,
        adds: bool,
        name: &str,
        line: usize,
        value: &Expression<'_>,
    ) -> Result<usize, AllocError>
        ensures extends { Extends self.old self.new }
        ensures is { IfOk result (λ i. IsStatement self.new i (set_tree adds name.now line (expression_of value.now))) }
    {
        let value = self.expression(value)?;
        let name = self.name(name)?;
        let node = set(adds, name, line, value)?;
        self.push(node)
    }

    // Appends an expression as a statement.
    fn value(&mut self, value: &Expression<'_>, line: usize) -> Result<usize, AllocError>
        ensures extends { Extends self.old self.new }
        ensures is { IfOk result (λ i. IsStatement self.new i (ValueTree (expression_of value.now) line)) }
    {
        let number = self.expression(value)?;
        let value = narrow(number)?;
        self.push(StatementNode::Expression { value, line })
    }

    // Appends `foreach first, second : list`, whose body is already there.
    fn foreach(
        &mut self,
        line: usize,
        first: &str,
        second: Option<&str>,
        list: &Expression<'_>,
        list_line: usize,
        body: Vec<usize>,
    ) -> Result<usize, AllocError>
        requires { IsTrue (are_below (length (statements_in self.old)) body.items) }
        ensures extends { Extends self.old self.new }
        ensures is { IfOk result (λ i. IsStatement self.new i
            (ForeachTree line first.now (option_map (λ n. n.now) second.entry) (expression_of list.now) list_line
            (statements (map (statement_at (statements_in self.old)) body.items)))) }
    {
        let list = self.expression(list)?;
        let (first, second) = self.loop_names(first, second)?;
        let node = ForeachNode {
            line,
            first,
            second,
            list,
            list_line,
            body,
        };
        let node = Box::new(self.draft.alloc, node)?;
        self.push(StatementNode::Foreach { node })
    }

    // Appends the nodes of a statement, its own node last, and returns the number of that node.
    #[cycle(flatten_statement)]
    fn statement(&mut self, statement: &Statement<'_>) -> Result<usize, AllocError>
        ensures extends { Extends self.old self.new }
        ensures is { IfOk result (λ i. IsStatement self.new i (statement_of statement.now)) }
    {
        match statement {
            Statement::Assign { name, line, value } => self.assign(false, name, *line, value),
            Statement::Append { name, line, value } => self.assign(true, name, *line, value),
            Statement::Expression { value, line } => self.value(value, *line),
            Statement::Break { line } => self.push(StatementNode::Break { line: *line }),
            Statement::Continue { line } => self.push(StatementNode::Continue { line: *line }),
            Statement::If {
                line,
                branches,
                otherwise,
            } => self.conditional(*line, branches, otherwise),
            Statement::Foreach {
                line,
                first,
                second,
                round,
            } => self.repeated(*line, first, *second, round),
        }
    }

    // Appends a `foreach`: the statements of its body, then its own node. Its names are added first, so that f-strings in its body find
    // them.
    #[cycle(flatten_statement)]
    fn repeated(
        &mut self,
        line: usize,
        first: &str,
        second: Option<&str>,
        round: &Branch<'_>,
    ) -> Result<usize, AllocError>
        ensures extends { Extends self.old self.new }
        ensures is { IfOk result (λ i. IsStatement self.new i (ForeachTree line first.now (option_map (λ n. n.now) second.entry)
            (branch_of round.now).0 (branch_of round.now).1 (branch_of round.now).2)) }
    {
        self.loop_names(first, second)?;
        let body = self.body(&round.body)?;
        self.foreach(line, first, second, &round.condition, round.line, body)
    }

    // Appends an `if`: its branches with a condition, and the statements after `else`.
    #[cycle(flatten_statement)]
    fn conditional(
        &mut self,
        line: usize,
        branches: &[Branch<'_>],
        otherwise: &[Statement<'_>],
    ) -> Result<usize, AllocError>
        ensures extends { Extends self.old self.new }
        ensures is { IfOk result (λ i. IsStatement self.new i
            (IfTree line (branch_trees (map branch_of branches.now)) (statements (map statement_of otherwise.now)))) }
    {
        let branches = self.branches(branches)?;
        let otherwise = self.body(otherwise)?;
        let node = IfNode {
            line,
            branches,
            otherwise,
        };
        let node = Box::new(self.draft.alloc, node)?;
        self.push(StatementNode::If { node })
    }

    /// Appends the nodes of these statements, and returns their numbers.
    #[cycle(flatten_statement)]
    pub fn body(&mut self, body: &[Statement<'_>]) -> Result<Vec<usize>, AllocError>
        ensures extends { Extends self.old self.new }
        ensures are { IfOk result (λ v. AreStatements self.new v.items (map statement_of body.now)) }
    {
        let mut numbers = Vec::with_capacity(self.draft.alloc, body.len())?;
        for statement in body {
            let number = self.statement(statement)?;
            numbers.push(number)?;
        }
        Ok(numbers)
    }

    #[cycle(flatten_statement)]
    fn branches(&mut self, branches: &[Branch<'_>]) -> Result<Vec<BranchNode>, AllocError>
        ensures extends { Extends self.old self.new }
        ensures are { IfOk result (λ v. AreBranches self.new v.items (map branch_of branches.now)) }
    {
        let mut nodes = Vec::with_capacity(self.draft.alloc, branches.len())?;
        for branch in branches {
            let condition = self.expression(&branch.condition)?;
            let body = self.body(&branch.body)?;
            nodes.push(BranchNode {
                condition,
                line: branch.line,
                body,
            })?;
        }
        Ok(nodes)
    }
}
