//! Checks the first statement of the root file.
ghost use Rattle.std.specs.Prelude.{◌≡◌, ◌<◌, ℕ, List, length};
ghost use Rattle.code.specs.Nodes.{tree_of};
ghost use Rattle.code.specs.Statements.{statement_at};
ghost use Rattle.syntax.specs.ExpressionTree.{ExpressionTree};
ghost use Rattle.interp.specs.FirstStatement.{line_before, other_line};
ghost use Rattle.expressions.specs.Codes.{file_by, statements_by};
ghost use Rattle.interp.specs.Evaluation.{is_project};

use code::Code;
use code::node::{Node, StatementNode};

// Returns whether an expression is a call of `project`.
fn is_project(node: &Node) -> bool
    ensures { (names : List (List ℕ)) (ts : List ExpressionTree)
        → result ≡ is_project (tree_of names ts node.now) }
{
    match node {
        Node::Call { call, .. } => call.name.as_str() == "project",
        _ => false,
    }
}

// Returns the line of a statement that is no call of `project`.
fn other_line(code: &Code, number: usize) -> Option<usize>
    requires { number < length code.now.statements.items }
    ensures { (names : List (List ℕ)) → result ≡ other_line (statement_at (statements_by names code.now) number) }
{
    match &code.statements[number] {
        StatementNode::Expression { value, line } => {
            if is_project(&code.nodes[*value as usize]) {
                None
            } else {
                Some(*line)
            }
        }
        StatementNode::Assign { line, .. } => Some(*line as usize),
        StatementNode::Append { line, .. } => Some(*line as usize),
        StatementNode::Break { line } => Some(*line),
        StatementNode::Continue { line } => Some(*line),
        StatementNode::If { node } => Some(node.line),
        StatementNode::Foreach { node } => Some(node.line),
    }
}

/// Returns the line at which the file should begin with a call of `project`, or `None` if it does begin with one.
pub fn line_before_project(code: &Code) -> Option<usize>
    ensures { (names : List (List ℕ)) → result ≡ line_before (file_by names code.now) }
{
    match code.body.first() {
        Some(number) => other_line(code, *number),
        None => Some(1),
    }
}
