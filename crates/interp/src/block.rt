//! Finds the lists of statements in the code of a file.
ghost use Rattle.std.specs.Prelude.{◌≡◌};
ghost use Rattle.std.specs.List.{list_all};
ghost use Rattle.interp.specs.Blocks.{branch_or, is_simple_at, part_of, statements_of};

use code::Code;
use code::node::{BranchNode, IfNode, StatementNode};

/// Names a list of statements.
#[derive(Clone, Copy)]
pub enum Block {
    /// The statements of the file itself.
    File,
    /// The statements of a part of a statement: a branch of an `if` by its index, its `else` after the last branch, or the body of a loop.
    Part { statement: usize, part: usize },
}

// Returns the statements of a branch, or those of `else` if there is no such branch.
fn branch_or<'a>(branches: &'a [BranchNode], otherwise: &'a [usize], part: usize) -> &'a [usize]
    ensures { result.now ≡ branch_or otherwise.now branches.now part }
{
    if part < branches.len() {
        &branches[part].body
    } else {
        otherwise
    }
}

// Returns the statements of a part of a statement.
fn part_of(node: &StatementNode, part: usize) -> &[usize]
    ensures { result.now ≡ part_of node.now part }
{
    match node {
        StatementNode::If { node } => {
            let node: &IfNode = node;
            branch_or(&node.branches, &node.otherwise, part)
        }
        StatementNode::Foreach { node } => &node.body,
        StatementNode::Assign { .. } => &[],
        StatementNode::Append { .. } => &[],
        StatementNode::Expression { .. } => &[],
        StatementNode::Break { .. } => &[],
        StatementNode::Continue { .. } => &[],
    }
}

/// Returns the numbers of the statements of a block.
pub fn statements_of(code: &Code, block: Block) -> &[usize]
    ensures { result.now ≡ statements_of code.now block }
{
    match block {
        Block::File => &code.body,
        Block::Part { statement, part } => {
            if statement < code.statements.len() {
                part_of(&code.statements[statement], part)
            } else {
                &[]
            }
        }
    }
}

/// Returns whether each statement of a block sets a variable or leaves the block. Then none of them needs the stack.
pub fn are_simple(code: &Code, block: Block) -> bool
    ensures { result ≡ list_all (is_simple_at code.now) (statements_of code.now block) }
{
    statements_of(code, block).iter().all(|number| match code.statements.get(*number) {
        Some(StatementNode::Assign { .. }) => true,
        Some(StatementNode::Append { .. }) => true,
        Some(StatementNode::Break { .. }) => true,
        Some(StatementNode::Continue { .. }) => true,
        Some(_) => false,
        None => true,
    })
}
