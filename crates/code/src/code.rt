//! Defines the code of a file.
ghost use Rattle.std.specs.Prelude.{IsTrue, length};
ghost use Rattle.code.specs.Nodes.{all_within, are_below};
ghost use Rattle.code.specs.Statements.{all_placed};

use crate::node::{Node, StatementNode};

/// Holds a definition file as flat lists. An expression is identified by its index in `nodes` and a statement by its index in `statements`.
///
/// Each comes after its parts, so a walk over parts ends. Names are indexes into a table of names.
pub struct Code {
    pub nodes: Vec<Node>,
    pub statements: Vec<StatementNode>,
    /// The statements of the file itself, in order.
    pub body: Vec<usize>,
    /// The length of the table of names when the code was made: all indexes of names are less.
    pub names: usize,
    pub ghost ordered: { IsTrue (all_within names 0 nodes.items) },
    pub ghost placed: { IsTrue (all_placed names (length nodes.items) 0 statements.items) },
    pub ghost whole: { IsTrue (are_below (length statements.items) body.items) },
}

// Dropping code is proved once here, so that no other crate has to prove how each kind of node is dropped.
impl Drop for Code {
    fn drop(self) {
        let Code {
            nodes: _,
            statements: _,
            body: _,
            names: _,
        } = self;
    }
}
