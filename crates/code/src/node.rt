//! Defines the nodes of expressions and statements.
use crate::literal::LiteralNode;
use syntax::tree::{Operator, Prefix};
use values::Text;
use values::language_names::{FunctionName, MethodName};

/// Holds an expression, whose parts are given by their indexes in the list of nodes. Each node has the line of its first token.
#[derive(Drop)]
pub enum Node {
    /// A name, by its index in the table of names.
    Name {
        number: usize,
        line: usize,
    },
    /// A literal. It is the largest variant, so its line is next to the tag of the enum.
    Literal {
        line: u32,
        literal: LiteralNode,
    },
    /// `[first, second]`
    List {
        items: Vec<usize>,
        line: usize,
    },
    /// `{key : value, key : value}`
    Dictionary {
        entries: Vec<EntryNode>,
        line: usize,
    },
    /// `name(argument, name: argument)`
    Call {
        call: Box<CallNode>,
        line: usize,
    },
    /// `first.name(argument)[index]`: a value, and the links that follow it.
    Postfix {
        first: u32,
        links: Vec<LinkNode>,
        line: usize,
    },
    /// `not value` or `-value`
    Prefix {
        prefix: Prefix,
        value: usize,
        line: usize,
    },
    /// `first + second - third`: values with operators between them, all of the same precedence.
    Chain {
        first: u32,
        others: Vec<OperandNode>,
        line: usize,
    },
    /// `test ? yes : no`
    Ternary {
        test: usize,
        yes: usize,
        no: usize,
        line: usize,
    },
}

/// Holds a call: the name of a function, and its arguments.
#[derive(Drop)]
pub struct CallNode {
    pub name: FunctionName,
    pub arguments: Vec<ArgumentNode>,
}

/// Names an operator and the value after it.
#[derive(Clone, Copy)]
pub struct OperandNode {
    pub operator: Operator,
    pub value: usize,
}

/// Holds an entry of a dictionary, `key : value`.
#[derive(Clone, Copy)]
pub struct EntryNode {
    pub key: usize,
    pub value: usize,
}

/// Holds an argument, with its name if it is a keyword argument.
#[derive(Drop)]
pub struct ArgumentNode {
    pub name: Option<Text>,
    pub value: usize,
}

/// Holds a link after a value.
#[derive(Drop)]
pub enum LinkNode {
    /// `.name(argument)`
    Method {
        name: MethodName,
        arguments: Vec<ArgumentNode>,
    },
    /// `[index]`
    Index {
        index: usize,
    },
}

/// Holds a statement, whose parts are given by their indexes. Each has the line of its first token.
#[derive(Drop)]
pub enum StatementNode {
    /// `name = value`
    Assign { name: u32, line: u32, value: u32 },
    /// `name += value`
    Append { name: u32, line: u32, value: u32 },
    /// An expression as a statement.
    Expression { value: u32, line: usize },
    /// `break`
    Break { line: usize },
    /// `continue`
    Continue { line: usize },
    /// `if`, with a branch for each `elif`, up to `endif`.
    If { node: Box<IfNode> },
    /// `foreach first, second : list`, up to `endforeach`.
    Foreach { node: Box<ForeachNode> },
}

/// Holds the branches of an `if` that have a condition, and the statements after `else`.
#[derive(Drop)]
pub struct IfNode {
    pub line: usize,
    pub branches: Vec<BranchNode>,
    pub otherwise: Vec<usize>,
}

/// Holds the names of a `foreach`, its list, and the statements of a round.
#[derive(Drop)]
pub struct ForeachNode {
    pub line: usize,
    pub first: usize,
    pub second: Option<usize>,
    pub list: usize,
    /// The line of the list's first token.
    pub list_line: usize,
    pub body: Vec<usize>,
}

/// Holds a branch of an `if`: a condition, and the statements that run if it is true.
#[derive(Drop)]
pub struct BranchNode {
    pub condition: usize,
    /// The line of the condition's first token.
    pub line: usize,
    pub body: Vec<usize>,
}
