//! Defines the tree of a definition file. Each node has the line of its first token; a chain of operators begins with the bracket around
//! its first value. Brackets have no node of their own.

ghost use Rattle.std.specs.Prelude.{◌≡◌, is_some};

/// Holds a definition file.
pub struct File<'a> {
    pub statements: Vec<Statement<'a>>,
}

impl Drop for File<'_> {
    fn drop(self) {
        let File { statements: _ } = self;
    }
}

/// Holds a statement, in the terms of the manual's page "Syntax". Its line is that of its first token. It is no larger than an expression
/// with a line, because a file of many short lines has as many statements.
#[cycle(statement)]
pub enum Statement<'a> {
    /// `name = value`
    Assign {
        name: &'a str,
        line: usize,
        value: Box<Expression<'a>>,
    },
    /// `name += value`
    Append {
        name: &'a str,
        line: usize,
        value: Box<Expression<'a>>,
    },
    /// An expression alone, such as a call.
    Expression {
        value: Expression<'a>,
        line: usize,
    },
    /// `break`, in the body of a `foreach`.
    Break {
        line: usize,
    },
    /// `continue`, in the body of a `foreach`.
    Continue {
        line: usize,
    },
    /// `if`, with a part for each `elif`, up to `endif`.
    If {
        line: usize,
        /// The first branch follows `if`, each other one an `elif`.
        branches: Vec<Branch<'a>>,
        /// The statements after `else`, or none if there is no `else`.
        otherwise: Vec<Statement<'a>>,
    },
    /// `foreach first : list`, or `foreach first, second : list`, up to `endforeach`.
    Foreach {
        line: usize,
        first: &'a str,
        second: Option<&'a str>,
        /// The list, in place of a condition, and the statements of the loop.
        round: Box<Branch<'a>>,
    },
}

/// Holds a branch of an `if`: a condition, and the statements that run if it holds. A `foreach` has its list in the condition's place.
#[cycle(statement)]
#[derive(Drop)]
pub struct Branch<'a> {
    pub condition: Expression<'a>,
    /// The line of the condition's first token.
    pub line: usize,
    pub body: Vec<Statement<'a>>,
}

/// Holds an expression.
#[cycle(tree)]
pub enum Expression<'a> {
    /// A name.
    Name {
        name: &'a str,
        line: usize,
    },
    /// A literal, as written in the source: a string keeps its quotes.
    Literal {
        literal: Literal,
        text: &'a str,
        line: usize,
    },
    /// `[first, second]`
    List {
        items: Vec<Expression<'a>>,
        line: usize,
    },
    /// `{key : value, key : value}`
    Dictionary {
        entries: Vec<Entry<'a>>,
        line: usize,
    },
    /// `name(argument, name: argument)`
    Call {
        line: usize,
        name: &'a str,
        arguments: Vec<Argument<'a>>,
    },
    /// `first.name(argument)[index]`: a value, and the methods and indexes that follow it.
    Postfix {
        first: Box<Expression<'a>>,
        links: Vec<Link<'a>>,
        line: usize,
    },
    /// `not value` or `-value`
    Prefix {
        prefix: Prefix,
        value: Box<Expression<'a>>,
        line: usize,
    },
    /// `first + second - third`: values with operators of one precedence between them.
    Chain {
        first: Box<Expression<'a>>,
        others: Vec<Operand<'a>>,
        line: usize,
    },
    /// `test ? yes : no`
    Ternary {
        test: Box<Expression<'a>>,
        yes: Box<Expression<'a>>,
        no: Box<Expression<'a>>,
        line: usize,
    },
}

impl<'a> Argument<'a> {
    ghost use Rattle.syntax.specs.ExpressionTree.{argument_of, expression_of};

    /// Returns the value of the argument.
    pub fn value(&self) -> &Expression<'a>
        ensures { expression_of result.now ≡ (argument_of self.now).1 }
    {
        &self.value
    }

    /// Returns whether the argument has a name.
    pub fn is_named(&self) -> bool
        ensures { result ≡ is_some (argument_of self.now).0 }
    {
        self.name.is_some()
    }
}

/// Lists the kinds of literals.
#[derive(Clone, Copy)]
pub enum Literal {
    True,
    False,
    /// A decimal number, or one that begins with `0x`, `0o` or `0b`.
    Number,
    /// `'..'`
    String,
    /// `'''..'''`
    RawString,
    /// `f'..'`
    FormatString,
    /// `f'''..'''`
    RawFormatString,
}

/// Lists the operators between two values.
#[derive(Clone, Copy)]
pub enum Operator {
    Or,
    And,
    /// `==`
    Equal,
    /// `!=`
    NotEqual,
    Less,
    LessOrEqual,
    Greater,
    GreaterOrEqual,
    In,
    /// `not in`
    NotIn,
    Add,
    Subtract,
    Multiply,
    Divide,
    Remainder,
}

/// Holds an operator and the value after it.
#[cycle(tree)]
#[derive(Drop)]
pub struct Operand<'a> {
    pub operator: Operator,
    pub value: Expression<'a>,
}

/// Lists the operators before a value.
#[derive(Clone, Copy)]
pub enum Prefix {
    Not,
    /// `-`
    Negative,
}

/// Holds an entry of a dictionary: `key : value`.
#[cycle(tree)]
#[derive(Drop)]
pub struct Entry<'a> {
    pub key: Expression<'a>,
    pub value: Expression<'a>,
}

/// Holds an argument, and its name if it has one. Arguments with a name follow the others.
#[cycle(tree)]
#[derive(Drop)]
pub struct Argument<'a> {
    pub name: Option<&'a str>,
    pub value: Expression<'a>,
}

/// Holds a method or an index that follows a value.
#[cycle(tree)]
pub enum Link<'a> {
    /// `.name(argument)`
    Method {
        name: &'a str,
        arguments: Vec<Argument<'a>>,
    },
    /// `[index]`
    Index {
        index: Expression<'a>,
    },
}

// ---- dropping
//
// `drop` is written out for types with variants, so that a caller drops a node by one call and not variant by variant.

impl Drop for Statement<'_> {
    #[cycle(statement)]
    fn drop(self) {
        match self {
            Statement::Assign {
                name: _,
                line: _,
                value: _,
            } => {}
            Statement::Append {
                name: _,
                line: _,
                value: _,
            } => {}
            Statement::Expression { value: _, line: _ } => {}
            Statement::Break { line: _ } => {}
            Statement::Continue { line: _ } => {}
            Statement::If {
                line: _,
                branches: _,
                otherwise: _,
            } => {}
            Statement::Foreach {
                line: _,
                first: _,
                second: _,
                round: _,
            } => {}
        }
    }
}

impl Drop for Expression<'_> {
    #[cycle(tree)]
    fn drop(self) {
        match self {
            Expression::Name { name: _, line: _ } => {}
            Expression::Literal {
                literal: _,
                text: _,
                line: _,
            } => {}
            Expression::List { items: _, line: _ } => {}
            Expression::Dictionary {
                entries: _,
                line: _,
            } => {}
            Expression::Call {
                line: _,
                name: _,
                arguments: _,
            } => {}
            Expression::Postfix {
                first: _,
                links: _,
                line: _,
            } => {}
            Expression::Prefix {
                prefix: _,
                value: _,
                line: _,
            } => {}
            Expression::Chain {
                first: _,
                others: _,
                line: _,
            } => {}
            Expression::Ternary {
                test: _,
                yes: _,
                no: _,
                line: _,
            } => {}
        }
    }
}

impl Drop for Link<'_> {
    #[cycle(tree)]
    fn drop(self) {
        match self {
            Link::Method {
                name: _,
                arguments: _,
            } => {}
            Link::Index { index: _ } => {}
        }
    }
}
