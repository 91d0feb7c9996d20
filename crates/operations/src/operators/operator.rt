//! Lists the operators.

/// Names an operator with one operand.
#[derive(Clone, Copy)]
pub enum Unary {
    /// `not`
    Not,
    /// `-`
    Negate,
}

/// Names an operator with two operands, both of which are evaluated.
#[derive(Clone, Copy)]
pub enum Binary {
    /// `+`
    Add,
    /// `-`
    Subtract,
    /// `*`
    Multiply,
    /// `/`
    Divide,
    /// `%`
    Remainder,
    /// `==`
    Equal,
    /// `!=`
    NotEqual,
    /// `<`
    Less,
    /// `<=`
    LessOrEqual,
    /// `>`
    Greater,
    /// `>=`
    GreaterOrEqual,
    /// `in`
    In,
    /// `not in`
    NotIn,
}

/// Names an operator whose left operand decides whether the right one is evaluated.
#[derive(Clone, Copy)]
pub enum Connective {
    /// `and`
    And,
    /// `or`
    Or,
}
