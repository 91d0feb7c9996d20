//! Lends the texts of an edge by parts: those that several edges share, and those of one edge.
use crate::edge::rule::EdgeRule;

/// Borrows all parts of an edge.
#[derive(Clone, Copy)]
pub struct LentEdge<'a> {
    pub rule: EdgeRule,
    pub outputs: &'a [String],
    pub inputs: &'a [String],
    pub implicit: &'a [String],
    pub order_only: &'a [String],
    pub words: &'a [String],
    pub redirect: Option<&'a str>,
    pub description: &'a str,
    pub depfile: Option<&'a str>,
}

/// Borrows what is an edge's own, if it shares its rule, its order-only paths and the first words of its command with other edges.
#[derive(Clone, Copy)]
pub struct OwnParts<'a> {
    /// The one path that it makes.
    pub output: &'a str,
    /// The one path that its command names as input.
    pub input: &'a str,
    /// The last words of the command, not yet quoted.
    pub words: &'a [&'a str],
    /// The text that Ninja shows while the command runs.
    pub description: &'a str,
    /// The file in which the compiler lists what it has read.
    pub depfile: &'a str,
}

/// Borrows what edges share: their rule, their order-only paths, and the first words of their commands.
#[derive(Clone, Copy)]
pub struct SharedParts<'a> {
    pub rule: EdgeRule,
    pub order_only: &'a [String],
    /// The first words of the commands, not yet quoted.
    pub words: &'a [String],
}
