//! Holds the state of an evaluation.
use arguments::Arguments;
use expressions::Context;
use ports::{Outputs, Tree};
use std::sync::ledger::Ledger;

/// Evaluates definition files.
#[derive(Drop)]
pub struct Evaluator<'a, T, O, L: Ledger> {
    pub context: Context<'a, T, O, L>,
    /// The empty lists of the arguments of an earlier method. The next method reuses their memory.
    pub room: &'a mut Arguments,
}
