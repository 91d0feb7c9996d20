//! Implements the operators of the language, and the methods of values other than objects.
#![tactic(auto)]

pub mod methods;
pub mod operators;
