//! Implements the functions of the page "Reference manual" that declare nothing about the project.
//!
//! What a function does is defined as a deed in `specs/`, and its code does that on a [`world::Caller`]. Functions of one subject share a
//! module, and their paths have its name, as `messages::warning`.
#![tactic(auto)]

pub mod disabler_effect;
pub mod disablers;
pub mod laws;
pub mod messages;
pub mod path_joining;
pub mod ranges;
pub mod rows;
pub mod variables;
