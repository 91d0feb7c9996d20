//! Evaluates all that needs no call: expressions given the values of their parts, variables, and the definition files that are opened.
#![tactic(auto)]

mod assign;
mod conditions;
mod context;
mod details;
mod folder_entry;
mod format_strings;
mod forms;
mod literals;
mod loops;
mod meaning;
mod names;

pub use conditions::Choice;
pub use context::Context;
pub use details::method_detail;
pub use loops::{Round, check_loop, round_at};
pub use meaning::{InfixOperator, meaning_of};
pub use names::disabler_method;
