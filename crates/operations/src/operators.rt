//! Evaluates the operators of the language: the page "Syntax" of the Meson manual.
//!
//! # Decisions
//!
//! **Operators have two tables.** The first table, a partial function, gives the result of an operation, and the second the reason if there
//! is none. So a row can be compared with a row of the manual, and each refusal is exact. Limits of size (E22) and disablers are added on
//! top, for every operator alike.
//!
//! **`and` and `or` are two calls.** Their right side may have to be skipped, so they are no operators of two values. [`left_side`] takes
//! the left value and returns either the value of the whole or that the right side decides; [`right_side`] takes the right value.
//!
//! **Sums change in place what nobody else shares.** [`binary`] takes its operands by value. If the left side of `+` is the last reference
//! to a list, a dictionary or a text, it is extended in place. Otherwise it is copied, since Rust does not allow a shared value to be
//! changed.
//!
//! **The keys of a literal are checked before its size.** The first key of a dictionary literal that is no text (E6) or is already present
//! (E11) decides, even past the limit of entries. The limits (E22) are checked once all entries are there.

mod arithmetic;
mod lists;
mod literal;
mod logic;
mod membership;
mod operations;
mod operator;
mod parts;
mod relations;
mod text_sums;

pub use literal::{LiteralRefusal, dictionary, list, text_list};
pub use logic::{Left, left_side, right_side};
pub use operations::{binary, unary};
pub use operator::{Binary, Connective, Unary};
pub use parts::{index, indexed_item};
