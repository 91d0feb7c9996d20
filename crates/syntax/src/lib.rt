//! Parses Meson definition files.
//!
//! [`parse`] returns the tree of the file that a source spells, or a [`fault::SyntaxFault`] with the line and what is wrong. The language
//! is that of the Meson manual's page "Syntax". Nothing in this crate knows what a name or a call means.
//!
//! # Decisions
//!
//! **The grammar of expressions recurses on levels only.** Every bracket and prefix operator opens a level, and so does every bracket of a
//! call or an index. So `unary`, the form of the values between operators, is defined for a number of levels that may still be opened, from
//! its definition for one level less. The lines above it (`product` to `ternary`) are plain functions of it.
//!
//! If no level is left, a form that opens one is `never`. So comparing the grammars for 64 and for 65 levels shows which token opens a
//! level too many, without any counter. An argument of these lines says whether an expression may hold a ternary, because the branches of a
//! ternary may hold none, at any depth. The list with commas carries a state from one element to the next (`listed_by` of
//! `specs/Form.antt`), so that arguments with a name follow the others.
//!
//! **One function reads chains.** The four lines of the grammar that are chains have one reader, which `Rank` selects. The readers that
//! contracts cite take the operators and the part as arguments, and `specs/Expressions.antt` still has each line of the grammar. The proofs
//! use a number for how tightly a token binds the value before it (`proofs/Binding.antt`), and so know what may follow each line.
//!
//! **An expression of one token is read at once.** Most expressions are a name or a literal, followed by `,` `)` `]` `}` `:` or the end of
//! a line. `ternary` takes such an expression (`alone`) before it goes down the lines of the grammar, which would all pass it on unchanged
//! (`proofs/Alone.antt`).
//!
//! **An `else` without statements equals no `else`.** The tree of an `if` holds the statements after `else` as a list, which is empty if
//! there is no `else` or if nothing follows it. No rule of evaluation distinguishes both.
//!
//! **The parser goes down statements by levels.** A block opens a level at its word, and its condition or list is inside. So the functions
//! that read statements call each other by levels, as those of expressions do. No source can make the parser's stack deeper than 64 levels.
//! A body ends at a word at which any body ends: `elif`, `else`, `endif` or `endforeach`. The block then requires its own word.
//!
//! **Memory of a parse.** All tokens of a file are cut before the tree is read. A token takes 32 bytes, plus the statement and the values
//! of its line. The tokens are freed once the tree is complete. Each list of the tree is shrunk to its length when it is complete, because
//! most lists are short. `bench/README.md` has measurements of files of different shapes. Time is linear.
#![tactic(auto)]

mod law;
pub mod lexer;
mod parser;
mod stop;
pub mod tree;

pub use law::texts_are_parsed;
pub use lexer::{fault, token, tokens};
pub use parser::{LEVELS, parse};
