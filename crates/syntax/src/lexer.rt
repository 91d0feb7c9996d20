//! Cuts Meson definition files into tokens.
//!
//! [`tokens`] returns the tokens of a source, or a [`fault::SyntaxFault`] with the line and what is wrong. [`text_of`] returns the text of
//! a token, and [`magnitude`] the number of a number token. The language is that of the Meson manual's page "Syntax".
//!
//! # Decisions
//!
//! **Where a gap between two tokens ends.** A gap consists of blanks, comments and continuations. It ends where none of these begins: that
//! is all that the relation says. The code looks ahead once after a backslash. The backslash continues the line only if blanks, an optional
//! comment and a newline follow. At the end of a file it continues nothing, which is E2.
//!
//! **A string with an escape of no character is no token.** `\ud800` and `\U00110000` name no character. The lexer refuses a string with
//! such an escape at its first byte, so that nothing later has to give it a text. An unknown escape, or one with too few digits, keeps its
//! backslash.
//!
//! **A slice that no source has.** [`text_of_slice`] fails only if memory runs out. It accepts such a slice too: an escape of no character
//! keeps its backslash, and a string without its quotes is its own text. For tokens of a source, the result is proved to be the text of the
//! token, by a relation that does not know how the text is read.

mod bytes;
mod cut;
mod escape;
pub mod fault;
mod gap;
mod law;
mod number;
mod numeral;
mod string;
mod symbol;
mod text;
pub mod token;
mod word;

pub use bytes::newlines;
pub use cut::{keep_room, tokens};
pub use law::{texts_are_lexed, tokens_stand_for_texts};
pub use numeral::magnitude;
pub use text::{text_in_slice, text_of, text_of_slice};
