//! Implements the methods of strings as functions on `&str`.
//!
//! Each is the method of the same name of the type `str` on the page "Reference manual". Indexes count characters.
//!
//! # Decisions
//!
//! **One loop cuts texts.** `split` with a separator, `split` without one and `splitlines` differ only in how the first piece of a text is
//! found. So one loop takes a way to cut, and three short functions find a first piece. The definitions are separate: parts between
//! separators, words as what is left of the stretches between blanks, and lines by a rule for each byte.
//!
//! **The parts between separators are defined byte by byte.** The parts are a recursion along the text that skips the bytes of a separator
//! once it is found, so the definition is a function that computes. The contract of [`split_at`] adds two laws: joining the parts gives the
//! text again, and no part contains the separator.
//!
//! **The characters of `strip` are kept in a set.** `strip` with an argument looks each character up in a hash set, so the work stays
//! linear however many characters are given.

mod ends;
mod first_piece;
mod join_texts;
mod letters;
mod number;
mod part;
mod placeholders;
mod search;
mod split;

pub use ends::{strip, strip_of};
pub use join_texts::{join, replace};
pub use letters::{to_lower, to_upper, underscorify};
pub use number::to_int;
pub use part::substring;
pub use placeholders::{Places, Segment, place_number, segments};
pub use search::{contains, ends_with, starts_with};
pub use split::{split_at, split_blank, split_lines};
pub use versions::version_compare;
