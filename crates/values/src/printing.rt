//! Prints values, for `message` and for the placeholders of a formatted text.
//!
//! See `message` and `str.format` of the page "Reference manual".
//!
//! # Decisions
//!
//! **A value is printed piece by piece.** The output of `message` has no limit, and a list whose items are shared can print as more than a
//! gigabyte. So the text is never made as a whole. A [`Printer`] keeps the parts that are left on its own stack and returns the next piece,
//! so no function is recursive and the caller decides where the pieces go. [`print`] and [`write`] append them to a text up to its limit.
//! [`print`] first checks whether the value contains an object (E9). That check needs no memory, so E9 comes before E22.

mod pieces;
mod printable;
mod writing;

pub use itoa::Buffer as Digits;
pub use pieces::{Piece, Printer};
pub use printable::is_printable;
pub use writing::{plain_text, print, write};
