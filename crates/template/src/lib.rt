//! Holds configuration data, and writes templates with its values: the parts of `configuration_data` and `configure_file` of the Meson
//! reference manual.
//!
//! # Decisions
//!
//! **A merge is reverted if memory runs out.** `merge_from` sets the other data's values one by one, which takes time for the other data
//! only, and notes the earlier value of each name. An ordered map can't allocate its memory beforehand. If memory runs out in the middle,
//! the changes are reverted, the last one first, which does not allocate. `undo` is proved to restore the same entries.
//!
//! **A line is searched again after each read.** After each read, [`pass`] searches the whole line for its end. If reads fill the buffer,
//! that is linear. For a device that gives one byte a call, it takes the square of the length of a line, which is bounded.
#![tactic(auto)]

mod config;
mod heading;
mod replace;
mod stop;
mod template;

pub use config::{ConfigData, ConfigValue, SetStop};
pub use heading::header;
pub use stop::PassStop;
pub use template::{LINE_LIMIT, pass};
