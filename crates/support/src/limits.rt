//! Defines the limits of a run. Anything larger is refused with E22.

/// States how many bytes a text or a definition file may have.
pub const TEXT_BYTES: usize = 16_777_216;

/// States how many items may be in a list or a dictionary.
pub const ITEMS: usize = 65_536;

/// States how many levels of lists and dictionaries may be nested.
pub const LEVELS: u32 = 64;

/// States how much a value may weigh. A text weighs its bytes plus one, a list or a dictionary the sum of its content plus one, anything
/// else one.
pub const WEIGHT: u32 = 33_554_432;

/// States how many folders a run may enter, including the root.
pub const FOLDERS: usize = 4_096;

/// States how many bytes may be in a line of a template, including its line ending.
pub const LINE_BYTES: usize = 65_536;
