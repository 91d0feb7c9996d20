//! Defines the questions asked of the machine file.

use machine_file::Question;

/// Holds a question that was asked of the machine file, and the place of the call that asked it.
#[derive(Drop)]
pub struct Asked {
    pub question: Question,
    /// The definition file.
    pub file: String,
    /// The line, from 1.
    pub line: usize,
}
