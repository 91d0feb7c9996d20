//! Times the parsing of a definition file.

use crate::measured::Measured;
use crate::stop::Stop;
use std::alloc::Global;
use std::fs;
use std::time::Instant;
use syntax::fault::SyntaxError;
use syntax::parse;
use syntax::tree::File;

/// Returns the tree of a source that parses.
pub fn tree(alloc: Global, source: &str) -> Result<File<'_>, Stop> {
    match parse(alloc, source) {
        Ok(file) => Ok(file),
        Err(SyntaxError::Memory) => Err(Stop("out of memory")),
        Err(SyntaxError::Fault(_)) => Err(Stop("the file does not parse")),
    }
}

/// Parses this file, and returns how many statements it has. The only measure is `statements`.
pub fn measure(rt: &HostRuntime, measure: &str, file: &str) -> Result<Measured, Stop> {
    if measure != "statements" {
        return Err(Stop("the measure of syntax is statements"));
    }
    let source = fs::read_to_string(rt, file)?;
    let start = Instant::now(rt)?;
    let tree = tree(rt.alloc(), source.as_str())?;
    Measured::since(rt, start, tree.statements.len())
}
