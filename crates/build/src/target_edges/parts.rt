//! Holds the edges of a target in parts.
ghost use Rattle.std.specs.Prelude.{◌≡◌, true};
ghost use Rattle.build.specs.target_edges.Parts.{has_first};

use crate::Input;
use crate::edge::{Edge, EdgeRule};

/// Holds the edges of a build target in parts. Those that compile its sources come first. They share all but three texts of each, and are
/// not made.
pub struct BuildParts {
    /// The words of the compile commands, up to the first that names the object.
    pub words: Vec<String>,
    /// The paths that must be made before a source is compiled.
    pub generated: Vec<String>,
    /// The target's file, from which objects have their names.
    pub file: String,
    /// The sources that are compiled.
    pub inputs: Vec<Input>,
    /// The edges that compile nothing.
    pub rest: Vec<Edge>,
    pub ghost first: { has_first words.items inputs.items ≡ true },
}

impl Drop for BuildParts {
    fn drop(self) {
        let BuildParts {
            words: _,
            generated: _,
            file: _,
            inputs: _,
            rest: _,
        } = self;
    }
}

/// Holds the edge of a custom target: what it borrows from the target, and what is computed.
#[derive(Drop)]
pub struct CustomParts<'a> {
    pub rule: EdgeRule,
    pub outputs: &'a [String],
    pub inputs: Vec<String>,
    pub needs: Vec<String>,
    pub words: &'a [String],
    pub redirect: Option<&'a str>,
    pub description: String,
    pub depfile: Option<String>,
}

/// Holds the edges of a target, in parts.
#[derive(Drop)]
pub enum TargetParts<'a> {
    Build(BuildParts),
    Custom(CustomParts<'a>),
}
