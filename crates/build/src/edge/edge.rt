//! Holds an edge of `build.ninja`: the Ninja manual's "build statement".
ghost use Rattle.std.specs.Prelude.{◌≡◌};

use crate::edge::parts::LentEdge;
use crate::edge::rule::EdgeRule;
use crate::edge::texts::lend_text;

/// Holds a build edge (the Ninja manual's "build statement"): its outputs, and the command that makes them.
///
/// All paths are relative to the build directory.
pub struct Edge {
    pub rule: EdgeRule,
    pub outputs: Vec<String>,
    /// The inputs that the command names.
    pub inputs: Vec<String>,
    /// Further files whose change rebuilds the outputs (the Ninja manual's "implicit dependencies").
    pub implicit: Vec<String>,
    /// Paths that are only made earlier (the Ninja manual's "order-only dependencies").
    pub order_only: Vec<String>,
    /// The words of the command, not yet quoted.
    pub words: Vec<String>,
    /// The file that receives the command's output.
    pub redirect: Option<String>,
    /// The text that Ninja shows while the command runs.
    pub description: String,
    /// The file in which the compiler lists what it has read.
    pub depfile: Option<String>,
}

impl Drop for Edge {
    fn drop(self) {
        let Edge {
            rule: _,
            outputs: _,
            inputs: _,
            implicit: _,
            order_only: _,
            words: _,
            redirect: _,
            description: _,
            depfile: _,
        } = self;
    }
}

impl Edge {
    ghost use Rattle.build.specs.edge.View.{edge_view};
    ghost use Rattle.build.specs.edge.Own.{lent_view};

    /// Returns the edge with all of its parts borrowed.
    pub fn lend(&self) -> LentEdge<'_>
        ensures { lent_view result ≡ edge_view self.now }
    {
        LentEdge {
            rule: self.rule,
            outputs: &self.outputs,
            inputs: &self.inputs,
            implicit: &self.implicit,
            order_only: &self.order_only,
            words: &self.words,
            redirect: lend_text(&self.redirect),
            description: &self.description,
            depfile: lend_text(&self.depfile),
        }
    }
}
