//! Builds code by appending nodes, each after its parts.
ghost use Rattle.std.specs.Prelude.{◌≡◌, [], IsTrue, IfOk, length, nat_lt, option_map, slice_index_or};
ghost use Rattle.code.specs.Nodes.{all_within, within, tree_of};
ghost use Rattle.code.specs.Statements.{name_at, second_within};

use crate::names::Names;
use crate::node::Node;
use std::alloc::{AllocError, Global};

/// Holds the nodes so far, with the table of the names that they use.
#[derive(Drop)]
pub struct Draft {
    pub alloc: Global,
    pub names: Names,
    pub nodes: Vec<Node>,
    pub ghost ordered: { IsTrue (all_within (length names) 0 nodes.items) },
}

impl Draft {
    ghost use Rattle.code.specs.Draft.{trees_in, Grows, Stands};

    /// Returns a draft without nodes, which adds names to this table.
    pub fn new(alloc: Global, names: Names) -> Draft
        ensures names { result.names ≡ names }
        ensures trees { trees_in result ≡ [] }
    {
        Draft {
            alloc,
            names,
            nodes: Vec::new(alloc),
        }
    }

    /// Appends a node, and returns its number.
    pub fn push(&mut self, node: Node) -> Result<usize, AllocError>
        requires { IsTrue (within (length self.old.names) (length (trees_in self.old)) node) }
        ensures grows { Grows self.old self.new }
        ensures stands { IfOk result (λ number. Stands (trees_in self.new) number (tree_of self.old.names (trees_in self.old) node)) }
    {
        let number = self.nodes.len();
        self.nodes.push(node)?;
        Ok(number)
    }

    /// Returns the number of a name, which is added to the table if it is new.
    pub fn name(&mut self, name: &str) -> Result<usize, AllocError>
        ensures grows { Grows self.old self.new }
        ensures trees { trees_in self.new ≡ trees_in self.old }
        ensures within { IfOk result (λ number. IsTrue (nat_lt number (length self.new.names))) }
        ensures is { IfOk result (λ number. slice_index_or self.new.names number [] ≡ name.now) }
    {
        self.names.put(name)
    }

    // Returns the number of a name, if there is one.
    fn second_name(&mut self, name: Option<&str>) -> Result<Option<usize>, AllocError>
        ensures grows { Grows self.old self.new }
        ensures trees { trees_in self.new ≡ trees_in self.old }
        ensures within { IfOk result (λ number. IsTrue (second_within (length self.new.names) number)) }
        ensures is { IfOk result (λ number. option_map (name_at self.new.names) number ≡ option_map (λ n. n.now) name.entry) }
    {
        match name {
            Some(name) => Ok(Some(self.name(name)?)),
            None => Ok(None),
        }
    }

    /// Returns the numbers of the names of a loop, which are added to the table if they are new. The second name is optional.
    pub fn loop_names(
        &mut self,
        first: &str,
        second: Option<&str>,
    ) -> Result<(usize, Option<usize>), AllocError>
        ensures grows { Grows self.old self.new }
        ensures within { IfOk result (λ p. IsTrue (nat_lt p.0 (length self.new.names))) }
        ensures is { IfOk result (λ p. name_at self.new.names p.0 ≡ first.now) }
        ensures second_within { IfOk result (λ p. IsTrue (second_within (length self.new.names) p.1)) }
        ensures second_is { IfOk result (λ p. option_map (name_at self.new.names) p.1 ≡ option_map (λ n. n.now) second.entry) }
    {
        let first = self.name(first)?;
        let second = self.second_name(second)?;
        Ok((first, second))
    }
}
