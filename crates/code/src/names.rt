//! Keeps the table of names.
ghost use Rattle.std.specs.Prelude.{◌≡◌, Some, [], length, option_map, slice_get, IfOk, OnOk, OnErr, nat_eq, bytes_eq};
ghost use Rattle.std.specs.List.{IsDistinct};
ghost use Rattle.code.specs.Names.{number_in, with_name};

use std::alloc::{AllocError, Global};
use std::marker::Model;
use support::tables::{SipSet, new_set};

/// Names without duplicates, in the order in which they were added. The number of a name is its index, from 0, and never changes.
#[derive(Drop)]
pub struct Names {
    alloc: Global,
    names: SipSet<String>,
}

impl Model for Names {
    ghost use Rattle.std.specs.Prelude.{ℕ, List};

    ghost Value = { List (List ℕ) };

    ghost use Rattle.code.specs.Names.{texts};

    ghost view = { λ t. texts t.names.keys };
}

impl Names {
    /// Returns an empty table, which allocates with this allocator.
    pub fn new(alloc: Global) -> Names
        ensures { result ≡ [] }
    {
        Names {
            alloc,
            names: new_set(alloc),
        }
    }

    /// Returns the number of a name, which is appended if it is new.
    pub fn put(&mut self, name: &str) -> Result<usize, AllocError>
        ensures names { OnOk result (self.new ≡ with_name name.now self.old) }
        ensures number { IfOk result (λ number. number_in name.now self.new ≡ Some number) }
        ensures err { OnErr result (self.new ≡ self.old) }
    {
        match self.names.index_of_text(name) {
            Some(number) => Ok(number),
            None => {
                let name = String::from_str(self.alloc, name)?;
                let (number, _) = self.names.insert_full(name)?;
                Ok(number)
            }
        }
    }

    /// Returns the number of a name, and `None` if it is absent.
    pub fn number_of(&self, name: &str) -> Option<usize>
        ensures { result ≡ number_in name.now self.now }
    {
        self.names.index_of_text(name)
    }

    /// Returns the name with a number, and `None` if there is none.
    pub fn name(&self, number: usize) -> Option<&str>
        ensures { option_map (λ n. n.now) result ≡ slice_get self.now number }
    {
        let name = self.names.get_index(number)?;
        Some(name.as_str())
    }

    /// Returns the number of names.
    pub fn len(&self) -> usize
        ensures len { result ≡ length self.now }
        ensures distinct { IsDistinct bytes_eq self.now }
    {
        self.names.len()
    }

    /// Returns whether the table is empty.
    pub fn is_empty(&self) -> bool
        ensures { result ≡ nat_eq (length self.now) 0 }
    {
        self.names.is_empty()
    }
}
