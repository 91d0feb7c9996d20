//! Reads arguments with all lists flattened.
ghost use Rattle.std.specs.Prelude.{◌≡◌, map, IfOk};
ghost use Rattle.values.specs.Prelude.{data_of};
ghost use Rattle.arguments.specs.Arguments.{arguments_data};
ghost use Rattle.arguments.specs.Leaves.{leaves_from, leaves_named};

use crate::arguments::Arguments;
use crate::readers::behind;
use std::alloc::{AllocError, Global};
use values::{Value, flatten_value, flatten_values};

impl Arguments {
    /// Returns the value of a keyword with all lists flattened, in order. Without the keyword, the result is empty.
    pub fn leaves(&self, alloc: Global, name: &str) -> Result<Vec<&Value>, AllocError>
        ensures { IfOk result (λ found. map (λ v. data_of v.now) found.items ≡ leaves_named name.now (arguments_data self.now)) }
    {
        match self.keyword(name) {
            Some(value) => flatten_value(alloc, value),
            None => Ok(Vec::new(alloc)),
        }
    }

    /// Returns the positional arguments from an index on, with all lists flattened, in order.
    pub fn leaves_behind(&self, alloc: Global, place: usize) -> Result<Vec<&Value>, AllocError>
        ensures { IfOk result (λ found. map (λ v. data_of v.now) found.items ≡ leaves_from place (arguments_data self.now)) }
    {
        flatten_values(alloc, behind(&self.positional, place))
    }
}
