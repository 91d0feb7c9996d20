//! Defines the evaluated arguments of a call.
ghost use Rattle.std.specs.Prelude.{◌≡◌, OnOk};
ghost use Rattle.values.specs.Prelude.{data_of};
ghost use Rattle.arguments.specs.Arguments.{arguments_data, no_arguments, with_argument};

use std::alloc::{AllocError, Global};
use values::{Text, Value};

/// Holds a keyword argument.
#[derive(Drop)]
pub struct Named {
    pub name: Text,
    pub value: Value,
}

/// Holds the arguments of a call: positional ones, and keyword arguments, each in order.
pub struct Arguments {
    pub positional: Vec<Value>,
    pub named: Vec<Named>,
}

impl Drop for Arguments {
    fn drop(self) {
        let Arguments {
            positional: _,
            named: _,
        } = self;
    }
}

/// Returns empty arguments.
pub fn no_arguments(alloc: Global) -> Arguments
    ensures { arguments_data result ≡ no_arguments }
{
    Arguments {
        positional: Vec::new(alloc),
        named: Vec::new(alloc),
    }
}

impl Arguments {
    /// Removes all arguments, but keeps the memory of their lists.
    pub fn clear(&mut self)
        ensures { arguments_data self.new ≡ no_arguments }
    {
        self.positional.clear();
        self.named.clear();
    }
}

/// Appends an argument, with its name if it has one.
#[inline(always)]
pub fn add_argument(
    arguments: &mut Arguments,
    name: &Option<Text>,
    value: Value,
) -> Result<(), AllocError>
    ensures { OnOk result (arguments_data arguments.new
        ≡ with_argument (arguments_data arguments.old) name.now (data_of value)) }
{
    match name {
        Some(name) => {
            let name = name.clone()?;
            arguments.named.push(Named { name, value })?;
        }
        None => arguments.positional.push(value)?,
    }
    Ok(())
}
