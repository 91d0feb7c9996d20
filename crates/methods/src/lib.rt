//! Implements the methods of objects: the pages "Reference manual" of their types.
//!
//! Each method has a deed in `specs/`, and its code does that deed on a [`world::Caller`]. A name is looked up before the arguments are
//! evaluated, by [`has_object_method`] and [`is_left_out_method`].
#![tactic(auto)]

mod compiler;
mod dependencies;
mod dispatch;
mod features;
mod machine_keys;
mod machines;
mod meson_object;
mod new_values;
mod programs;
mod target_methods;
mod unsupported;

pub use dispatch::{has_object_method, object_method};
pub use unsupported::is_left_out_method;
