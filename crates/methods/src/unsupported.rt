//! Decides which methods are not supported.
ghost use Rattle.std.specs.Prelude.{◌≡◌};
ghost use Rattle.methods.specs.Left.{is_left_out};

use crate::compiler::is_left_out_compiler_method;
use values::Object;

/// Returns whether the manual gives the object a method with this name that is not supported (E23).
pub fn is_left_out_method(object: &Object, name: &str) -> bool
    ensures { result ≡ is_left_out object.now name.now }
{
    match object {
        Object::Compiler => is_left_out_compiler_method(name),
        _ => false,
    }
}
