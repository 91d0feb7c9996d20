//! Decides which names are methods of the compiler.
ghost use Rattle.std.specs.Prelude.{◌≡◌};
ghost use Rattle.methods.specs.CompilerMethods.{has_method};
ghost use Rattle.methods.specs.CompilerNames.{is_left_out};

use support::text_lists::is_among;
use values::language_names::MethodName;

/// The methods that would have to run a compiler.
const LEFT_OUT: [&str; 6] = [
    "compiles",
    "compute_int",
    "get_define",
    "links",
    "preprocess",
    "run",
];

/// Returns whether the compiler has a supported method with this name. It allocates nothing.
pub fn has_compiler_method(name: &MethodName) -> bool
    ensures { result ≡ has_method name.now }
{
    name.of_compiler().is_some()
}

/// Returns whether the manual gives the compiler a method with this name that is not supported (E23).
pub fn is_left_out_compiler_method(name: &str) -> bool
    ensures { result ≡ is_left_out name.now }
{
    is_among(&LEFT_OUT, name)
}
