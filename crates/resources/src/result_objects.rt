//! Makes the objects that `dependency` and `find_program` return.
ghost use Rattle.std.specs.Prelude.{◌≡◌, map, string_bytes, codes};
ghost use Rattle.arguments.specs.Stops.{Gives};
ghost use Rattle.resources.specs.Found.{found_dependency, missing_dependency};
ghost use Rattle.values.specs.Copies.{short_texts, within_texts};

use arguments::CallStop;
use std::alloc::Global;
use values::{Dependency, Numbers, Sources, Text, Texts, short_texts, within_texts};

// Returns a dependency that has only these arguments for the compiler and the linker.
fn of_arguments(
    alloc: Global,
    name: Text,
    version: Text,
    compile_args: Texts,
    link_args: Texts,
) -> Dependency
    ensures { result ≡ Rattle.resources.specs.Found.of_arguments name version compile_args link_args }
{
    Dependency {
        is_found: true,
        name,
        version,
        include_directories: Texts::new(alloc),
        compile_args,
        link_args,
        link_with: Numbers::new(alloc),
        sources: Sources::new(alloc),
    }
}

/// Returns the dependency with this name, version, and arguments for the compiler and the linker, or `OperationRefusal::Limit` if these are
/// too large for a value.
pub fn found_dependency(
    alloc: Global,
    name: &str,
    version: &str,
    compile_args: &[String],
    link_args: &[String],
) -> Result<Dependency, CallStop>
    ensures { Gives (λ d. d)
        (found_dependency name.now version.now (map string_bytes compile_args.now) (map string_bytes link_args.now)) result }
{
    let name = Text::of_str(alloc, name)??;
    let version = Text::of_str(alloc, version)??;
    let compile_args = within_texts(alloc, compile_args)??;
    let link_args = within_texts(alloc, link_args)??;
    Ok(of_arguments(alloc, name, version, compile_args, link_args))
}

// Returns a dependency that was not found, which has only a name and a version.
fn absent(alloc: Global, name: Text, version: Text) -> Dependency
    requires { version ≡ codes "unknown" }
    ensures { result ≡ Rattle.resources.specs.Found.absent name }
{
    Dependency {
        is_found: false,
        name,
        version,
        include_directories: Texts::new(alloc),
        compile_args: Texts::new(alloc),
        link_args: Texts::new(alloc),
        link_with: Numbers::new(alloc),
        sources: Sources::new(alloc),
    }
}

/// Returns the dependency with this name that was not found, whose version is `unknown`, or `OperationRefusal::Limit` if the name is too
/// long for a text.
pub fn missing_dependency(alloc: Global, name: &str) -> Result<Dependency, CallStop>
    ensures { Gives (λ d. d) (missing_dependency name.now) result }
{
    let name = Text::of_str(alloc, name)??;
    let version = Text::of_str(alloc, "unknown")??;
    Ok(absent(alloc, name, version))
}
