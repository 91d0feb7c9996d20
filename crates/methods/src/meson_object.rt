//! Implements the methods of the object `meson`: the page of its type in the manual.
ghost use Rattle.std.specs.Prelude.{◌≡◌, IfOk, string_bytes};
ghost use Rattle.arguments.specs.Stops.{Gives};
ghost use Rattle.values.specs.Data.{text};
ghost use Rattle.world.specs.Prelude.{arguments_data, data_of, within, world_of};
ghost use Rattle.methods.specs.Meson.{answer, compiler_of, folder_below};

use crate::new_values::{string_value, text_value};
use arguments::{Arguments, CallStop};
use std::alloc::{AllocError, Global};
use support::paths::path_below;
use values::language_names::{MesonMethod, MethodName};
use values::{Object, OperationRefusal, Value};
use world::Store;

/// Returns the source root of the run.
pub fn source_root(store: &Store) -> &str
    ensures { result.now ≡ (world_of store.now).facts.settings.source_root }
{
    store.settings().source_root()
}

/// Returns the build root of the run.
pub fn build_root(store: &Store) -> &str
    ensures { result.now ≡ (world_of store.now).facts.settings.build_root }
{
    store.settings().build_root()
}

// Returns a folder below a root. The root folder is the root itself.
fn folder_below(alloc: Global, root: &str, folder: &str) -> Result<String, AllocError>
    ensures { IfOk result (λ s. string_bytes s ≡ folder_below root.now folder.now) }
{
    if folder.is_empty() {
        String::from_str(alloc, root)
    } else {
        path_below(alloc, root, folder)
    }
}

fn build_root_value(alloc: Global, store: &Store) -> Result<Value, CallStop>
    ensures { Gives data_of (within (text (world_of store.now).facts.settings.build_root)) result }
{
    text_value(alloc, build_root(store))
}

fn source_root_value(alloc: Global, store: &Store) -> Result<Value, CallStop>
    ensures { Gives data_of (within (text (world_of store.now).facts.settings.source_root)) result }
{
    text_value(alloc, source_root(store))
}

// Returns the present folder below a root.
fn present_folder(alloc: Global, root: &str, store: &Store) -> Result<Value, CallStop>
    ensures { Gives data_of (within (text (folder_below root.now (world_of store.now).facts.folder))) result }
{
    string_value(alloc, folder_below(alloc, root, store.folder())?)
}

fn project_name(store: &Store) -> &str
    ensures { result.now ≡ (world_of store.now).facts.project.surroundings.facts.name }
{
    store.project().facts().name.as_str()
}

fn project_version(store: &Store) -> &str
    ensures { result.now ≡ (world_of store.now).facts.project.surroundings.facts.version }
{
    store.project().facts().version.as_str()
}

fn project_name_value(alloc: Global, store: &Store) -> Result<Value, CallStop>
    ensures { Gives data_of (within (text (world_of store.now).facts.project.surroundings.facts.name)) result }
{
    text_value(alloc, project_name(store))
}

fn project_version_value(alloc: Global, store: &Store) -> Result<Value, CallStop>
    ensures { Gives data_of (within (text (world_of store.now).facts.project.surroundings.facts.version)) result }
{
    text_value(alloc, project_version(store))
}

fn compiler_of(alloc: Global, language: &str) -> Result<Value, CallStop>
    ensures { Gives data_of (compiler_of language.now) result }
{
    if language == "c" {
        Ok(Value::of_object(alloc, Object::Compiler)?)
    } else {
        Err(OperationRefusal::Arguments.into())
    }
}

/// Returns the result of the method of `meson` with this name.
///
/// It may be the project's name or version, or a root or present folder as an absolute path (E22 if it is too long). It may be the compiler
/// of C (E9 for another language). The other results are constant: no subproject, no cross build, the backend `ninja` and the version
/// `1.3.0`.
pub fn meson_answer(
    alloc: Global,
    store: &Store,
    name: &MethodName,
    arguments: &Arguments,
) -> Result<Value, CallStop>
    ensures { Gives data_of (answer (world_of store.now).facts name.now (arguments_data arguments.now)) result }
{
    match name.of_meson() {
        Some(MesonMethod::Backend) => text_value(alloc, "ninja"),
        Some(MesonMethod::BuildRoot) => build_root_value(alloc, store),
        Some(MesonMethod::CurrentBuildDir) => present_folder(alloc, build_root(store), store),
        Some(MesonMethod::CurrentSourceDir) => present_folder(alloc, source_root(store), store),
        Some(MesonMethod::GetCompiler) => compiler_of(alloc, arguments.text_at(0)),
        Some(MesonMethod::IsCrossBuild) => Ok(Value::Boolean(false)),
        Some(MesonMethod::IsSubproject) => Ok(Value::Boolean(false)),
        Some(MesonMethod::ProjectName) => project_name_value(alloc, store),
        Some(MesonMethod::ProjectVersion) => project_version_value(alloc, store),
        Some(MesonMethod::SourceRoot) => source_root_value(alloc, store),
        Some(MesonMethod::Version) => text_value(alloc, "1.3.0"),
        None => Err(OperationRefusal::UnknownMethod.into()),
    }
}
