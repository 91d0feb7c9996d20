//! Names the files that a target makes.
ghost use Rattle.std.specs.Prelude.{◌≡◌, [], ◌∷◌, ◌++◌, bytes_eq, map, IfOk, string_bytes, option_map, if◌then◌else◌};
ghost use Rattle.build.specs.edge.Texts.{texts};
ghost use Rattle.build.specs.edge.Paths.{object_path};
ghost use Rattle.support.specs.paths.Paths.{path_in};
ghost use Rattle.build.specs.Files.{first_number, so_number, file_number, numbered_so, so_name, file_name, file_path};
ghost use Rattle.build.specs.Files.{numbered_names, link_names, link_paths, output_paths, depfile_path};
ghost use Rattle.build.specs.Inputs.{input_view};
ghost use Rattle.build.specs.View.{build_view, custom_view};

use crate::edge::{lend_text, object_path};
use crate::sources::Input;
use crate::target::{BuildTarget, CustomTarget, TargetKind};
use std::alloc::{AllocError, Global};
use support::paths::path_in;

// Returns a name with a text before it and one after it.
fn between(alloc: Global, front: &str, name: &str, end: &str) -> Result<String, AllocError>
    ensures { IfOk result (λ s. string_bytes s ≡ front.now ++ (name.now ++ end.now)) }
{
    let ends = front.len().saturating_add(end.len());
    let mut whole = String::with_capacity(alloc, ends.saturating_add(name.len()))?;
    whole.push_str(front)?;
    whole.push_str(name)?;
    whole.push_str(end)?;
    Ok(whole)
}

// Returns the first number of a version: `1` of `1.2.3`.
fn first_number(version: &str) -> &str
    ensures { result.now ≡ first_number version.now }
{
    match version.split_once('.') {
        Some((number, _)) => number,
        None => version,
    }
}

// Returns `soversion`, or the first number of `version`.
fn so_number(target: &BuildTarget) -> Option<&str>
    ensures { option_map (λ s. s.now) result
        ≡ so_number (option_map string_bytes target.now.version) (option_map string_bytes target.now.soversion) }
{
    match &target.soversion {
        Some(number) => Some(number.as_str()),
        None => Some(first_number(target.version.as_ref()?)),
    }
}

// Returns `version`, or `soversion`.
fn file_number(target: &BuildTarget) -> Option<&str>
    ensures { option_map (λ s. s.now) result
        ≡ file_number (option_map string_bytes target.now.version) (option_map string_bytes target.now.soversion) }
{
    match &target.version {
        Some(version) => Some(version.as_str()),
        None => lend_text(&target.soversion),
    }
}

// Returns `libNAME.so`, with the number after it.
fn with_number(alloc: Global, name: &str, number: Option<&str>) -> Result<String, AllocError>
    ensures { IfOk result (λ s. string_bytes s ≡ numbered_so name.now (option_map (λ n. n.now) number.entry)) }
{
    match number {
        None => between(alloc, "lib", name, ".so"),
        Some(number) => format!(in alloc; "lib{name}.so.{number}"),
    }
}

/// Returns the name by which a starting program finds a shared library: `libNAME.so.S`, or `libNAME.so`.
pub fn so_name(alloc: Global, target: &BuildTarget) -> Result<String, AllocError>
    ensures { IfOk result (λ s. string_bytes s ≡ so_name (build_view target.now)) }
{
    with_number(alloc, &target.name, so_number(target))
}

/// Returns the name of the target's file.
pub fn file_name(alloc: Global, target: &BuildTarget) -> Result<String, AllocError>
    ensures { IfOk result (λ s. string_bytes s ≡ file_name (build_view target.now)) }
{
    let name = target.name.as_str();
    match target.kind {
        TargetKind::Executable => String::from_str(alloc, name),
        TargetKind::StaticLibrary => between(alloc, "lib", name, ".a"),
        TargetKind::SharedLibrary => with_number(alloc, name, file_number(target)),
    }
}

// Returns the path of a file of this name in the folder. In the root it is the name, which this call takes.
fn path_of(alloc: Global, folder: &str, name: String) -> Result<String, AllocError>
    ensures { IfOk result (λ s. string_bytes s ≡ path_in folder.now (string_bytes name)) }
{
    if folder.is_empty() {
        Ok(name)
    } else {
        between(alloc, folder, "/", &name)
    }
}

/// Returns the path of the target's file.
pub fn file_path(alloc: Global, target: &BuildTarget) -> Result<String, AllocError>
    ensures { IfOk result (λ s. string_bytes s ≡ file_path (build_view target.now)) }
{
    let name = file_name(alloc, target)?;
    path_of(alloc, &target.folder, name)
}

// Appends the name by which a shared library is found, unless it is the file itself.
fn push_so_name(names: &mut Vec<String>, target: &BuildTarget) -> Result<(), AllocError>
    ensures { let t = build_view target.now in
        let front = if bytes_eq (so_name t) (file_name t) then [] else so_name t ∷ [] in
        IfOk result (λ _. texts names.new.items ≡ texts names.old.items ++ front) }
{
    let by_number = so_name(*names.allocator(), target)?;
    let file = file_name(*names.allocator(), target)?;
    if by_number != file {
        names.push(by_number)?;
    }
    Ok(())
}

// Returns the names of the symbolic links to a shared library with a number.
fn numbered_names(alloc: Global, target: &BuildTarget) -> Result<Vec<String>, AllocError>
    ensures { IfOk result (λ v. texts v.items
        ≡ numbered_names (so_number (option_map string_bytes target.now.version) (option_map string_bytes target.now.soversion))
        (build_view target.now)) }
{
    let mut names = Vec::new(alloc);
    if so_number(target).is_some() {
        push_so_name(&mut names, target)?;
        names.push(with_number(alloc, &target.name, None)?)?;
    }
    Ok(names)
}

/// Returns the names of the symbolic links to the target's file.
pub fn link_names(alloc: Global, target: &BuildTarget) -> Result<Vec<String>, AllocError>
    ensures { IfOk result (λ v. texts v.items ≡ link_names (build_view target.now)) }
{
    match target.kind {
        TargetKind::Executable | TargetKind::StaticLibrary => Ok(Vec::new(alloc)),
        TargetKind::SharedLibrary => numbered_names(alloc, target),
    }
}

/// Returns the paths of files of these names in the folder.
pub fn paths_in(alloc: Global, folder: &str, names: &[String]) -> Result<Vec<String>, AllocError>
    ensures { IfOk result (λ v. texts v.items ≡ map (path_in folder.now) (texts names.now)) }
{
    let mut paths = Vec::with_capacity(alloc, names.len())?;
    for name in names {
        paths.push(path_in(alloc, folder, name)?)?;
    }
    Ok(paths)
}

/// Returns the paths of the symbolic links to the target's file.
pub fn link_paths(alloc: Global, target: &BuildTarget) -> Result<Vec<String>, AllocError>
    ensures { IfOk result (λ v. texts v.items ≡ link_paths (build_view target.now)) }
{
    let names = link_names(alloc, target)?;
    paths_in(alloc, &target.folder, &names)
}

/// Returns the objects of these inputs, for the target whose file is `file`.
pub fn objects(alloc: Global, file: &str, inputs: &[Input]) -> Result<Vec<String>, AllocError>
    ensures { IfOk result (λ v. texts v.items ≡ map (λ i. object_path file.now i.name) (map input_view inputs.now)) }
{
    let mut objects = Vec::new(alloc);
    for input in inputs {
        objects.push(object_path(alloc, file, &input.name)?)?;
    }
    Ok(objects)
}

/// Returns the outputs of a custom target.
pub fn output_paths(alloc: Global, target: &CustomTarget) -> Result<Vec<String>, AllocError>
    ensures { IfOk result (λ v. texts v.items ≡ output_paths (custom_view target.now)) }
{
    paths_in(alloc, &target.folder, &target.outputs)
}

/// Returns the path of the file in which the command of a custom target lists what it has read.
pub fn depfile_path(alloc: Global, target: &CustomTarget) -> Result<Option<String>, AllocError>
    ensures { IfOk result (λ path. option_map string_bytes path ≡ depfile_path (custom_view target.now)) }
{
    match &target.depfile {
        None => Ok(None),
        Some(name) => Ok(Some(path_in(alloc, &target.folder, name)?)),
    }
}
