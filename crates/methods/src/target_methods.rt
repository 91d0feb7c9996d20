//! Implements the methods of targets, and of the outputs of custom targets: the types `build_tgt`, `custom_tgt` and `custom_idx` of the
//! page "Reference manual".
ghost use Rattle.std.specs.Prelude.{◌≡◌, IfOk, Some, option_map, string_bytes};
ghost use Rattle.arguments.specs.Stops.{Gives};
ghost use Rattle.build.specs.edge.Texts.{texts};
ghost use Rattle.build.specs.DeclaredTargetViews.{declared_target_views};
ghost use Rattle.build.specs.View.{target_view};
ghost use Rattle.world.specs.Prelude.{data_of, items_of, world_of};
ghost use Rattle.methods.specs.Targets.{answer_by, at, name_of, name_value};
ghost use Rattle.methods.specs.Targets.{only_path, output_answer, output_list, output_of, outputs_from, path_of, path_value};
ghost use Rattle.methods.specs.Targets.{told_of};

use crate::meson_object::build_root;
use crate::new_values::{list_value, string_value, text_value};
use arguments::CallStop;
use build::{DeclaredTarget, Target, file_path, target_at};
use std::alloc::{AllocError, Global};
use support::paths::{path_below, path_in};
use values::language_names::{MethodName, TargetMethod};
use values::{Object, OperationRefusal, Value};
use world::Store;

// ---- attributes of a target

fn name_of(target: &Target) -> &str
    ensures { result.now ≡ name_of (target_view target.now) }
{
    match target {
        Target::Build(target) => target.name.as_str(),
        Target::Custom(target) => target.name.as_str(),
    }
}

// Returns the path of the only file of a folder, and `None` if there is not exactly one.
fn only_path(alloc: Global, folder: &str, names: &[String]) -> Result<Option<String>, AllocError>
    ensures { IfOk result (λ path. option_map string_bytes path ≡ only_path folder.now (texts names.now)) }
{
    match names {
        [name] => Ok(Some(path_in(alloc, folder, name.as_str())?)),
        _ => Ok(None),
    }
}

// Returns the path of the target's file, or of the only output of a custom target.
fn path_of(alloc: Global, target: &Target) -> Result<Option<String>, AllocError>
    ensures { IfOk result (λ path. option_map string_bytes path ≡ path_of (target_view target.now)) }
{
    match target {
        Target::Build(target) => Ok(Some(file_path(alloc, target)?)),
        Target::Custom(target) => only_path(alloc, target.folder.as_str(), &target.outputs),
    }
}

// Returns the path of an output of a custom target.
fn output_of(alloc: Global, output: usize, target: &Target) -> Result<Option<String>, AllocError>
    ensures { IfOk result (λ path. option_map string_bytes path ≡ output_of output (target_view target.now)) }
{
    match target {
        Target::Build(_) => Ok(None),
        Target::Custom(target) => match target.outputs.get(output) {
            Some(name) => Ok(Some(path_in(alloc, target.folder.as_str(), name.as_str())?)),
            None => Ok(None),
        },
    }
}

fn name_at(targets: &[DeclaredTarget], number: usize) -> Option<&str>
    ensures { option_map (λ n. n.now) result ≡ at (declared_target_views targets.now) number (λ t. Some (name_of t)) }
{
    match target_at(targets, number) {
        Some(target) => Some(name_of(target)),
        None => None,
    }
}

fn path_at(
    alloc: Global,
    targets: &[DeclaredTarget],
    number: usize,
) -> Result<Option<String>, AllocError>
    ensures { IfOk result (λ path. option_map string_bytes path ≡ at (declared_target_views targets.now) number path_of) }
{
    match target_at(targets, number) {
        Some(target) => path_of(alloc, target),
        None => Ok(None),
    }
}

fn output_at(
    alloc: Global,
    targets: &[DeclaredTarget],
    number: usize,
    output: usize,
) -> Result<Option<String>, AllocError>
    ensures { IfOk result (λ path. option_map string_bytes path ≡ at (declared_target_views targets.now) number (output_of output)) }
{
    match target_at(targets, number) {
        Some(target) => output_of(alloc, output, target),
        None => Ok(None),
    }
}

// ---- values

fn name_value(alloc: Global, name: Option<&str>) -> Result<Value, CallStop>
    ensures { Gives data_of (name_value (option_map (λ n. n.now) name.entry)) result }
{
    match name {
        Some(name) => text_value(alloc, name),
        None => Err(OperationRefusal::Arguments.into()),
    }
}

fn path_value(alloc: Global, build_root: &str, path: Option<String>) -> Result<Value, CallStop>
    ensures { Gives data_of (path_value build_root.now (option_map string_bytes path)) result }
{
    match path {
        Some(path) => string_value(alloc, path_below(alloc, build_root, path.as_str())?),
        None => Err(OperationRefusal::Arguments.into()),
    }
}

fn outputs(alloc: Global, target: usize, count: usize) -> Result<Vec<Value>, AllocError>
    ensures { IfOk result (λ vs. items_of vs.items ≡ outputs_from target count 0) }
{
    let mut outputs = Vec::new(alloc);
    for output in 0..count {
        outputs.push(Value::of_object(alloc, Object::CustomOutput { target, output })?)?;
    }
    Ok(outputs)
}

// Returns the list of the first `count` outputs of a target.
fn output_list(alloc: Global, target: usize, count: usize) -> Result<Value, CallStop>
    ensures { Gives data_of (output_list target count) result }
{
    list_value(alloc, outputs(alloc, target, count)?)
}

// ---- methods

fn tell_of(
    alloc: Global,
    store: &Store,
    method: TargetMethod,
    number: usize,
    outputs: usize,
) -> Result<Value, CallStop>
    ensures { Gives data_of (told_of method (world_of store.now).facts number outputs) result }
{
    let targets = store.project().targets();
    match method {
        TargetMethod::FullPath => {
            path_value(alloc, build_root(store), path_at(alloc, targets, number)?)
        }
        TargetMethod::Name => name_value(alloc, name_at(targets, number)),
        TargetMethod::ToList => output_list(alloc, number, outputs),
    }
}

/// Returns the result of a method of a target with this many outputs: `name`, `full_path` or `to_list`.
///
/// `full_path` is the absolute path of the only output (E9 if there are several), and `to_list` the list of the outputs. Refuses with E8 if
/// there is no such method.
pub fn target_answer(
    alloc: Global,
    store: &Store,
    method: Option<TargetMethod>,
    number: usize,
    outputs: usize,
) -> Result<Value, CallStop>
    ensures { Gives data_of (answer_by method (world_of store.now).facts number outputs) result }
{
    match method {
        Some(method) => tell_of(alloc, store, method, number, outputs),
        None => Err(OperationRefusal::UnknownMethod.into()),
    }
}

/// Returns the result of the method of an output of a custom target with this name: `full_path`, its absolute path.
pub fn output_answer(
    alloc: Global,
    store: &Store,
    target: usize,
    output: usize,
    name: &MethodName,
) -> Result<Value, CallStop>
    ensures { Gives data_of (output_answer (world_of store.now).facts target output name.now) result }
{
    match name.of_output() {
        Some(_) => {
            let path = output_at(alloc, store.project().targets(), target, output)?;
            path_value(alloc, build_root(store), path)
        }
        None => Err(OperationRefusal::UnknownMethod.into()),
    }
}
