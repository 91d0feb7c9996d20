//! Sorts the sources of a target, and finds those that are compiled.
ghost use Rattle.std.specs.Prelude.{◌≡◌, ◌++◌, [], map, flat_map, IfOk, string_bytes};
ghost use Rattle.std.specs.List.{list_any};
ghost use Rattle.build.specs.edge.Texts.{texts};
ghost use Rattle.build.specs.Sources.{is_c, is_header, c_input, own_input, c_inputs_in, put_inputs, compiled_inputs, if_not_c};
ghost use Rattle.build.specs.Sources.{generated_in};
ghost use Rattle.build.specs.Sources.{generated_paths, is_foreign, has_foreign_in, has_foreign, source_paths};
ghost use Rattle.build.specs.View.{source_view, lists_view, build_view};
ghost use Rattle.build.specs.Inputs.{input_view};

use crate::edge::{first_kept, push_copies, source_path};
use crate::target::{BuildTarget, Lists, Source};
use std::alloc::{AllocError, Global};
use support::tables::new_set;

/// Holds a source that is compiled.
pub struct Input {
    /// Its path from the build directory.
    pub path: String,
    /// Its path from its own root: the source root or the build directory.
    pub name: String,
}

impl Drop for Input {
    fn drop(self) {
        let Input { path: _, name: _ } = self;
    }
}

/// Returns whether the path is that of a C source.
#[tactic(auto, using(std::proofs::lemmas::Str::Pattern::ends_text))]
pub fn is_c(path: &str) -> bool
    ensures { result ≡ is_c path.now }
{
    path.ends_with(".c")
}

#[tactic(auto, using(std::proofs::lemmas::Str::Pattern::ends_text))]
fn is_header(path: &str) -> bool
    ensures { result ≡ is_header path.now }
{
    path.ends_with(".h")
}

// ---- what is compiled

fn push_input(inputs: &mut Vec<Input>, path: String, name: &String) -> Result<(), AllocError>
    ensures { IfOk result (λ _. map input_view inputs.new.items
        ≡ map input_view inputs.old.items ++ c_input (record { path = string_bytes path; name = string_bytes name.now })) }
{
    if is_c(name) {
        let name = name.clone()?;
        inputs.push(Input { path, name })?;
    }
    Ok(())
}

fn push_made(inputs: &mut Vec<Input>, paths: &[String]) -> Result<(), AllocError>
    ensures { IfOk result (λ _. map input_view inputs.new.items
        ≡ map input_view inputs.old.items ++ flat_map c_input (map own_input (texts paths.now))) }
{
    for path in paths {
        push_input(inputs, path.clone()?, path)?;
    }
    Ok(())
}

fn push_source(inputs: &mut Vec<Input>, depth: usize, source: &Source) -> Result<(), AllocError>
    ensures { IfOk result (λ _. map input_view inputs.new.items
        ≡ map input_view inputs.old.items ++ c_inputs_in depth (source_view source.now)) }
{
    match source {
        Source::Tree(path) => {
            let seen = source_path(*inputs.allocator(), depth, path)?;
            push_input(inputs, seen, path)
        }
        Source::Built(path) => push_input(inputs, path.clone()?, path),
        Source::Made(paths) => push_made(inputs, paths),
    }
}

fn push_sources(inputs: &mut Vec<Input>, depth: usize, sources: &[Source]) -> Result<(), AllocError>
    ensures { IfOk result (λ _. map input_view inputs.new.items
        ≡ map input_view inputs.old.items ++ flat_map (c_inputs_in depth) (map source_view sources.now)) }
{
    for source in sources {
        push_source(inputs, depth, source)?;
    }
    Ok(())
}

// Returns the inputs without repetitions. The first of inputs with equal paths stays.
fn first_inputs(alloc: Global, inputs: Vec<Input>) -> Result<Vec<Input>, AllocError>
    ensures { IfOk result (λ v. map input_view v.items ≡ put_inputs [] (map input_view inputs.items)) }
{
    if inputs.len() < 2 {
        return Ok(inputs);
    }
    let mut seen = new_set(alloc);
    let mut kept = Vec::new(alloc);
    for input in inputs {
        if seen.insert(input.path.clone()?)? {
            kept.push(input)?;
        }
    }
    Ok(kept)
}

// Returns all inputs, with those of the dependencies.
fn all_inputs(alloc: Global, depth: usize, target: &BuildTarget) -> Result<Vec<Input>, AllocError>
    ensures { IfOk result (λ v. map input_view v.items
        ≡ flat_map (c_inputs_in depth) (map source_view target.now.own.sources.items)
        ++ flat_map (λ l. flat_map (c_inputs_in depth) (map source_view l.value.sources.items)) target.now.dependencies.items) }
{
    let mut inputs = Vec::new(alloc);
    push_sources(&mut inputs, depth, &target.own.sources)?;
    for lists in &target.dependencies {
        push_sources(&mut inputs, depth, &lists.sources)?;
    }
    Ok(inputs)
}

/// Returns the sources that are compiled, in the order in which they are first named. Those of the dependencies count too.
pub fn compiled_sources(
    alloc: Global,
    depth: usize,
    target: &BuildTarget,
) -> Result<Vec<Input>, AllocError>
    ensures { IfOk result (λ v. map input_view v.items ≡ compiled_inputs depth (build_view target.now)) }
{
    first_inputs(alloc, all_inputs(alloc, depth, target)?)
}

// ---- sources that are only made earlier

fn push_if_not_c(paths: &mut Vec<String>, path: &String) -> Result<(), AllocError>
    ensures { IfOk result (λ _. texts paths.new.items ≡ texts paths.old.items ++ if_not_c (string_bytes path.now)) }
{
    if !is_c(path) {
        paths.push(path.clone()?)?;
    }
    Ok(())
}

fn push_all_but_c(paths: &mut Vec<String>, made: &[String]) -> Result<(), AllocError>
    ensures { IfOk result (λ _. texts paths.new.items ≡ texts paths.old.items ++ flat_map if_not_c (texts made.now)) }
{
    for path in made {
        push_if_not_c(paths, path)?;
    }
    Ok(())
}

fn push_generated(paths: &mut Vec<String>, source: &Source) -> Result<(), AllocError>
    ensures { IfOk result (λ _. texts paths.new.items ≡ texts paths.old.items ++ generated_in (source_view source.now)) }
{
    match source {
        Source::Tree(_) | Source::Built(_) => Ok(()),
        Source::Made(made) => push_all_but_c(paths, made),
    }
}

fn push_all_generated(paths: &mut Vec<String>, sources: &[Source]) -> Result<(), AllocError>
    ensures { IfOk result (λ _. texts paths.new.items ≡ texts paths.old.items ++ flat_map generated_in (map source_view sources.now)) }
{
    for source in sources {
        push_generated(paths, source)?;
    }
    Ok(())
}

// Returns the outputs of custom targets that are not compiled, with those of the dependencies.
fn all_generated(alloc: Global, target: &BuildTarget) -> Result<Vec<String>, AllocError>
    ensures { IfOk result (λ v. texts v.items
        ≡ flat_map generated_in (map source_view target.now.own.sources.items)
        ++ flat_map (λ l. flat_map generated_in (map source_view l.value.sources.items)) target.now.dependencies.items) }
{
    let mut paths = Vec::new(alloc);
    push_all_generated(&mut paths, &target.own.sources)?;
    for lists in &target.dependencies {
        push_all_generated(&mut paths, &lists.sources)?;
    }
    Ok(paths)
}

/// Returns the outputs of custom targets that are among the sources but are not compiled, each once.
pub fn generated_outputs(alloc: Global, target: &BuildTarget) -> Result<Vec<String>, AllocError>
    ensures { IfOk result (λ v. texts v.items ≡ generated_paths (build_view target.now)) }
{
    let paths = all_generated(alloc, target)?;
    first_kept(alloc, &paths)
}

// ---- allowed sources

fn is_foreign(source: &Source) -> bool
    ensures { result ≡ is_foreign (source_view source.now) }
{
    match source {
        Source::Tree(path) | Source::Built(path) => !(is_c(path) || is_header(path)),
        Source::Made(_) => false,
    }
}

fn has_foreign_in(lists: &Lists) -> bool
    ensures { result ≡ list_any (λ s. is_foreign (source_view s)) lists.now.sources.items }
{
    lists.sources.iter().any(is_foreign)
}

fn lists_have_foreign(lists: &Lists) -> bool
    ensures { result ≡ has_foreign_in (lists_view lists.now) }
{
    has_foreign_in(lists)
}

fn dependencies_have_foreign(target: &BuildTarget) -> bool
    ensures { result ≡ list_any (λ l. has_foreign_in (lists_view l.value)) target.now.dependencies.items }
{
    target
        .dependencies
        .iter()
        .any(|lists| lists_have_foreign(lists))
}

/// Returns whether a file among the sources is neither a C source nor a header. The sources of the dependencies count too.
pub fn has_foreign_source(target: &BuildTarget) -> bool
    ensures { result ≡ has_foreign (build_view target.now) }
{
    lists_have_foreign(&target.own) || dependencies_have_foreign(target)
}

// ---- paths

fn push_paths(paths: &mut Vec<String>, depth: usize, source: &Source) -> Result<(), AllocError>
    ensures { IfOk result (λ _. texts paths.new.items ≡ texts paths.old.items ++ source_paths depth (source_view source.now)) }
{
    match source {
        Source::Tree(path) => {
            let seen = source_path(*paths.allocator(), depth, path)?;
            paths.push(seen)?;
            Ok(())
        }
        Source::Built(path) => {
            paths.push(path.clone()?)?;
            Ok(())
        }
        Source::Made(made) => push_copies(paths, made),
    }
}

/// Returns the paths of the sources, seen from the build directory.
pub fn source_paths(
    alloc: Global,
    depth: usize,
    sources: &[Source],
) -> Result<Vec<String>, AllocError>
    ensures { IfOk result (λ v. texts v.items ≡ flat_map (source_paths depth) (map source_view sources.now)) }
{
    let mut paths = Vec::new(alloc);
    for source in sources {
        push_paths(&mut paths, depth, source)?;
    }
    Ok(paths)
}
