//! Computes the words of compile commands.
ghost use Rattle.std.specs.Prelude.{◌≡◌, ◌++◌, flat_map, IfOk, string_bytes};
ghost use Rattle.build.specs.edge.Folders.{build_folder, source_folder};
ghost use Rattle.build.specs.edge.Texts.{texts};
ghost use Rattle.build.specs.View.{flags_view, surroundings_view, build_view};
ghost use Rattle.build.specs.target_edges.Words.{include_words, includes, warning_words, value_words};
ghost use Rattle.build.specs.target_edges.Words.{option_words, argument_words, compile_words};
ghost use Rattle.build.specs.target_edges.Parts.{front_words};

use crate::edge::{build_folder, copies, first_kept, push_all, push_copies, source_folder};
use crate::target_edges::words::{Brought, push_brought, push_if, push_joined};
use crate::{BuildTarget, Flags, Surroundings};
use std::alloc::{AllocError, Global};

// ---- include folders

// Appends the words for a folder of the source tree.
fn push_include(words: &mut Vec<String>, depth: usize, folder: &str) -> Result<(), AllocError>
    ensures { IfOk result (λ _. texts words.new.items ≡ texts words.old.items ++ include_words depth folder.now) }
{
    push_joined(words, "-I", build_folder(folder))?;
    let source = source_folder(*words.allocator(), depth, folder)?;
    push_joined(words, "-I", &source)
}

fn push_includes(
    words: &mut Vec<String>,
    depth: usize,
    folders: &[String],
) -> Result<(), AllocError>
    ensures { IfOk result (λ _. texts words.new.items ≡ texts words.old.items ++ flat_map (include_words depth) (texts folders.now)) }
{
    for folder in folders {
        push_include(words, depth, folder)?;
    }
    Ok(())
}

// Returns the words for all folders, with those of the dependencies.
fn all_includes(
    alloc: Global,
    depth: usize,
    target: &BuildTarget,
) -> Result<Vec<String>, AllocError>
    ensures { IfOk result (λ v. texts v.items
        ≡ (include_words depth (string_bytes target.now.folder)
        ++ flat_map (include_words depth) (texts target.now.own.include_folders.items))
        ++ flat_map (λ l. flat_map (include_words depth) (texts l.value.include_folders.items)) target.now.dependencies.items) }
{
    let mut words = Vec::new(alloc);
    push_include(&mut words, depth, &target.folder)?;
    push_includes(&mut words, depth, &target.own.include_folders)?;
    for lists in &target.dependencies {
        push_includes(&mut words, depth, &lists.include_folders)?;
    }
    Ok(words)
}

fn includes(alloc: Global, depth: usize, target: &BuildTarget) -> Result<Vec<String>, AllocError>
    ensures { IfOk result (λ v. texts v.items ≡ includes depth (build_view target.now)) }
{
    let words = all_includes(alloc, depth, target)?;
    first_kept(alloc, &words)
}

// ---- options and arguments

fn push_warnings(words: &mut Vec<String>, level: usize) -> Result<(), AllocError>
    ensures { IfOk result (λ _. texts words.new.items ≡ texts words.old.items ++ warning_words level) }
{
    push_if(words, level >= 1, "-Wall")?;
    push_if(words, level >= 2, "-Wextra")?;
    push_if(words, level >= 3, "-Wpedantic")
}

// Appends the word that passes an option's value to the compiler, unless the value is the one without a word.
fn push_value(
    words: &mut Vec<String>,
    front: &str,
    value: &str,
    none: &str,
) -> Result<(), AllocError>
    ensures { IfOk result (λ _. texts words.new.items ≡ texts words.old.items ++ value_words front.now value.now none.now) }
{
    if value == none {
        return Ok(());
    }
    push_joined(words, front, value)
}

fn push_options(words: &mut Vec<String>, flags: &Flags) -> Result<(), AllocError>
    ensures { IfOk result (λ _. texts words.new.items ≡ texts words.old.items ++ option_words (flags_view flags.now)) }
{
    push_warnings(words, flags.warning_level)?;
    push_if(words, flags.is_werror, "-Werror")?;
    push_value(words, "-std=", &flags.c_std, "none")?;
    push_value(words, "-O", &flags.optimization, "plain")?;
    push_if(words, flags.is_debug, "-g")
}

fn push_arguments(
    words: &mut Vec<String>,
    surroundings: &Surroundings,
    target: &BuildTarget,
) -> Result<(), AllocError>
    ensures { IfOk result (λ _. texts words.new.items
        ≡ texts words.old.items ++ argument_words (surroundings_view surroundings.now) (build_view target.now)) }
{
    push_copies(words, &surroundings.arguments)?;
    push_brought(words, target, Brought::CompileArgs)?;
    push_copies(words, &surroundings.facts.flags.c_args)?;
    push_copies(words, &target.own.compile_args)
}

// Returns the words of the target's compile commands, up to those that differ between sources.
fn compile_words(
    alloc: Global,
    surroundings: &Surroundings,
    target: &BuildTarget,
) -> Result<Vec<String>, AllocError>
    ensures { IfOk result (λ v. texts v.items ≡ compile_words (surroundings_view surroundings.now) (build_view target.now)) }
{
    let facts = &surroundings.facts;
    let mut words = copies(alloc, &facts.compiler)?;
    let mut folders = includes(alloc, facts.depth, target)?;
    words.append(&mut folders)?;
    push_options(&mut words, &facts.flags)?;
    push_if(&mut words, target.kind.is_library(), "-fPIC")?;
    push_arguments(&mut words, surroundings, target)?;
    Ok(words)
}

/// Returns the words of the target's compile commands, up to the first that names the object.
pub fn front_words(
    alloc: Global,
    surroundings: &Surroundings,
    target: &BuildTarget,
) -> Result<Vec<String>, AllocError>
    ensures { IfOk result (λ v. texts v.items ≡ front_words (compile_words (surroundings_view surroundings.now) (build_view target.now))) }
{
    let mut words = compile_words(alloc, surroundings, target)?;
    push_all(&mut words, &["-MD", "-MQ"])?;
    Ok(words)
}
