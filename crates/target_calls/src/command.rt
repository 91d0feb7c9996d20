//! Makes the command of a custom target.
ghost use Rattle.std.specs.Prelude.{◌≡◌, ◌∷◌, [], IfOk, None, Some, map, option_map, string_bytes, if◌then◌else◌};
ghost use Rattle.build.specs.edge.Paths.{source_path as path_from};
ghost use Rattle.build.specs.edge.Texts.{texts};
ghost use Rattle.sources.specs.HolesView.{place_view};
ghost use Rattle.sources.specs.ThingsView.{thing_view};
ghost use Rattle.build.specs.View.{build_view, source_view};
ghost use Rattle.world.specs.Prelude.{data_of, here_view};
ghost use Rattle.target_calls.specs.Commands.{command_path, joined_parts, of_build_target, of_file, of_object, of_output};
ghost use Rattle.target_calls.specs.Commands.{of_outputs};
ghost use Rattle.target_calls.specs.Commands.{of_program, of_text, of_thing, one_path, part_of, only_words};
ghost use Rattle.target_calls.specs.CommandsView.{part_view};
ghost use Rattle.target_calls.specs.LongCommands.{short_command};

use crate::repeated_lists::no_lists;
use crate::source_lookup::{make_of, one_made_of};
use build::edge::{push_copies, source_path};
use build::{BuildTarget, Source, file_path};
use sources::{PlaceholderValues, Thing, push_words, thing_of};
use std::alloc::{AllocError, Global};
use support::paths::has_slash;
use values::{Object, Program, Text, Value, strings};
use world::Here;

/// Holds a part of the command: its arguments, and the files that must be built or present before the command runs.
#[derive(Drop)]
pub struct Part {
    pub words: Vec<String>,
    pub needs: Vec<Source>,
}

// Appends a path, and what it needs.
fn push_path(whole: &mut Part, path: String, need: Source) -> Result<(), AllocError>
    ensures { IfOk result
        (λ _. part_view whole.new ≡ joined_parts (part_view whole.old) (one_path (string_bytes path) (source_view need))) }
{
    whole.words.push(path)?;
    whole.needs.push(need)?;
    Ok(())
}

// Appends arguments that need nothing.
fn push_only_words(whole: &mut Part, alloc: Global, words: &[Text]) -> Result<(), AllocError>
    ensures { IfOk result (λ _. part_view whole.new ≡ joined_parts (part_view whole.old) (only_words words.now)) }
{
    let mut own = strings(alloc, words)?;
    whole.words.append(&mut own)
}

// Appends the path of a source file, which needs nothing.
fn push_only_path(
    whole: &mut Part,
    alloc: Global,
    depth: usize,
    path: &str,
) -> Result<(), AllocError>
    ensures { IfOk result (λ _. part_view whole.new ≡ joined_parts (part_view whole.old) (only_words (path_from depth path.now ∷ []))) }
{
    let word = source_path(alloc, depth, path)?;
    whole.words.push(word)?;
    Ok(())
}

// Appends a program, or returns false for one that was not found.
fn push_program(
    whole: &mut Part,
    alloc: Global,
    depth: usize,
    program: &Program,
) -> Result<bool, AllocError>
    ensures { IfOk result (λ done. (if done then Some (part_view whole.new) else None)
        ≡ option_map (joined_parts (part_view whole.old)) (of_program depth program.now)) }
{
    let pushed = match program {
        Program::NotFound => return Ok(false),
        Program::Words(words) => push_only_words(whole, alloc, words.as_slice()),
        Program::File(path) => push_only_path(whole, alloc, depth, path.as_str()),
    };
    pushed?;
    Ok(true)
}

// Returns how a target is called. A program directly in the build directory is called as `./prog`.
fn run_word(alloc: Global, target: &BuildTarget) -> Result<String, AllocError>
    ensures { IfOk result (λ s. string_bytes s ≡ command_path (build_view target.now)) }
{
    let path = file_path(alloc, target)?;
    if !target.kind.is_library() && !has_slash(&path) {
        format!(in alloc; "./{path}")
    } else {
        Ok(path)
    }
}

fn push_build_target(
    whole: &mut Part,
    alloc: Global,
    target: &BuildTarget,
) -> Result<(), AllocError>
    ensures { IfOk result (λ _. part_view whole.new ≡ joined_parts (part_view whole.old) (of_build_target (build_view target.now))) }
{
    let word = run_word(alloc, target)?;
    let path = file_path(alloc, target)?;
    let need = one_made_of(alloc, path)?;
    push_path(whole, word, need)
}

fn push_outputs(whole: &mut Part, alloc: Global, paths: &[String]) -> Result<(), AllocError>
    ensures { IfOk result (λ _. part_view whole.new ≡ joined_parts (part_view whole.old) (of_outputs (texts paths.now))) }
{
    let need = make_of(alloc, paths)?;
    whole.needs.push(need)?;
    push_copies(&mut whole.words, paths)
}

fn push_output(whole: &mut Part, alloc: Global, path: &str) -> Result<(), AllocError>
    ensures { IfOk result (λ _. part_view whole.new ≡ joined_parts (part_view whole.old) (of_output path.now)) }
{
    let word = String::from_str(alloc, path)?;
    let own = String::from_str(alloc, path)?;
    let need = one_made_of(alloc, own)?;
    push_path(whole, word, need)
}

fn push_file(
    whole: &mut Part,
    alloc: Global,
    depth: usize,
    path: &str,
    is_built: bool,
) -> Result<(), AllocError>
    ensures { IfOk result (λ _. part_view whole.new ≡ joined_parts (part_view whole.old) (of_file depth path.now is_built)) }
{
    let own = String::from_str(alloc, path)?;
    if is_built {
        let word = String::from_str(alloc, path)?;
        push_path(whole, word, Source::Built(own))
    } else {
        let word = source_path(alloc, depth, path)?;
        push_path(whole, word, Source::Tree(own))
    }
}

fn push_thing(
    whole: &mut Part,
    alloc: Global,
    depth: usize,
    thing: Thing<'_>,
) -> Result<bool, AllocError>
    ensures { IfOk result (λ done. (if done then Some (part_view whole.new) else None)
        ≡ option_map (joined_parts (part_view whole.old)) (of_thing depth (thing_view thing.entry))) }
{
    let pushed = match thing {
        Thing::Program(program) => return push_program(whole, alloc, depth, program),
        Thing::File { path, is_built } => push_file(whole, alloc, depth, path, is_built),
        Thing::Target(target) => push_build_target(whole, alloc, target),
        Thing::Outputs(paths) => push_outputs(whole, alloc, paths),
        Thing::Output(path) => push_output(whole, alloc, path),
    };
    pushed?;
    Ok(true)
}

// Appends an object, or returns false if it cannot be in a command.
fn push_object(whole: &mut Part, here: &Here<'_>, object: &Object) -> Result<bool, AllocError>
    ensures { IfOk result (λ done. (if done then Some (part_view whole.new) else None)
        ≡ option_map (joined_parts (part_view whole.old)) (of_object (here_view here.now) object.now)) }
{
    match thing_of(here.earlier, object) {
        Some(thing) => push_thing(whole, here.alloc, here.depth, thing),
        None => Ok(false),
    }
}

fn push_text(
    whole: &mut Part,
    alloc: Global,
    place: &PlaceholderValues<'_>,
    text: &str,
) -> Result<bool, AllocError>
    ensures { IfOk result (λ done. (if done then Some (part_view whole.new) else None)
        ≡ option_map (joined_parts (part_view whole.old)) (of_text (place_view place.now) text.now)) }
{
    push_words(&mut whole.words, alloc, place, text)
}

// Appends a part of the command: a text with placeholders, or an object. Returns false if the part cannot be in a command.
fn push_part(
    whole: &mut Part,
    here: &Here<'_>,
    place: &PlaceholderValues<'_>,
    value: &Value,
) -> Result<bool, AllocError>
    ensures { IfOk result (λ done. (if done then Some (part_view whole.new) else None)
        ≡ option_map (joined_parts (part_view whole.old)) (part_of (here_view here.now) (place_view place.now) (data_of value.now))) }
{
    match value {
        Value::Text(text) => push_text(whole, here.alloc, place, text.as_str()),
        Value::Object(object) => push_object(whole, here, object),
        _ => Ok(false),
    }
}

/// Returns the command of these values, whose lists are already flattened. Returns `None` if a placeholder has no value, or if a value
/// cannot be in a command.
///
/// A command that is too long repeats no list of paths. The call is refused, as it is with the whole command.
pub fn command_of(
    here: &Here<'_>,
    place: &PlaceholderValues<'_>,
    values: &[&Value],
) -> Result<Option<Part>, AllocError>
    ensures { IfOk result (λ p. option_map part_view p
        ≡ short_command (here_view here.now) (place_view place.now) (map (λ v. data_of v.now) values.now)) }
{
    let mut whole = Part {
        words: Vec::with_capacity(here.alloc, values.len())?,
        needs: Vec::new(here.alloc),
    };
    let mut had = no_lists(here.alloc);
    for value in values {
        if had.leaves(here.earlier, whole.words.len(), value)? {
            continue;
        }
        if !push_part(&mut whole, here, place, value)? {
            return Ok(None);
        }
    }
    Ok(Some(whole))
}
