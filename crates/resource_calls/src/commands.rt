//! Makes the command of a test. Files and targets become absolute paths.
ghost use Rattle.std.specs.Prelude.{◌≡◌, IfOk, map, option_map, string_bytes};
ghost use Rattle.build.specs.edge.Texts.{texts};
ghost use Rattle.arguments.specs.Each.{all_behind};
ghost use Rattle.sources.specs.ThingsView.{thing_view};
ghost use Rattle.support.specs.paths.Below.{path_below};
ghost use Rattle.build.specs.View.{build_view};
ghost use Rattle.world.specs.Prelude.{arguments_data, data_of, here_view};
ghost use Rattle.resource_calls.specs.TestCommands.{argument_words, command_given, command_of, command_words, file_word, one_word};
ghost use Rattle.resource_calls.specs.TestCommands.{target_word, thing_in, word_if_executable, words_of, words_of_program};

use arguments::Arguments;
use build::{BuildTarget, file_path};
use sources::{Thing, thing_of};
use std::alloc::{AllocError, Global};
use support::paths::path_below;
use values::{Program, Value, strings};
use world::Here;

// ---- things of the project, as command-line arguments

fn one_word(alloc: Global, word: String) -> Result<Vec<String>, AllocError>
    ensures { IfOk result (λ v. texts v.items ≡ one_word (string_bytes word)) }
{
    let mut words = Vec::new(alloc);
    words.push(word)?;
    Ok(words)
}

// Returns the thing that a value refers to, and `None` if it is no object of that kind.
fn thing_in<'t>(here: &Here<'t>, value: &'t Value) -> Option<Thing<'t>>
    ensures { option_map thing_view result ≡ thing_in (here_view here.now) (data_of value.now) }
{
    match value {
        Value::Object(object) => thing_of(here.earlier, object),
        _ => None,
    }
}

fn file_word(here: &Here<'_>, path: &str, is_built: bool) -> Result<String, AllocError>
    ensures { IfOk result (λ s. string_bytes s ≡ file_word (here_view here.now) path.now is_built) }
{
    if is_built {
        path_below(here.alloc, here.build_root, path)
    } else {
        path_below(here.alloc, here.source_root, path)
    }
}

fn target_word(here: &Here<'_>, target: &BuildTarget) -> Result<String, AllocError>
    ensures { IfOk result (λ s. string_bytes s ≡ target_word (here_view here.now) (build_view target.now)) }
{
    let path = file_path(here.alloc, target)?;
    path_below(here.alloc, here.build_root, path.as_str())
}

// Returns each path below the build root.
fn built_words(here: &Here<'_>, paths: &[String]) -> Result<Vec<String>, AllocError>
    ensures { IfOk result (λ v. texts v.items ≡ map (path_below (here_view here.now).build_root) (texts paths.now)) }
{
    let mut words = Vec::new(here.alloc);
    for path in paths {
        words.push(path_below(here.alloc, here.build_root, path.as_str())?)?;
    }
    Ok(words)
}

// Returns the arguments for a file, a target or outputs of one, and `None` for a program.
fn words_of(here: &Here<'_>, thing: Thing<'_>) -> Result<Option<Vec<String>>, AllocError>
    ensures { IfOk result (λ ws. option_map (λ v. texts v.items) ws ≡ words_of (here_view here.now) (thing_view thing.entry)) }
{
    let word = match thing {
        Thing::Program(_) => return Ok(None),
        Thing::Outputs(paths) => return Ok(Some(built_words(here, paths)?)),
        Thing::File { path, is_built } => file_word(here, path, is_built)?,
        Thing::Target(target) => target_word(here, target)?,
        Thing::Output(path) => path_below(here.alloc, here.build_root, path)?,
    };
    Ok(Some(one_word(here.alloc, word)?))
}

// ---- the program

// Returns the command of a program, and `None` if it was not found.
fn words_of_program(here: &Here<'_>, program: &Program) -> Result<Option<Vec<String>>, AllocError>
    ensures { IfOk result (λ ws. option_map (λ v. texts v.items) ws ≡ words_of_program (here_view here.now) program.now) }
{
    match program {
        Program::NotFound => Ok(None),
        Program::Words(words) => Ok(Some(strings(here.alloc, words.as_slice())?)),
        Program::File(path) => {
            let word = path_below(here.alloc, here.source_root, path.as_str())?;
            Ok(Some(one_word(here.alloc, word)?))
        }
    }
}

// Returns the path of an executable, and `None` for a library.
fn word_if_executable(
    here: &Here<'_>,
    target: &BuildTarget,
) -> Result<Option<Vec<String>>, AllocError>
    ensures { IfOk result (λ ws. option_map (λ v. texts v.items) ws
        ≡ word_if_executable (here_view here.now) (build_view target.now)) }
{
    if target.kind.is_library() {
        Ok(None)
    } else {
        Ok(Some(one_word(here.alloc, target_word(here, target)?)?))
    }
}

fn command_words(here: &Here<'_>, thing: Thing<'_>) -> Result<Option<Vec<String>>, AllocError>
    ensures { IfOk result (λ ws. option_map (λ v. texts v.items) ws ≡ command_words (here_view here.now) (thing_view thing.entry)) }
{
    match thing {
        Thing::Program(program) => words_of_program(here, program),
        Thing::Target(target) => word_if_executable(here, target),
        _ => words_of(here, thing),
    }
}

// Returns the command that calls the program of a value, and `None` if it cannot run.
fn command_of(here: &Here<'_>, value: &Value) -> Result<Option<Vec<String>>, AllocError>
    ensures { IfOk result (λ ws. option_map (λ v. texts v.items) ws ≡ command_of (here_view here.now) (data_of value.now)) }
{
    match thing_in(here, value) {
        Some(thing) => command_words(here, thing),
        None => Ok(None),
    }
}

// ---- arguments

// Returns the arguments for a value given to the program: a text, a file, a target or an output of one. Returns `None` for any other value.
fn argument_words(here: &Here<'_>, value: &Value) -> Result<Option<Vec<String>>, AllocError>
    ensures { IfOk result (λ ws. option_map (λ v. texts v.items) ws ≡ argument_words (here_view here.now) (data_of value.now)) }
{
    match value {
        Value::Text(text) => {
            let word = String::from_str(here.alloc, text.as_str())?;
            Ok(Some(one_word(here.alloc, word)?))
        }
        _ => match thing_in(here, value) {
            Some(thing) => words_of(here, thing),
            None => Ok(None),
        },
    }
}

// Returns arguments followed by those for values, and `None` if one of the values has none.
fn words_behind(
    here: &Here<'_>,
    words: Vec<String>,
    values: &[&Value],
) -> Result<Option<Vec<String>>, AllocError>
    ensures { IfOk result (λ ws. option_map (λ v. texts v.items) ws
        ≡ all_behind (argument_words (here_view here.now)) (texts words.items) (map (λ v. data_of v.now) values.now)) }
{
    let mut all = words;
    for value in values {
        match argument_words(here, value)? {
            Some(mut more) => all.append(&mut more)?,
            None => return Ok(None),
        }
    }
    Ok(Some(all))
}

// ---- the command

/// Returns the program and its arguments, and `None` if the program cannot run.
pub fn command_given(
    here: &Here<'_>,
    arguments: &Arguments,
) -> Result<Option<Vec<String>>, AllocError>
    ensures { IfOk result (λ ws. option_map (λ v. texts v.items) ws ≡ command_given (here_view here.now) (arguments_data arguments.now)) }
{
    let Some(program) = arguments.argument(1) else {
        return Ok(None);
    };
    let Some(words) = command_of(here, program)? else {
        return Ok(None);
    };
    let values = arguments.leaves(here.alloc, "args")?;
    words_behind(here, words, &values)
}
