//! Reads a line from the arguments of a command line.
ghost use Rattle.std.specs.Prelude.{◌≡◌, [], Err, IfOk, MatchResult, codes, map, option_map, string_bytes, unwrap_or};
ghost use Rattle.clap.specs.Words.{all_of, first_of, found_of, kind_of, rows_of, subcommand_of, subcommand_rows_of};
ghost use Rattle.command_line.specs.CommandLine.{Answers, FaultOfKind, Gives, IsRefusal, faults_of, meson_app, task_named};

use crate::definition::command;
use crate::{Line, LineFault, Task};
use clap::error::ErrorKind;
use clap::{ArgMatches, Error};
use option_values::is_built_in;
use std::alloc::{AllocError, Global};
use support::paths::tidy_folder;

// Returns the fault for an error of `clap`.
fn fault_of(alloc: Global, words: &[String], error: &Error) -> LineFault
    ensures { FaultOfKind (kind_of error.now) result }
{
    let kind = error.kind();
    if kind == ErrorKind::OutOfMemory {
        return LineFault::Memory(AllocError);
    }
    match error.to_string(alloc) {
        Ok(text) if kind == ErrorKind::DisplayHelp => LineFault::Help(text),
        Ok(text) if kind == ErrorKind::UnknownArgument => refusal_of(alloc, words, text),
        Ok(text) => LineFault::Usage(text),
        Err(error) => LineFault::Memory(error),
    }
}

// Returns the refusal of a flag that `clap` doesn't know. If a Meson option was given as a flag, the text says how to give it. Otherwise it
// is this text.
fn refusal_of(alloc: Global, words: &[String], text: String) -> LineFault
    ensures { IsRefusal result }
{
    match option_given_as_flag(alloc, words) {
        Ok(Some(tip)) => LineFault::Usage(tip),
        Ok(None) => LineFault::Usage(text),
        Err(error) => LineFault::Memory(error),
    }
}

// Returns the text for the first argument that gives a Meson option as a flag, if there is one.
fn option_given_as_flag(alloc: Global, words: &[String]) -> Result<Option<String>, AllocError> {
    for word in words {
        let flag = name_of_flag(word.as_str());
        let name = flag.replace(alloc, '-', "_")?;
        if is_built_in(name.as_str()) {
            return Ok(Some(tip(alloc, flag, name.as_str())?));
        }
    }
    Ok(None)
}

// Returns the name in an argument `--name` or `--name=value`, or an empty text for another argument.
fn name_of_flag(word: &str) -> &str {
    let Some(flag) = word.strip_prefix("--") else {
        return "";
    };
    match flag.split_once('=') {
        Some((name, _)) => name,
        None => flag,
    }
}

fn tip(alloc: Global, flag: &str, name: &str) -> Result<String, AllocError> {
    let usage = command(alloc)?.render_usage()?;
    format!(in alloc;
        "error: unexpected argument '--{flag}' found\n\n  tip: an option is given as '-D{name}=..'\n\n{usage}\n\n\
         For more information, try '--help'.\n"
    )
}

// Returns the text for a folder that can't be a build directory.
fn folder_fault(alloc: Global, task: Task, path: &str) -> Result<String, AllocError> {
    let name = match task {
        Task::Setup => "setup",
        Task::Questions => "questions",
        Task::Fault => "fault",
    };
    format!(in alloc;
        "error: '{path}' cannot be the folder of a build: it has to be a relative path of 1 to 64 parts, none of them '..'\n\n\
         For more information, try 'meson {name} --help'.\n"
    )
}

// Returns the task of a subcommand.
fn task_named(name: &str) -> Task
    ensures { result ≡ task_named name.now }
{
    match name {
        "questions" => Task::Questions,
        "fault" => Task::Fault,
        _ => Task::Setup,
    }
}

fn parse<'a>(alloc: Global, words: &'a [String]) -> Result<ArgMatches<'a>, LineFault>
    ensures { MatchResult result
        (λ found. (faults_of (map string_bytes words.entry.now) ≡ [])
        × (subcommand_rows_of found ≡ subcommand_of meson_app (map string_bytes words.entry.now)))
        (λ fault. Answers (map string_bytes words.entry.now) (Err fault)) }
{
    let command = command(alloc)?;
    match command.try_get_matches_from(words) {
        Ok(found) => Ok(found),
        Err(error) => Err(fault_of(alloc, words, &error)),
    }
}

fn texts_of(alloc: Global, texts: &[&str]) -> Result<Vec<String>, AllocError>
    ensures { IfOk result (λ copies. map string_bytes copies.items ≡ map (λ s. s.now) texts.now) }
{
    let mut copies = Vec::new(alloc);
    for text in texts {
        copies.push(String::from_str(alloc, text)?)?;
    }
    Ok(copies)
}

// Returns the values of `-D`, in order.
fn words_in(alloc: Global, found: &ArgMatches<'_>) -> Result<Vec<String>, AllocError>
    ensures { IfOk result (λ words. map string_bytes words.items
        ≡ unwrap_or (all_of (codes "option") (rows_of (found_of found.now))) []) }
{
    match found.get_strs("option") {
        Some(words) => texts_of(alloc, words),
        None => Ok(Vec::new(alloc)),
    }
}

fn machine_file_in(alloc: Global, found: &ArgMatches<'_>) -> Result<Option<String>, AllocError>
    ensures { IfOk result (λ file. option_map string_bytes file
        ≡ first_of (codes "native-file") (rows_of (found_of found.now))) }
{
    match found.get_str("native-file") {
        Some(file) => Ok(Some(String::from_str(alloc, file)?)),
        None => Ok(None),
    }
}

// Returns the build directory, as the user gave it.
fn path_in<'a>(found: &ArgMatches<'a>) -> &'a str
    ensures { result.now ≡ unwrap_or (first_of (codes "folder") (rows_of (found_of found.now))) [] }
{
    match found.get_str("folder") {
        Some(path) => path,
        None => "",
    }
}

// Returns the line for the parsed arguments of a task.
fn line_of(alloc: Global, task: Task, found: &ArgMatches<'_>) -> Result<Line, LineFault>
    ensures { Gives task (rows_of (found_of found.now)) result }
{
    let path = path_in(found);
    let words = words_in(alloc, found)?;
    let machine_file = machine_file_in(alloc, found)?;
    match tidy_folder(alloc, path)? {
        Some(folder) => Ok(Line {
            task,
            words,
            machine_file,
            folder,
        }),
        None => Err(LineFault::Usage(folder_fault(alloc, task, path)?)),
    }
}

/// Reads a command line. The first argument is the program's name, as in `env::args`.
///
/// Fails with [`LineFault::Help`] if the user asked for help, and with [`LineFault::Usage`] if `clap` refuses the arguments or nothing can
/// be built in the folder.
pub fn command_line(alloc: Global, words: &[String]) -> Result<Line, LineFault>
    ensures { Answers (map string_bytes words.now) result }
{
    let found = parse(alloc, words)?;
    match found.subcommand() {
        Some((name, words)) => line_of(alloc, task_named(name), words),
        None => Err(LineFault::Usage(folder_fault(alloc, Task::Setup, "")?)),
    }
}
