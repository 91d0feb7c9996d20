//! Times calls on options and on machine files of so many items, without the time that making these takes. The measures are:
//!
//! - `declare`: an option file of so many options.
//! - `words`: so many options resolved with as many words.
//! - `places`: the same, with as many texts of `default_options` and keys of a machine file too.
//! - `choices`: one option of so many choices, declared, and given as many items by a word.
//! - `get`: each option looked up by its name.
//! - `at`: each option looked up by its index, 100 times over, since one walk is too short to time.
//! - `sections`: a machine file with so many dependencies.
//! - `keys`: a machine file with so many keys in a section.
//! - `answers`: a key of each dependency looked up.

use crate::measured::{Measured, count_of};
use crate::option_inputs::{
    all_choices, array_of_choices, keys, names, option_file, sections, words,
};
use crate::stop::Stop;
use crate::syntax_measures::tree;
use options::{
    Declared, Machine, OptionValue, Options, ProjectDefault, Resolved, declare, resolve,
};
use std::alloc::Global;
use std::time::Instant;
use syntax::tree::File;

// How many times `at` walks the options.
const WALKS: usize = 100;

/// Makes so many items, and carries out the calls of this measure on them.
pub fn measure(rt: &HostRuntime, measure: &str, of: &str) -> Result<Measured, Stop> {
    let count = count_of(of)?;
    match measure {
        "declare" => measure_declare(rt, count),
        "words" => measure_words(rt, count),
        "places" => measure_places(rt, count),
        "choices" => measure_choices(rt, count),
        "get" => measure_get(rt, count),
        "at" => measure_at(rt, count),
        "sections" => measure_sections(rt, count),
        "keys" => measure_keys(rt, count),
        "answers" => measure_answers(rt, count),
        _ => Err(Stop("there is no such measure of options")),
    }
}

// Returns what the statements of an option file declare, none of which may be refused.
fn declare_all(alloc: Global, file: &File<'_>) -> Result<Declared, Stop> {
    match declare(alloc, file, "meson.options")? {
        Ok(declared) => Ok(declared),
        Err(_) => Err(Stop("an option is refused")),
    }
}

// Returns so many options, declared.
fn options_declared(alloc: Global, count: usize) -> Result<Declared, Stop> {
    let source = option_file(alloc, count)?;
    let file = tree(alloc, source.as_str())?;
    declare_all(alloc, &file)
}

fn machine_of(alloc: Global, text: &str) -> Result<Machine, Stop> {
    match Machine::read(alloc, text.as_bytes())? {
        Ok(machine) => Ok(machine),
        Err(_) => Err(Stop("a line of the machine file is refused")),
    }
}

// Returns the options with their values, none of which may be refused.
fn options_of(resolved: Resolved) -> Result<Options, Stop> {
    let Resolved { outcome, .. } = resolved;
    match outcome {
        Ok(options) => Ok(options),
        Err(_) => Err(Stop("a value is refused")),
    }
}

// Returns so many options, each with its default.
fn options_resolved(alloc: Global, count: usize) -> Result<Options, Stop> {
    let declared = options_declared(alloc, count)?;
    let machine = Machine::empty(alloc);
    options_of(resolve(alloc, &declared, &[], &machine, &[])?)
}

fn measure_declare(rt: &HostRuntime, count: usize) -> Result<Measured, Stop> {
    let alloc = rt.alloc();
    let source = option_file(alloc, count)?;
    let file = tree(alloc, source.as_str())?;
    let start = Instant::now(rt)?;
    let declared = declare_all(alloc, &file)?;
    Measured::since(rt, start, declared.len())
}

// Resolves options with these texts of `default_options`, this machine file and these words.
fn measure_resolve(
    rt: &HostRuntime,
    declared: &Declared,
    defaults: &[ProjectDefault<'_>],
    machine: &Machine,
    words: &[String],
) -> Result<Measured, Stop> {
    let start = Instant::now(rt)?;
    let options = options_of(resolve(rt.alloc(), declared, defaults, machine, words)?)?;
    Measured::since(rt, start, options.len())
}

fn measure_words(rt: &HostRuntime, count: usize) -> Result<Measured, Stop> {
    let alloc = rt.alloc();
    let declared = options_declared(alloc, count)?;
    let words = words(alloc, count)?;
    measure_resolve(rt, &declared, &[], &Machine::empty(alloc), &words)
}

fn measure_places(rt: &HostRuntime, count: usize) -> Result<Measured, Stop> {
    let alloc = rt.alloc();
    let declared = options_declared(alloc, count)?;
    let words = words(alloc, count)?;
    let keys = keys(alloc, count)?;
    let machine = machine_of(alloc, keys.as_str())?;
    let mut defaults = Vec::new(alloc);
    for word in &words {
        defaults.push(ProjectDefault::Assignment(word.as_str()))?;
    }
    measure_resolve(rt, &declared, &defaults, &machine, &words)
}

// Returns how many items the option of this name has.
fn item_count(options: &Options, name: &str) -> usize {
    match options.get(name) {
        Some(OptionValue::Array(items)) => items.len(),
        _ => 0,
    }
}

fn measure_choices(rt: &HostRuntime, count: usize) -> Result<Measured, Stop> {
    let alloc = rt.alloc();
    let source = array_of_choices(alloc, count)?;
    let word = all_choices(alloc, count)?;
    let start = Instant::now(rt)?;
    let file = tree(alloc, source.as_str())?;
    let declared = declare_all(alloc, &file)?;
    let machine = Machine::empty(alloc);
    let options = options_of(resolve(alloc, &declared, &[], &machine, &[word])?)?;
    let made = item_count(&options, "array");
    Measured::since(rt, start, made)
}

fn measure_get(rt: &HostRuntime, count: usize) -> Result<Measured, Stop> {
    let alloc = rt.alloc();
    let options = options_resolved(alloc, count)?;
    let names = names(alloc, "option", count)?;
    let start = Instant::now(rt)?;
    let mut found: usize = 0;
    for name in &names {
        if options.get(name.as_str()).is_some() {
            found = found.saturating_add(1);
        }
    }
    Measured::since(rt, start, found)
}

// Returns whether there is an option at this index, with a name.
fn has_name(options: &Options, i: usize) -> bool {
    match options.at(i) {
        Some((name, _)) => !name.is_empty(),
        None => false,
    }
}

// Returns `found`, plus how many of the first `count` indices have an option with a name. A walk needs the answer of the one before, so
// that no compiler joins several walks.
fn walk(options: &Options, count: usize, found: usize) -> usize {
    let mut found = found;
    for i in 0..count {
        if has_name(options, i) {
            found = found.saturating_add(1);
        }
    }
    found
}

fn measure_at(rt: &HostRuntime, count: usize) -> Result<Measured, Stop> {
    let options = options_resolved(rt.alloc(), count)?;
    let start = Instant::now(rt)?;
    let mut found = 0;
    for _ in 0..WALKS {
        found = walk(&options, count, found);
    }
    Measured::since(rt, start, found)
}

// Returns how many keys all sections have together.
fn key_count(machine: &Machine) -> usize {
    let mut made: usize = 0;
    for i in 0..machine.len() {
        if let Some((_, section)) = machine.at(i) {
            made = section.len().saturating_add(made);
        }
    }
    made
}

fn measure_read(rt: &HostRuntime, text: &str) -> Result<Measured, Stop> {
    let start = Instant::now(rt)?;
    let machine = machine_of(rt.alloc(), text)?;
    let taken = start.elapsed(rt)?;
    let made = key_count(&machine);
    Ok(Measured { made, taken })
}

fn measure_sections(rt: &HostRuntime, count: usize) -> Result<Measured, Stop> {
    let text = sections(rt.alloc(), count)?;
    measure_read(rt, text.as_str())
}

fn measure_keys(rt: &HostRuntime, count: usize) -> Result<Measured, Stop> {
    let text = keys(rt.alloc(), count)?;
    measure_read(rt, text.as_str())
}

fn measure_answers(rt: &HostRuntime, count: usize) -> Result<Measured, Stop> {
    let alloc = rt.alloc();
    let text = sections(alloc, count)?;
    let machine = machine_of(alloc, text.as_str())?;
    let names = names(alloc, "dependency d", count)?;
    let start = Instant::now(rt)?;
    let mut found: usize = 0;
    for name in &names {
        if machine.get(name.as_str(), "version").is_some() {
            found = found.saturating_add(1);
        }
    }
    Measured::since(rt, start, found)
}
