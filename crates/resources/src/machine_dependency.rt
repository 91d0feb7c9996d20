//! Finds the dependency that a machine file has: <https://mesonbuild.com/Reference-manual_functions.html#dependency>.
ghost use Rattle.std.specs.Prelude.{◌≡◌, codes, option_map};
ghost use Rattle.std.specs.Option.{option_transpose};
ghost use Rattle.arguments.specs.Stops.{Gives};
ghost use Rattle.machine_file.specs.Questions.{Key, answer_to, dependency_topic};
ghost use Rattle.machine_file.specs.View.{entries_of, machine_in, strings_in, value_in};
ghost use Rattle.machine_file.specs.Readers.{words_said};
ghost use Rattle.values.specs.Copies.{within_texts};
ghost use Rattle.resources.specs.Fitting.{conditions_hold, dependency_that_fits, program_words, said_dependency, said_texts};
ghost use Rattle.resources.specs.Fitting.{said_version};

use crate::result_objects::found_dependency;
use arguments::CallStop;
use machine_file::{Machine, MachineValue, Section};
use std::alloc::Global;
use values::texts::version_compare;
use values::{Dependency, Texts, within_texts};

/// Returns the version in the section of a dependency, and `unknown` if it has none.
pub fn said_version(section: &Section) -> &str
    ensures { result.now ≡ said_version (entries_of section.now) }
{
    match section.get("version") {
        Some(value) => value.text().unwrap_or("unknown"),
        None => "unknown",
    }
}

// Returns whether a version meets all conditions.
fn conditions_hold(version: &str, conditions: &[String]) -> bool
    ensures { result ≡ conditions_hold version.now (strings_in conditions.now) }
{
    for condition in conditions {
        if !version_compare(version, condition.as_str()) {
            return false;
        }
    }
    true
}

// Returns the texts that the section of a dependency has for a key.
fn said_texts<'a>(section: &'a Section, key: &str) -> &'a [String]
    ensures { strings_in result.now ≡ said_texts key.now (entries_of section.now) }
{
    match section.get(key) {
        Some(value) => value.texts().unwrap_or(&[]),
        None => &[],
    }
}

// Returns the dependency that a section of the machine file describes, or `OperationRefusal::Limit` if it is too large.
fn said_dependency(alloc: Global, name: &str, section: &Section) -> Result<Dependency, CallStop>
    ensures { Gives (λ d. d) (said_dependency name.now (entries_of section.now)) result }
{
    let compile_args = said_texts(section, "compile_args");
    let link_args = said_texts(section, "link_args");
    found_dependency(alloc, name, said_version(section), compile_args, link_args)
}

/// Returns the dependency with a name if the machine file has a section for it whose version meets all conditions. Returns
/// `OperationRefusal::Limit` if it is too large for a value.
pub fn dependency_that_fits(
    alloc: Global,
    machine: &Machine,
    name: &str,
    conditions: &[String],
) -> Result<Option<Dependency>, CallStop>
    ensures { Gives (λ d. d) (option_transpose (dependency_that_fits (strings_in conditions.now) name.now
        (answer_to (machine_in machine.now) (dependency_topic name.now)))) result }
{
    match machine.dependency(alloc, name)? {
        Some(section) if conditions_hold(said_version(section), conditions) => {
            Ok(Some(said_dependency(alloc, name, section)?))
        }
        _ => Ok(None),
    }
}

// Returns the command in a value of a machine file, or `OperationRefusal::Limit` if it is too large.
fn words_within(alloc: Global, value: &MachineValue) -> Result<Texts, CallStop>
    ensures { Gives (λ texts. texts) (within_texts (words_said (value_in value.now))) result }
{
    match value {
        MachineValue::Texts(items) => Ok(within_texts(alloc, items)??),
        MachineValue::Text(text) => {
            let mut words = Vec::new(alloc);
            words.push(String::from_str(alloc, text.as_str())?)?;
            Ok(within_texts(alloc, &words)??)
        }
        _ => Ok(Texts::new(alloc)),
    }
}

/// Returns the command of the program that `[binaries]` of a machine file has for this name, or `OperationRefusal::Limit` if it is too
/// large for a value.
pub fn program_words(
    alloc: Global,
    machine: &Machine,
    name: &str,
) -> Result<Option<Texts>, CallStop>
    ensures { Gives (λ words. words) (option_transpose (option_map within_texts
        (program_words (answer_to (machine_in machine.now) (Key (codes "binaries") name.now))))) result }
{
    match machine.get("binaries", name) {
        Some(value) => Ok(Some(words_within(alloc, value)?)),
        None => Ok(None),
    }
}
