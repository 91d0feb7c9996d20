//! Reads the places that give options values, one after another.

ghost use Rattle.std.specs.Prelude.{◌≡◌, IfOk, OnOk, fold, map};
ghost use Rattle.std.specs.List.{flat_map};
ghost use Rattle.std.specs.Option.{option_map};
ghost use Rattle.machine_file.specs.View.{machine_in, entries_of, value_in};
ghost use Rattle.options.specs.option_file.View.{options_in as declared_in, option_in};
ghost use Rattle.option_values.specs.View.{kind_in, strings_in};
ghost use Rattle.options.specs.Resolves.{next};
ghost use Rattle.options.specs.Verdicts.{of_declaration, of_assignment, of_named, of_project_default, of_words, of_entry, of_section};
ghost use Rattle.options.specs.View.{declared_of, default_in, defaults_in, verdict_in, state_in};
ghost use Rattle.options.specs.declared.fault.Origin.TheVariants.{MachineFile};

use crate::default::default_of;
use crate::fault::Origin;
use crate::known_options::{Known, OptionScope, scope_of};
use crate::option_file::{Declaration, Declared};
use crate::state::State;
use crate::value_problem::{ValueProblem, Written};
use crate::verdict::{Verdict, of_named, refuse};
use machine_file::{Entry, Machine, Section, cut_first};
use option_values::{OptionKind, Setting};
use std::alloc::{AllocError, Global};

/// Holds a value that the keyword `default_options` of `project` gives, with the name of its option.
#[derive(Clone, Copy)]
pub enum ProjectDefault<'a> {
    /// A text of a list: `NAME=VALUE`, cut at its first `=`.
    Assignment(&'a str),
    /// The key of a dictionary, and its printed value. An `=` in the key belongs to the name.
    Entry(&'a str, &'a str),
}

// Returns the verdict of a declaration, which sets its option to its default.
#[tactic(auto, unfolding(crate::specs::Verdicts::of_declaration))]
fn of_declaration<'a>(
    alloc: Global,
    name: &'a str,
    declaration: &Declaration,
) -> Result<Verdict<'a>, AllocError>
    ensures { IfOk result (λ v. verdict_in v ≡ of_declaration (option_in name.now declaration.now)) }
{
    match default_of(alloc, declaration)? {
        Some(value) => Ok(Verdict::Sets(
            name,
            Setting {
                value,
                given: false,
            },
        )),
        None => {
            let misfit = ValueProblem::NoDefault(name, &declaration.kind, &declaration.value);
            refuse(alloc, Origin::Declared(declaration.line), misfit)
        }
    }
}

/// Takes all declared options, with their defaults.
pub fn take_declarations(
    alloc: Global,
    state: &mut State,
    declared: &Declared,
) -> Result<(), AllocError>
    ensures { OnOk result (state_in state.new ≡ fold next (state_in state.old) (map of_declaration (declared_in declared.now))) }
{
    for i in 0..declared.len() {
        if state.is_refused() {
            return Ok(());
        }
        let Some((name, declaration)) = declared.at(i) else {
            return Ok(());
        };
        let verdict = of_declaration(alloc, name, declaration)?;
        state.next(alloc, verdict)?;
    }
    Ok(())
}

// Returns the verdict of a text of `default_options` or an argument of the command line: a name, and a value after the first `=`.
#[tactic(auto, unfolding(crate::specs::Verdicts::of_assignment))]
fn of_assignment<'a>(
    alloc: Global,
    known: &Known<'_>,
    state: &State,
    place: Origin,
    text: &'a str,
) -> Result<Verdict<'a>, AllocError>
    ensures { IfOk result (λ v. verdict_in v ≡ of_assignment (declared_of known.now) place text.now) }
{
    let Some((name, value)) = cut_first(text, '=') else {
        return refuse(alloc, place, ValueProblem::NoSign(text));
    };
    let kind = known.kind_named(state.index_of(name), name);
    of_named(alloc, place, name, kind, Written::Text(value))
}

// Returns the verdict of a text or an entry of `default_options`.
#[tactic(auto, unfolding(crate::specs::Verdicts::of_project_default))]
fn of_project_default<'a>(
    alloc: Global,
    known: &Known<'_>,
    state: &State,
    default: &ProjectDefault<'a>,
) -> Result<Verdict<'a>, AllocError>
    ensures { IfOk result (λ v. verdict_in v ≡ of_project_default (declared_of known.now) (default_in default.now)) }
{
    match default {
        ProjectDefault::Assignment(text) => of_assignment(
            alloc,
            known,
            state,
            Origin::Project,
            text,
        ),
        ProjectDefault::Entry(name, value) => {
            let kind = known.kind_named(state.index_of(name), name);
            of_named(alloc, Origin::Project, name, kind, Written::Text(value))
        }
    }
}

/// Takes everything in `default_options`.
pub fn take_defaults(
    alloc: Global,
    state: &mut State,
    known: &Known<'_>,
    defaults: &[ProjectDefault<'_>],
) -> Result<(), AllocError>
    ensures { OnOk result (state_in state.new ≡ fold next (state_in state.old)
        (map (of_project_default (declared_of known.now)) (defaults_in defaults.now))) }
{
    for default in defaults {
        if state.is_refused() {
            return Ok(());
        }
        let verdict = of_project_default(alloc, known, state, default)?;
        state.next(alloc, verdict)?;
    }
    Ok(())
}

// Returns the verdict of a key of the machine file. `kind` is that of the option with this name, if the section knows one.
fn of_entry<'a>(
    alloc: Global,
    kind: Option<&OptionKind>,
    key: &'a str,
    entry: &Entry,
) -> Result<Verdict<'a>, AllocError>
    ensures { IfOk result (λ v. verdict_in v ≡ of_named (MachineFile entry.now.line) key.now (value_in entry.now.value)
        (option_map (λ k. kind_in k.now) kind.entry)) }
{
    let place = Origin::MachineFile(entry.line);
    of_named(alloc, place, key, kind, Written::Value(&entry.value))
}

// Takes all keys of a section that knows these options.
fn take_entries(
    alloc: Global,
    state: &mut State,
    known: &Known<'_>,
    scope: OptionScope,
    section: &Section,
) -> Result<(), AllocError>
    ensures { OnOk result (state_in state.new ≡ fold next (state_in state.old)
        (map (of_entry (declared_of known.now) scope) (entries_of section.now))) }
{
    for i in 0..section.len() {
        if state.is_refused() {
            return Ok(());
        }
        let Some((key, entry)) = section.at(i) else {
            return Ok(());
        };
        let kind = known.kind_in_scope(scope, state.index_of(key), key);
        let verdict = of_entry(alloc, kind, key, entry)?;
        state.next(alloc, verdict)?;
    }
    Ok(())
}

// Takes all keys of a section of the machine file, if the section gives options values.
#[tactic(auto, unfolding(crate::specs::Verdicts::of_section))]
fn take_section(
    alloc: Global,
    state: &mut State,
    known: &Known<'_>,
    name: &str,
    section: &Section,
) -> Result<(), AllocError>
    ensures { OnOk result (state_in state.new ≡ fold next (state_in state.old)
        (of_section (declared_of known.now) (record { name = name.now; entries = entries_of section.now }))) }
{
    match scope_of(name) {
        Some(scope) => {
            take_entries(alloc, state, known, scope, section)?;
            Ok(())
        }
        None => Ok(()),
    }
}

/// Takes all sections of the machine file, in the order of their lines.
pub fn take_machine(
    alloc: Global,
    state: &mut State,
    known: &Known<'_>,
    machine: &Machine,
) -> Result<(), AllocError>
    ensures { OnOk result (state_in state.new ≡ fold next (state_in state.old)
        (flat_map (of_section (declared_of known.now)) (machine_in machine.now))) }
{
    for i in 0..machine.len() {
        let Some((name, section)) = machine.at(i) else {
            return Ok(());
        };
        take_section(alloc, state, known, name, section)?;
    }
    Ok(())
}

/// Takes all option arguments of the command line, which are numbered from 1.
#[tactic(auto, unfolding(crate::specs::Verdicts::of_words))]
pub fn take_words(
    alloc: Global,
    state: &mut State,
    known: &Known<'_>,
    words: &[String],
) -> Result<(), AllocError>
    ensures { OnOk result (state_in state.new ≡ fold next (state_in state.old)
        (of_words (declared_of known.now) 1 (strings_in words.now))) }
{
    for (i, word) in words.iter().enumerate() {
        if state.is_refused() {
            return Ok(());
        }
        let place = Origin::CommandLine(i + 1);
        let verdict = of_assignment(alloc, known, state, place, word.as_str())?;
        state.next(alloc, verdict)?;
    }
    Ok(())
}
