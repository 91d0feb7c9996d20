//! Reads a machine file, line by line.

ghost use Rattle.std.specs.Prelude.{◌≡◌, [], ◌∷◌, ◌++◌, false, is_some, string_bytes, IfOk, OnOk};
ghost use Rattle.support.specs.Maps.{get_by_text};
ghost use Rattle.machine_file.specs.Files.{has_key, has_name, takes, with_pair, lacks_version, default_entries, closed_section};
ghost use Rattle.machine_file.specs.Files.{sections_said};
ghost use Rattle.machine_file.specs.Files.{with_section, in_section, after, machine_of};
ghost use Rattle.machine_file.specs.Lines.{file_lines};
ghost use Rattle.machine_file.specs.Sections.{kind_of};
ghost use Rattle.machine_file.specs.MisfitView.{misfit_in};
ghost use Rattle.machine_file.specs.Misfits.{refused_misfit};
ghost use Rattle.machine_file.specs.View.{value_in, added_in, entries_in, more_in, open_in, sections_in, said_in, read_in};

use crate::fault::MachineFault;
use crate::line::{LineForm, cut_pair, form_of};
use crate::line_problem::LineProblem;
use crate::machine::{Entry, Machine, Section};
use crate::section::SectionKind;
use crate::state::{Heading, OpenSection, Reading};
use crate::text::{Blanks, trim};
use crate::value::{MachineValue, read_value};
use std::alloc::{AllocError, Global};
use support::faults::Refusal;
use support::tables::{SipMap, new_map};

// Adds a value under a new key.
fn put<V: Drop>(map: &mut SipMap<String, V>, key: String, value: V) -> Result<(), AllocError>
    requires { is_some (get_by_text map.old (string_bytes key)) ≡ false }
    ensures { OnOk result (map.new.entries ≡ map.old.entries ++ (key, value) ∷ []) }
{
    map.insert(key, value)?;
    Ok(())
}

// Returns whether there is an entry with this key.
fn has_key(entries: &SipMap<String, Entry>, key: &str) -> bool
    ensures { result ≡ has_key key.now (entries_in entries.now.entries) }
{
    entries.contains_key(key)
}

// Returns whether a section of this kind with these entries takes this value at this key.
fn takes(
    kind: SectionKind,
    entries: &SipMap<String, Entry>,
    key: &str,
    value: &MachineValue,
) -> bool
    ensures { result ≡ takes kind (entries_in entries.now.entries) key.now (value_in value.now) }
{
    kind.knows(key, value) && !has_key(entries, key)
}

// Appends the entry of a line to a section, or returns why the line is not allowed there.
fn add_pair(
    alloc: Global,
    heading: Heading<'_>,
    entries: &mut SipMap<String, Entry>,
    line: usize,
    text: &str,
) -> Result<Result<(), String>, AllocError>
    ensures { IfOk result (λ added. added_in (entries_in entries.new.entries) added
        ≡ with_pair heading.entry.name.now heading.entry.kind (entries_in entries.old.entries) line text.now) }
{
    let Heading { name, kind } = heading;
    let Some((key, value)) = cut_pair(kind, text) else {
        return Ok(Err(LineProblem::NoSign(name).words(alloc)?));
    };
    let Some(value) = read_value(alloc, value)? else {
        return Ok(Err(LineProblem::NoValue(name, key).words(alloc)?));
    };
    if !takes(kind, entries, key, &value) {
        return Ok(Err(LineProblem::of_value(name, kind, key, &value).words(alloc)?));
    }
    let key = String::from_str(alloc, key)?;
    put(entries, key, Entry { value, line })?;
    Ok(Ok(()))
}

// Returns whether this is a dependency without a version.
fn lacks_version(kind: SectionKind, entries: &SipMap<String, Entry>) -> bool
    ensures { result ≡ lacks_version kind (entries_in entries.now.entries) }
{
    kind == SectionKind::Dependency && !has_key(entries, "version")
}

// Adds the version `unknown` to a dependency without a version, when its section ends. The entry has the section's first line.
fn put_default(
    alloc: Global,
    kind: SectionKind,
    line: usize,
    entries: &mut SipMap<String, Entry>,
) -> Result<(), AllocError>
    ensures { OnOk result (entries_in entries.new.entries
        ≡ entries_in entries.old.entries ++ default_entries kind line (entries_in entries.old.entries)) }
{
    if !lacks_version(kind, entries) {
        return Ok(());
    }
    let key = String::from_str(alloc, "version")?;
    let value = MachineValue::Text(String::from_str(alloc, "unknown")?);
    put(entries, key, Entry { value, line })?;
    Ok(())
}

// Returns whether there is a section with this name.
fn has_name(sections: &SipMap<String, Section>, name: &str) -> bool
    ensures { result ≡ has_name name.now (sections_in sections.now.entries) }
{
    sections.contains_key(name)
}

// Ends a section and appends it to the others.
fn put_closed(
    alloc: Global,
    ended: &mut SipMap<String, Section>,
    mut section: OpenSection,
) -> Result<(), AllocError>
    requires { is_some (get_by_text ended.old (string_bytes section.name)) ≡ false }
    ensures { OnOk result (sections_in ended.new.entries ≡ sections_in ended.old.entries ++ closed_section (open_in section) ∷ []) }
{
    put_default(alloc, section.kind, section.line, &mut section.entries)?;
    let (name, section) = section.into_ended();
    put(ended, name, section)?;
    Ok(())
}

// Returns all sections, and ends the open one.
fn all_sections(alloc: Global, reading: Reading) -> Result<SipMap<String, Section>, AllocError>
    ensures { IfOk result (λ sections. sections_in sections.entries ≡ sections_said (said_in reading)) }
{
    let (mut ended, current) = reading.into_sections();
    let Some(section) = current else {
        return Ok(ended);
    };
    put_closed(alloc, &mut ended, section)?;
    Ok(ended)
}

// Refuses a line for this reason.
fn refuse(alloc: Global, misfit: LineProblem<'_>) -> Result<Result<Reading, String>, AllocError>
    ensures { IfOk result (λ more. more_in more ≡ refused_misfit (misfit_in misfit.entry)) }
{
    Ok(Err(misfit.words(alloc)?))
}

// Begins a section on this line, if its name is known and new.
fn with_section(
    alloc: Global,
    reading: Reading,
    line: usize,
    name: &str,
) -> Result<Result<Reading, String>, AllocError>
    ensures { IfOk result (λ more. more_in more ≡ with_section (said_in reading) line name.now (kind_of name.now)) }
{
    let Some(kind) = SectionKind::of(name) else {
        return refuse(alloc, LineProblem::NoSection(name));
    };
    let ended = all_sections(alloc, reading)?;
    if has_name(&ended, name) {
        return refuse(alloc, LineProblem::SectionTwice(name));
    }
    let current = OpenSection {
        name: String::from_str(alloc, name)?,
        kind,
        line,
        entries: new_map(alloc),
    };
    Ok(Ok(Reading {
        ended,
        current: Some(current),
    }))
}

// Appends the entry of a line to the open section, or returns why the line is not allowed there.
fn add_line(
    alloc: Global,
    section: &mut OpenSection,
    line: usize,
    text: &str,
) -> Result<Result<(), String>, AllocError>
    ensures added { IfOk result (λ added. added_in (open_in section.new).entries added
        ≡ with_pair (string_bytes section.old.name) section.old.kind (open_in section.old).entries line text.now) }
    ensures same { section.new ≡ record section.old { entries = section.new.entries } }
{
    let heading = Heading {
        name: &section.name,
        kind: section.kind,
    };
    add_pair(alloc, heading, &mut section.entries, line, text)
}

// Reads a key and its value on this line, if an open section takes them.
fn in_section(
    alloc: Global,
    mut reading: Reading,
    line: usize,
    text: &str,
) -> Result<Result<Reading, String>, AllocError>
    ensures { IfOk result (λ more. more_in more ≡ in_section (said_in reading) line text.now (said_in reading).open_section) }
{
    let Some(section) = &mut reading.current else {
        return refuse(alloc, LineProblem::Outside);
    };
    match add_line(alloc, section, line, text)? {
        Ok(()) => Ok(Ok(reading)),
        Err(detail) => Ok(Err(detail)),
    }
}

// Reads one more line, or returns why it is not allowed there.
#[tactic(auto, unfolding(crate::specs::Files::after))]
fn after(
    alloc: Global,
    reading: Reading,
    line: usize,
    text: &str,
) -> Result<Result<Reading, String>, AllocError>
    ensures { IfOk result (λ more. more_in more ≡ after (said_in reading) line text.now) }
{
    match form_of(text) {
        LineForm::Nothing => Ok(Ok(reading)),
        LineForm::Header(name) => with_section(alloc, reading, line, name),
        LineForm::Pair(text) => in_section(alloc, reading, line, text),
    }
}

/// Returns what the lines of a text say, or the fault of the first line up to which they begin no machine file.
pub fn read_lines(alloc: Global, text: &str) -> Result<Result<Machine, MachineFault>, AllocError>
    ensures { IfOk result (λ read. read_in read ≡ machine_of (file_lines text.now)) }
{
    let mut reading = Reading {
        ended: new_map(alloc),
        current: None,
    };
    let mut number = 0;
    for line in text.lines() {
        number += 1;
        match after(alloc, reading, number, trim(Blanks::All, line))? {
            Ok(more) => reading = more,
            Err(detail) => {
                return Ok(Err(MachineFault {
                    refusal: Refusal::MachineFile,
                    line: number,
                    detail,
                }));
            }
        }
    }
    let sections = all_sections(alloc, reading)?;
    Ok(Ok(Machine { sections }))
}
