//! Holds what a machine file says.

ghost use Rattle.std.specs.Prelude.{◌≡◌, ◌==◌, [], IfOk, length, map, slice_get};
ghost use Rattle.std.specs.Option.{option_map};

use crate::fault::MachineFault;
use crate::question::check_key;
use crate::reader::read_lines;
use crate::value::MachineValue;
use std::alloc::{AllocError, Global};
use support::faults::{Fault, Refusal};
use support::tables::{SipMap, new_map};
use syntax::lexer::newlines;

/// Holds the value of a key, and the line, from 1, that gives it.
#[derive(Drop)]
pub struct Entry {
    pub value: MachineValue,
    pub line: usize,
}

/// Holds the keys of a section, in the order of their lines.
pub struct Section {
    pub(crate) entries: SipMap<String, Entry>,
}

impl Drop for Section {
    fn drop(self) {
        let Section { entries: _ } = self;
    }
}

/// Holds what a machine file says, by section and key.
pub struct Machine {
    pub(crate) sections: SipMap<String, Section>,
}

impl Drop for Machine {
    fn drop(self) {
        let Machine { sections: _ } = self;
    }
}

impl Section {
    ghost use Rattle.machine_file.specs.Lookups.{entry_at};
    ghost use Rattle.machine_file.specs.View.{shown_in, entries_of, value_in};

    /// Returns the number of keys in the section.
    pub fn len(&self) -> usize
        ensures { result ≡ length (entries_of self.now) }
    {
        self.entries.len()
    }

    /// Returns whether the section has no key.
    pub fn is_empty(&self) -> bool
        ensures { result ≡ (length (entries_of self.now) == 0) }
    {
        self.entries.is_empty()
    }

    /// Returns key number `i`, from 0, in the order of lines, and its entry. The default version of a dependency is last.
    pub fn at(&self, i: usize) -> Option<(&str, &Entry)>
        ensures { option_map shown_in result ≡ slice_get (entries_of self.now) i }
    {
        let (key, entry) = self.entries.get_index(i)?;
        Some((key.as_str(), entry))
    }

    /// Returns the value of a key in the section. It does not allocate.
    pub fn get(&self, key: &str) -> Option<&MachineValue>
        ensures { option_map (λ v. value_in v.now) result ≡ option_map (λ e. e.value) (entry_at (entries_of self.now) key.now) }
    {
        match self.entries.get(key) {
            Some(entry) => Some(&entry.value),
            None => None,
        }
    }
}

impl Machine {
    ghost use Rattle.machine_file.specs.Answers.{Answers, IsSaid, MachineSaid, told};
    ghost use Rattle.machine_file.specs.Lookups.{entries_at, value_at, text_or, dependency_at, check_at};
    ghost use Rattle.machine_file.specs.View.{answer_in, value_in, entries_of, machine_in, read_in, shown_section_in};

    /// Returns a machine file without sections.
    pub fn empty(alloc: Global) -> Machine
        ensures { machine_in result ≡ [] }
    {
        Machine {
            sections: new_map(alloc),
        }
    }

    /// Returns what these bytes say, or their fault.
    ///
    /// The format is that of the Meson manual's page "Machine files", without sections of constants and paths. This project adds sections
    /// of its own for what Meson asks the machine. The fault is E1 if the bytes are not UTF-8, and E16 if no machine file begins with the
    /// lines up to its line. Its file is `<machine file>`.
    pub fn read(alloc: Global, bytes: &[u8]) -> Result<Result<Machine, Fault>, AllocError>
        // The answer is what the lines say, or a fault at its line.
        ensures answer { IfOk result (Answers bytes.now) }

        // They say nothing else: no other sections, and no other fault.
        ensures only { (said : MachineSaid) → IsSaid bytes.now said → IfOk result (λ answer. answer_in answer ≡ told said) }
    {
        match Machine::read_bytes(alloc, bytes)? {
            Ok(machine) => Ok(Ok(machine)),
            Err(fault) => Ok(Err(fault.tell(alloc)?)),
        }
    }

    // Returns what these bytes say, or their fault without its file.
    fn read_bytes(alloc: Global, bytes: &[u8]) -> Result<Result<Machine, MachineFault>, AllocError>
        ensures answer { IfOk result (λ read. IsSaid bytes.now (read_in read)) }
        ensures only { (said : MachineSaid) → IsSaid bytes.now said → IfOk result (λ read. read_in read ≡ said) }
    {
        let text = match str::from_utf8(bytes) {
            Ok(text) => text,
            Err(error) => {
                let line = newlines(&bytes[..error.valid_up_to()]) + 1;
                return Ok(Err(MachineFault {
                    refusal: Refusal::NotUtf8,
                    line,
                    detail: String::new(alloc),
                }));
            }
        };
        read_lines(alloc, text)
    }

    /// Returns the number of sections.
    pub fn len(&self) -> usize
        ensures { result ≡ length (machine_in self.now) }
    {
        self.sections.len()
    }

    /// Returns whether there is no section.
    pub fn is_empty(&self) -> bool
        ensures { result ≡ (length (machine_in self.now) == 0) }
    {
        self.sections.is_empty()
    }

    /// Returns section number `i`, from 0, in the order of lines, and its name.
    pub fn at(&self, i: usize) -> Option<(&str, &Section)>
        ensures { option_map shown_section_in result ≡ slice_get (machine_in self.now) i }
    {
        let (name, section) = self.sections.get_index(i)?;
        Some((name.as_str(), section))
    }

    /// Returns the section with this name, such as `dependency zlib`.
    pub fn section(&self, name: &str) -> Option<&Section>
        ensures { option_map (λ s. entries_of s.now) result ≡ entries_at (machine_in self.now) name.now }
    {
        self.sections.get(name)
    }

    /// Returns the value of a key in a section. It does not allocate.
    pub fn get(&self, section: &str, key: &str) -> Option<&MachineValue>
        ensures { option_map (λ v. value_in v.now) result ≡ value_at (machine_in self.now) section.now key.now }
    {
        let section = self.section(section)?;
        section.get(key)
    }

    /// Returns the text of a key in a section, or else `default`.
    pub fn text_or<'m>(&'m self, section: &str, key: &str, default: &'m str) -> &'m str
        ensures { result.now ≡ text_or (machine_in self.now) section.now key.now default.now }
    {
        match self.get(section, key) {
            Some(value) => value.text().unwrap_or(default),
            None => default,
        }
    }

    /// Returns the section `[dependency NAME]` of this name, if the file has it.
    pub fn dependency(&self, alloc: Global, name: &str) -> Result<Option<&Section>, AllocError>
        ensures { IfOk result (λ s. option_map (λ section. entries_of section.now) s ≡ dependency_at (machine_in self.now) name.now) }
    {
        let mut section = String::from_str(alloc, "dependency ")?;
        section.push_str(name)?;
        Ok(self.section(section.as_str()))
    }

    /// Returns the answer to a check of the compiler, if the machine file has it: a boolean, or the integer of `sizeof` and `alignment`.
    pub fn check(
        &self,
        alloc: Global,
        method: &str,
        arguments: &[&str],
    ) -> Result<Option<&MachineValue>, AllocError>
        ensures { IfOk result (λ v. option_map (λ value. value_in value.now) v
            ≡ check_at (machine_in self.now) method.now (map (λ a. a.now) arguments.now)) }
    {
        let key = check_key(alloc, method, arguments)?;
        Ok(self.get("checks", key.as_str()))
    }
}
