//! Holds what the lines of a machine file have said so far.

ghost use Rattle.std.specs.Prelude.{◌≡◌, false, is_some, string_bytes};
ghost use Rattle.std.specs.Option.{ForSome};
ghost use Rattle.support.specs.Maps.{get_by_text};

use crate::machine::{Entry, Section};
use crate::section::SectionKind;
use support::tables::SipMap;

/// Holds a section that further lines may add to, and its first line.
pub struct OpenSection {
    pub name: String,
    pub kind: SectionKind,
    pub line: usize,
    pub entries: SipMap<String, Entry>,
}

impl Drop for OpenSection {
    fn drop(self) {
        let OpenSection {
            name: _,
            kind: _,
            line: _,
            entries: _,
        } = self;
    }
}

impl OpenSection {
    /// Returns the section's name, and the section as it ended.
    pub fn into_ended(self) -> (String, Section)
        ensures { result ≡ (self.name, record { entries = self.entries }) }
    {
        let OpenSection {
            name,
            kind: _,
            line: _,
            entries,
        } = self;
        (name, Section { entries })
    }
}

/// Holds the name of a section, and its kind.
#[derive(Clone, Copy)]
pub struct Heading<'a> {
    pub name: &'a str,
    pub kind: SectionKind,
}

/// Holds the sections that have ended, and the one to which the next line belongs.
#[derive(Drop)]
pub struct Reading {
    pub ended: SipMap<String, Section>,
    pub current: Option<OpenSection>,
    ghost fresh: { ForSome current (λ o. is_some (get_by_text ended (string_bytes o.name)) ≡ false) },
}

impl Reading {
    /// Returns the sections that have ended, and the open one.
    pub fn into_sections(self) -> (SipMap<String, Section>, Option<OpenSection>)
        ensures { result ≡ (self.ended, self.current) }
    {
        let Reading { ended, current } = self;
        (ended, current)
    }
}
