//! Defines the sections of a machine file, and what each accepts.

ghost use Rattle.std.specs.Prelude.{◌≡◌};
ghost use Rattle.machine_file.specs.Sections.{kind_of, is_dependency, of_host_machine, of_compiler, of_dependency, true_or_false};
ghost use Rattle.machine_file.specs.Sections.{of_check};
ghost use Rattle.machine_file.specs.Sections.{expected_of_key, fits, knows, cuts_last};
ghost use Rattle.machine_file.specs.View.{value_in};

use crate::text::cut_first;
use crate::value::MachineValue;
use support::text_lists::is_among;

/// Names a kind of section.
#[derive(Clone, Copy, PartialEq, Eq)]
pub enum SectionKind {
    /// `[binaries]`: programs, each as one word or several.
    Binaries,
    /// `[built-in options]` and `[project options]`: values of options.
    Options,
    /// `[host_machine]`: the machine that the project is built for.
    HostMachine,
    /// `[compiler]`: the identity of the compiler.
    Compiler,
    /// `[dependency NAME]`: a dependency that is found.
    Dependency,
    /// `[checks]`: the answers to the compiler's checks.
    Checks,
    /// `[properties]`: values that the project queries.
    Properties,
}

/// Says what a key takes.
#[derive(Clone, Copy)]
pub enum Expected {
    Any,
    /// A text, or a list with at least one text.
    Words,
    Text,
    Texts,
    Boolean,
    Integer,
}

impl SectionKind {
    // Returns the kind of the section with this name, if there is such a section.
    #[tactic(auto, unfolding(crate::specs::Sections::kind_of))]
    pub(crate) fn of(name: &str) -> Option<SectionKind>
        ensures { result ≡ kind_of name.now }
    {
        match name {
            "binaries" => Some(SectionKind::Binaries),
            "built-in options" | "project options" => Some(SectionKind::Options),
            "host_machine" => Some(SectionKind::HostMachine),
            "compiler" => Some(SectionKind::Compiler),
            "checks" => Some(SectionKind::Checks),
            "properties" => Some(SectionKind::Properties),
            _ if is_dependency(name) => Some(SectionKind::Dependency),
            _ => None,
        }
    }

    // Returns whether the value follows the last equals sign of its line, and not the first.
    pub(crate) fn cuts_last(self) -> bool
        ensures { result ≡ cuts_last self }
    {
        self == SectionKind::Checks
    }

    // Returns what a key of this section takes, or `None` if the section does not know the key.
    pub(crate) fn expects(self, key: &str) -> Option<Expected>
        ensures { result ≡ expected_of_key self key.now }
    {
        match self {
            SectionKind::Binaries => Some(Expected::Words),
            SectionKind::Options | SectionKind::Properties => Some(Expected::Any),
            SectionKind::HostMachine => of_host_machine(key),
            SectionKind::Compiler => of_compiler(key),
            SectionKind::Dependency => of_dependency(key),
            SectionKind::Checks => of_check(key),
        }
    }

    // Returns whether this section knows the key and takes the value.
    #[tactic(auto, unfolding(crate::specs::Sections::knows))]
    pub(crate) fn knows(self, key: &str, value: &MachineValue) -> bool
        ensures { result ≡ knows self key.now (value_in value.now) }
    {
        match self.expects(key) {
            Some(expected) => expected.fits(value),
            None => false,
        }
    }
}

// Returns whether this is `dependency`, a space and a name.
fn is_dependency(name: &str) -> bool
    ensures { result ≡ is_dependency name.now }
{
    name.starts_with("dependency ") && name.len() > 11
}

fn of_host_machine(key: &str) -> Option<Expected>
    ensures { result ≡ of_host_machine key.now }
{
    if is_among(&["system", "cpu_family", "cpu", "endian"], key) {
        Some(Expected::Text)
    } else {
        None
    }
}

fn of_compiler(key: &str) -> Option<Expected>
    ensures { result ≡ of_compiler key.now }
{
    match key {
        "id" | "version" => Some(Expected::Text),
        _ => None,
    }
}

fn of_dependency(key: &str) -> Option<Expected>
    ensures { result ≡ of_dependency key.now }
{
    match key {
        "version" => Some(Expected::Text),
        "compile_args" | "link_args" => Some(Expected::Texts),
        _ => None,
    }
}

// Returns whether a method of the compiler is a check with a boolean answer.
#[tactic(auto, unfolding(crate::specs::Sections::true_or_false))]
fn is_true_or_false(method: &str) -> bool
    ensures { result ≡ true_or_false method.now }
{
    let methods = [
        "has_header",
        "check_header",
        "has_function",
        "has_type",
        "has_argument",
        "has_link_argument",
        "has_member",
        "has_header_symbol",
        "find_library",
    ];
    is_among(&methods, method)
}

// Returns the type of a check's answer, which the method before the first space decides.
fn of_check(key: &str) -> Option<Expected>
    ensures { result ≡ of_check key.now }
{
    let (method, _) = cut_first(key, ' ')?;
    if is_true_or_false(method) {
        Some(Expected::Boolean)
    } else if is_among(&["sizeof", "alignment"], method) {
        Some(Expected::Integer)
    } else {
        None
    }
}

impl Expected {
    // Returns whether a value has the type that the key requires.
    pub(crate) fn fits(self, value: &MachineValue) -> bool
        ensures { result ≡ fits self (value_in value.now) }
    {
        match (self, value) {
            (Expected::Any, _) => true,
            (Expected::Words | Expected::Text, MachineValue::Text(_)) => true,
            (Expected::Words, MachineValue::Texts(items)) => !items.is_empty(),
            (Expected::Texts, MachineValue::Texts(_)) => true,
            (Expected::Boolean, MachineValue::Boolean(_)) => true,
            (Expected::Integer, MachineValue::Integer(_)) => true,
            _ => false,
        }
    }
}
