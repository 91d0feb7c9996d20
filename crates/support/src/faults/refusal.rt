//! Lists the refusals of a run, with their numbers and words.

ghost use Rattle.std.specs.Prelude.{◌≡◌, option_map};
ghost use Rattle.support.specs.Faults.{detail_sign, fault_number, told_of, words_of};

use thiserror::Error;

/// Says why a run is refused. The numbers are fixed, so scripts may search for them.
#[derive(Clone, Copy, Debug, Error)]
#[error("E{} {}", self.number(), self.words())]
pub enum Refusal {
    /// E1: the bytes are not UTF-8.
    NotUtf8,
    /// E2: no token begins here.
    Token,
    /// E3: the grammar allows no such token here.
    Grammar,
    /// E4: more than 64 levels are open.
    Nesting,
    /// E5: a name has no value; the detail is the name.
    UndefinedName,
    /// E6: there is no such operator for values of these types, or a condition is not a boolean.
    Type,
    /// E7: an integer is out of range, or a divisor is zero.
    Range,
    /// E8: there is no function or method with this name; the detail is the name.
    UnknownFunction,
    /// E9: a call cannot take these arguments.
    Arguments,
    /// E10: there is no item at this index, or no value for this key.
    Absent,
    /// E11: something occurs twice.
    Duplicate,
    /// E12: a folder cannot be entered.
    Subdir,
    /// E13: `project` is not the first call, is called again, or names no language.
    ProjectCall,
    /// E14: a file is missing; the detail is its path.
    FileMissing,
    /// E15: an option is wrong.
    OptionValue,
    /// E16: a line of the machine file is wrong.
    MachineFile,
    /// E17: something required was not found; the detail is its first name.
    NotFound,
    /// E18: the definition files end the run; the detail is their message.
    Message,
    /// E19: a line of a template is wrong.
    Template,
    /// E20: configuration data would change after an output was made with it.
    Frozen,
    /// E21: a `build.ninja` cannot contain this name.
    NinjaName,
    /// E22: a limit of size is passed.
    Limit,
    /// E23: a part of Meson is not supported.
    LeftOut,
    /// E24: arguments for all targets are added after the first target.
    LateArguments,
}

impl Refusal {
    // Returns the number after the `E`, and the words that follow it.
    fn tell(self) -> (u8, &'static str)
        ensures { (result.0, result.1.now) ≡ told_of self }
    {
        match self {
            Refusal::NotUtf8 => (1, "not UTF-8"),
            Refusal::Token => (2, "token"),
            Refusal::Grammar => (3, "grammar"),
            Refusal::Nesting => (4, "nesting over 64"),
            Refusal::UndefinedName => (5, "undefined name"),
            Refusal::Type => (6, "type in operator or condition"),
            Refusal::Range => (7, "number range or zero divisor"),
            Refusal::UnknownFunction => (8, "unknown function or method"),
            Refusal::Arguments => (9, "arguments"),
            Refusal::Absent => (10, "index or key"),
            Refusal::Duplicate => (11, "duplicate"),
            Refusal::Subdir => (12, "subdir refused"),
            Refusal::ProjectCall => (13, "project call"),
            Refusal::FileMissing => (14, "file missing"),
            Refusal::OptionValue => (15, "option"),
            Refusal::MachineFile => (16, "machine file"),
            Refusal::NotFound => (17, "required thing not found"),
            Refusal::Message => (18, ""),
            Refusal::Template => (19, "template"),
            Refusal::Frozen => (20, "frozen configuration data"),
            Refusal::NinjaName => (21, "a name Ninja can't hold"),
            Refusal::Limit => (22, "limit"),
            Refusal::LeftOut => (23, "left out by name"),
            Refusal::LateArguments => (24, "arguments added after a target"),
        }
    }

    /// Returns the number after the `E`.
    pub fn number(self) -> u8
        ensures { result ≡ fault_number self }
    {
        self.tell().0
    }

    /// Returns the words that follow the number and a space.
    pub fn words(self) -> &'static str
        ensures { result.now ≡ words_of self }
    {
        self.tell().1
    }

    /// Returns what is printed between the words and the detail, and `None` if the detail is not printed.
    pub fn detail_sign(self) -> Option<&'static str>
        ensures { option_map (λ sign. sign.now) result ≡ detail_sign self }
    {
        match self {
            Refusal::UndefinedName
            | Refusal::UnknownFunction
            | Refusal::FileMissing
            | Refusal::NotFound => Some(": "),
            Refusal::Message => Some(""),
            _ => None,
        }
    }
}
