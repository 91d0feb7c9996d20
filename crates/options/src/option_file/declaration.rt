//! Holds options as an option file declares them.

ghost use Rattle.std.specs.Prelude.{◌≡◌, ◌==◌, ◌++◌, [], ◌∷◌, true, length, slice_get, string_bytes, IfOk};
ghost use Rattle.std.specs.Option.{option_map};
ghost use Rattle.options.specs.option_file.Entries.{entries_in};
ghost use Rattle.options.specs.option_file.Lookups.{are_new};

use option_values::OptionKind;
use std::alloc::{AllocError, Global};
use support::tables::{SipMap, new_map};

/// Holds what an argument gives, as it is written. For `value:` only the form is checked here. When options are resolved, the value is
/// compared with what the option takes.
#[derive(Drop)]
pub enum DeclaredValue {
    /// A plain or a raw string, after its escapes.
    Text(String),
    Boolean(bool),
    /// A number that fits in 64 bits.
    Integer(i64),
    /// A list of texts.
    Texts(Vec<String>),
    /// A value that no option takes: a number that does not fit in 64 bits, or a list of things other than texts.
    Other,
}

/// Holds an option as its call declares it.
#[derive(Drop)]
pub struct Declaration {
    pub kind: OptionKind,
    /// The default, if the call gives one.
    pub value: Option<DeclaredValue>,
    /// The line, from 1, of its statement.
    pub line: usize,
}

/// Holds the options of an option file, in the order of their calls. Their names differ, and none is that of a built-in option.
pub struct Declared {
    pub(crate) options: SipMap<String, Declaration>,
    ghost differ: { are_new (entries_in options.entries) ≡ true },
}

impl Drop for Declared {
    fn drop(self) {
        let Declared { options: _ } = self;
    }
}

impl Declared {
    ghost use Rattle.options.specs.option_file.Lookups.{is_new, is_used, option_named};
    ghost use Rattle.options.specs.option_file.View.{option_in, options_in, shown_in};

    /// Returns the declarations of a project without an option file: none.
    pub fn empty(alloc: Global) -> Declared
        ensures { options_in result ≡ [] }
    {
        Declared {
            options: new_map(alloc),
        }
    }

    // Returns whether an option has this name.
    pub(crate) fn has(&self, name: &str) -> bool
        ensures { result ≡ is_used name.now (options_in self.now) }
    {
        self.options.contains_key(name)
    }

    // Appends an option, whose name is new.
    pub(crate) fn with(self, name: String, declaration: Declaration) -> Result<Declared, AllocError>
        requires { is_new (string_bytes name) (options_in self) ≡ true }
        ensures { IfOk result (λ more. options_in more ≡ options_in self ++ option_in (string_bytes name) declaration ∷ []) }
    {
        let Declared { mut options } = self;
        options.insert(name, declaration)?;
        Ok(Declared { options })
    }

    /// Returns the number of options.
    pub fn len(&self) -> usize
        ensures { result ≡ length (options_in self.now) }
    {
        self.options.len()
    }

    /// Returns whether there is no option.
    pub fn is_empty(&self) -> bool
        ensures { result ≡ (length (options_in self.now) == 0) }
    {
        self.options.is_empty()
    }

    /// Returns option number `i`, from 0, in the order of the calls, and its name.
    pub fn at(&self, i: usize) -> Option<(&str, &Declaration)>
        ensures { option_map shown_in result ≡ slice_get (options_in self.now) i }
    {
        let (name, declaration) = self.options.get_index(i)?;
        Some((name.as_str(), declaration))
    }

    /// Returns the option with this name. Option number `i` is compared first, which needs no hash, because a caller often knows the
    /// number. The result does not depend on `i`.
    pub fn get_near(&self, i: usize, name: &str) -> Option<&Declaration>
        ensures { option_map (λ d. option_in name.now d.now) result ≡ option_named (options_in self.now) name.now }
    {
        match self.at(i) {
            Some((own, declaration)) if own == name => Some(declaration),
            _ => self.get(name),
        }
    }

    /// Returns the option with this name. It does not allocate.
    pub fn get(&self, name: &str) -> Option<&Declaration>
        ensures { option_map (λ d. option_in name.now d.now) result ≡ option_named (options_in self.now) name.now }
    {
        self.options.get(name)
    }
}
