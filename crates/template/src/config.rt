//! Holds configuration data: values by name, which can be changed until they are frozen.
ghost use Rattle.std.specs.Prelude.{◌≡◌, ◌↔◌, ℕ, List, [], true, false, pos, IsTrue, IsErrOf, OnOk, OnErr, IfOk, None, Some, is_some, map};
ghost use Rattle.std.specs.Prelude.{string_bytes, if◌then◌else◌};
ghost use Rattle.std.specs.Option.{option_map, option_or};
ghost use Rattle.std.specs.List.{AllPass};
ghost use Rattle.std.specs.List.Sorted.{IsStrictlySortedBy};
ghost use Rattle.std.specs.Cmp.Lexicographic.{slice_cmp};
ghost use Rattle.std.specs.Ordering.{nat_cmp};
ghost use Rattle.std.specs.Str.{bytes_eq};
ghost use Rattle.template.specs.Config.{Entries, Number, Bytes, entries_with_others, names, double_quoted_text, unfrozen_configuration};
ghost use Rattle.template.specs.Config.{value_of, with_value};
ghost use Rattle.template.specs.ConfigData.{content_of, entries_of};
ghost use Rattle.template.specs.Line.{is_name_byte};
ghost use Rattle.template.specs.Undo.{AreSet, IsSet, changes_of};

use std::alloc::{AllocError, AllocFailed, Global};
use std::collections::BTreeMap;
use std::marker::Model;
use thiserror::Error;

/// Holds the value of a name in configuration data.
#[derive(Drop)]
pub enum ConfigValue {
    Boolean(bool),
    Integer(i128),
    Text(String),
}

impl Clone for ConfigValue {
    ghost use Rattle.std.specs.Prelude.{◌≡◌};
    ghost use Rattle.template.specs.ConfigData.{content_of};

    ghost is_clone = { λ value clone. content_of clone ≡ content_of value };

    fn clone(&self) -> Result<ConfigValue, AllocError> {
        match self {
            ConfigValue::Boolean(boolean) => Ok(ConfigValue::Boolean(*boolean)),
            ConfigValue::Integer(number) => Ok(ConfigValue::Integer(*number)),
            ConfigValue::Text(text) => Ok(ConfigValue::Text(text.clone()?)),
        }
    }
}

/// Says why configuration data was not changed.
#[derive(Clone, Copy, Debug, Error)]
pub enum SetStop {
    /// E20: the data is frozen, because an output was made with it.
    #[error("E20 frozen configuration data")]
    Frozen,
    #[error("out of memory")]
    Memory,
}

impl<T: Drop> From<AllocFailed<T>> for SetStop {
    ghost use Rattle.std.specs.Prelude.{◌≡◌};
    ghost use Rattle.template.specs.declared.config.SetStop.TheVariants.{Memory};

    ghost from_gives = { λ _ e. e ≡ Memory };

    fn from(_error: AllocFailed<T>) -> SetStop {
        SetStop::Memory
    }
}

impl From<AllocError> for SetStop {
    ghost use Rattle.std.specs.Prelude.{◌≡◌};
    ghost use Rattle.template.specs.declared.config.SetStop.TheVariants.{Memory};

    ghost from_gives = { λ _ e. e ≡ Memory };

    fn from(_error: AllocError) -> SetStop {
        SetStop::Memory
    }
}

/// Maps names to values, in the order of the names' bytes. It is the object that `configuration_data()` returns (Meson reference manual).
/// Its calls allocate from the allocator with which it was made.
#[derive(Drop)]
pub struct ConfigData {
    alloc: Global,
    pub(crate) entries: BTreeMap<String, ConfigValue>,
    frozen: bool,
}

impl Model for ConfigData {
    ghost use Rattle.template.specs.Config.{Configuration};

    ghost Value = { Configuration };

    ghost use Rattle.template.specs.ConfigData.{entries_of};

    ghost view = { λ config. record { entries = entries_of config.entries.entries; frozen = config.frozen } };
}

impl ConfigData {
    /// Returns configuration data without values.
    pub fn new(alloc: Global) -> ConfigData
        ensures { result ≡ unfrozen_configuration [] }
    {
        ConfigData {
            alloc,
            entries: BTreeMap::new(alloc),
            frozen: false,
        }
    }

    /// Returns a copy that is not frozen.
    pub fn copy(&self) -> Result<ConfigData, AllocError>
        ensures { IfOk result (λ copy. copy ≡ unfrozen_configuration self.now.entries) }
    {
        Ok(ConfigData {
            alloc: self.alloc,
            entries: self.entries.clone()?,
            frozen: false,
        })
    }

    /// Returns the value of this name, if it has one.
    pub fn get(&self, name: &str) -> Option<&ConfigValue>
        ensures { option_map (λ value. content_of value.now) result ≡ value_of self.now.entries name.now }
    {
        self.entries.get(name)
    }

    /// Returns the value of a name whose bytes are all valid in a name, so that the name is text.
    pub(crate) fn value_at(&self, name: &[u8]) -> Option<&ConfigValue>
        requires { AllPass is_name_byte name.now }
        ensures { option_map (λ value. content_of value.now) result ≡ value_of self.now.entries name.now }
    {
        match str::from_utf8(name) {
            Ok(text) => self.get(text),
            Err(_) => None,
        }
    }

    /// Returns whether this name has a value.
    pub fn has(&self, name: &str) -> bool
        ensures { result ≡ is_some (value_of self.now.entries name.now) }
    {
        self.entries.contains_key(name)
    }

    /// Returns the names, in the order of their bytes.
    pub fn keys(&self) -> Result<Vec<&str>, AllocError>
        ensures names { IfOk result (λ keys. map (λ key. key.now) keys.items ≡ names self.now.entries) }
        ensures ascending { IsStrictlySortedBy (slice_cmp nat_cmp) (names self.now.entries) }
    {
        let mut keys = Vec::with_capacity(self.alloc, self.entries.len())?;
        for (name, _) in &self.entries {
            keys.push(name.as_str())?;
        }
        Ok(keys)
    }

    /// Freezes the data: later calls can't change the values.
    pub fn freeze(&mut self)
        ensures { self.new ≡ record self.old { frozen = true } }
    {
        self.frozen = true;
    }

    /// Sets the value of this name. Fails with [`SetStop::Frozen`] if the data is frozen, and changes nothing then.
    pub fn set(&mut self, name: &str, value: ConfigValue) -> Result<(), SetStop>
        ensures ok { OnOk result (self.new ≡ record self.old { entries = with_value self.old.entries name.now (content_of value) }) }
        ensures found { OnOk result ((q : List ℕ) → value_of self.new.entries q
            ≡ (if bytes_eq q name.now then Some (content_of value) else value_of self.old.entries q)) }
        ensures frozen { IsErrOf result SetStop.Frozen ↔ IsTrue self.old.frozen }
        ensures err { OnErr result (self.new ≡ self.old) }
    {
        if self.frozen {
            return Err(SetStop::Frozen);
        }
        let key = String::from_str(self.alloc, name)?;
        put(&mut self.entries, key, value)?;
        Ok(())
    }

    /// Sets the value of this name to 1 for true and 0 for false.
    pub fn set10(&mut self, name: &str, boolean: bool) -> Result<(), SetStop>
        ensures ok { let content = Number (pos (if boolean then 1 else 0)) in
            OnOk result (self.new ≡ record self.old { entries = with_value self.old.entries name.now content }) }
        ensures frozen { IsErrOf result SetStop.Frozen ↔ IsTrue self.old.frozen }
        ensures err { OnErr result (self.new ≡ self.old) }
    {
        self.set(name, ConfigValue::Integer(if boolean { 1 } else { 0 }))
    }

    /// Sets the value of this name to the text in quotes, with a backslash before each quote inside.
    pub fn set_quoted(&mut self, name: &str, text: &str) -> Result<(), SetStop>
        ensures ok { let content = Bytes (double_quoted_text text.now) in
            OnOk result (self.new ≡ record self.old { entries = with_value self.old.entries name.now content }) }
        ensures frozen { IsErrOf result SetStop.Frozen ↔ IsTrue self.old.frozen }
        ensures err { OnErr result (self.new ≡ self.old) }
    {
        if self.frozen {
            return Err(SetStop::Frozen);
        }
        let value = make_quoted(self.alloc, text)?;
        self.set(name, ConfigValue::Text(value))
    }

    /// Sets each name of the other data to its value there. Takes time and memory for the other data, and changes nothing if memory runs
    /// out.
    pub fn merge_from(&mut self, other: &ConfigData) -> Result<(), SetStop>
        ensures ok { OnOk result (self.new ≡ record self.old { entries = entries_with_others self.old.entries other.now.entries }) }
        ensures found { OnOk result ((q : List ℕ) → value_of self.new.entries q
            ≡ option_or (value_of other.now.entries q) (value_of self.old.entries q)) }
        ensures frozen { IsErrOf result SetStop.Frozen ↔ IsTrue self.old.frozen }
        ensures err { OnErr result (self.new ≡ self.old) }
    {
        if self.frozen {
            return Err(SetStop::Frozen);
        }
        let mut changes = Vec::new(self.alloc);
        if merge(&mut self.entries, &other.entries, &mut changes).is_err() {
            undo(&mut self.entries, changes);
            return Err(SetStop::Memory);
        }
        Ok(())
    }
}

// Sets a value, and returns the earlier one.
fn put(
    entries: &mut BTreeMap<String, ConfigValue>,
    key: String,
    value: ConfigValue,
) -> Result<Option<ConfigValue>, AllocError>
    ensures ok { OnOk result (entries_of entries.new.entries
        ≡ with_value (entries_of entries.old.entries) (string_bytes key) (content_of value)) }
    ensures set { IfOk result (λ before. IsSet (string_bytes key) (option_map content_of before)
        (entries_of entries.old.entries) (entries_of entries.new.entries)) }
    ensures absent { OnErr result (value_of (entries_of entries.old.entries) (string_bytes key) ≡ None) }
    ensures err { OnErr result (entries.new.entries ≡ entries.old.entries) }
{
    Ok(entries.insert(key, value)?)
}

// Returns the text in quotes, with a backslash before each quote inside.
#[tactic(auto, unfolding(crate::specs::Config::double_quoted_text, crate::specs::Config::escaped_quotes))]
fn make_quoted(alloc: Global, text: &str) -> Result<String, AllocError>
    ensures { IfOk result (λ made. string_bytes made ≡ double_quoted_text text.now) }
{
    let mut made = String::from_str(alloc, "\"")?;
    for c in text.chars() {
        if c == '"' {
            made.push_str("\\\"")?;
        } else {
            made.push(c)?;
        }
    }
    made.push('"')?;
    Ok(made)
}

// Sets each of the other values in turn, and notes the earlier value of each name.
#[tactic(auto, unfolding(crate::specs::Config::entries_with_others))]
fn merge(
    entries: &mut BTreeMap<String, ConfigValue>,
    others: &BTreeMap<String, ConfigValue>,
    changes: &mut Vec<(String, Option<ConfigValue>)>,
) -> Result<(), AllocError>
    requires { changes.old.items ≡ [] }
    ensures entries { OnOk result (entries_of entries.new.entries
        ≡ entries_with_others (entries_of entries.old.entries) (entries_of others.now.entries)) }
    ensures changes { AreSet (changes_of changes.new.items) (entries_of entries.old.entries) (entries_of entries.new.entries) }
    ensures ascending { OnOk result (IsStrictlySortedBy (slice_cmp nat_cmp) (names (entries_of others.now.entries))) }
{
    for (name, value) in others {
        let noted = name.clone()?;
        let key = name.clone()?;
        let value = value.clone()?;
        changes.reserve(1)?;
        let before = put(entries, key, value)?;
        changes.push_reserved((noted, before));
    }
    Ok(())
}

// Sets the earlier value of the name again. It does not allocate, because the name is there.
fn restore(entries: &mut BTreeMap<String, ConfigValue>, name: String, before: Option<ConfigValue>)
    ensures { (old : Entries) → IsSet (string_bytes name) (option_map content_of before) old (entries_of entries.old.entries)
        → entries_of entries.new.entries ≡ old }
{
    match before {
        Some(value) => {
            let _ = put(entries, name, value);
        }
        None => {
            entries.remove(name.as_str());
        }
    }
}

// Reverts the changes, the last one first.
fn undo(
    entries: &mut BTreeMap<String, ConfigValue>,
    mut changes: Vec<(String, Option<ConfigValue>)>,
)
    ensures { (old : Entries) → AreSet (changes_of changes.items) old (entries_of entries.old.entries)
        → entries_of entries.new.entries ≡ old }
{
    while let Some((name, before)) = changes.pop() {
        restore(entries, name, before);
    }
}
