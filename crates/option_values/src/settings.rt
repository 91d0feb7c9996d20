//! Holds options, each with a value.

ghost use Rattle.std.specs.Prelude.{◌≡◌, ◌==◌, length, slice_get};
ghost use Rattle.std.specs.Option.{option_map};

use crate::kind::OptionValue;
use support::tables::SipMap;

/// Holds the value of an option.
#[derive(Drop)]
pub struct Setting {
    pub value: OptionValue,
    /// Whether `default_options`, the machine file or the command line gives it.
    pub given: bool,
}

/// Holds the options of a project and their values. The built-in options come first, in the order of the Meson manual's page "Built-in
/// options". The declared ones follow in the order of their declarations.
pub struct Options {
    settings: SipMap<String, Setting>,
}

impl Drop for Options {
    fn drop(self) {
        let Options { settings: _ } = self;
    }
}

impl Options {
    ghost use Rattle.option_values.specs.View.{value_in};
    ghost use Rattle.option_values.specs.Settings.{named_value, value_named};
    ghost use Rattle.option_values.specs.SettingsView.{options_in, settings_in, shown_in};

    /// Returns options with these values, by their names.
    pub fn new(settings: SipMap<String, Setting>) -> Options
        ensures { options_in result ≡ settings_in settings.entries }
    {
        Options { settings }
    }

    /// Returns the number of options.
    pub fn len(&self) -> usize
        ensures { result ≡ length (options_in self.now) }
    {
        self.settings.len()
    }

    /// Returns whether there is no option.
    pub fn is_empty(&self) -> bool
        ensures { result ≡ (length (options_in self.now) == 0) }
    {
        self.settings.is_empty()
    }

    /// Returns the value of the option with this name, which also shows its type. It does not allocate.
    pub fn get(&self, name: &str) -> Option<&OptionValue>
        ensures { option_map (λ v. value_in v.now) result ≡ value_named (options_in self.now) name.now }
    {
        match self.settings.get(name) {
            Some(setting) => Some(&setting.value),
            None => None,
        }
    }

    /// Returns option number `i`, from 0: its name and its value, which also shows its type. It does not allocate.
    pub fn at(&self, i: usize) -> Option<(&str, &OptionValue)>
        ensures { option_map shown_in result ≡ option_map named_value (slice_get (options_in self.now) i) }
    {
        let (name, setting) = self.settings.get_index(i)?;
        Some((name.as_str(), &setting.value))
    }
}
