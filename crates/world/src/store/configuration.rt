//! Keeps the configuration data of a run.
ghost use Rattle.std.specs.Prelude.{◌≡◌, ◌↔◌, IfOk, IsErrOf, IsTrue, OnErr, OnOk, length, option_map, slice_get};
ghost use Rattle.template.specs.Config.{Bytes, double_quoted_text, unfrozen_configuration};
ghost use Rattle.template.specs.ConfigData.{content_of};
ghost use Rattle.world.specs.Configuring.{configuration_at, frozen_configuration, is_frozen_at, merged_with, with_configured, with_content};
ghost use Rattle.world.specs.Configuring.{with_more};
ghost use Rattle.world.specs.Store.{world_after_change, world_of};

use crate::store::Store;
use std::alloc::{AllocError, Global};
use template::{ConfigData, ConfigValue, SetStop};

impl Store {
    /// Returns the configuration data with a number.
    pub fn configuration(&self, number: usize) -> Option<&ConfigData>
        ensures { option_map (λ c. c.now) result ≡ slice_get self.now.configurations number }
    {
        self.configurations.get(number)
    }

    /// Returns a copy of the configuration data with a number. The copy is not frozen.
    pub fn copy_of_configuration(
        &self,
        alloc: Global,
        number: usize,
    ) -> Result<ConfigData, AllocError>
        ensures { IfOk result (λ c. c ≡ unfrozen_configuration (configuration_at number self.now.configurations).entries) }
    {
        match self.configuration(number) {
            Some(values) => values.copy(),
            None => Ok(ConfigData::new(alloc)),
        }
    }

    /// Adds configuration data, and returns its number.
    pub fn add_configuration(&mut self, values: ConfigData) -> Result<usize, AllocError>
        ensures number { IfOk result (λ number. number ≡ length self.old.configurations) }
        ensures world { OnOk result (world_of self.new ≡ world_after_change (with_more values) (world_of self.old)) }
        ensures names { self.new.names ≡ self.old.names }
    {
        let number = self.configurations.len();
        self.configurations.push(values)?;
        Ok(number)
    }

    /// Sets a name to a value in the data with a number, or returns `SetStop::Frozen` if the data is frozen.
    pub fn set_configured(
        &mut self,
        number: usize,
        name: &str,
        value: ConfigValue,
    ) -> Result<(), SetStop>
        ensures world { OnOk result (world_of self.new
            ≡ world_after_change (with_configured (with_content name.now (content_of value)) number) (world_of self.old)) }
        ensures frozen { IsErrOf result SetStop.Frozen ↔ IsTrue (is_frozen_at number self.old.configurations) }
        ensures err { OnErr result (world_of self.new ≡ world_of self.old) }
        ensures names { self.new.names ≡ self.old.names }
    {
        if number < self.configurations.len() {
            self.configurations[number].set(name, value)
        } else {
            Ok(())
        }
    }

    /// Sets a name to a text in quotes in the data with a number, or returns `SetStop::Frozen` if the data is frozen.
    pub fn set_quoted(&mut self, number: usize, name: &str, text: &str) -> Result<(), SetStop>
        ensures world { OnOk result (world_of self.new
            ≡ world_after_change (with_configured (with_content name.now (Bytes (double_quoted_text text.now))) number)
            (world_of self.old)) }
        ensures frozen { IsErrOf result SetStop.Frozen ↔ IsTrue (is_frozen_at number self.old.configurations) }
        ensures err { OnErr result (world_of self.new ≡ world_of self.old) }
        ensures names { self.new.names ≡ self.old.names }
    {
        if number < self.configurations.len() {
            self.configurations[number].set_quoted(name, text)
        } else {
            Ok(())
        }
    }

    /// Sets each name of other data to its value there, in the data with a number, or returns `SetStop::Frozen` if that data is frozen.
    pub fn merge_configured(&mut self, number: usize, others: &ConfigData) -> Result<(), SetStop>
        ensures world { OnOk result
            (world_of self.new ≡ world_after_change (with_configured (merged_with others.now) number) (world_of self.old)) }
        ensures frozen { IsErrOf result SetStop.Frozen ↔ IsTrue (is_frozen_at number self.old.configurations) }
        ensures err { OnErr result (world_of self.new ≡ world_of self.old) }
        ensures names { self.new.names ≡ self.old.names }
    {
        if number < self.configurations.len() {
            self.configurations[number].merge_from(others)
        } else {
            Ok(())
        }
    }

    /// Freezes the data with a number: no later call may change it.
    pub fn freeze_configured(&mut self, number: usize)
        ensures world { world_of self.new ≡ world_after_change (with_configured frozen_configuration number) (world_of self.old) }
        ensures names { self.new.names ≡ self.old.names }
    {
        if number < self.configurations.len() {
            self.configurations[number].freeze();
        }
    }
}
