//! Changes configuration data for a function.
ghost use Rattle.template.specs.ConfigData.{content_of};
ghost use Rattle.world.specs.Configuring.{add_configuration, copy_configuration, freeze_configured, merge_configured};
ghost use Rattle.world.specs.Configuring.{set_configured, set_quoted};

use crate::caller::Caller;
use crate::stop::Stop;
use ports::{Outputs, Tree};
use support::faults::Refusal;
use template::{ConfigData, ConfigValue, SetStop};

impl<'a, T: Tree, O: Outputs> Caller<'a, T, O> {
    ghost use Rattle.world.specs.Caller.{Does};
    ghost use Rattle.world.specs.Answering.{IsConfigured};
    ghost use Rattle.world.specs.Store.{world_of};

    // Returns the result of a change of configuration data, or stops with its refusal.
    fn configure(&self, answer: Result<(), SetStop>) -> Result<(), Stop>
        ensures { IsConfigured (world_of self.now.store.now) answer result }
    {
        match answer {
            Ok(()) => Ok(()),
            Err(SetStop::Frozen) => self.refuse(Refusal::Frozen, ""),
            Err(SetStop::Memory) => Err(Stop::Memory),
        }
    }

    /// Adds configuration data, and returns its number.
    pub fn add_configuration(&mut self, values: ConfigData) -> Result<usize, Stop>
        ensures { Does T.seen O.seen (λ n. n) (add_configuration values) self.old result self.new }
    {
        let number = self.store.add_configuration(values)?;
        Ok(number)
    }

    /// Adds a copy of the configuration data with a number, which is not frozen, and returns the number of the copy.
    pub fn copy_configuration(&mut self, number: usize) -> Result<usize, Stop>
        ensures { Does T.seen O.seen (λ n. n) (copy_configuration number) self.old result self.new }
    {
        let copy = self.store.copy_of_configuration(self.alloc, number)?;
        self.add_configuration(copy)
    }

    /// Sets a name to a value in the data with a number, or refuses the call if the data is frozen (E20).
    pub fn set_configured(
        &mut self,
        number: usize,
        name: &str,
        value: ConfigValue,
    ) -> Result<(), Stop>
        ensures { Does T.seen O.seen (λ u. u) (set_configured number name.now (content_of value)) self.old result self.new }
    {
        let answer = self.store.set_configured(number, name, value);
        self.configure(answer)
    }

    /// Sets a name to a text in quotes in the data with a number, or refuses the call if the data is frozen (E20).
    pub fn set_quoted(&mut self, number: usize, name: &str, text: &str) -> Result<(), Stop>
        ensures { Does T.seen O.seen (λ u. u) (set_quoted number name.now text.now) self.old result self.new }
    {
        let answer = self.store.set_quoted(number, name, text);
        self.configure(answer)
    }

    /// Sets each name of other data to its value there, in the data with a number, or refuses the call if that data is frozen (E20).
    pub fn merge_configured(&mut self, number: usize, others: &ConfigData) -> Result<(), Stop>
        ensures { Does T.seen O.seen (λ u. u) (merge_configured number others.now) self.old result self.new }
    {
        let answer = self.store.merge_configured(number, others);
        self.configure(answer)
    }

    /// Freezes the data with a number: no later call may change it.
    pub fn freeze_configured(&mut self, number: usize) -> Result<(), Stop>
        ensures { Does T.seen O.seen (λ u. u) (freeze_configured number) self.old result self.new }
    {
        self.store.freeze_configured(number);
        Ok(())
    }
}
