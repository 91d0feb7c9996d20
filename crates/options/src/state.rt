//! Holds what is known after some values.

ghost use Rattle.std.specs.Prelude.{◌≡◌, is_some, IfOk, OnOk};
ghost use Rattle.options.specs.Resolves.{after_verdict, next, resolution_of};
ghost use Rattle.options.specs.Verdicts.{Warns};
ghost use Rattle.option_values.specs.Settings.{settings_with};
ghost use Rattle.options.specs.View.{verdict_in, state_in, resolved_in};
ghost use Rattle.option_values.specs.SettingsView.{setting_in, settings_in};

use crate::fault::OptionFault;
use crate::fill_in::fill_in;
use crate::resolution::Resolved;
use crate::verdict::Verdict;
use option_values::{Options, Setting};
use std::alloc::{AllocError, Global};
use support::tables::SipMap;

/// Holds the names of no option so far, the options with their values, and the first fault.
pub struct State {
    pub unknown: Vec<String>,
    pub settings: SipMap<String, Setting>,
    pub fault: Option<OptionFault>,
}

impl Drop for State {
    fn drop(self) {
        let State {
            unknown: _,
            settings: _,
            fault: _,
        } = self;
    }
}

/// Gives an option a value. A known option keeps its place, and a new one is last.
pub fn put(
    alloc: Global,
    settings: &mut SipMap<String, Setting>,
    name: &str,
    setting: Setting,
) -> Result<(), AllocError>
    ensures { OnOk result
        (settings_in settings.new.entries ≡ settings_with (setting_in name.now setting) (settings_in settings.old.entries)) }
{
    let name = String::from_str(alloc, name)?;
    settings.insert(name, setting)?;
    Ok(())
}

impl State {
    // Records a name that no option has.
    fn warn(&mut self, alloc: Global, name: &str) -> Result<(), AllocError>
        ensures { OnOk result (state_in self.new ≡ after_verdict (state_in self.old) (Warns name.now)) }
    {
        let name = String::from_str(alloc, name)?;
        self.unknown.push(name)?;
        Ok(())
    }

    // Takes one more verdict, while there is no fault.
    fn take(&mut self, alloc: Global, verdict: Verdict<'_>) -> Result<(), AllocError>
        ensures { OnOk result (state_in self.new ≡ after_verdict (state_in self.old) (verdict_in verdict.entry)) }
    {
        match verdict {
            Verdict::Sets(name, setting) => put(alloc, &mut self.settings, name, setting)?,
            Verdict::Warns(name) => self.warn(alloc, name)?,
            Verdict::Refuses(fault) => self.fault = Some(fault),
        }
        Ok(())
    }

    /// Returns the number of the setting with this name, or any number if there is none.
    pub fn index_of(&self, name: &str) -> usize {
        self.settings.get_index_of(name).unwrap_or(0)
    }

    /// Returns whether there was a fault.
    pub fn is_refused(&self) -> bool
        ensures { result ≡ is_some (state_in self.now).fault }
    {
        self.fault.is_some()
    }

    /// Adds one more verdict. After a fault, further verdicts change nothing.
    pub fn next(&mut self, alloc: Global, verdict: Verdict<'_>) -> Result<(), AllocError>
        ensures { OnOk result (state_in self.new ≡ next (state_in self.old) (verdict_in verdict.entry)) }
    {
        match self.fault {
            Some(_) => Ok(()),
            None => {
                self.take(alloc, verdict)?;
                Ok(())
            }
        }
    }

    /// Returns the final values, or the fault.
    pub fn end(self, alloc: Global) -> Result<Resolved, AllocError>
        ensures { IfOk result (λ r. resolved_in r ≡ resolution_of (state_in self)) }
    {
        let State {
            unknown,
            mut settings,
            fault,
        } = self;
        match fault {
            Some(fault) => {
                let outcome = Err(fault);
                Ok(Resolved { unknown, outcome })
            }
            None => {
                fill_in(alloc, &mut settings)?;
                let outcome = Ok(Options::new(settings));
                Ok(Resolved { unknown, outcome })
            }
        }
    }
}
