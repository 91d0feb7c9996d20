//! Gives the options that every project has their default values.

ghost use Rattle.std.specs.Prelude.{◌≡◌, IfOk, OnOk};
ghost use Rattle.option_values.specs.View.{row_in};
ghost use Rattle.option_values.specs.Settings.{built_in_settings, add_setting};
ghost use Rattle.option_values.specs.SettingsView.{settings_in};

use crate::state::put;
use option_values::{BuiltIn, Setting, built_in_value, built_ins};
use std::alloc::{AllocError, Global};
use support::tables::{SipMap, new_map};

// Sets the option of a row of the table to its default value.
fn put_value_of(
    alloc: Global,
    settings: &mut SipMap<String, Setting>,
    row: &BuiltIn,
) -> Result<(), AllocError>
    ensures { OnOk result (settings_in settings.new.entries ≡ add_setting (settings_in settings.old.entries) (row_in row.now)) }
{
    let value = built_in_value(alloc, row.form)?;
    let given = false;
    put(alloc, settings, row.name, Setting { value, given })?;
    Ok(())
}

/// Returns these options with their default values.
pub fn built_in_settings(alloc: Global) -> Result<SipMap<String, Setting>, AllocError>
    ensures { IfOk result (λ settings. settings_in settings.entries ≡ built_in_settings) }
{
    let mut settings = new_map(alloc);
    for row in built_ins() {
        put_value_of(alloc, &mut settings, row)?;
    }
    Ok(settings)
}
