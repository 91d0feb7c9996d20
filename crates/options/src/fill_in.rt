//! Fills in what some options decide about others.

ghost use Rattle.std.specs.Prelude.{◌≡◌, codes, map, OnOk};
ghost use Rattle.std.specs.Option.{option_map};
ghost use Rattle.option_values.specs.View.{value_in};
ghost use Rattle.options.specs.FillIns.{build_types, type_among, text_in, state_in, text_at, state_at, is_usr, is_auto, decided_setting};
ghost use Rattle.options.specs.FillIns.{by_buildtype, by_prefix, by_auto_features, filled_in};
ghost use Rattle.option_values.specs.Settings.{fill, change_at};
ghost use Rattle.options.specs.View.{type_in};
ghost use Rattle.option_values.specs.SettingsView.{settings_in};

use option_values::{FeatureState, OptionValue, Setting};
use std::alloc::{AllocError, Global};
use support::tables::SipMap;

/// Holds what a type of build decides about the options `debug` and `optimization`.
#[derive(Clone, Copy)]
pub struct BuildType {
    pub debug: bool,
    pub optimization: &'static str,
}

// Returns what the type of build with this name decides, by the table of the Meson manual's page "Built-in options".
#[tactic(auto, unfolding(crate::specs::FillIns::build_types))]
fn build_type(name: &str) -> Option<BuildType>
    ensures { option_map (type_in name.now) result ≡ type_among build_types name.now }
{
    let (debug, optimization) = match name {
        "plain" => (false, "plain"),
        "debug" => (true, "0"),
        "debugoptimized" => (true, "2"),
        "release" => (false, "3"),
        "minsize" => (true, "s"),
        _ => return None,
    };
    Some(BuildType {
        debug,
        optimization,
    })
}

// Sets the option of this name, unless a place gave it a value.
fn fill(settings: &mut SipMap<String, Setting>, name: &str, value: OptionValue)
    ensures { settings_in settings.new.entries ≡ fill name.now (value_in value) (settings_in settings.old.entries) }
{
    let given = match settings.get(name) {
        Some(setting) => setting.given,
        None => return,
    };
    if !given {
        settings.replace(name, Setting { value, given });
    }
}

// Returns the text, if the value is one.
fn text_in(value: &OptionValue) -> Option<&str>
    ensures { option_map (λ t. t.now) result ≡ text_in (value_in value.now) }
{
    match value {
        OptionValue::Text(text) => Some(text.as_str()),
        OptionValue::Combo(choice) => Some(choice.as_str()),
        _ => None,
    }
}

// Returns the state of a feature, if the value is one.
fn state_in(value: &OptionValue) -> Option<FeatureState>
    ensures { result ≡ state_in (value_in value.now) }
{
    match value {
        OptionValue::Feature(state) => Some(*state),
        _ => None,
    }
}

// Returns the text of the option with this name.
fn text_at<'a>(settings: &'a SipMap<String, Setting>, name: &str) -> Option<&'a str>
    ensures { option_map (λ t. t.now) result ≡ text_at name.now (settings_in settings.now.entries) }
{
    match settings.get(name) {
        Some(setting) => text_in(&setting.value),
        None => None,
    }
}

// Returns the state of the feature option with this name.
fn state_at(settings: &SipMap<String, Setting>, name: &str) -> Option<FeatureState>
    ensures { result ≡ state_at name.now (settings_in settings.now.entries) }
{
    match settings.get(name) {
        Some(setting) => state_in(&setting.value),
        None => None,
    }
}

// Sets `debug` and `optimization` from `buildtype`, unless a place sets them.
#[tactic(auto, unfolding(crate::specs::FillIns::by_buildtype))]
fn by_buildtype(alloc: Global, settings: &mut SipMap<String, Setting>) -> Result<(), AllocError>
    ensures { OnOk result (settings_in settings.new.entries ≡ by_buildtype (settings_in settings.old.entries)) }
{
    let Some(name) = text_at(settings, "buildtype") else {
        return Ok(());
    };
    let Some(build_type) = build_type(name) else {
        return Ok(());
    };
    let optimization = String::from_str(alloc, build_type.optimization)?;
    fill(settings, "debug", OptionValue::Boolean(build_type.debug));
    fill(settings, "optimization", OptionValue::Combo(optimization));
    Ok(())
}

// Returns whether the prefix is `/usr`.
fn is_usr(settings: &SipMap<String, Setting>) -> bool
    ensures { result ≡ is_usr (text_at (codes "prefix") (settings_in settings.now.entries)) }
{
    match text_at(settings, "prefix") {
        Some(prefix) => prefix == "/usr",
        None => false,
    }
}

// Sets `sysconfdir` to `/etc` below the prefix `/usr`, unless a place sets it.
#[tactic(auto, unfolding(crate::specs::FillIns::by_prefix))]
fn by_prefix(alloc: Global, settings: &mut SipMap<String, Setting>) -> Result<(), AllocError>
    ensures { OnOk result (settings_in settings.new.entries ≡ by_prefix (settings_in settings.old.entries)) }
{
    if !is_usr(settings) {
        return Ok(());
    }
    let folder = String::from_str(alloc, "/etc")?;
    fill(settings, "sysconfdir", OptionValue::Text(folder));
    Ok(())
}

// Returns whether the value is the state `auto` of a feature.
fn is_auto(value: &OptionValue) -> bool
    ensures { result ≡ is_auto (value_in value.now) }
{
    match value {
        OptionValue::Feature(FeatureState::Auto) => true,
        _ => false,
    }
}

// Sets option number `i` to this state, if it is a feature in state `auto`.
fn decide_at(settings: &mut SipMap<String, Setting>, i: usize, state: FeatureState)
    ensures { settings_in settings.new.entries ≡ change_at (decided_setting state) i (settings_in settings.old.entries) }
{
    let (_, setting) = match settings.get_index(i) {
        Some(entry) => entry,
        None => return,
    };
    if is_auto(&setting.value) {
        let (value, given) = (OptionValue::Feature(state), setting.given);
        settings.set_at(i, Setting { value, given });
    }
}

// Sets every feature option in state `auto` to this state.
fn decide_all(settings: &mut SipMap<String, Setting>, state: FeatureState)
    ensures { settings_in settings.new.entries ≡ map (decided_setting state) (settings_in settings.old.entries) }
{
    for i in 0..settings.len() {
        decide_at(settings, i, state);
    }
}

// Sets every feature in state `auto` to the state of `auto_features`.
#[tactic(auto, unfolding(crate::specs::FillIns::by_auto_features))]
fn by_auto_features(settings: &mut SipMap<String, Setting>)
    ensures { settings_in settings.new.entries ≡ by_auto_features (settings_in settings.old.entries) }
{
    match state_at(settings, "auto_features") {
        Some(state) => decide_all(settings, state),
        None => {}
    }
}

/// Fills in what some options decide about others.
pub fn fill_in(alloc: Global, settings: &mut SipMap<String, Setting>) -> Result<(), AllocError>
    ensures { OnOk result (settings_in settings.new.entries ≡ filled_in (settings_in settings.old.entries)) }
{
    by_buildtype(alloc, settings)?;
    by_prefix(alloc, settings)?;
    by_auto_features(settings);
    Ok(())
}
