//! Defines kinds of options, their types, and their values.

ghost use Rattle.std.specs.Prelude.{◌≡◌};
ghost use Rattle.option_values.specs.Types.{type_named};

use crate::choices::Choices;

/// Says what an option takes.
pub enum OptionKind {
    /// Any text.
    Text,
    Boolean,
    /// One of these texts.
    Combo(Choices),
    /// An integer of at least `min` and at most `max`.
    Integer { min: Option<i64>, max: Option<i64> },
    /// A list of texts. If there are choices, each is one of them.
    Array(Option<Choices>),
    /// A list of texts that a text gives as a shell's words: `c_args` and `c_link_args`.
    Words,
    /// Enabled, disabled, or as `auto_features` says.
    Feature,
}

impl Drop for OptionKind {
    fn drop(self) {
        match self {
            OptionKind::Text => {}
            OptionKind::Boolean => {}
            OptionKind::Combo(_) => {}
            OptionKind::Integer { min: _, max: _ } => {}
            OptionKind::Array(_) => {}
            OptionKind::Words => {}
            OptionKind::Feature => {}
        }
    }
}

/// Holds the value of an option. Options of each type have values of their own form, so a value shows the type.
#[derive(Drop)]
pub enum OptionValue {
    Text(String),
    Boolean(bool),
    /// The choice.
    Combo(String),
    Integer(i64),
    Array(Vec<String>),
    Feature(FeatureState),
}

/// Says what a feature option says of its feature.
#[derive(Clone, Copy)]
pub enum FeatureState {
    Enabled,
    Disabled,
    /// As `auto_features` says. If that is `auto` too, enabled if available.
    Auto,
}

/// Lists the types of options (Meson manual, page "Build options").
#[derive(Clone, Copy)]
pub enum OptionType {
    Text,
    Boolean,
    Combo,
    Integer,
    Array,
    Feature,
}

impl OptionType {
    /// Returns the type with this name: `string`, `boolean`, `combo`, `integer`, `array` or `feature`.
    #[tactic(auto, unfolding(crate::specs::Types::type_named))]
    pub fn from_name(name: &str) -> Option<OptionType>
        ensures { result ≡ type_named name.now }
    {
        match name {
            "string" => Some(OptionType::Text),
            "boolean" => Some(OptionType::Boolean),
            "combo" => Some(OptionType::Combo),
            "integer" => Some(OptionType::Integer),
            "array" => Some(OptionType::Array),
            "feature" => Some(OptionType::Feature),
            _ => None,
        }
    }
}
