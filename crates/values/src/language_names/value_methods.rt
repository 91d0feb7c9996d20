//! Looks methods of values up by name, for each type of the page "Reference manual".
ghost use Rattle.std.specs.Prelude.{◌≡◌};
ghost use Rattle.values.specs.language_names.ValueMethods.{boolean_method_named, dictionary_method_named, integer_method_named};
ghost use Rattle.values.specs.language_names.ValueMethods.{list_method_named, text_method_named};

use crate::language_names::rows::named;

/// Names a method of a boolean.
#[derive(Clone, Copy)]
pub enum BooleanMethod {
    ToInt,
    ToString,
}

impl BooleanMethod {
    /// Returns the method with this name, and `None` if there is none.
    pub(crate) fn from_name(name: &str) -> Option<BooleanMethod>
        ensures { result ≡ boolean_method_named name.now }
    {
        match name {
            "to_int" => Some(BooleanMethod::ToInt),
            "to_string" => Some(BooleanMethod::ToString),
            _ => None,
        }
    }
}

/// Names a method of an integer.
#[derive(Clone, Copy)]
pub enum IntegerMethod {
    IsEven,
    IsOdd,
    ToString,
}

impl IntegerMethod {
    /// Returns the method with this name, and `None` if there is none.
    pub(crate) fn from_name(name: &str) -> Option<IntegerMethod>
        ensures { result ≡ integer_method_named name.now }
    {
        match name {
            "is_even" => Some(IntegerMethod::IsEven),
            "is_odd" => Some(IntegerMethod::IsOdd),
            "to_string" => Some(IntegerMethod::ToString),
            _ => None,
        }
    }
}

/// Names a method of a text.
#[derive(Clone, Copy)]
pub enum TextMethod {
    Contains,
    StartsWith,
    EndsWith,
    Format,
    Join,
    Replace,
    Split,
    SplitLines,
    Strip,
    Substring,
    ToInt,
    ToLower,
    ToUpper,
    Underscorify,
    VersionCompare,
}

// The methods of a text.
const TEXT_METHODS: [(&str, TextMethod); 15] = [
    ("contains", TextMethod::Contains),
    ("startswith", TextMethod::StartsWith),
    ("endswith", TextMethod::EndsWith),
    ("format", TextMethod::Format),
    ("join", TextMethod::Join),
    ("replace", TextMethod::Replace),
    ("split", TextMethod::Split),
    ("splitlines", TextMethod::SplitLines),
    ("strip", TextMethod::Strip),
    ("substring", TextMethod::Substring),
    ("to_int", TextMethod::ToInt),
    ("to_lower", TextMethod::ToLower),
    ("to_upper", TextMethod::ToUpper),
    ("underscorify", TextMethod::Underscorify),
    ("version_compare", TextMethod::VersionCompare),
];

impl TextMethod {
    /// Returns the method with this name, and `None` if there is none.
    pub(crate) fn from_name(name: &str) -> Option<TextMethod>
        ensures { result ≡ text_method_named name.now }
    {
        named(&TEXT_METHODS, name)
    }
}

/// Names a method of a list.
#[derive(Clone, Copy)]
pub enum ListMethod {
    Contains,
    Get,
    Length,
}

impl ListMethod {
    /// Returns the method with this name, and `None` if there is none.
    pub(crate) fn from_name(name: &str) -> Option<ListMethod>
        ensures { result ≡ list_method_named name.now }
    {
        match name {
            "contains" => Some(ListMethod::Contains),
            "get" => Some(ListMethod::Get),
            "length" => Some(ListMethod::Length),
            _ => None,
        }
    }
}

/// Names a method of a dictionary.
#[derive(Clone, Copy)]
pub enum DictionaryMethod {
    Get,
    HasKey,
    Keys,
}

impl DictionaryMethod {
    /// Returns the method with this name, and `None` if there is none.
    pub(crate) fn from_name(name: &str) -> Option<DictionaryMethod>
        ensures { result ≡ dictionary_method_named name.now }
    {
        match name {
            "get" => Some(DictionaryMethod::Get),
            "has_key" => Some(DictionaryMethod::HasKey),
            "keys" => Some(DictionaryMethod::Keys),
            _ => None,
        }
    }
}
