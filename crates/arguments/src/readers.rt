//! Reads the arguments of a call. The row of the call was checked before, so nothing here checks a type again: an argument of another type
//! counts as absent.
ghost use Rattle.std.specs.Prelude.{◌≡◌, IfOk, drop, map, option_map, string_bytes};
ghost use Rattle.values.specs.Data.{text_in};
ghost use Rattle.values.specs.Prelude.{data_of};
ghost use Rattle.arguments.specs.Arguments.{arguments_data, named_data};
ghost use Rattle.arguments.specs.Given.{argument, flag, flag_at, integer_of, keyword, of_boolean};
ghost use Rattle.arguments.specs.Given.{of_feature, requirement, requirement_in, text_at, text_given, text_of, text_or, texts};
ghost use Rattle.arguments.specs.Given.{texts_from};
ghost use Rattle.values.specs.Flat.{flat_all};
ghost use Rattle.arguments.specs.Row.{value_named};

use crate::arguments::{Arguments, Named};
use std::alloc::{AllocError, Global};
use support::text_lists::strings;
use values::{Feature, Object, Text, Value, flat, flat_all};

/// Says what the keyword `required` says about something to be found.
#[derive(Clone, Copy)]
pub enum Requirement {
    /// It must be found.
    Required,
    /// It may be absent.
    Optional,
    /// It is not looked up.
    Disabled,
}

fn of_boolean(boolean: bool) -> Requirement
    ensures { result ≡ of_boolean boolean }
{
    if boolean {
        Requirement::Required
    } else {
        Requirement::Optional
    }
}

fn of_feature(feature: Feature) -> Requirement
    ensures { result ≡ of_feature feature }
{
    match feature {
        Feature::Enabled => Requirement::Required,
        Feature::Auto => Requirement::Optional,
        Feature::Disabled => Requirement::Disabled,
    }
}

fn requirement_of(value: &Value) -> Option<Requirement>
    ensures { result ≡ requirement_in (data_of value.now) }
{
    match value {
        Value::Boolean(boolean) => Some(of_boolean(*boolean)),
        Value::Object(object) => match &**object {
            Object::Feature(feature) => Some(of_feature(*feature)),
            _ => None,
        },
        _ => None,
    }
}

/// Returns the value of the first argument with this name, and `None` if there is none.
pub fn value_named<'a>(name: &str, named: &'a [Named]) -> Option<&'a Value>
    ensures { option_map (λ v. data_of v.now) result ≡ value_named name.now (map named_data named.now) }
{
    for one in named {
        if one.name.as_str() == name {
            return Some(&one.value);
        }
    }
    None
}

// Returns the bytes of a text, and `None` for any other value.
fn bytes_of(value: &Value) -> Option<&str>
    ensures { option_map (λ t. t.now) result ≡ text_in (data_of value.now) }
{
    match value {
        Value::Text(text) => Some(text.as_str()),
        _ => None,
    }
}

/// Returns the values from an index on, and none past the last.
pub fn behind(values: &[Value], place: usize) -> &[Value]
    ensures { result.now ≡ drop place values.now }
{
    if place < values.len() {
        &values[place..]
    } else {
        &[]
    }
}

impl Arguments {
    /// Returns the positional argument at an index, and `None` if there is none.
    pub fn argument(&self, place: usize) -> Option<&Value>
        ensures { option_map (λ v. data_of v.now) result ≡ argument place (arguments_data self.now) }
    {
        self.positional.get(place)
    }

    /// Returns the value of a keyword, and `None` if it is absent.
    pub fn keyword(&self, name: &str) -> Option<&Value>
        ensures { option_map (λ v. data_of v.now) result ≡ keyword name.now (arguments_data self.now) }
    {
        value_named(name, &self.named)
    }

    /// Returns the text at an index, and `""` if there is none.
    pub fn text_at(&self, place: usize) -> &str
        ensures { result.now ≡ text_at place (arguments_data self.now) }
    {
        match self.argument(place) {
            Some(value) => bytes_of(value).unwrap_or(""),
            None => "",
        }
    }

    /// Returns the text at an index, and the default if there is none.
    pub fn text_or<'s>(&'s self, place: usize, default: &'s str) -> &'s str
        ensures { result.now ≡ text_or place default.now (arguments_data self.now) }
    {
        match self.argument(place) {
            Some(value) => bytes_of(value).unwrap_or(default),
            None => default,
        }
    }

    /// Returns the boolean at an index, and the default if there is none.
    pub fn flag_at(&self, place: usize, default: bool) -> bool
        ensures { result ≡ flag_at place default (arguments_data self.now) }
    {
        match self.argument(place) {
            Some(value) => value.as_boolean().unwrap_or(default),
            None => default,
        }
    }

    /// Returns the text of a keyword, and `""` if it is absent.
    pub fn text(&self, name: &str) -> &str
        ensures { result.now ≡ text_of name.now (arguments_data self.now) }
    {
        match self.keyword(name) {
            Some(value) => bytes_of(value).unwrap_or(""),
            None => "",
        }
    }

    /// Returns the text of a keyword, and `None` if it is absent.
    pub fn text_given(&self, name: &str) -> Option<&Text>
        ensures { option_map (λ t. t.now) result ≡ text_given name.now (arguments_data self.now) }
    {
        match self.keyword(name) {
            Some(value) => value.as_text(),
            None => None,
        }
    }

    /// Returns the boolean of a keyword, and the default if it is absent.
    pub fn flag(&self, name: &str, default: bool) -> bool
        ensures { result ≡ flag name.now default (arguments_data self.now) }
    {
        match self.keyword(name) {
            Some(value) => value.as_boolean().unwrap_or(default),
            None => default,
        }
    }

    /// Returns the integer of a keyword, and the default if it is absent.
    pub fn integer(&self, name: &str, default: i128) -> i128
        ensures { result ≡ integer_of name.now default (arguments_data self.now) }
    {
        match self.keyword(name) {
            Some(value) => value.as_integer().unwrap_or(default),
            None => default,
        }
    }

    /// Returns the texts of a keyword, with lists flattened, and none if it is absent.
    pub fn texts(&self, alloc: Global, name: &str) -> Result<Vec<String>, AllocError>
        ensures { IfOk result (λ v. map string_bytes v.items ≡ texts name.now (arguments_data self.now)) }
    {
        match self.keyword(name) {
            Some(value) => strings(alloc, &flat(alloc, value)?),
            None => Ok(Vec::new(alloc)),
        }
    }

    /// Returns the texts in the positional arguments, with lists flattened.
    pub fn all_texts(&self, alloc: Global) -> Result<Vec<&str>, AllocError>
        ensures { IfOk result (λ v. map (λ t. t.now) v.items ≡ flat_all (map data_of self.now.positional.items)) }
    {
        flat_all(alloc, &self.positional)
    }

    /// Returns the texts in the positional arguments from an index on, with lists flattened.
    pub fn texts_behind(&self, alloc: Global, place: usize) -> Result<Vec<&str>, AllocError>
        ensures { IfOk result (λ v. map (λ t. t.now) v.items ≡ texts_from place (arguments_data self.now)) }
    {
        flat_all(alloc, behind(&self.positional, place))
    }

    /// Returns what the keyword `required` says, and the default if it is absent.
    pub fn requirement(&self, default: Requirement) -> Requirement
        ensures { result ≡ requirement default (arguments_data self.now) }
    {
        match self.keyword("required") {
            Some(value) => requirement_of(value).unwrap_or(default),
            None => default,
        }
    }
}
