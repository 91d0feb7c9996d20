//! Describes what a question carries in addition to its topic: the keywords of the call that change no answer.

ghost use Rattle.std.specs.Prelude.{◌≡◌, ◌++◌, IfOk, OnOk, map};
ghost use Rattle.values.specs.Data.{object};
ghost use Rattle.values.specs.Prelude.{data_of};
ghost use Rattle.machine_file.specs.Asides.{state_word, words_in, words_of};
ghost use Rattle.machine_file.specs.QuestionsView.{aside_in, shown_in};
ghost use Rattle.machine_file.specs.View.{strings_in};

use std::alloc::{AllocError, Global};
use values::{Feature, Object, Value, flatten_value, push_string, push_strings};

/// Holds a keyword of a call, which changes no answer. The call shares its value, so a question takes little memory.
#[derive(Drop)]
pub struct Aside {
    /// The name of the keyword.
    pub name: String,
    pub value: Value,
}

/// Holds a keyword of a call with the words for its value.
#[derive(Drop)]
pub struct ShownAside {
    /// The name of the keyword.
    pub name: String,
    pub texts: Vec<String>,
}

// Returns the name of a feature's state.
fn state_word(feature: Feature) -> &'static str
    ensures { result.now ≡ state_word feature }
{
    match feature {
        Feature::Enabled => "enabled",
        Feature::Disabled => "disabled",
        Feature::Auto => "auto",
    }
}

// Appends the words for an object.
fn put_object(alloc: Global, words: &mut Vec<String>, thing: &Object) -> Result<(), AllocError>
    ensures { OnOk result (strings_in words.new.items ≡ strings_in words.old.items ++ words_of (object thing.now)) }
{
    match thing {
        Object::Feature(feature) => push_string(alloc, words, state_word(*feature)),
        Object::Dependency(dependency) => push_string(alloc, words, dependency.name.as_str()),
        Object::IncludeDirectories(folders) => push_strings(alloc, words, folders.as_slice()),
        _ => Ok(()),
    }
}

// Appends the words for a value.
fn put_words(alloc: Global, words: &mut Vec<String>, value: &Value) -> Result<(), AllocError>
    ensures { OnOk result (strings_in words.new.items ≡ strings_in words.old.items ++ words_of (data_of value.now)) }
{
    match value {
        Value::Text(text) => push_string(alloc, words, text.as_str()),
        Value::Boolean(is_so) => push_string(alloc, words, if *is_so { "true" } else { "false" }),
        Value::Object(thing) => put_object(alloc, words, thing),
        _ => Ok(()),
    }
}

// Returns the words for some values.
fn words_in(alloc: Global, values: &[&Value]) -> Result<Vec<String>, AllocError>
    ensures { IfOk result (λ ws. strings_in ws.items ≡ words_in (map (λ v. data_of v.now) values.now)) }
{
    let mut words = Vec::new(alloc);
    for value in values {
        put_words(alloc, &mut words, value)?;
    }
    Ok(words)
}

impl Aside {
    /// Returns this keyword with the words for its value.
    pub fn shown(&self, alloc: Global) -> Result<ShownAside, AllocError>
        ensures { IfOk result (λ a. shown_in a ≡ aside_in self.now) }
    {
        let texts = words_in(alloc, &flatten_value(alloc, &self.value)?)?;
        let name = String::from_str(alloc, self.name.as_str())?;
        Ok(ShownAside { name, texts })
    }
}
