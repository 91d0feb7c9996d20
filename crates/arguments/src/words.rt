//! Describes kinds and values in words.
ghost use Rattle.std.specs.Prelude.{◌≡◌, IfOk, map, string_bytes};
ghost use Rattle.arguments.specs.Words.{kind_words, object_words, pair_words, piece_words, value_words, values_words};
ghost use Rattle.values.specs.Prelude.{data_of};

use crate::row::{ArgumentKind, Piece};
use itoa::Buffer;
use std::alloc::{AllocError, Global};
use values::{Object, Value};

fn piece_words(piece: Piece) -> &'static str
    ensures { result.now ≡ piece_words piece }
{
    match piece {
        Piece::Path => "texts and files",
        Piece::Source => "texts, files and custom targets",
        Piece::Folder => "texts and include_directories",
        Piece::BuildTarget => "executables and libraries",
        Piece::Dependency => "dependencies",
        Piece::Target => "targets",
        Piece::Word => "texts, files and targets",
        Piece::CommandWord => "texts, files, programs and targets",
    }
}

/// Describes what an argument must be.
pub fn kind_words(kind: ArgumentKind) -> &'static str
    ensures { result.now ≡ kind_words kind }
{
    match kind {
        ArgumentKind::Any => "any value",
        ArgumentKind::Boolean => "a truth value",
        ArgumentKind::Integer => "an integer",
        ArgumentKind::Text => "a text",
        ArgumentKind::IntegerOrText => "a text or an integer",
        ArgumentKind::Setting => "a text, an integer or a truth value",
        ArgumentKind::Requirement => "a truth value or a feature option",
        ArgumentKind::Texts => "texts",
        ArgumentKind::Dictionary => "a dictionary",
        ArgumentKind::TextsOrDictionary => "texts, or a dictionary",
        ArgumentKind::ConfigurationData => "configuration data",
        ArgumentKind::Configuration => "configuration data or a dictionary",
        ArgumentKind::File => "a file",
        ArgumentKind::Command => "a program, a target or a file",
        ArgumentKind::Flat(piece) => piece_words(piece),
    }
}

fn object_words(object: &Object) -> &'static str
    ensures { result.now ≡ object_words object.now }
{
    match object {
        Object::Feature(_) => "a feature option",
        Object::Dependency(_) => "a dependency",
        Object::Program(_) => "a program",
        Object::BuildTarget(_) => "an executable or a library",
        Object::CustomTarget { .. } => "a custom target",
        Object::CustomOutput { .. } => "an output of a custom target",
        Object::File { .. } => "a file",
        Object::IncludeDirectories(_) => "include_directories",
        Object::Machine => "a machine",
        Object::Meson => "the object 'meson'",
        Object::Compiler => "a compiler",
        Object::ConfigurationData(_) => "configuration data",
        Object::Disabler => "a disabler",
    }
}

/// Describes a value.
pub fn value_words(value: &Value) -> &'static str
    ensures { result.now ≡ value_words (data_of value.now) }
{
    match value {
        Value::Boolean(_) => "a truth value",
        Value::Integer(_) => "an integer",
        Value::Text(_) => "a text",
        Value::List(_) => "a list",
        Value::Dictionary(_) => "a dictionary",
        Value::Object(object) => object_words(object),
    }
}

// Describes two values.
fn pair_words(alloc: Global, first: &Value, second: &Value) -> Result<String, AllocError>
    ensures { IfOk result (λ text. string_bytes text ≡ pair_words (data_of first.now) (data_of second.now)) }
{
    let (first, second) = (value_words(first), value_words(second));
    format!(in alloc; "{first} and {second}")
}

/// Describes the arguments of a call: one or two by their values, more by their number.
pub fn values_words(alloc: Global, values: &[Value]) -> Result<String, AllocError>
    ensures { IfOk result (λ text. string_bytes text ≡ values_words (map data_of values.now)) }
{
    match values {
        [] => String::from_str(alloc, "none"),
        [value] => String::from_str(alloc, value_words(value)),
        [first, second] => pair_words(alloc, first, second),
        _ => {
            let mut buffer = Buffer::new();
            let count = buffer.format(values.len());
            format!(in alloc; "{count} arguments")
        }
    }
}
