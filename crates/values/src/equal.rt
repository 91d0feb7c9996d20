//! Compares values by structure.

ghost use Rattle.std.specs.Prelude.{◌≡◌, ◌↔◌, IsTrue};
ghost use Rattle.values.specs.Same.{same};
ghost use Rattle.values.specs.View.{data_of, items_of};
ghost use Rattle.values.specs.declared.object.Object.TheVariants.{CustomTarget, CustomOutput, File};
ghost use Rattle.values.specs.declared.object.Source.TheVariants as sources;

use crate::object::{Dependency, Object, Program, Source};
use crate::text::Text;
use crate::value::{Dictionary, Value};

/// Returns whether two values are equal by structure. Dictionaries are equal if their entries are equal and in the same order.
pub fn is_equal(value: &Value, other: &Value) -> bool
    ensures equal { IsTrue result ↔ (data_of value.now ≡ data_of other.now) }
    ensures test { result ≡ same (data_of value.now) (data_of other.now) }
{
    are_equal(value, other)
}

#[cycle(equal)]
fn are_equal(value: &Value, other: &Value) -> bool
    ensures { IsTrue result ↔ (data_of value.now ≡ data_of other.now) }
{
    match value {
        Value::Boolean(boolean) => match other {
            Value::Boolean(other) => boolean == other,
            _ => false,
        },
        Value::Integer(integer) => match other {
            Value::Integer(other) => integer == other,
            _ => false,
        },
        Value::Text(text) => match other {
            Value::Text(other) => text.as_str() == other.as_str(),
            _ => false,
        },
        Value::List(list) => match other {
            Value::List(other) => equal_items(list.items(), other.items()),
            _ => false,
        },
        Value::Dictionary(dictionary) => match other {
            Value::Dictionary(other) => {
                equal_texts(dictionary.keys(), other.keys())
                    && equal_items(dictionary.values(), other.values())
            }
            _ => false,
        },
        Value::Object(object) => match other {
            Value::Object(other) => equal_objects(object, other),
            _ => false,
        },
    }
}

#[cycle(equal)]
fn equal_items(items: &[Value], others: &[Value]) -> bool
    ensures { IsTrue result ↔ (items_of items.now ≡ items_of others.now) }
{
    if items.len() != others.len() {
        return false;
    }
    for (i, item) in items.iter().enumerate() {
        if !are_equal(item, &others[i]) {
            return false;
        }
    }
    true
}

/// Returns whether two objects are of the same kind and equal by structure.
pub fn equal_objects(object: &Object, other: &Object) -> bool
    ensures { IsTrue result ↔ (object.now ≡ other.now) }
{
    match object {
        Object::Feature(feature) => matches!(other, Object::Feature(other) if feature == other),
        Object::Dependency(dependency) => {
            matches!(other, Object::Dependency(other) if equal_dependencies(dependency, other))
        }
        Object::Program(program) => {
            matches!(other, Object::Program(other) if equal_programs(program, other))
        }
        Object::BuildTarget(number) => {
            matches!(other, Object::BuildTarget(other) if number == other)
        }
        Object::CustomTarget { number, outputs } => is_custom_target(other, *number, *outputs),
        Object::CustomOutput { target, output } => is_custom_output(other, *target, *output),
        Object::File { path, is_built } => is_file(other, path, *is_built),
        Object::IncludeDirectories(paths) => {
            matches!(other, Object::IncludeDirectories(other)
                if equal_texts(paths.as_slice(), other.as_slice()))
        }
        Object::Machine => matches!(other, Object::Machine),
        Object::Meson => matches!(other, Object::Meson),
        Object::Compiler => matches!(other, Object::Compiler),
        Object::ConfigurationData(number) => {
            matches!(other, Object::ConfigurationData(other) if number == other)
        }
        Object::Disabler => matches!(other, Object::Disabler),
    }
}

// Returns whether an object is the custom target with this number and this many outputs.
fn is_custom_target(object: &Object, other_number: usize, other_outputs: usize) -> bool
    ensures { IsTrue result ↔ (CustomTarget other_number other_outputs ≡ object.now) }
{
    match object {
        Object::CustomTarget { number, outputs } => {
            *number == other_number && *outputs == other_outputs
        }
        _ => false,
    }
}

// Returns whether an object is this output of the custom target with this number.
fn is_custom_output(object: &Object, other_target: usize, other_output: usize) -> bool
    ensures { IsTrue result ↔ (CustomOutput other_target other_output ≡ object.now) }
{
    match object {
        Object::CustomOutput { target, output } => {
            *target == other_target && *output == other_output
        }
        _ => false,
    }
}

// Returns whether an object is the file with this path and this `is_built` flag.
fn is_file(object: &Object, other_path: &Text, other_is_built: bool) -> bool
    ensures { IsTrue result ↔ (File other_path.now other_is_built ≡ object.now) }
{
    match object {
        Object::File { path, is_built } => {
            path.as_str() == other_path.as_str() && *is_built == other_is_built
        }
        _ => false,
    }
}

fn equal_dependencies(dependency: &Dependency, other: &Dependency) -> bool
    ensures { IsTrue result ↔ (dependency.now ≡ other.now) }
{
    dependency.is_found == other.is_found
        && dependency.name.as_str() == other.name.as_str()
        && dependency.version.as_str() == other.version.as_str()
        && equal_texts(
            dependency.include_directories.as_slice(),
            other.include_directories.as_slice(),
        )
        && equal_texts(
            dependency.compile_args.as_slice(),
            other.compile_args.as_slice(),
        )
        && equal_texts(dependency.link_args.as_slice(), other.link_args.as_slice())
        && dependency.link_with.as_slice() == other.link_with.as_slice()
        && equal_sources(dependency.sources.as_slice(), other.sources.as_slice())
}

fn equal_programs(program: &Program, other: &Program) -> bool
    ensures { IsTrue result ↔ (program.now ≡ other.now) }
{
    match program {
        Program::NotFound => matches!(other, Program::NotFound),
        Program::Words(words) => match other {
            Program::Words(other) => equal_texts(words.as_slice(), other.as_slice()),
            _ => false,
        },
        Program::File(path) => match other {
            Program::File(other) => path.as_str() == other.as_str(),
            _ => false,
        },
    }
}

fn equal_texts(texts: &[Text], others: &[Text]) -> bool
    ensures { IsTrue result ↔ (texts.now ≡ others.now) }
{
    texts == others
}

fn equal_sources(sources: &[Source], others: &[Source]) -> bool
    ensures { IsTrue result ↔ (sources.now ≡ others.now) }
{
    if sources.len() != others.len() {
        return false;
    }
    for (i, source) in sources.iter().enumerate() {
        if !is_same_source(source, &others[i]) {
            return false;
        }
    }
    true
}

fn is_same_source(source: &Source, other: &Source) -> bool
    ensures { IsTrue result ↔ (source.now ≡ other.now) }
{
    match source {
        Source::File { path, is_built } => is_source_file(other, path, *is_built),
        Source::CustomTarget { number, outputs } => is_source_target(other, *number, *outputs),
        Source::CustomOutput { target, output } => is_source_output(other, *target, *output),
    }
}

// Returns whether a source is the custom target with this number and this many outputs.
fn is_source_target(source: &Source, other_number: usize, other_outputs: usize) -> bool
    ensures { IsTrue result ↔ (sources.CustomTarget other_number other_outputs ≡ source.now) }
{
    match source {
        Source::CustomTarget { number, outputs } => {
            *number == other_number && *outputs == other_outputs
        }
        _ => false,
    }
}

// Returns whether a source is this output of the custom target with this number.
fn is_source_output(source: &Source, other_target: usize, other_output: usize) -> bool
    ensures { IsTrue result ↔ (sources.CustomOutput other_target other_output ≡ source.now) }
{
    match source {
        Source::CustomOutput { target, output } => {
            *target == other_target && *output == other_output
        }
        _ => false,
    }
}

// Returns whether a source is the file with this path and this `is_built` flag.
fn is_source_file(source: &Source, other_path: &Text, other_is_built: bool) -> bool
    ensures { IsTrue result ↔ (sources.File other_path.now other_is_built ≡ source.now) }
{
    match source {
        Source::File { path, is_built } => {
            path.as_str() == other_path.as_str() && *is_built == other_is_built
        }
        _ => false,
    }
}
