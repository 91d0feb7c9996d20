//! Reads the arguments of `test`: <https://mesonbuild.com/Reference-manual_functions.html#test>.
ghost use Rattle.std.specs.Prelude.{◌≡◌, IfOk, [], map, string_bytes};
ghost use Rattle.arguments.specs.Arguments.{arguments_data};
ghost use Rattle.arguments.specs.Stops.{Says};
ghost use Rattle.values.specs.Prelude.{items_of};
ghost use Rattle.resources.specs.TestingView.{strings_of};
ghost use Rattle.resources.specs.Testing.{are_assignments, assigned_behind, assignment, environment, is_assignment};
ghost use Rattle.resources.specs.Testing.{seconds_of};

use arguments::{Arguments, CallStop, Rule};
use std::alloc::{AllocError, Global};
use values::{OperationRefusal, Text, Value};

/// Returns the seconds that a test may run, or `OperationRefusal::Range` if they do not fit in 64 bits. They may be zero or negative.
pub fn seconds_of(timeout: i128) -> Result<i64, OperationRefusal>
    ensures { result ≡ seconds_of timeout }
{
    match i64::try_from(timeout) {
        Ok(seconds) => Ok(seconds),
        Err(_) => Err(OperationRefusal::Range),
    }
}

// Returns an environment variable of a test and its value, as `NAME=VALUE`. The name may be empty.
fn assignment(alloc: Global, name: &str, value: &str) -> Result<String, AllocError>
    ensures { IfOk result (λ text. string_bytes text ≡ assignment name.now value.now) }
{
    let mut text = String::from_str(alloc, name)?;
    text.push_str("=")?;
    text.push_str(value)?;
    Ok(text)
}

// Returns the variables with these names and values, in order, or the refusal of a value that is no text.
#[tactic(auto, using(crate::proofs::Assigned::assigned_cases))]
fn assign(alloc: Global, names: &[Text], values: &[Value]) -> Result<Vec<String>, CallStop>
    ensures { Says strings_of (assigned_behind [] names.now (items_of values.now)) result }
{
    let mut texts = Vec::new(alloc);
    for (i, value) in values.iter().enumerate() {
        let Some(name) = names.get(i) else {
            return Ok(texts);
        };
        let Some(text) = value.as_text() else {
            return Err(Rule::TakesText.refuse(alloc, name.as_str())?.into());
        };
        texts.push(assignment(alloc, name.as_str(), text.as_str())?)?;
    }
    Ok(texts)
}

fn is_assignment(text: &str) -> bool
    ensures { result ≡ is_assignment text.now }
{
    text.as_bytes().contains(&b'=')
}

// Checks that each text has a name and a value. The first one that has none breaks a rule.
fn check_assignments(alloc: Global, texts: &[String]) -> Result<(), CallStop>
    ensures { Says (λ u. u) (are_assignments (map string_bytes texts.now)) result }
{
    for text in texts {
        if !is_assignment(text.as_str()) {
            return Err(Rule::IsAssignment.refuse(alloc, text.as_str())?.into());
        }
    }
    Ok(())
}

/// Returns the environment variables of the keyword `env`, as texts `NAME=VALUE`.
///
/// A value of a dictionary that is no text breaks `Rule::TakesText`, and the detail is its name. A text without `=` breaks
/// `Rule::IsAssignment`.
pub fn environment(alloc: Global, arguments: &Arguments) -> Result<Vec<String>, CallStop>
    ensures { Says strings_of (environment (arguments_data arguments.now)) result }
{
    match arguments.keyword("env") {
        Some(Value::Dictionary(dictionary)) => {
            assign(alloc, dictionary.keys(), dictionary.values())
        }
        _ => {
            let texts = arguments.texts(alloc, "env")?;
            check_assignments(alloc, &texts)?;
            Ok(texts)
        }
    }
}
