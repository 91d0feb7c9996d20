//! Collects what a question to the machine file carries in addition to its topic: what the call says.

ghost use Rattle.std.specs.Prelude.{◌≡◌, ◌++◌, IfOk, OnOk, map};
ghost use Rattle.arguments.specs.Arguments.{arguments_data};
ghost use Rattle.arguments.specs.Given.{keyword};
ghost use Rattle.machine_file.specs.QuestionsView.{asides_in, question_in, topic_in};
ghost use Rattle.resources.specs.Beside.{aside_of, asides_named, call_question};

use arguments::Arguments;
use machine_file::{Aside, Question, Topic};
use std::alloc::{AllocError, Global};

// The keywords that say how a check is made, which dependency is wanted, and whether it is required.
const BESIDE: [&str; 6] = [
    "prefix",
    "args",
    "dependencies",
    "include_directories",
    "version",
    "required",
];

// Appends a keyword, if it is given.
fn put_aside(
    alloc: Global,
    asides: &mut Vec<Aside>,
    name: &str,
    arguments: &Arguments,
) -> Result<(), AllocError>
    ensures { OnOk result (asides_in asides.new.items
        ≡ asides_in asides.old.items ++ aside_of name.now (keyword name.now (arguments_data arguments.now))) }
{
    let Some(value) = arguments.keyword(name) else {
        return Ok(());
    };
    let name = String::from_str(alloc, name)?;
    asides.push(Aside {
        name,
        value: value.clone()?,
    })?;
    Ok(())
}

fn asides_named(
    alloc: Global,
    names: &[&str],
    arguments: &Arguments,
) -> Result<Vec<Aside>, AllocError>
    ensures { IfOk result (λ s. asides_in s.items ≡ asides_named (map (λ n. n.now) names.now) (arguments_data arguments.now)) }
{
    let mut asides = Vec::new(alloc);
    for name in names {
        put_aside(alloc, &mut asides, name, arguments)?;
    }
    Ok(asides)
}

/// Returns the question of a call with these arguments. The question carries the keywords that say how a check is made, which
/// dependency is wanted, and whether it is required. They change no answer.
pub fn call_question(
    alloc: Global,
    topic: Topic,
    arguments: &Arguments,
) -> Result<Question, AllocError>
    ensures { IfOk result (λ q. question_in q ≡ call_question (topic_in topic) (arguments_data arguments.now)) }
{
    let asides = asides_named(alloc, &BESIDE, arguments)?;
    Ok(Question { topic, asides })
}
