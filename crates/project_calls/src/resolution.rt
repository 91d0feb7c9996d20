//! Determines the values of a project's options.
ghost use Rattle.std.specs.Prelude.{◌≡◌, IfOk, map};
ghost use Rattle.build.specs.edge.Texts.{texts};
ghost use Rattle.machine_file.specs.Questions.{answer_to, question_about};
ghost use Rattle.machine_file.specs.QuestionsView.{topic_in};
ghost use Rattle.options.specs.option_file.View.{options_in as declared_in};
ghost use Rattle.option_values.specs.View.{strings_in};
ghost use Rattle.options.specs.View.{resolved_in};
ghost use Rattle.world.specs.Prelude.{Does, arguments_data, world_of};
ghost use Rattle.world.specs.Deed.{consult};
ghost use Rattle.project_calls.specs.Resolution.{built_in_names, declared_names, options_topic, resolution, resolution_by};

use crate::defaults::{defaults, keys_given};
use arguments::Arguments;
use machine_file::{Question, Topic};
use option_values::{BuiltIn, built_ins};
use options::{Declared, Resolved, resolve};
use ports::{Outputs, Tree};
use std::alloc::{AllocError, Global};
use world::{Caller, Stop, Store};

fn row_names(alloc: Global, rows: &[BuiltIn]) -> Result<Vec<String>, AllocError>
    ensures { IfOk result (λ v. texts v.items ≡ map (λ row. row.name.now) rows.now) }
{
    let mut names = Vec::new(alloc);
    for row in rows {
        names.push(String::from_str(alloc, row.name)?)?;
    }
    Ok(names)
}

// Returns the names of the built-in options, in order.
fn built_in_names(alloc: Global) -> Result<Vec<String>, AllocError>
    ensures { IfOk result (λ v. texts v.items ≡ built_in_names) }
{
    row_names(alloc, built_ins())
}

// Returns the names of the declared options, in the order of their calls.
fn declared_names(alloc: Global, declared: &Declared) -> Result<Vec<String>, AllocError>
    ensures { IfOk result (λ v. texts v.items ≡ declared_names (declared_in declared.now)) }
{
    let mut names = Vec::new(alloc);
    for i in 0..declared.len() {
        let Some((name, _)) = declared.at(i) else {
            return Ok(names);
        };
        names.push(String::from_str(alloc, name)?)?;
    }
    Ok(names)
}

fn options_topic(alloc: Global, declared: &Declared) -> Result<Topic, AllocError>
    ensures { IfOk result (λ t. topic_in t ≡ options_topic (declared_in declared.now)) }
{
    let built_in = built_in_names(alloc)?;
    Ok(Topic::Options(built_in, declared_names(alloc, declared)?))
}

// Asks the machine file for the values of the options, of which these are declared.
fn ask_options<T: Tree, O: Outputs>(
    caller: &mut Caller<'_, T, O>,
    declared: &Declared,
) -> Result<(), Stop>
    ensures deed { Does T.seen O.seen (λ u. answer_to caller.old.store.now.machine (options_topic (declared_in declared.now)))
        (consult (question_about (options_topic (declared_in declared.now)))) caller.old result caller.new }
    ensures machine { caller.new.store.now.machine ≡ caller.old.store.now.machine }
{
    let topic = options_topic(caller.alloc, declared)?;
    caller.ask(Question::about(caller.alloc, topic))
}

// Returns the values of the options, given the machine file, which was already asked.
fn resolve_by(
    alloc: Global,
    arguments: &Arguments,
    printed: &[String],
    declared: &Declared,
    store: &Store,
) -> Result<Resolved, AllocError>
    ensures { IfOk result (λ r. resolved_in r
        ≡ resolution_by (arguments_data arguments.now) (strings_in printed.now) (declared_in declared.now)
        (answer_to store.now.machine (options_topic (declared_in declared.now))) (world_of store.now).facts) }
{
    let texts = arguments.texts(alloc, "default_options")?;
    let defaults = defaults(alloc, &texts, keys_given(arguments), printed)?;
    let settings = store.settings();
    resolve(
        alloc,
        declared,
        &defaults,
        store.machine(),
        settings.words(),
    )
}

/// Returns the values of the built-in options and these declared ones: from the defaults of the call, the machine file, which is queried,
/// and the arguments of the command line.
pub fn resolution<T: Tree, O: Outputs>(
    caller: &mut Caller<'_, T, O>,
    arguments: &Arguments,
    printed: &[String],
    declared: &Declared,
) -> Result<Resolved, Stop>
    ensures { Does T.seen O.seen resolved_in
        (resolution (arguments_data arguments.now) (strings_in printed.now) (declared_in declared.now)) caller.old result caller.new }
{
    ask_options(caller, declared)?;
    let resolved = resolve_by(caller.alloc, arguments, printed, declared, caller.store)?;
    Ok(resolved)
}
