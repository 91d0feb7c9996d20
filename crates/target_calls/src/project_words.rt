//! Implements `add_project_arguments` and `add_project_link_arguments`.
ghost use Rattle.std.specs.Prelude.{◌≡◌, IfOk, map, option_map};
ghost use Rattle.std.specs.List.{list_all};
ghost use Rattle.values.specs.Flat.{flat_all};
ghost use Rattle.build.specs.edge.Texts.{texts};
ghost use Rattle.world.specs.Prelude.{Does, arguments_data, data_of};
ghost use Rattle.target_calls.specs.ProjectWords.{add_project_arguments, add_project_link_arguments, are_c, is_c, required_c};

use arguments::{Arguments, Rule};
use build::edge::strings;
use ports::{Outputs, Tree};
use std::alloc::{AllocError, Global};
use values::Value;
use world::{Caller, Stop};

fn all_c(languages: &[String]) -> bool
    ensures { result ≡ list_all is_c (texts languages.now) }
{
    for language in languages {
        if language.as_str() != "c" {
            return false;
        }
    }
    true
}

// Returns whether there is at least one language, and each is `c`.
fn are_c(languages: &[String]) -> bool
    ensures { result ≡ are_c (texts languages.now) }
{
    match languages {
        [] => false,
        _ => all_c(languages),
    }
}

// Returns the compiler or linker arguments that the call gives.
fn words(alloc: Global, arguments: &Arguments) -> Result<Vec<String>, AllocError>
    ensures { IfOk result (λ v. texts v.items ≡ flat_all (map data_of arguments.now.positional.items)) }
{
    let found = arguments.all_texts(alloc)?;
    strings(alloc, &found)
}

// Refuses arguments that are not for C (E9).
fn require_c<T: Tree, O: Outputs>(
    caller: &Caller<'_, T, O>,
    arguments: &Arguments,
) -> Result<(), Stop>
    ensures { Does T.seen O.seen (λ u. u) (required_c (arguments_data arguments.now)) caller.now result caller.now }
{
    let languages = arguments.texts(caller.alloc, "language")?;
    let is_so = are_c(&languages);
    caller.obey(is_so, Rule::TakesC, "language")
}

/// Runs `add_project_arguments(texts..)`. Refuses with E9, E21, E24 in this order.
pub fn add_project_arguments<T: Tree, O: Outputs>(
    caller: &mut Caller<'_, T, O>,
    arguments: &Arguments,
) -> Result<Option<Value>, Stop>
    ensures { Does T.seen O.seen (option_map data_of) (add_project_arguments (arguments_data arguments.now)) caller.old result caller.new }
{
    require_c(caller, arguments)?;
    let words = words(caller.alloc, arguments)?;
    caller.add_arguments(&words)?;
    Ok(None)
}

/// Runs `add_project_link_arguments(texts..)`. Refuses with E9, E21, E24 in this order.
pub fn add_project_link_arguments<T: Tree, O: Outputs>(
    caller: &mut Caller<'_, T, O>,
    arguments: &Arguments,
) -> Result<Option<Value>, Stop>
    ensures { Does T.seen O.seen (option_map data_of) (add_project_link_arguments (arguments_data arguments.now))
        caller.old result caller.new }
{
    require_c(caller, arguments)?;
    let words = words(caller.alloc, arguments)?;
    caller.add_link_arguments(&words)?;
    Ok(None)
}
