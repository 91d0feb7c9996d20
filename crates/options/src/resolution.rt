//! Computes the final values of options.

ghost use Rattle.std.specs.Prelude.{◌≡◌, IfOk};
ghost use Rattle.machine_file.specs.Questions.{options_at};
ghost use Rattle.machine_file.specs.View.{machine_in};
ghost use Rattle.options.specs.option_file.View.{options_in as declared_in};
ghost use Rattle.option_values.specs.View.{strings_in};
ghost use Rattle.options.specs.Resolves.{at_first, resolved_options};
ghost use Rattle.options.specs.View.{defaults_in, state_in, resolved_in};

use crate::built_in::built_in_settings;
use crate::fault::OptionFault;
use crate::known_options::Known;
use crate::option_file::Declared;
use crate::place::{ProjectDefault, take_declarations, take_defaults, take_machine, take_words};
use crate::state::State;
use machine_file::Machine;
use option_values::Options;
use std::alloc::{AllocError, Global};

/// Holds the final values of a project's options.
#[derive(Drop)]
pub struct Resolved {
    /// The names in `default_options` that no option has, in their order, up to the first fault.
    pub unknown: Vec<String>,
    /// The options with their values, or the first fault.
    pub outcome: Result<Options, OptionFault>,
}

// Returns the options that every project has, with their defaults.
#[tactic(auto, unfolding(crate::specs::Resolves::at_first))]
fn at_first(alloc: Global) -> Result<State, AllocError>
    ensures { IfOk result (λ state. state_in state ≡ at_first) }
{
    Ok(State {
        unknown: Vec::new(alloc),
        settings: built_in_settings(alloc)?,
        fault: None,
    })
}

/// Returns the options of a project with their values.
///
/// They come from the declarations of the option file, the keyword `default_options` of the call of `project`, a machine file, and the
/// arguments `NAME=VALUE` of a command line. In this order, the last value of an option holds. The first value that its option does not
/// take is the fault.
///
/// A name in `default_options` that no option has is returned, for a warning. Any other such name is a fault. An option without any value
/// has its default, or what `buildtype`, `prefix` and `auto_features` decide. Only the sections of options of the machine file are read.
/// The rules are those of the Meson manual's pages "Build options" and "Built-in options".
pub fn resolve(
    alloc: Global,
    declared: &Declared,
    defaults: &[ProjectDefault<'_>],
    machine: &Machine,
    words: &[String],
) -> Result<Resolved, AllocError>
    ensures { IfOk result (λ r. resolved_in r
        ≡ resolved_options (declared_in declared.now) (defaults_in defaults.now) (options_at (machine_in machine.now))
        (strings_in words.now)) }
{
    let known = Known::new(alloc, declared)?;
    let mut state = at_first(alloc)?;
    take_declarations(alloc, &mut state, declared)?;
    take_defaults(alloc, &mut state, &known, defaults)?;
    take_machine(alloc, &mut state, &known, machine)?;
    take_words(alloc, &mut state, &known, words)?;
    state.end(alloc)
}
