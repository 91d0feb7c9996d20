//! Implements the functions that declare an executable or a library.
ghost use Rattle.std.specs.Prelude.{◌≡◌, option_map};
ghost use Rattle.option_values.specs.View.{value_in};
ghost use Rattle.build.specs.View.{target_view};
ghost use Rattle.world.specs.Prelude.{Does, MayFail, arguments_data, data_of};
ghost use Rattle.target_calls.specs.Targets.{declare, library, library_kind, required_fit};

use crate::build_target::declare_target;
use crate::fit_breaches::fit_breach;
use crate::installs::{install_of, note};
use crate::tree::require_all;
use arguments::Arguments;
use build::{Target, TargetKind};
use option_values::OptionValue;
use ports::{Outputs, Tree};
use values::{Object, Value};
use world::{Caller, Stop};

/// Refuses a target that the project cannot have (E9).
pub fn require_fit<T: Tree, O: Outputs>(
    caller: &Caller<'_, T, O>,
    target: &Target,
) -> Result<(), Stop>
    ensures { Does T.seen O.seen (λ u. u) (required_fit (target_view target.now)) caller.now result caller.now }
{
    let project = caller.store.project();
    let fits = project.fits(target)?;
    if fits {
        Ok(())
    } else {
        let breach = fit_breach(caller.alloc, project, target)?;
        caller.refuse_by(breach.0, breach.1.as_str())
    }
}

/// Runs `executable`, `static_library` or `shared_library`, by the kind, and records where the file is installed. Refuses with E9, E14, E21, E11, E22 in this order.
pub fn declare<T: Tree, O: Outputs>(
    caller: &mut Caller<'_, T, O>,
    kind: TargetKind,
    arguments: &Arguments,
) -> Result<Option<Value>, Stop>
    requires { MayFail T.seen O.seen caller.old }
    ensures { Does T.seen O.seen (option_map data_of) (declare kind (arguments_data arguments.now)) caller.old result caller.new }
{
    let named = caller.settle(declare_target(&caller.here(), kind, arguments))?;
    require_fit(caller, &named.target)?;
    require_all(caller, named.files)?;
    let install = install_of(caller.alloc, caller.store, arguments, &named.target)?;
    let number = caller.add_target(named.target)?;
    note(caller, install)?;
    let value = Value::of_object(caller.alloc, Object::BuildTarget(number))?;
    Ok(Some(value))
}

// Returns what `library` makes for this value of the option `default_library`.
fn library_kind(value: Option<&OptionValue>) -> TargetKind
    ensures { result ≡ library_kind (option_map (λ v. value_in v.now) value.entry) }
{
    match value {
        Some(OptionValue::Combo(choice)) => {
            if choice.as_str() == "static" {
                TargetKind::StaticLibrary
            } else {
                TargetKind::SharedLibrary
            }
        }
        _ => TargetKind::SharedLibrary,
    }
}

/// Runs `library(name, sources..)`, whose kind the option `default_library` decides. Refuses with E9, E14, E21, E11, E22 in this order.
pub fn library<T: Tree, O: Outputs>(
    caller: &mut Caller<'_, T, O>,
    arguments: &Arguments,
) -> Result<Option<Value>, Stop>
    requires { MayFail T.seen O.seen caller.old }
    ensures { Does T.seen O.seen (option_map data_of) (library (arguments_data arguments.now)) caller.old result caller.new }
{
    let kind = library_kind(caller.store.option("default_library"));
    declare(caller, kind, arguments)
}
