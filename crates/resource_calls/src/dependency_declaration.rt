//! Implements `declare_dependency`: <https://mesonbuild.com/Reference-manual_functions.html#declare_dependency>.
ghost use Rattle.std.specs.Prelude.{option_map};
ghost use Rattle.world.specs.Prelude.{Does, MayFail, arguments_data, data_of};
ghost use Rattle.resource_calls.specs.DeclareDependency.{declare_dependency, joined_given};
ghost use Rattle.resource_calls.specs.OwnListsView.{own_view};

use crate::call_results::return_object;
use crate::joined_lists::joined_dependency;
use crate::named_files::require_files;
use crate::own_lists::{Own, own_lists};
use arguments::Arguments;
use ports::{Outputs, Tree};
use values::{Dependency, Object, Value};
use world::{Caller, Stop};

// Returns the dependency with these lists, and refuses lists that are too long with E22.
fn join_given<T: Tree, O: Outputs>(
    caller: &Caller<'_, T, O>,
    arguments: &Arguments,
    own: &Own,
) -> Result<Dependency, Stop>
    ensures { Does T.seen O.seen (λ d. d) (joined_given (arguments_data arguments.now) (own_view own.now)) caller.now result caller.now }
{
    let here = caller.here();
    let version = caller.store.project().facts().version.as_str();
    caller.settle(joined_dependency(&here, version, arguments, own))
}

/// Runs `declare_dependency()`. Refuses with E9, E14, E22 in this order.
pub fn declare_dependency<T: Tree, O: Outputs>(
    caller: &mut Caller<'_, T, O>,
    arguments: &Arguments,
) -> Result<Option<Value>, Stop>
    requires { MayFail T.seen O.seen caller.old }
    ensures { Does T.seen O.seen (option_map data_of) (declare_dependency (arguments_data arguments.now)) caller.old result caller.new }
{
    let own = caller.settle(own_lists(&caller.here(), arguments))?;
    require_files(caller, &own.sources)?;
    let dependency = join_given(caller, arguments, &own)?;
    return_object(caller, Object::Dependency(dependency))
}
