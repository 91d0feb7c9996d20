//! Implements `install_headers`, `install_data` and `install_man`: <https://mesonbuild.com/Reference-manual_functions.html#install_headers>
//! and its like.
ghost use Rattle.std.specs.Prelude.{map, option_map};
ghost use Rattle.build.specs.project.View.{install_view};
ghost use Rattle.world.specs.Prelude.{Does, MayFail, arguments_data, data_of};
ghost use Rattle.resource_calls.specs.Installs.{all_installed, install};

use crate::destinations::{Call, Sort, folders_in, said_of};
use crate::named_files::require_files;
use arguments::Arguments;
use build::project::Install;
use ports::{Outputs, Tree};
use values::Value;
use world::{Caller, Stop};

// Records where each file is installed.
fn install_all<T: Tree, O: Outputs>(
    caller: &mut Caller<'_, T, O>,
    installs: Vec<Install>,
) -> Result<(), Stop>
    ensures { Does T.seen O.seen (λ u. u) (all_installed (map install_view installs.items)) caller.old result caller.new }
{
    for install in installs {
        caller.add_install(install)?;
    }
    Ok(())
}

/// Runs `install_headers`, `install_data` or `install_man`, by the sort of the files. Refuses with E9, also for a man page without a digit,
/// and then with E14 for the first missing file.
pub fn install<T: Tree, O: Outputs>(
    caller: &mut Caller<'_, T, O>,
    sort: Sort,
    arguments: &Arguments,
) -> Result<Option<Value>, Stop>
    requires { MayFail T.seen O.seen caller.old }
    ensures { Does T.seen O.seen (option_map data_of) (install sort (arguments_data arguments.now)) caller.old result caller.new }
{
    let folders = folders_in(caller);
    let said = caller.settle(said_of(&Call {
        folders,
        sort,
        arguments,
    }))?;
    require_files(caller, &said.named)?;
    install_all(caller, said.installs)?;
    Ok(None)
}
