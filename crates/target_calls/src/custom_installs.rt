//! Records where the outputs of a custom target are installed.
ghost use Rattle.std.specs.Prelude.{◌≡◌, IfOk};
ghost use Rattle.build.specs.edge.Texts.{texts};
ghost use Rattle.build.specs.project.View.{install_view};
ghost use Rattle.build.specs.View.{custom_view, target_view};
ghost use Rattle.world.specs.Prelude.{Does, arguments_data, world_of};
ghost use Rattle.target_calls.specs.CustomInstalls.{add_custom, all_noted, custom_names, installed_names, output_install, way_of};
ghost use Rattle.target_calls.specs.CustomInstallsView.{way_view};

use arguments::Arguments;
use build::edge::{copies, is_some_list};
use build::project::Install;
use build::{CustomTarget, Target};
use ports::{Outputs, Tree};
use std::alloc::{AllocError, Global};
use support::paths::{path_below, path_in};
use world::{Caller, Stop, Store};

/// Says where outputs come from, and where they are installed.
#[derive(Drop)]
pub struct Way {
    /// An absolute path.
    pub build_root: String,
    /// The folder of the definition file, `""` for the root.
    pub folder: String,
    /// The directory where they are installed.
    pub destination: String,
}

fn way_of(alloc: Global, store: &Store, arguments: &Arguments) -> Result<Way, AllocError>
    ensures { IfOk result (λ w. way_view w ≡ way_of (world_of store.now).facts (arguments_data arguments.now)) }
{
    let build_root = store.settings().build_root();
    let prefix = store.option_text("prefix");
    Ok(Way {
        build_root: String::from_str(alloc, build_root)?,
        folder: String::from_str(alloc, store.folder())?,
        destination: path_below(alloc, prefix, arguments.text("install_dir"))?,
    })
}

fn output_install(alloc: Global, way: &Way, name: &str) -> Result<Install, AllocError>
    ensures { IfOk result (λ i. install_view i ≡ output_install (way_view way.now) name.now) }
{
    let path = path_in(alloc, &way.folder, name)?;
    Ok(Install {
        source: path_below(alloc, &way.build_root, &path)?,
        destination: path_below(alloc, &way.destination, name)?,
    })
}

fn custom_names(alloc: Global, target: &CustomTarget) -> Result<Vec<String>, AllocError>
    ensures { IfOk result (λ v. texts v.items ≡ custom_names (custom_view target.now)) }
{
    if target.is_installed {
        copies(alloc, &target.outputs)
    } else {
        Ok(Vec::new(alloc))
    }
}

// Returns the outputs that are installed.
fn installed_names(alloc: Global, target: &Target) -> Result<Vec<String>, AllocError>
    ensures { IfOk result (λ v. texts v.items ≡ installed_names (target_view target.now)) }
{
    match target {
        Target::Build(_) => Ok(Vec::new(alloc)),
        Target::Custom(target) => custom_names(alloc, target),
    }
}

// Records where each output is installed.
fn note_all<T: Tree, O: Outputs>(
    caller: &mut Caller<'_, T, O>,
    way: &Way,
    names: &[String],
) -> Result<(), Stop>
    ensures { Does T.seen O.seen (λ u. u) (all_noted (way_view way.now) (texts names.now)) caller.old result caller.new }
{
    for name in names {
        let install = output_install(caller.alloc, way, name.as_str())?;
        caller.add_install(install)?;
    }
    Ok(())
}

/// Declares a custom target, records where its outputs are installed, and returns its number.
pub fn add_custom<T: Tree, O: Outputs>(
    caller: &mut Caller<'_, T, O>,
    arguments: &Arguments,
    target: Target,
) -> Result<usize, Stop>
    ensures { Does T.seen O.seen (λ n. n) (add_custom (arguments_data arguments.now) (target_view target)) caller.old result caller.new }
{
    let names = installed_names(caller.alloc, &target)?;
    if !is_some_list(&names) {
        let alone = caller.add_target(target)?;
        return Ok(alone);
    }
    let way = way_of(caller.alloc, caller.store, arguments)?;
    let number = caller.add_target(target)?;
    note_all(caller, &way, &names)?;
    Ok(number)
}
