//! Decides where targets are installed.
ghost use Rattle.std.specs.Prelude.{◌≡◌, IfOk, option_map};
ghost use Rattle.build.specs.project.View.{install_view};
ghost use Rattle.build.specs.View.{build_view, target_view};
ghost use Rattle.world.specs.Prelude.{Does, arguments_data, world_of};
ghost use Rattle.target_calls.specs.Installs.{build_install, install_folder, install_of, noted_install, usual_folder};

use arguments::Arguments;
use build::project::Install;
use build::{BuildTarget, Target, TargetKind, file_name, file_path};
use ports::{Outputs, Tree};
use std::alloc::{AllocError, Global};
use support::paths::path_below;
use world::{Caller, Stop, Store};

// Returns the default directory: `bindir` for programs, `libdir` for libraries.
fn usual_folder(store: &Store, kind: TargetKind) -> &str
    ensures { result.now ≡ usual_folder (world_of store.now).facts kind }
{
    match kind {
        TargetKind::Executable => store.option_text("bindir"),
        TargetKind::StaticLibrary | TargetKind::SharedLibrary => store.option_text("libdir"),
    }
}

// Returns the directory of the keyword `install_dir`, and otherwise the default one.
fn install_folder<'s>(store: &'s Store, arguments: &'s Arguments, kind: TargetKind) -> &'s str
    ensures { result.now ≡ install_folder (world_of store.now).facts (arguments_data arguments.now) kind }
{
    match arguments.text_given("install_dir") {
        Some(folder) => folder.as_str(),
        None => usual_folder(store, kind),
    }
}

fn build_install(
    alloc: Global,
    store: &Store,
    arguments: &Arguments,
    target: &BuildTarget,
) -> Result<Install, AllocError>
    ensures { IfOk result (λ i. install_view i
        ≡ build_install (world_of store.now).facts (arguments_data arguments.now) (build_view target.now)) }
{
    let file = file_path(alloc, target)?;
    let name = file_name(alloc, target)?;
    let folder = install_folder(store, arguments, target.kind);
    let below = path_below(alloc, store.option_text("prefix"), folder)?;
    let build_root = store.settings().build_root();
    Ok(Install {
        source: path_below(alloc, build_root, &file)?,
        destination: path_below(alloc, &below, &name)?,
    })
}

/// Returns where the target's file is installed, and `None` if it is not installed.
pub fn install_of(
    alloc: Global,
    store: &Store,
    arguments: &Arguments,
    target: &Target,
) -> Result<Option<Install>, AllocError>
    ensures { IfOk result (λ i. option_map install_view i
        ≡ install_of (world_of store.now).facts (arguments_data arguments.now) (target_view target.now)) }
{
    match target {
        Target::Build(target) => {
            if target.is_installed {
                Ok(Some(build_install(alloc, store, arguments, target)?))
            } else {
                Ok(None)
            }
        }
        Target::Custom(_) => Ok(None),
    }
}

/// Records an installed file, if there is one.
pub fn note<T: Tree, O: Outputs>(
    caller: &mut Caller<'_, T, O>,
    install: Option<Install>,
) -> Result<(), Stop>
    ensures { Does T.seen O.seen (λ u. u) (noted_install (option_map install_view install)) caller.old result caller.new }
{
    match install {
        Some(install) => caller.add_install(install),
        None => Ok(()),
    }
}
