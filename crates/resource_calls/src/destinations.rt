//! Decides where files are installed.
ghost use Rattle.std.specs.Prelude.{◌≡◌, IfOk, [], codes, map, option_map, string_bytes};
ghost use Rattle.arguments.specs.Each.{each_said};
ghost use Rattle.arguments.specs.Given.{text_given};
ghost use Rattle.arguments.specs.Stops.{Says};
ghost use Rattle.build.specs.project.View.{install_view};
ghost use Rattle.sources.specs.SourcesView.{named_view};
ghost use Rattle.world.specs.Prelude.{arguments_data, state_of};
ghost use Rattle.resource_calls.specs.Destinations.{folders_in, given_or, install_at, install_folder, install_of, destination_of_file};
ghost use Rattle.resource_calls.specs.Destinations.{path_said};
ghost use Rattle.resource_calls.specs.Destinations.{said_of, usual_folder};
ghost use Rattle.resource_calls.specs.DestinationsView.{folders_view, said_view};

use arguments::{Arguments, CallStop, Rule};
use build::project::Install;
use ports::{Outputs, Tree};
use resources::{destination, headers_folder, man_folder};
use sources::{NamedSource, sources_of};
use std::alloc::{AllocError, Global};
use support::paths::{path_below, plain_name};
use world::{Caller, Here};

/// Names the sort of file that is installed.
#[derive(Clone, Copy)]
pub enum Sort {
    Header,
    Data,
    /// A man page.
    ManPage,
}

/// Holds the place of the call, and the directories of options in which files are installed.
#[derive(Clone, Copy)]
pub struct Folders<'a> {
    pub here: Here<'a>,
    pub prefix: &'a str,
    pub includedir: &'a str,
    pub datadir: &'a str,
    pub mandir: &'a str,
    /// The name of the project.
    pub project: &'a str,
}

/// Describes a call that installs files of one sort.
#[derive(Clone, Copy)]
pub struct Call<'f, 'a> {
    pub folders: Folders<'f>,
    pub sort: Sort,
    pub arguments: &'a Arguments,
}

/// Says what a call installs.
#[derive(Drop)]
pub struct Said {
    /// The files that it names.
    pub named: Vec<NamedSource>,
    pub installs: Vec<Install>,
}

/// Returns the directories of the present project.
pub fn folders_in<'c, T: Tree, O: Outputs>(caller: &'c Caller<'_, T, O>) -> Folders<'c>
    ensures { folders_view result ≡ folders_in (state_of T.seen O.seen caller.now).world.facts }
{
    Folders {
        here: caller.here(),
        prefix: caller.store.option_text("prefix"),
        includedir: caller.store.option_text("includedir"),
        datadir: caller.store.option_text("datadir"),
        mandir: caller.store.option_text("mandir"),
        project: caller.store.project().facts().name.as_str(),
    }
}

// ---- directories

// Returns the default directory. Headers are installed to `includedir` and the keyword `subdir`, data to `datadir` and the project's name.
// A man page is installed to the section of its name's last digit in `mandir`; without a digit there is none.
fn usual_folder(call: &Call<'_, '_>, name: &str) -> Result<Option<String>, AllocError>
    ensures { IfOk result (λ f. option_map string_bytes f
        ≡ usual_folder (folders_view call.now.folders) call.now.sort (arguments_data call.now.arguments.now) name.now) }
{
    let folders = call.folders;
    match call.sort {
        Sort::Header => {
            let below = call.arguments.text("subdir");
            Ok(Some(headers_folder(folders.here.alloc, folders.includedir, below)?))
        }
        Sort::Data => Ok(Some(path_below(folders.here.alloc, folders.datadir, folders.project)?)),
        Sort::ManPage => man_folder(folders.here.alloc, folders.mandir, name),
    }
}

// Returns the directory of the keyword `install_dir`, and otherwise this one.
fn take_or(alloc: Global, arguments: &Arguments, usual: String) -> Result<String, AllocError>
    ensures { IfOk result (λ f. string_bytes f
        ≡ given_or (text_given (codes "install_dir") (arguments_data arguments.now)) (string_bytes usual)) }
{
    match arguments.text_given("install_dir") {
        Some(folder) => String::from_str(alloc, folder.as_str()),
        None => Ok(usual),
    }
}

fn install_folder(call: &Call<'_, '_>, name: &str) -> Result<Option<String>, AllocError>
    ensures { IfOk result (λ f. option_map string_bytes f
        ≡ install_folder (folders_view call.now.folders) call.now.sort (arguments_data call.now.arguments.now) name.now) }
{
    match usual_folder(call, name)? {
        Some(usual) => Ok(Some(take_or(call.folders.here.alloc, call.arguments, usual)?)),
        None => Ok(None),
    }
}

// ---- files

// Returns a file below a root, and where it is installed.
fn install_at(call: &Call<'_, '_>, root: &str, path: &str) -> Result<Option<Install>, AllocError>
    ensures { IfOk result (λ i. option_map install_view i
        ≡ install_at (folders_view call.now.folders) call.now.sort (arguments_data call.now.arguments.now) root.now path.now) }
{
    let folders = call.folders;
    let name = plain_name(path);
    match install_folder(call, name)? {
        Some(folder) => Ok(Some(Install {
            source: path_below(folders.here.alloc, root, path)?,
            destination: destination(folders.here.alloc, folders.prefix, folder.as_str(), name)?,
        })),
        None => Ok(None),
    }
}

// Returns where a named file is installed, and `None` for a target, which cannot be installed like this.
fn install_of(call: &Call<'_, '_>, named: &NamedSource) -> Result<Option<Install>, AllocError>
    ensures { IfOk result (λ i. option_map install_view i
        ≡ install_of (folders_view call.now.folders) call.now.sort (arguments_data call.now.arguments.now) (named_view named.now)) }
{
    let here = call.folders.here;
    match named {
        NamedSource::Tree(path) => install_at(call, here.source_root, path.as_str()),
        NamedSource::Built(path) => install_at(call, here.build_root, path.as_str()),
        NamedSource::Outputs(_) | NamedSource::Output { .. } => Ok(None),
    }
}

// Returns the path of a named file, and `""` for a target.
fn path_said(named: &NamedSource) -> &str
    ensures { result.now ≡ path_said (named_view named.now) }
{
    match named {
        NamedSource::Tree(path) => path.as_str(),
        NamedSource::Built(path) => path.as_str(),
        NamedSource::Outputs(_) | NamedSource::Output { .. } => "",
    }
}

// Returns where the named files are installed, or the refusal of one that cannot be installed.
fn installs_of(call: &Call<'_, '_>, named: &[NamedSource]) -> Result<Vec<Install>, CallStop>
    ensures { Says (λ v. map install_view v.items)
        (each_said (destination_of_file (folders_view call.now.folders) call.now.sort (arguments_data call.now.arguments.now)) []
        (map named_view named.now)) result }
{
    let alloc = call.folders.here.alloc;
    let mut installs = Vec::new(alloc);
    for one in named {
        let Some(install) = install_of(call, one)? else {
            return Err(Rule::IsManPage.refuse(alloc, path_said(one))?.into());
        };
        installs.push(install)?;
    }
    Ok(installs)
}

/// Returns what a call installs, or its refusal. Refused are a path that leads out of the source directory, and a man page without a
/// section.
pub fn said_of(call: &Call<'_, '_>) -> Result<Said, CallStop>
    ensures { Says said_view (said_of (folders_view call.now.folders) call.now.sort (arguments_data call.now.arguments.now)) result }
{
    let here = call.folders.here;
    let values = call.arguments.leaves_behind(here.alloc, 0)?;
    let named = sources_of(here.alloc, here.source_root, here.folder, &values)?;
    let installs = installs_of(call, &named)?;
    Ok(Said { named, installs })
}
