//! Implements `files` and `include_directories`.
ghost use Rattle.std.specs.Prelude.{◌≡◌, IfOk, map, option_map, string_bytes};
ghost use Rattle.arguments.specs.Stops.{Says};
ghost use Rattle.values.specs.Flat.{flat_all};
ghost use Rattle.support.specs.paths.Folder.{strings_of};
ghost use Rattle.world.specs.Prelude.{Does, MayFail, arguments_data, data_of, here_view};
ghost use Rattle.target_calls.specs.Files.{all_required, files, include_directories, named_paths, path_named, paths_named, rule_of};

use arguments::{Arguments, CallStop, Rule};
use ports::{Outputs, Tree};
use sources::{directories_at, files_at};
use std::alloc::AllocError;
use support::paths::{folder_path, tree_path};
use values::Value;
use world::{Caller, Here, Stop};

// What a text names.
#[derive(Clone, Copy)]
enum Wanted {
    File,
    /// A folder; the root is one.
    Folder,
}

impl Wanted {
    // Returns the rule that a text breaks if it names nothing.
    fn rule(self) -> Rule
        ensures { result ≡ rule_of self }
    {
        match self {
            Wanted::File => Rule::NamesFile,
            Wanted::Folder => Rule::NamesFolder,
        }
    }

    // Returns the path that a text of the present definition file names, and `None` if it names none.
    fn path(self, here: &Here<'_>, text: &str) -> Result<Option<String>, AllocError>
        ensures { IfOk result (λ path. option_map string_bytes path ≡ path_named (here_view here.now) self text.now) }
    {
        match self {
            Wanted::File => tree_path(here.alloc, here.source_root, here.folder, text),
            Wanted::Folder => folder_path(here.alloc, here.source_root, here.folder, text),
        }
    }
}

// Returns the paths of the files or folders that texts name, or the refusal of a text that names none.
fn paths_named(here: &Here<'_>, wanted: Wanted, texts: &[&str]) -> Result<Vec<String>, CallStop>
    ensures { Says strings_of (paths_named (here_view here.now) wanted (map (λ t. t.now) texts.now)) result }
{
    let mut paths = Vec::new(here.alloc);
    for text in texts {
        let Some(path) = wanted.path(here, text)? else {
            return Err(wanted.rule().refuse(here.alloc, text)?.into());
        };
        paths.push(path)?;
    }
    Ok(paths)
}

// Returns the paths that the texts of a call name, and refuses a text that names none (E9).
fn named_paths<T: Tree, O: Outputs>(
    caller: &Caller<'_, T, O>,
    wanted: Wanted,
    arguments: &Arguments,
) -> Result<Vec<String>, Stop>
    ensures { Does T.seen O.seen strings_of (named_paths wanted (flat_all (arguments_data arguments.now).positional))
        caller.now result caller.now }
{
    let texts = arguments.all_texts(caller.alloc)?;
    caller.settle(paths_named(&caller.here(), wanted, &texts))
}

/// Refuses the call unless each of the files is present (E14).
pub(crate) fn require_all<T: Tree, O: Outputs>(
    caller: &mut Caller<'_, T, O>,
    paths: Vec<String>,
) -> Result<(), Stop>
    requires { MayFail T.seen O.seen caller.old }
    ensures { Does T.seen O.seen (λ u. u) (all_required (map string_bytes paths.items)) caller.old result caller.new }
{
    for path in paths {
        caller.require_own_file(path)?;
    }
    Ok(())
}

/// Runs `files(texts..)`. Refuses a text that names no file with E9, and a missing file with E14.
pub fn files<T: Tree, O: Outputs>(
    caller: &mut Caller<'_, T, O>,
    arguments: &Arguments,
) -> Result<Option<Value>, Stop>
    requires { MayFail T.seen O.seen caller.old }
    ensures { Does T.seen O.seen (option_map data_of) (files (arguments_data arguments.now)) caller.old result caller.new }
{
    let paths = named_paths(caller, Wanted::File, arguments)?;
    let listed = files_at(caller.alloc, &paths);
    require_all(caller, paths)?;
    let list = caller.settle(listed)?;
    Ok(Some(list))
}

/// Runs `include_directories(texts..)`. Refuses a text that names no directory with E9; the directories need not exist.
pub fn include_directories<T: Tree, O: Outputs>(
    caller: &Caller<'_, T, O>,
    arguments: &Arguments,
) -> Result<Option<Value>, Stop>
    ensures { Does T.seen O.seen (option_map data_of) (include_directories (arguments_data arguments.now)) caller.now result caller.now }
{
    let paths = named_paths(caller, Wanted::Folder, arguments)?;
    let directories = caller.settle(directories_at(caller.alloc, &paths))?;
    Ok(Some(directories))
}
