//! Reads what the keywords of a call name, with lists flattened.
ghost use Rattle.std.specs.Prelude.{◌≡◌, IfOk, option_map};
ghost use Rattle.arguments.specs.Arguments.{arguments_data};
ghost use Rattle.arguments.specs.Leaves.{leaves_named};
ghost use Rattle.arguments.specs.Stops.{Says};
ghost use Rattle.support.specs.paths.Folder.{strings_of};
ghost use Rattle.sources.specs.Folders.{folders_of};
ghost use Rattle.sources.specs.Libraries.{numbers_of};
ghost use Rattle.sources.specs.Sources.{sources_of};
ghost use Rattle.sources.specs.SourcesView.{named_views};

use crate::folders::folders_of;
use crate::libraries::numbers_of;
use crate::sources::{NamedSource, sources_of};
use arguments::{Arguments, CallStop};
use std::alloc::{AllocError, Global};

/// Returns the directories that a keyword names, as [`folders_of`] does.
pub fn folders_named(
    alloc: Global,
    source_root: &str,
    folder: &str,
    arguments: &Arguments,
    name: &str,
) -> Result<Vec<String>, CallStop>
    ensures { Says strings_of (folders_of source_root.now folder.now (leaves_named name.now (arguments_data arguments.now))) result }
{
    let values = arguments.leaves(alloc, name)?;
    folders_of(alloc, source_root, folder, &values)
}

/// Returns the sources that a keyword names, as [`sources_of`] does.
pub fn sources_named(
    alloc: Global,
    source_root: &str,
    folder: &str,
    arguments: &Arguments,
    name: &str,
) -> Result<Vec<NamedSource>, CallStop>
    ensures { Says named_views (sources_of source_root.now folder.now (leaves_named name.now (arguments_data arguments.now))) result }
{
    let values = arguments.leaves(alloc, name)?;
    sources_of(alloc, source_root, folder, &values)
}

/// Returns the numbers of the build targets that a keyword names, as [`numbers_of`] does.
pub fn numbers_named(
    alloc: Global,
    arguments: &Arguments,
    name: &str,
) -> Result<Option<Vec<usize>>, AllocError>
    ensures { IfOk result (λ ns. option_map (λ v. v.items) ns ≡ numbers_of (leaves_named name.now (arguments_data arguments.now))) }
{
    let values = arguments.leaves(alloc, name)?;
    numbers_of(alloc, &values)
}
