//! Reads the lists that a call of `declare_dependency` itself gives.
ghost use Rattle.std.specs.Prelude.{◌≡◌, IfOk, codes, option_map};
ghost use Rattle.arguments.specs.Leaves.{leaves_named};
ghost use Rattle.arguments.specs.Stops.{Says};
ghost use Rattle.build.specs.DeclaredTargetViews.{declared_target_views};
ghost use Rattle.world.specs.Prelude.{arguments_data, here_view};
ghost use Rattle.resource_calls.specs.OwnLists.{if_libraries, libraries_of, own_lists};
ghost use Rattle.resource_calls.specs.OwnListsView.{own_view};

use arguments::{Arguments, CallStop, Rule};
use build::{DeclaredTarget, are_libraries};
use sources::{NamedSource, folders_named, numbers_named, sources_named};
use std::alloc::{AllocError, Global};
use world::Here;

/// Holds the lists that a call itself gives.
#[derive(Drop)]
pub struct Own {
    /// Paths for `include_directories`.
    pub folders: Vec<String>,
    /// The target numbers of the libraries to link with.
    pub libraries: Vec<usize>,
    pub sources: Vec<NamedSource>,
}

fn if_libraries(earlier: &[DeclaredTarget], numbers: Vec<usize>) -> Option<Vec<usize>>
    ensures { option_map (λ v. v.items) result ≡ if_libraries (declared_target_views earlier.now) numbers.items }
{
    if are_libraries(earlier, &numbers) {
        Some(numbers)
    } else {
        None
    }
}

// Returns the target numbers of the keyword `link_with`, and `None` if one is no library.
fn libraries_given(
    alloc: Global,
    earlier: &[DeclaredTarget],
    arguments: &Arguments,
) -> Result<Option<Vec<usize>>, AllocError>
    ensures { IfOk result (λ ns. option_map (λ v. v.items) ns
        ≡ libraries_of (declared_target_views earlier.now) (leaves_named (codes "link_with") (arguments_data arguments.now))) }
{
    match numbers_named(alloc, arguments, "link_with")? {
        Some(numbers) => Ok(if_libraries(earlier, numbers)),
        None => Ok(None),
    }
}

/// Returns the lists that the call itself gives, or its refusal. Refused are a path that leads out of the source directory, and a value of
/// `link_with` that is no library.
pub fn own_lists(here: &Here<'_>, arguments: &Arguments) -> Result<Own, CallStop>
    ensures { Says own_view (own_lists (here_view here.now) (arguments_data arguments.now)) result }
{
    let Here {
        alloc,
        source_root,
        folder,
        earlier,
        ..
    } = *here;
    let key = "include_directories";
    let folders = folders_named(alloc, source_root, folder, arguments, key)?;
    let Some(libraries) = libraries_given(alloc, earlier, arguments)? else {
        return Err(Rule::TakesLibraries.refuse(alloc, "link_with")?.into());
    };
    let sources = sources_named(alloc, source_root, folder, arguments, "sources")?;
    Ok(Own {
        folders,
        libraries,
        sources,
    })
}
