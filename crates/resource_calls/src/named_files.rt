//! Checks that the source files of a call are present.
ghost use Rattle.std.specs.Prelude.{map};
ghost use Rattle.sources.specs.SourcesView.{named_view};
ghost use Rattle.world.specs.Prelude.{Does, MayFail};
ghost use Rattle.resource_calls.specs.NamedFiles.{file_required, files_required};

use ports::{Outputs, Tree};
use sources::NamedSource;
use world::{Caller, Stop};

fn require_file<T: Tree, O: Outputs>(
    caller: &mut Caller<'_, T, O>,
    named: &NamedSource,
) -> Result<(), Stop>
    requires { MayFail T.seen O.seen caller.old }
    ensures { Does T.seen O.seen (λ u. u) (file_required (named_view named.now)) caller.old result caller.new }
{
    match named {
        NamedSource::Tree(path) => caller.require_file(path.as_str()),
        NamedSource::Built(_) => Ok(()),
        NamedSource::Outputs(_) => Ok(()),
        NamedSource::Output { .. } => Ok(()),
    }
}

/// Refuses the call unless each source that is a file in the source directory is present (E14).
pub fn require_files<T: Tree, O: Outputs>(
    caller: &mut Caller<'_, T, O>,
    named: &[NamedSource],
) -> Result<(), Stop>
    requires { MayFail T.seen O.seen caller.old }
    ensures { Does T.seen O.seen (λ u. u) (files_required (map named_view named.now)) caller.old result caller.new }
{
    for one in named {
        require_file(caller, one)?;
    }
    Ok(())
}
