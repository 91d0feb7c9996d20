//! Writes the output with the introspection document.
ghost use Rattle.ports.specs.Endings.{HasRoom};
ghost use Rattle.ports.specs.Outputs.{Makes};
ghost use Rattle.backend.specs.BuildFile.{ending_of};
ghost use Rattle.backend.specs.Document.{document_steps};

use crate::stop::WriteStop;
use build::project::Project;
use introspection::document_text;
use ports::{Outputs, put_all};
use std::alloc::Global;

/// Writes `meson-info/introspect.json`, the introspection document of the project.
///
/// With [`WriteStop::Device`] one device failed, and with [`WriteStop::Memory`] none did. In both cases the outputs took a beginning.
pub fn write_document<O: Outputs>(
    alloc: Global,
    project: &Project,
    out: &mut O,
) -> Result<(), WriteStop>
    requires { HasRoom (O.seen out.old).failures }
    ensures { Makes (O.seen out.old) (document_steps project.now) (ending_of result) (O.seen out.new) }
{
    let text = document_text(alloc, project)?;
    out.open("meson-info/introspect.json")?;
    put_all(out, text.as_bytes())?;
    out.close()?;
    Ok(())
}
