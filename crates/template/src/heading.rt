//! Writes the header that `configure_file` makes of configuration data alone.
ghost use Rattle.std.specs.Prelude.{◌++◌, codes};
ghost use Rattle.ports.specs.Endings.{ending_of_result};
ghost use Rattle.ports.specs.Outputs.{IsOpen, Writes, puts};
ghost use Rattle.template.specs.ConfigData.{content_of};
ghost use Rattle.template.specs.Header.{header_steps};
ghost use Rattle.template.specs.Line.{definition};

use crate::replace::put_key;
use crate::{ConfigData, ConfigValue};
use ports::{DeviceFault, Outputs, put_all};

// Writes the line of a name.
#[tactic(auto, using(ports::proofs::Sending::sending))]
fn put_line<O: Outputs>(name: &str, value: &ConfigValue, out: &mut O) -> Result<(), DeviceFault>
    requires { IsOpen (O.seen out.old) }
    ensures { Writes (O.seen out.old) (definition name.now (content_of value.now) ++ puts (codes "\n")) (ending_of_result result)
        (O.seen out.new) }
{
    put_key(name.as_bytes(), value, out)?;
    put_all(out, b"\n")
}

/// Writes the header that `configure_file` makes without a template (Meson reference manual).
///
/// It has a head, and a line `#define` or `#undef` for each name, in the order of the names' bytes. It does not allocate, and fails only if
/// a device does.
pub fn header<O: Outputs>(config: &ConfigData, out: &mut O) -> Result<(), DeviceFault>
    requires { IsOpen (O.seen out.old) }
    ensures { Writes (O.seen out.old) (header_steps config.now.entries) (ending_of_result result) (O.seen out.new) }
{
    put_all(out, b"/* Generated. Do not edit. */\n#pragma once\n\n")?;
    for (name, value) in &config.entries {
        put_line(name.as_str(), value, out)?;
    }
    Ok(())
}
