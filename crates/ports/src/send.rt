//! Writes all bytes of a slice to outputs, with as many calls as that takes.
#![tactic(auto, unfolding(crate::specs::Outputs::name_after, crate::specs::Outputs::events_of_steps, crate::specs::Outputs::puts, crate::specs::Outputs::logs, crate::specs::Outputs::faults))]

ghost use Rattle.ports.specs.Endings.{HasRoom, ending_of_result};
ghost use Rattle.ports.specs.Outputs.{IsOpen, Writes, puts, logs, faults};

use crate::{DeviceFault, Outputs};

/// Puts all these bytes into the open output, with as many calls as needed. After a device fault, a beginning of them was taken.
pub fn put_all<O: Outputs>(out: &mut O, bytes: &[u8]) -> Result<(), DeviceFault>
    requires { IsOpen (O.seen out.old) }
    ensures { Writes (O.seen out.old) (puts bytes.now) (ending_of_result result) (O.seen out.new) }
{
    let mut at = 0;
    while at < bytes.len() {
        at += out.put(&bytes[at..])?;
    }
    Ok(())
}

/// Puts all these bytes into the log, as [`put_all`] does.
pub fn log_all<O: Outputs>(out: &mut O, bytes: &[u8]) -> Result<(), DeviceFault>
    requires { HasRoom (O.seen out.old).failures }
    ensures { Writes (O.seen out.old) (logs bytes.now) (ending_of_result result) (O.seen out.new) }
{
    let mut at = 0;
    while at < bytes.len() {
        at += out.log(&bytes[at..])?;
    }
    Ok(())
}

/// Puts all these bytes of a fault's line, as [`put_all`] does.
pub fn fault_all<O: Outputs>(out: &mut O, bytes: &[u8]) -> Result<(), DeviceFault>
    requires { HasRoom (O.seen out.old).failures }
    ensures { Writes (O.seen out.old) (faults bytes.now) (ending_of_result result) (O.seen out.new) }
{
    let mut at = 0;
    while at < bytes.len() {
        at += out.fault(&bytes[at..])?;
    }
    Ok(())
}
