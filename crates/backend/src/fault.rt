//! Writes the line of a fault.
ghost use Rattle.ports.specs.Endings.{HasRoom, ending_of_result};
ghost use Rattle.ports.specs.Outputs.{Writes, faults};
ghost use Rattle.support.specs.Faults.{fault_line};
ghost use Rattle.support.specs.View.{fault_view};
ghost use Rattle.backend.specs.FaultSteps.{detail_steps, line_steps, text_steps};

use itoa::Buffer;
use ports::{DeviceFault, Outputs, fault_all};
use support::faults::Fault;

#[tactic(auto, using(ports::proofs::Sending::sending))]
fn write_detail<O: Outputs>(fault: &Fault, out: &mut O) -> Result<(), DeviceFault>
    requires { HasRoom (O.seen out.old).failures }
    ensures { Writes (O.seen out.old) (detail_steps (fault_view fault.now)) (ending_of_result result) (O.seen out.new) }
{
    match fault.refusal().detail_sign() {
        Some(sign) => {
            fault_all(out, sign.as_bytes())?;
            fault_all(out, fault.detail().as_bytes())
        }
        None => Ok(()),
    }
}

// Writes the number, the words and the details.
#[tactic(auto, using(ports::proofs::Sending::sending))]
fn write_text<O: Outputs>(fault: &Fault, out: &mut O) -> Result<(), DeviceFault>
    requires { HasRoom (O.seen out.old).failures }
    ensures { Writes (O.seen out.old) (text_steps (fault_view fault.now)) (ending_of_result result) (O.seen out.new) }
{
    let mut digits = Buffer::new();
    fault_all(out, b"E")?;
    fault_all(out, digits.format(fault.number()).as_bytes())?;
    fault_all(out, b" ")?;
    fault_all(out, fault.refusal().words().as_bytes())?;
    write_detail(fault, out)
}

#[tactic(auto, using(ports::proofs::Sending::sending))]
fn write_line<O: Outputs>(fault: &Fault, out: &mut O) -> Result<(), DeviceFault>
    requires { HasRoom (O.seen out.old).failures }
    ensures { Writes (O.seen out.old) (line_steps (fault_view fault.now)) (ending_of_result result) (O.seen out.new) }
{
    let mut digits = Buffer::new();
    fault_all(out, fault.file().as_bytes())?;
    fault_all(out, b":")?;
    fault_all(out, digits.format(fault.line()).as_bytes())?;
    fault_all(out, b": ERROR: ")?;
    write_text(fault, out)?;
    fault_all(out, b"\n")
}

/// Writes `FILE:LINE: ERROR: TEXT` and a newline to the stream of fault lines.
pub fn write_fault<O: Outputs>(fault: &Fault, out: &mut O) -> Result<(), DeviceFault>
    requires { HasRoom (O.seen out.old).failures }
    ensures { Writes (O.seen out.old) (faults (fault_line (fault_view fault.now))) (ending_of_result result) (O.seen out.new) }
{
    write_line(fault, out)
}
