//! Ends the rules on the stack after a fault.
ghost use Rattle.std.specs.Prelude.{◌≡◌, ◌+◌};
ghost use Rattle.interp.specs.Frames.{pending_rules, unwound_rules};

use crate::frames::Frame;
use std::sync::ledger::Ledger;
use world::{Steps, Stop};

// Ticks for each end of a rule on the stack.
fn end_all<L: Ledger>(stack: &[Frame], steps: &mut Steps<L>)
    ensures { steps.new ≡ steps.old + pending_rules stack.now }
{
    for frame in stack {
        match frame {
            Frame::End => steps.tick(),
            Frame::Block(_) => {}
            Frame::Loop(_) => {}
            Frame::Call(_) => {}
            Frame::Left(_) => {}
            Frame::Refuses(_) => {}
        }
    }
}

/// Ends the rules on the stack if the stop is a fault, and returns the stop.
pub fn unwind<L: Ledger>(stop: Stop, stack: &[Frame], steps: &mut Steps<L>) -> Stop
    ensures same { result ≡ stop }
    ensures ticks { steps.new ≡ steps.old + unwound_rules stop stack.now }
{
    match stop {
        Stop::Refused(fault) => {
            end_all(stack, steps);
            Stop::Refused(fault)
        }
        Stop::Device => Stop::Device,
        Stop::Memory => Stop::Memory,
    }
}
