//! Says why an expression has no value.
ghost use Rattle.std.specs.Prelude.{◌≡◌, ℕ};
ghost use Rattle.interp.specs.FolderEntries.{HaltEnds, RuleEnds, failures_halted, failures_inside};

use std::alloc::{AllocError, AllocFailed};
use std::mem;
use std::sync::ledger::Ledger;
use world::{Steps, Stop};

/// Holds a folder that a call of `subdir` enters inside an expression.
#[derive(Drop)]
pub struct FolderEntry {
    /// The text that names it.
    pub text: String,
    /// The line of the call.
    pub line: usize,
    /// How many rules of the expression end after it.
    pub rules: usize,
}

/// Says why an expression has no value.
#[derive(Drop)]
pub enum Halt {
    /// The run stops.
    Stops(Stop),
    /// The expression is left for a folder, and refused after it.
    Enters(Box<FolderEntry>),
}

impl From<Stop> for Halt {
    ghost use Rattle.interp.specs.declared.halt.Halt.TheVariants.{Stops};

    ghost from_gives = { λ stop h. h ≡ Stops stop };

    fn from(stop: Stop) -> Halt {
        Halt::Stops(stop)
    }
}

impl From<AllocError> for Halt {
    ghost use Rattle.interp.specs.declared.halt.Halt.TheVariants.{Stops};
    ghost use Rattle.world.specs.declared.stop.Stop.TheVariants.{Memory};

    ghost from_gives = { λ _ h. h ≡ Stops Memory };

    fn from(_error: AllocError) -> Halt {
        Halt::Stops(Stop::Memory)
    }
}

impl<T: Drop> From<AllocFailed<T>> for Halt {
    ghost use Rattle.interp.specs.declared.halt.Halt.TheVariants.{Stops};
    ghost use Rattle.world.specs.declared.stop.Stop.TheVariants.{Memory};

    ghost from_gives = { λ _ h. h ≡ Stops Memory };

    fn from(_error: AllocFailed<T>) -> Halt {
        Halt::Stops(Stop::Memory)
    }
}

// Returns the halt after a rule ended. A fault ticks. If the expression was left for a folder, the rule ends after the folder.
#[cold]
fn end_halted<L: Ledger>(halt: Halt, steps: &mut Steps<L>) -> Halt
    ensures ends { HaltEnds halt steps.old result steps.new }
    ensures quiet { (n : ℕ) → failures_halted n result ≡ failures_halted n halt }
{
    match halt {
        Halt::Stops(Stop::Refused(fault)) => {
            steps.tick();
            Halt::Stops(Stop::Refused(fault))
        }
        Halt::Stops(Stop::Device) => Halt::Stops(Stop::Device),
        Halt::Stops(Stop::Memory) => Halt::Stops(Stop::Memory),
        Halt::Enters(mut entry) => {
            if entry.rules == usize::MAX {
                return Halt::Stops(Stop::Memory);
            }
            entry.rules += 1;
            Halt::Enters(entry)
        }
    }
}

/// Ticks if the rule of a node has ended, with a value or with a fault. If its expression was left for a folder, the rule ends after the
/// folder. The answer is changed in place.
pub fn end_rule_inside<A, L: Ledger>(answer: &mut Result<A, Halt>, steps: &mut Steps<L>)
    ensures ends { RuleEnds answer.old steps.old answer.new steps.new }
    ensures quiet { (n : ℕ) → failures_inside n answer.new ≡ failures_inside n answer.old }
{
    match answer {
        Ok(_) => steps.tick(),
        Err(halt) => {
            let old = mem::replace(halt, Halt::Stops(Stop::Memory));
            *halt = end_halted(old, steps);
        }
    }
}
