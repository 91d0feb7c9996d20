//! Counts the steps of a run.

ghost use Rattle.std.specs.Prelude.{◌≡◌, ◌+◌, ◌<◌, ℕ};
ghost use Rattle.world.specs.Counts.{EndsKeepUp};
ghost use Rattle.world.specs.Gives.{is_ended};

use crate::stop::Stop;
use std::marker::Model;
use std::sync::ledger::{Blank, Book, Ledger, Share};

/// Counts the steps of a run: one for the rule of each node. The counter takes no bytes, and only `tick` changes it.
#[derive(Drop)]
pub struct Steps<L: Ledger> {
    book: Book<L>,
    share: Share<L>,
}

impl<L: Ledger> Model for Steps<L> {
    ghost Value = { ℕ };

    ghost view = { λ s. s.book.total };

    ghost invariant = { λ s. 0 < s.share.parts };
}

impl<L: Ledger> Steps<L> {
    /// Counts one more step.
    pub fn tick(&mut self)
        ensures { self.new ≡ self.old + 1 }
    {
        self.book.add(&mut self.share, 1);
    }
}

/// Returns a counter at 0, on a new ledger.
pub fn new_steps<L: Ledger>(blank: Blank) -> Steps<L>
    requires name { blank.name ≡ L.name }
    requires parts { blank.parts ≡ L.parts }
    requires some { 0 < blank.parts }
    ensures { result ≡ 0 }
{
    let (book, share) = blank.open();
    Steps { book, share }
}

/// Ticks if the rule of a node has ended, by a value or by a fault, and returns the result unchanged.
pub fn end_rule<T, L: Ledger>(answer: Result<T, Stop>, steps: &mut Steps<L>) -> Result<T, Stop>
    ensures same { result ≡ answer }
    ensures ticks { steps.new ≡ steps.old + is_ended answer }
{
    match answer {
        Ok(value) => {
            steps.tick();
            Ok(value)
        }
        Err(Stop::Refused(fault)) => {
            steps.tick();
            Err(Stop::Refused(fault))
        }
        Err(Stop::Device) => Err(Stop::Device),
        Err(Stop::Memory) => Err(Stop::Memory),
    }
}

/// Proves that a prefix of a run's marks has at least as many ended rules as there are counts below the number of its steps.
pub fn ends_keep_up()
    ensures { EndsKeepUp }
{}
