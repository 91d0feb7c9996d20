//! Checks the arguments of a call by its row.
ghost use Rattle.arguments.specs.Arguments.{arguments_data};
ghost use Rattle.arguments.specs.RowView.{row_data};
ghost use Rattle.world.specs.Answering.{IsPassed};
ghost use Rattle.world.specs.Fit.{fit};
ghost use Rattle.world.specs.Store.{world_of};

use crate::caller::Caller;
use crate::stop::Stop;
use arguments::{ArgumentError, Arguments, Row, check};
use ports::{Outputs, Tree};

impl<'a, T: Tree, O: Outputs> Caller<'a, T, O> {
    ghost use Rattle.world.specs.Caller.{Does};

    /// Returns what the arguments say, or stops with their refusal and its detail.
    pub fn pass<A>(&self, answer: Result<A, ArgumentError>) -> Result<A, Stop>
        ensures { IsPassed (world_of self.now.store.now) answer result }
    {
        match answer {
            Ok(said) => Ok(said),
            Err(refused) => self.refuse(refused.refusal, refused.detail.as_str()),
        }
    }

    /// Refuses a call whose arguments do not fit its row, and reports what does not fit.
    pub fn fit(&self, row: &Row, arguments: &Arguments) -> Result<(), Stop>
        ensures { Does T.seen O.seen (λ u. u) (fit (row_data row.now) (arguments_data arguments.now)) self.now result self.now }
    {
        let answer = check(self.alloc, row, arguments)?;
        self.pass(answer)
    }
}
