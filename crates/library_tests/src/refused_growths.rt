//! Runs in which memory is refused. A test can't refuse memory by itself: `rt try --test --fail-alloc N` has the N-th allocation fail.
use crate::failing_runs::{Ran, WHOLE};
use crate::rows::{ROWS, Row};
use meson::Status;
use std::alloc::{AllocError, Global};
use std::test::Fail;

impl Row {
    // Whether one run ended as the row says. The other one did too, or it ran out of memory: in the run, or before it for its devices.
    fn are_right(&self, whole: &Result<Ran, AllocError>, other: &Result<Ran, AllocError>) -> bool {
        let Ok(whole) = whole else {
            return false;
        };
        let is_right = match other {
            Ok(other) => other.is_same(whole) || other.is_cut(whole, Status::Memory, 0),
            Err(AllocError) => true,
        };
        is_right && whole.status == self.status
    }

    // Returns whether two runs of the row go right, of which at most one meets a refused allocation.
    fn goes_right(&self, alloc: Global) -> bool {
        let first = self.run(alloc, WHOLE);
        let second = self.run(alloc, WHOLE);
        self.are_right(&first, &second) || self.are_right(&second, &first)
    }
}

#[test]
fn a_refused_growth_ends_a_run_and_nothing_else_does(rt: HostRuntime) -> Result<(), Fail> {
    for row in ROWS {
        assert!(rt; row.goes_right(rt.alloc()), "{}", row.name);
    }
    Ok(())
}
