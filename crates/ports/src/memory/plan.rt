//! Plans short calls and failures of a device in memory, for tests.

ghost use Rattle.std.specs.Prelude.{◌≡◌, ◌<◌, ◌-◌, ◌==◌};
ghost use Rattle.ports.specs.memory.Plan.{device_plan, is_due, is_output_call, is_tree_call, number_after};

/// Names the calls of a tree, to plan which of them fails.
#[derive(Clone, Copy, Debug, PartialEq, Eq)]
pub enum TreeCall {
    Size,
    ReadAt,
    /// Each of these.
    Any,
}

/// Names the calls of outputs, to plan which of them fails.
#[derive(Clone, Copy, Debug, PartialEq, Eq)]
pub enum OutputCall {
    Open,
    Put,
    Close,
    Log,
    Fault,
    /// Each of these.
    Any,
}

// A call takes at most `piece` bytes. The call with this number among the next calls of this kind fails; with 0 no call fails.
#[derive(Drop)]
pub(crate) struct Plan<C> {
    pub(crate) piece: usize,
    kind: C,
    number: u64,
    ghost piece_is_some: { 0 < piece },
}

impl<C: Copy> Plan<C> {
    // Returns the plan with this piece, and with the call, given by kind and number, that fails.
    pub(crate) fn told(any: C, piece: usize, fail: Option<(C, u64)>) -> Self
        requires { 0 < piece }
        ensures { device_plan any piece fail ≡ record { piece = result.piece; kind = result.kind; number = result.number } }
    {
        let (kind, number) = fail.unwrap_or((any, 0));
        Plan::new(piece, kind, number)
    }
}

impl<C> Plan<C> {
    pub(crate) fn new(piece: usize, kind: C, number: u64) -> Self
        requires { 0 < piece }
        ensures piece { result.piece ≡ piece }
        ensures kind { result.kind ≡ kind }
        ensures number { result.number ≡ number }
    {
        Plan {
            piece,
            kind,
            number,
        }
    }

    // Counts one call of the kind, and returns whether it is the one that fails.
    fn count_down(&mut self) -> bool
        ensures fails { result ≡ (self.old.number == 1) }
        ensures number { self.new.number ≡ self.old.number - 1 }
        ensures piece { self.new.piece ≡ self.old.piece }
        ensures kind { self.new.kind ≡ self.old.kind }
    {
        let is_last = self.number == 1;
        self.number = self.number.saturating_sub(1);
        is_last
    }
}

// Counts this call, and returns whether it fails.
pub(crate) fn tree_call_fails(plan: &mut Plan<TreeCall>, call: TreeCall) -> bool
    ensures fails { result ≡ is_due (is_tree_call plan.old.kind call) plan.old.number }
    ensures number { plan.new.number ≡ number_after (is_tree_call plan.old.kind call) plan.old.number }
    ensures piece { plan.new.piece ≡ plan.old.piece }
    ensures kind { plan.new.kind ≡ plan.old.kind }
{
    (plan.kind == TreeCall::Any || plan.kind == call) && plan.count_down()
}

// Counts this call, and returns whether it fails.
pub(crate) fn output_call_fails(plan: &mut Plan<OutputCall>, call: OutputCall) -> bool
    ensures fails { result ≡ is_due (is_output_call plan.old.kind call) plan.old.number }
    ensures number { plan.new.number ≡ number_after (is_output_call plan.old.kind call) plan.old.number }
    ensures piece { plan.new.piece ≡ plan.old.piece }
    ensures kind { plan.new.kind ≡ plan.old.kind }
{
    (plan.kind == OutputCall::Any || plan.kind == call) && plan.count_down()
}
