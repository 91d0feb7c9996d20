//! Holds the work that is still to be done, on a stack of frames.
ghost use Rattle.std.specs.Prelude.{◌≤◌, IsTrue, length, nat_lt};
ghost use Rattle.code.specs.Statements.{second_within};
ghost use Rattle.expressions.specs.Rounds.{rounds_in};
ghost use Rattle.world.specs.Prelude.{data_of};

use crate::block::Block;
use arguments::Arguments;
use code::Code;
use std::rc::Rc;
use values::Value;
use values::language_names::Function;
use world::Place;

/// Holds the statements of a block from an index on.
#[derive(Drop)]
pub struct BlockRest {
    pub code: Rc<Code>,
    pub block: Block,
    pub at: usize,
    /// How many more folders may be nested.
    pub left: usize,
}

/// Holds the head of a loop: its line, its variables by their numbers, and its statements.
#[derive(Clone, Copy)]
pub struct LoopHead {
    pub line: usize,
    pub first: usize,
    pub second: Option<usize>,
    pub body: Block,
}

/// Holds the iterations of a loop over a value, from an index on.
#[derive(Drop)]
pub struct LoopRest {
    pub code: Rc<Code>,
    pub head: LoopHead,
    pub whole: Value,
    pub at: usize,
    /// How many more folders may be nested.
    pub left: usize,
    pub ghost few: { length (rounds_in (data_of whole)) ≤ 65536 },
    pub ghost first: { IsTrue (nat_lt head.first code.value.names) },
    pub ghost second: { IsTrue (second_within code.value.names head.second) },
}

/// Holds a call that is a statement, with its evaluated arguments.
#[derive(Drop)]
pub struct PendingCall {
    pub line: usize,
    pub function: Function,
    pub arguments: Arguments,
}

/// Names the work that follows once something has ended.
#[derive(Drop)]
pub enum Frame {
    /// The other statements of a block.
    Block(BlockRest),
    /// The other iterations of a loop.
    Loop(LoopRest),
    /// A function is called, and its value is dropped.
    Call(PendingCall),
    /// A rule ends.
    End,
    /// A file is left for the place before.
    Left(Place),
    /// A call at this line is refused, because it has no value.
    Refuses(usize),
}
