//! Evaluates definition files.
//!
//! # Decisions
//!
//! **An expression is left for the folder that it enters.** A call of `subdir` inside an expression runs the folder's file and is refused
//! then, because it has no value. The functions of expressions do not call themselves through that file. They end with the folder's name
//! and the number of rules that are still to end. The statement then puts those rules, the refusal and the file on the stack of frames. The
//! definition is plain: it does what the file does, and refuses. The rest of the expression is never evaluated, so nothing else of it has
//! to be kept.
//!
//! **Plain statements are run in place.** A block and the iterations of a loop are run in place, up to the first statement that needs the
//! stack of frames. That is a loop, an expression that is a call, which may enter a folder, or an `if` with other statements in its parts
//! than assignments, `break` and `continue`. Only then are the rest of the block and the other iterations put on the stack. A loop over
//! plain statements puts nothing there.
//!
//! **A call waits on the stack.** A call that is a statement evaluates its arguments first. It is then put on the stack, and from there the
//! function is called. So the work of a function has no frame below it of the statement that called it.
//!
//! **What an evaluation is given.** [`evaluate`] borrows the settings and the bytes of the machine file. Its world keeps settings of its
//! own, so a run copies them once, and callers keep theirs.
#![tactic(auto)]

mod block;
mod block_statements;
mod by_name;
mod evaluation;
mod evaluator;
mod expression_calls;
mod file_run;
mod first_statement;
mod flow;
mod folders;
mod frame_stack;
mod frames;
mod functions;
mod halt;
mod law;
mod loop_rounds;
mod nodes;
mod operation;
mod project_functions;
mod stack_statements;
mod statement_calls;
mod unwinding;
mod value_calls;

pub use by_name::{CallName, call, lookup};
pub use evaluation::{Inputs, definitions, evaluate, read_machine};
pub use evaluator::Evaluator;
pub use law::{
    calls_as_evaluated, closes_what_it_makes, depends_on_looked, loops_are_few, machine_files_say,
    notes_what_it_looks_at, steps_within_cost,
};
