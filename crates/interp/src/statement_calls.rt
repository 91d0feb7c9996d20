//! Runs calls that are statements.
ghost use Rattle.std.specs.Prelude.{◌≡◌, ℕ, Bool, IfOk};
ghost use Rattle.world.specs.Prelude.{arguments_data, failures_after};
ghost use Rattle.interp.specs.Bounds.{bounds};
ghost use Rattle.interp.specs.Folders.{folder};
ghost use Rattle.interp.specs.Frames.{Acts};
ghost use Rattle.interp.specs.StatementCalls.{after_call_view, call_statement, subdir_done_call};
ghost use Rattle.interp.specs.Subdir.{action_of, after_subdir, subdir_call, is_wanted};
ghost use Rattle.interp.specs.declared.statement_calls.Action.TheVariants.{Call};

use crate::evaluator::Evaluator;
use crate::flow::Flow;
use crate::frames::{Frame, PendingCall};
use crate::functions::row;
use arguments::{Arguments, are_found, check, gives_disabler};
use ports::{Outputs, Tree};
use std::alloc::{AllocError, Global};
use std::sync::ledger::Ledger;
use values::language_names::Function;
use world::Stop;

/// Says what a function does as a statement.
#[derive(Clone, Copy)]
pub enum Action {
    /// The function is called, and its value is dropped.
    Call,
    /// The function enters a folder.
    Enter,
    /// The function leaves the file.
    Leave,
}

/// Says how a call of `subdir` continues.
#[derive(Drop)]
pub enum AfterCall {
    /// The statement has ended.
    Ends(Flow),
    /// The run enters the folder that this text names.
    Enters(String),
}

/// Returns what a function does as a statement.
pub fn action_of(function: Function) -> Action
    ensures { result ≡ action_of function }
{
    match function {
        Function::Subdir => Action::Enter,
        Function::SubdirDone => Action::Leave,
        _ => Action::Call,
    }
}

// Returns the folder of a call of `subdir`, if all dependencies of `if_found` are found.
fn after_subdir(alloc: Global, arguments: &Arguments) -> Result<AfterCall, AllocError>
    ensures { IfOk result (λ way. after_call_view way
        ≡ after_subdir (is_wanted (arguments_data arguments.now)) (arguments_data arguments.now)) }
{
    let is_wanted = match arguments.keyword("if_found") {
        Some(value) => are_found(value),
        None => true,
    };
    if is_wanted {
        Ok(AfterCall::Enters(String::from_str(alloc, arguments.text_at(0))?))
    } else {
        Ok(AfterCall::Ends(Flow::Next))
    }
}

impl<'a, T: Tree, O: Outputs, L: Ledger> Evaluator<'a, T, O, L> {
    ghost use Rattle.expressions.specs.Contexts.{Answers, Fails, HasRoom, Same};

    /// Runs `subdir`, up to its folder (Meson reference manual, `subdir`).
    pub fn subdir(&mut self, line: usize, arguments: &Arguments) -> Result<AfterCall, Stop>
        ensures same { Same self.old.context self.new.context }
        ensures device { Fails T.seen O.seen self.old.context result self.new.context }
        ensures gives { Answers T.seen O.seen after_call_view (subdir_call line (arguments_data arguments.now))
            self.old.context result self.new.context }
    {
        if gives_disabler(arguments) {
            return Ok(AfterCall::Ends(Flow::Next));
        }
        let fits = check(self.context.alloc, &row(Function::Subdir), arguments)?;
        self.context.fit(line, fits)?;
        self.context.store.at(line);
        Ok(after_subdir(self.context.alloc, arguments)?)
    }

    // Runs `subdir_done` (Meson reference manual, `subdir_done`).
    fn subdir_done(&self, line: usize, arguments: &Arguments) -> Result<Flow, Stop>
        ensures gives { Answers T.seen O.seen (λ f. f) (subdir_done_call line (arguments_data arguments.now))
            self.now.context result self.now.context }
        ensures quiet { (n : ℕ) → failures_after n result ≡ n }
    {
        if gives_disabler(arguments) {
            return Ok(Flow::Next);
        }
        let fits = check(self.context.alloc, &row(Function::SubdirDone), arguments)?;
        self.context.fit(line, fits)?;
        Ok(Flow::Finished)
    }

    /// Begins a call that is a statement, on evaluated arguments: enters a folder, leaves the file, or puts the call of a function on the
    /// stack. `left` is how many more folders may be nested.
    pub fn begin_call(
        &mut self,
        call: PendingCall,
        left: usize,
        stack: &mut Vec<Frame>,
    ) -> Result<Flow, Stop>
        requires room { HasRoom T.seen O.seen self.old.context }
        ensures same { Same self.old.context self.new.context }
        ensures device { Fails T.seen O.seen self.old.context result self.new.context }
        ensures gives { (few : Bool) → Acts T.seen O.seen
            (call_statement (folder (bounds few left)) call.line call.function (arguments_data call.arguments))
            self.old.context stack.old.items result self.new.context stack.new.items }
    {
        match action_of(call.function) {
            Action::Enter => {
                let after = self.subdir(call.line, &call.arguments)?;
                match after {
                    AfterCall::Ends(flow) => Ok(flow),
                    AfterCall::Enters(text) => self.enter_folder(&text, left, stack),
                }
            }
            Action::Leave => self.subdir_done(call.line, &call.arguments),
            Action::Call => {
                stack.push(Frame::Call(call))?;
                Ok(Flow::Next)
            }
        }
    }
}
