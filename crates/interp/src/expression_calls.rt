//! Runs calls inside expressions, which must have a value.
ghost use Rattle.std.specs.Prelude.{Bool};
ghost use Rattle.arguments.specs.Disablers.{gives_disabler};
ghost use Rattle.world.specs.Prelude.{arguments_data, data_of};
ghost use Rattle.world.specs.Plan.{next};
ghost use Rattle.interp.specs.Bounds.{bounds};
ghost use Rattle.interp.specs.Expressions.{plan_of_call, called_inside, entered_inside};
ghost use Rattle.expressions.specs.Forms.{needed_value};
ghost use Rattle.interp.specs.Frames.{Acts};
ghost use Rattle.interp.specs.FolderEntries.{folder_in_expression};

use crate::evaluator::Evaluator;
use crate::flow::Flow;
use crate::frames::Frame;
use crate::halt::{FolderEntry, Halt};
use crate::statement_calls::{Action, AfterCall, action_of};
use crate::value_calls::call_function;
use arguments::{Arguments, gives_disabler};
use ports::{Outputs, Tree};
use std::sync::ledger::Ledger;
use support::faults::Refusal;
use values::language_names::Function;
use values::{Object, Value};
use world::Stop;

impl<'a, T: Tree, O: Outputs, L: Ledger> Evaluator<'a, T, O, L> {
    ghost use Rattle.expressions.specs.Contexts.{Fails, HasRoom, Same};
    ghost use Rattle.interp.specs.Evaluates.{FailsInside, Tries};

    /// Calls a function inside an expression, on evaluated arguments.
    pub fn call_in_expression(
        &mut self,
        line: usize,
        function: Function,
        arguments: &Arguments,
    ) -> Result<Value, Halt>
        requires room { HasRoom T.seen O.seen self.old.context }
        ensures same { Same self.old.context self.new.context }
        ensures device { FailsInside T.seen O.seen self.old.context result self.new.context }
        ensures gives { Tries T.seen O.seen data_of (λ into. called_inside into line function (arguments_data arguments.now))
            self.old.context result self.new.context }
    {
        match action_of(function) {
            Action::Enter => self.leave_for_folder(line, arguments),
            Action::Leave => self.call_for_value(line, function, arguments),
            Action::Call => self.call_for_value(line, function, arguments),
        }
    }

    // Calls a function that enters no folder.
    fn call_for_value(
        &mut self,
        line: usize,
        function: Function,
        arguments: &Arguments,
    ) -> Result<Value, Halt>
        requires room { HasRoom T.seen O.seen self.old.context }
        ensures same { Same self.old.context self.new.context }
        ensures device { FailsInside T.seen O.seen self.old.context result self.new.context }
        ensures gives { Tries T.seen O.seen data_of
            (λ _. next (plan_of_call line function (arguments_data arguments.now)) (needed_value line))
            self.old.context result self.new.context }
    {
        let answer = call_function(&mut self.context, line, function, arguments)?;
        Ok(self.context.need(line, answer)?)
    }

    // Runs `subdir` inside an expression: its folder is entered, and then the call is refused, because it has no value.
    fn leave_for_folder(&mut self, line: usize, arguments: &Arguments) -> Result<Value, Halt>
        ensures same { Same self.old.context self.new.context }
        ensures device { FailsInside T.seen O.seen self.old.context result self.new.context }
        ensures gives { Tries T.seen O.seen data_of (λ into. entered_inside into (gives_disabler (arguments_data arguments.now)) line
            (arguments_data arguments.now)) self.old.context result self.new.context }
    {
        if gives_disabler(arguments) {
            return Ok(Value::of_object(self.context.alloc, Object::Disabler)?);
        }
        match self.subdir(line, arguments)? {
            AfterCall::Ends(_) => Ok(self.context.refuse(line, Refusal::Type, "")?),
            AfterCall::Enters(text) => {
                let entry = FolderEntry {
                    text,
                    line,
                    rules: 0,
                };
                Err(Halt::Enters(Box::new(self.context.alloc, entry)?))
            }
        }
    }

    /// Enters a folder inside an expression: its file is run, then the call is refused, and the rules of the expression end. `left` is how
    /// many more folders may be nested.
    pub fn enter_from_expression(
        &mut self,
        entry: Box<FolderEntry>,
        left: usize,
        stack: &mut Vec<Frame>,
    ) -> Result<Flow, Stop>
        requires room { HasRoom T.seen O.seen self.old.context }
        ensures same { Same self.old.context self.new.context }
        ensures device { Fails T.seen O.seen self.old.context result self.new.context }
        ensures gives { (few : Bool) → Acts T.seen O.seen (folder_in_expression (bounds few left) entry.value)
            self.old.context stack.old.items result self.new.context stack.new.items }
    {
        let FolderEntry { text, line, rules } = Box::into_inner(entry);
        for _rule in 0..rules {
            stack.push(Frame::End)?;
        }
        stack.push(Frame::Refuses(line))?;
        self.enter_folder(&text, left, stack)
    }
}
