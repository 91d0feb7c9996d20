//! Enters folders from statements.
ghost use Rattle.std.specs.Prelude.{Bool};
ghost use Rattle.interp.specs.Bounds.{bounds};
ghost use Rattle.interp.specs.Folders.{folder};
ghost use Rattle.interp.specs.Frames.{Acts};

use crate::block::Block;
use crate::evaluator::Evaluator;
use crate::flow::Flow;
use crate::frame_stack::push_folder;
use crate::frames::{BlockRest, Frame};
use ports::{Outputs, Tree};
use std::rc::Rc;
use std::sync::ledger::Ledger;
use support::faults::Refusal;
use world::Stop;

impl<'a, T: Tree, O: Outputs, L: Ledger> Evaluator<'a, T, O, L> {
    ghost use Rattle.expressions.specs.Contexts.{Fails, HasRoom, Same};

    /// Enters the folder that a text names: its file is run next, and then left for the present place. `left` is how many more folders may
    /// be nested.
    pub fn enter_folder(
        &mut self,
        text: &str,
        left: usize,
        stack: &mut Vec<Frame>,
    ) -> Result<Flow, Stop>
        requires room { HasRoom T.seen O.seen self.old.context }
        ensures same { Same self.old.context self.new.context }
        ensures device { Fails T.seen O.seen self.old.context result self.new.context }
        ensures gives { (few : Bool) → Acts T.seen O.seen (folder (bounds few left) text.now)
            self.old.context stack.old.items result self.new.context stack.new.items }
    {
        let path = self.context.fresh(text)?;
        if left == 0 {
            let line = self.context.line();
            return self.context.refuse(line, Refusal::Limit, "");
        }
        let outer = self.context.place()?;
        let opened = self.context.open(&path)?;
        let code = Rc::new(self.context.alloc, opened)?;
        let file = BlockRest {
            code,
            block: Block::File,
            at: 0,
            left: left - 1,
        };
        push_folder(stack, outer, file)?;
        Ok(Flow::Next)
    }
}
