//! Defines what the code of a function works on: the world of a run and its devices.
ghost use Rattle.std.specs.Prelude.{◌≡◌, string_bytes};
ghost use Rattle.world.specs.Answering.{IsAnswered, IsFitting, Refuses};
ghost use Rattle.machine_file.specs.Questions.{Key, answer_to, question_about};
ghost use Rattle.machine_file.specs.QuestionsView.{question_in};
ghost use Rattle.world.specs.Deed.{consult, need, required_file, say, there};
ghost use Rattle.world.specs.Store.{world_of};
ghost use Rattle.world.specs.World.{fault_here};

mod argument_check;
mod call_place;
mod configuration;
mod declarations;
mod rule_checks;
mod settling;

use crate::operation::of_operation;
use crate::stop::Stop;
use crate::store::Store;
pub use call_place::Here;
use machine_file::{Question, Topic};
use ports::{Outputs, Tree, log_all};
use std::alloc::Global;
use support::faults::Refusal;

/// Holds the context of a call: the world of the run and the devices.
#[derive(Drop)]
pub struct Caller<'a, T, O> {
    pub alloc: Global,
    pub store: &'a mut Store,
    pub tree: &'a mut T,
    pub out: &'a mut O,
}

impl<'a, T: Tree, O: Outputs> Caller<'a, T, O> {
    ghost use Rattle.world.specs.Caller.{Does, MayFail};

    /// Refuses the call at the present line, with a name, path or text as detail.
    pub fn refuse<A>(&self, refusal: Refusal, detail: &str) -> Result<A, Stop>
        ensures { Refuses (fault_here (world_of self.now.store.now) refusal detail.now) result }
    {
        self.store
            .refuse(self.alloc, self.store.line(), refusal, detail)
    }

    /// Returns the value of an operation on values, or stops with its refusal.
    pub fn answer<A>(&self, answer: Result<A, values::OperationRefusal>) -> Result<A, Stop>
        ensures { IsAnswered (world_of self.now.store.now) answer result }
    {
        match answer {
            Ok(value) => Ok(value),
            Err(refusal) => self.refuse(of_operation(refusal), ""),
        }
    }

    /// Returns the value of a check of arguments, or stops with its refusal.
    pub fn fitting<A>(&self, answer: Result<A, Refusal>) -> Result<A, Stop>
        ensures { IsFitting (world_of self.now.store.now) answer result }
    {
        match answer {
            Ok(value) => Ok(value),
            Err(refusal) => self.refuse(refusal, ""),
        }
    }

    /// Refuses the call unless `is_so` is true.
    pub fn need(&self, is_so: bool, refusal: Refusal, detail: &str) -> Result<(), Stop>
        ensures { Does T.seen O.seen (λ u. u) (need is_so refusal detail.now) self.now result self.now }
    {
        if is_so {
            Ok(())
        } else {
            self.refuse(refusal, detail)
        }
    }

    /// Returns whether a file is at this path, which counts as looked at.
    pub fn is_there(&mut self, path: &str) -> Result<bool, Stop>
        requires { MayFail T.seen O.seen self.old }
        ensures { Does T.seen O.seen (λ b. b) (there path.now) self.old result self.new }
    {
        let size = self.tree.size(path)?;
        let found = size.is_some();
        self.store.note_look(self.alloc, path, found)?;
        Ok(found)
    }

    /// Refuses the call unless a file is at this path (E14).
    pub fn require_file(&mut self, path: &str) -> Result<(), Stop>
        requires { MayFail T.seen O.seen self.old }
        ensures { Does T.seen O.seen (λ u. u) (required_file path.now) self.old result self.new }
    {
        let path = String::from_str(self.alloc, path)?;
        self.require_own_file(path)
    }

    /// Refuses the call unless a file is at this path, which is passed by value.
    pub fn require_own_file(&mut self, path: String) -> Result<(), Stop>
        requires { MayFail T.seen O.seen self.old }
        ensures { Does T.seen O.seen (λ u. u) (required_file (string_bytes path)) self.old result self.new }
    {
        let size = self.tree.size(&path)?;
        let found = size.is_some();
        if !found {
            self.store.note_look(self.alloc, &path, found)?;
            return self.refuse(Refusal::FileMissing, &path);
        }
        self.store.note_own_look(path, found)?;
        Ok(())
    }

    /// Asks a question of the machine file. The answer is then in `store.machine()`.
    pub fn ask(&mut self, question: Question) -> Result<(), Stop>
        ensures deed { Does T.seen O.seen (λ u. answer_to self.old.store.now.machine (question_in question).topic)
            (consult (question_in question)) self.old result self.new }
        ensures machine { self.new.store.now.machine ≡ self.old.store.now.machine }
    {
        self.store.ask(self.alloc, question)?;
        Ok(())
    }

    /// Asks the machine file for the value of a key of a section, as a question without further facts.
    pub fn ask_key(&mut self, section: &str, key: &str) -> Result<(), Stop>
        ensures deed { Does T.seen O.seen (λ u. answer_to self.old.store.now.machine (Key section.now key.now))
            (consult (question_about (Key section.now key.now))) self.old result self.new }
        ensures machine { self.new.store.now.machine ≡ self.old.store.now.machine }
    {
        let topic = Topic::key(self.alloc, section, key)?;
        self.ask(Question::about(self.alloc, topic))
    }

    /// Writes text to the log.
    pub fn say(&mut self, text: &str) -> Result<(), Stop>
        requires { MayFail T.seen O.seen self.old }
        ensures { Does T.seen O.seen (λ u. u) (say text.now) self.old result self.new }
    {
        log_all(self.out, text.as_bytes())?;
        Ok(())
    }
}
