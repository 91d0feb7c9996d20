//! Writes the lines of the questions of a run, each once.
ghost use Rattle.std.specs.Prelude.{◌≡◌, ◌∷◌, [], OnOk, string_bytes};
ghost use Rattle.ports.specs.Endings.{HasRoom};
ghost use Rattle.ports.specs.Outputs.{Writes, logs};
ghost use Rattle.backend.specs.BuildFile.{ending_of};
ghost use Rattle.introspection.specs.QuestionsView.{line_in};
ghost use Rattle.machine_file.specs.View.{machine_in};
ghost use Rattle.world.specs.AskedView.{all_asked_in, asked_in};
ghost use Rattle.meson.specs.Labels.{Fits, Knows};
ghost use Rattle.meson.specs.Questions.{lines_asked, questions_text, line_texts};
ghost use Rattle.meson.specs.QuestionLines.{Tells};

use crate::labels::Labels;
use backend::WriteStop;
use introspection::{QuestionLine, beside_text, question_lines};
use machine_file::Machine;
use ports::{Outputs, log_all};
use std::alloc::{AllocError, Global};
use world::Asked;

/// Holds the labels of the lines so far, to find repetitions, and the text of the lines that are not written yet.
#[derive(Drop)]
pub struct Telling {
    pub labels: Labels,
    pub text: String,
}

impl Telling {
    fn new(alloc: Global) -> Telling
        ensures fits { Fits result.labels }
        ensures labels { Knows result.labels [] }
        ensures text { string_bytes result.text ≡ [] }
    {
        Telling {
            labels: Labels::new(alloc),
            text: String::new(alloc),
        }
    }

    // Adds a line, unless one that differs only in its file and line number was added before.
    fn add(
        &mut self,
        alloc: Global,
        line: &QuestionLine<'_>,
        asked: &Asked,
    ) -> Result<(), AllocError>
        requires { Fits self.old.labels }
        ensures fits { OnOk result (Fits self.new.labels) }
        ensures tells { OnOk result (Tells self.old (line_texts (asked_in asked.now) (line_in line.now) ∷ []) self.new) }
    {
        let head = line.head(alloc)?;
        let beside = beside_text(alloc, line.asides)?;
        let is_new = self.labels.add(&head, &beside)?;
        if !is_new {
            return Ok(());
        }
        let text = line.text(alloc, asked.file.as_str(), asked.line)?;
        self.text.push_str(&text)?;
        self.text.push_str("\n")
    }

    // Adds the lines of a question.
    fn add_all(&mut self, alloc: Global, machine: &Machine, asked: &Asked) -> Result<(), AllocError>
        requires { Fits self.old.labels }
        ensures fits { OnOk result (Fits self.new.labels) }
        ensures tells { OnOk result (Tells self.old (lines_asked (machine_in machine.now) (asked_in asked.now)) self.new) }
    {
        let asides = asked.question.shown_asides(alloc)?;
        let lines = question_lines(alloc, machine, &asked.question.topic, &asides)?;
        for line in &lines {
            self.add(alloc, line, asked)?;
        }
        Ok(())
    }
}

/// Writes the lines of these questions to the log, each with a newline and with the answer of this machine file.
///
/// Lines that differ only in file and line number appear once, with the first place. Only the lines of one question are in memory.
pub fn log_questions<O: Outputs>(
    alloc: Global,
    machine: &Machine,
    asked: &[Asked],
    out: &mut O,
) -> Result<(), WriteStop>
    requires { HasRoom (O.seen out.old).failures }
    ensures { Writes (O.seen out.old) (logs (questions_text (machine_in machine.now) (all_asked_in asked.now))) (ending_of result)
        (O.seen out.new) }
{
    let mut telling = Telling::new(alloc);
    for it in asked {
        telling.add_all(alloc, machine, it)?;
        log_all(out, telling.text.as_bytes())?;
        telling.text = String::new(alloc);
    }
    Ok(())
}
