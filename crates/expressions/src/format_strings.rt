//! Evaluates f-strings, by the page "Syntax" of the Meson manual.
ghost use Rattle.std.specs.Prelude.{◌≡◌, ◌++◌, ℕ, List, IfOk, [], map};
ghost use Rattle.code.specs.FormatStrings.{part_data};
ghost use Rattle.values.specs.Data.{text};
ghost use Rattle.world.specs.Prelude.{Answers as AnswersSo, data_of, failures_after, within, within_bytes};
ghost use Rattle.expressions.specs.Filling.{Puts};
ghost use Rattle.expressions.specs.Forms.{filled_format_string};

use crate::context::Context;
use code::Part;
use ports::{Outputs, Tree};
use std::alloc::{AllocError, Global};
use std::sync::ledger::Ledger;
use support::faults::Refusal;
use values::printing::{Digits, plain_text};
use values::{Text, Value};
use world::Stop;

// Appends a piece to a text, which may already be too long.
fn put(
    alloc: Global,
    made: &mut Result<Text, values::OperationRefusal>,
    piece: &str,
) -> Result<(), AllocError>
    ensures { (before : List ℕ) → made.old ≡ within_bytes before → IfOk result (λ _. made.new ≡ within_bytes (before ++ piece.now)) }
{
    let put = match made {
        Ok(text) => text.push(alloc, piece)?,
        Err(_) => return Ok(()),
    };
    if let Err(refusal) = put {
        *made = Err(refusal);
    }
    Ok(())
}

// Appends a printed value, and returns whether the value may be in an f-string.
fn put_plain(
    alloc: Global,
    made: &mut Result<Text, values::OperationRefusal>,
    value: &Value,
) -> Result<bool, AllocError>
    ensures { (before : List ℕ) → made.old ≡ within_bytes before
        → IfOk result (λ done. Puts (data_of value.now) before made.new done) }
{
    let mut digits = Digits::new();
    match plain_text(value, &mut digits) {
        Some(piece) => {
            put(alloc, made, piece)?;
            Ok(true)
        }
        None => Ok(false),
    }
}

// Appends a printed value, which is dropped, and returns whether it may be in an f-string.
fn put_value(
    alloc: Global,
    made: &mut Result<Text, values::OperationRefusal>,
    value: Value,
) -> Result<bool, AllocError>
    ensures { (before : List ℕ) → made.old ≡ within_bytes before → IfOk result (λ done. Puts (data_of value) before made.new done) }
{
    put_plain(alloc, made, &value)
}

// Returns the value of a text, and the refusal if it is too long.
fn text_value(
    made: Result<Text, values::OperationRefusal>,
) -> Result<Value, values::OperationRefusal>
    ensures { (whole : List ℕ) → made ≡ within_bytes whole → AnswersSo (within (text whole)) result }
{
    match made {
        Ok(text) => Ok(Value::Text(text)),
        Err(refusal) => Err(refusal),
    }
}

impl<'a, T: Tree, O: Outputs, L: Ledger> Context<'a, T, O, L> {
    ghost use Rattle.expressions.specs.Contexts.{Answers};

    /// Returns the value of an f-string with these parts: each placeholder becomes the printed value of its variable.
    pub fn fill(&self, line: usize, parts: &[Part]) -> Result<Value, Stop>
        ensures gives { Answers T.seen O.seen data_of (filled_format_string line [] (map part_data parts.now)) self.now result self.now }
        ensures quiet { (n : ℕ) → failures_after n result ≡ n }
    {
        let mut made = Ok(Text::empty());
        for part in parts {
            match part {
                Part::Text(text) => put(self.alloc, &mut made, text)?,
                Part::Place { name, number } => {
                    let value = self.variable_at(line, *number, name)?;
                    if !put_value(self.alloc, &mut made, value)? {
                        return self.refuse(line, Refusal::Type, "");
                    }
                }
            }
        }
        self.answer(line, text_value(made))
    }
}
