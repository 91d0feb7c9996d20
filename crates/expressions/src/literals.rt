//! Evaluates literals.
ghost use Rattle.std.specs.Prelude.{◌≡◌, false, ℕ, IfOk, Ok};
ghost use Rattle.code.specs.Literals.{is_format, bytes_of_literal};
ghost use Rattle.values.specs.Data.{text};
ghost use Rattle.syntax.specs.lexer.Numerals.{magnitude};
ghost use Rattle.syntax.specs.lexer.Texts.{text_of};
ghost use Rattle.world.specs.Prelude.{Answers as AnswersSo, data_of, failures_after, within};
ghost use Rattle.world.specs.Plan.{answer_at_line};
ghost use Rattle.expressions.specs.Forms.{literal_value, number};

use crate::context::Context;
use code::{FormatString, LiteralNode, LiteralValue};
use ports::{Outputs, Tree};
use std::alloc::{AllocError, Global};
use std::sync::ledger::Ledger;
use syntax::lexer::token::TokenKind;
use syntax::lexer::{magnitude, text_of_slice};
use syntax::tree::Literal;
use values::{Short, Text, Value};
use world::Stop;

// Returns the integer of a number token, and E7 if it is out of range.
fn number(text: &str) -> Result<Value, values::OperationRefusal>
    ensures { AnswersSo (number (magnitude text.now)) result }
{
    let Some(magnitude) = magnitude(text) else {
        return Err(values::OperationRefusal::Range);
    };
    if magnitude < 1 << 127 {
        Ok(Value::Integer(magnitude as i128))
    } else {
        Err(values::OperationRefusal::Range)
    }
}

// Returns the integer of a number that fits in 64 bits.
fn small_integer(n: u64) -> Value
    ensures { number n ≡ Ok (data_of result) }
{
    Value::Integer(n as i128)
}

// Returns the value of a short text.
fn short_text(short: &Short) -> Value
    ensures { within (text short.now) ≡ Ok (data_of result) }
{
    let text = Text::from_short(short);
    let _within = text.as_str();
    Value::Text(text)
}

// Returns the value of a text, whose bytes are shared.
fn share(string: &Text) -> Result<Value, AllocError>
    ensures { IfOk result (λ v. within (text string.now) ≡ Ok (data_of v)) }
{
    let _within = string.as_str();
    Ok(Value::Text(string.clone()?))
}

impl<'a, T: Tree, O: Outputs, L: Ledger> Context<'a, T, O, L> {
    ghost use Rattle.expressions.specs.Contexts.{Answers};

    // Returns the value of a string of this kind.
    fn decode(&self, line: usize, kind: TokenKind, slice: &str) -> Result<Value, Stop>
        ensures gives { Answers T.seen O.seen data_of (answer_at_line line (within (text (text_of kind slice.now)))) self.now result
            self.now }
        ensures quiet { (n : ℕ) → failures_after n result ≡ n }
    {
        let string = text_of_slice(self.alloc, kind, slice)?;
        let answer = Value::of_string(self.alloc, string)?;
        self.answer(line, answer)
    }

    // Returns the value of a literal that is no f-string, given as it is spelled in the source.
    #[inline(never)]
    fn unread(&self, line: usize, literal: Literal, text: &str) -> Result<Value, Stop>
        requires { is_format literal ≡ false }
        ensures gives { Answers T.seen O.seen data_of (literal_value line literal text.now) self.now result self.now }
        ensures quiet { (n : ℕ) → failures_after n result ≡ n }
    {
        match literal {
            Literal::True => Ok(Value::Boolean(true)),
            Literal::False => Ok(Value::Boolean(false)),
            Literal::Number => self.answer(line, number(text)),
            Literal::String => self.decode(line, TokenKind::String, text),
            Literal::RawString => self.decode(line, TokenKind::RawString, text),
            Literal::FormatString | Literal::RawFormatString => unreachable!(),
        }
    }

    /// Returns the value of a literal. Most literals are short strings and small numbers, which are handled first and built in registers. A
    /// function for all kinds would need stack space for each, and a returned result would have to be taken apart.
    pub fn literal(&self, line: usize, node: &LiteralNode) -> Result<Value, Stop>
        ensures gives { Answers T.seen O.seen data_of (literal_value line node.now.literal (bytes_of_literal node.now.source.value))
            self.now result self.now }
        ensures quiet { (n : ℕ) → failures_after n result ≡ n }
    {
        match &node.meaning {
            LiteralValue::Short(text) => Ok(short_text(text)),
            LiteralValue::Integer(n) => Ok(small_integer(*n)),
            _ => Ok(self.any_literal(line, node)?),
        }
    }

    // Returns the value of a literal of any kind.
    #[inline(never)]
    fn any_literal(&self, line: usize, node: &LiteralNode) -> Result<Value, Stop>
        ensures gives { Answers T.seen O.seen data_of (literal_value line node.now.literal (bytes_of_literal node.now.source.value))
            self.now result self.now }
        ensures quiet { (n : ℕ) → failures_after n result ≡ n }
    {
        match &node.meaning {
            LiteralValue::Boolean(value) => Ok(Value::Boolean(*value)),
            LiteralValue::Integer(n) => Ok(small_integer(*n)),
            LiteralValue::Short(text) => Ok(short_text(text)),
            LiteralValue::Text(text) => {
                let text: &Text = text;
                Ok(share(text)?)
            }
            LiteralValue::Format(format) => {
                let format: &FormatString = format;
                self.fill(line, &format.parts)
            }
            LiteralValue::Source(text) => self.unread(line, node.literal, text.as_str()),
        }
    }
}
