//! Prints values into texts.

ghost use Rattle.std.specs.Prelude.{◌≡◌, true, false, IfOk, MatchOption, Ok};
ghost use Rattle.values.specs.Prelude.{Appends, data_of};
ghost use Rattle.values.specs.printing.Printed.{is_plain, printed_value, text_of_value};
ghost use Rattle.values.specs.printing.Pieces.{whole};
ghost use Rattle.values.specs.printing.Parts.{piece_bytes};

use crate::printing::pieces::{Piece, Printer};
use crate::printing::printable::is_printable;
use crate::{OperationRefusal, Text, Value};
use itoa::Buffer;
use std::alloc::{AllocError, Global};

/// Returns the text that a value is printed as.
///
/// A text is printed as it is, a boolean as `true` or `false`, an integer in decimal. A list is `[a, b]` and a dictionary `{'k' : v}`;
/// inside these a text is in single quotes, and nothing in it is escaped.
///
/// Returns `OperationRefusal::Arguments` if the value is an object or contains one, and otherwise `OperationRefusal::Limit` if the text is
/// longer than 16,777,216 bytes. No longer text is ever made.
pub fn print(alloc: Global, value: &Value) -> Result<Result<Text, OperationRefusal>, AllocError>
    ensures { IfOk result (λ r. r ≡ printed_value (data_of value.now)) }
{
    if !is_printable(value) {
        return Ok(Err(OperationRefusal::Arguments));
    }
    let mut text = Text::empty();
    match write(alloc, &mut text, value)? {
        Ok(()) => Ok(Ok(text)),
        Err(refusal) => Ok(Err(refusal)),
    }
}

/// Returns the text of a boolean, an integer or a text, and `None` for any other value. The digits of an integer are written to the buffer.
pub fn plain_text<'v>(value: &'v Value, digits: &'v mut Buffer) -> Option<&'v str>
    ensures { MatchOption result (is_plain (data_of value.entry.now) ≡ false)
        (λ t. (is_plain (data_of value.entry.now) ≡ true) × (printed_value (data_of value.entry.now) ≡ Ok t.now)
        × (text_of_value (data_of value.entry.now) ≡ t.now)) }
{
    match value {
        Value::Boolean(true) => Some("true"),
        Value::Boolean(false) => Some("false"),
        Value::Integer(integer) => Some(digits.format(*integer)),
        Value::Text(text) => Some(text.as_str()),
        Value::List(_) | Value::Dictionary(_) | Value::Object(_) => None,
    }
}

/// Appends the printed value to a text, or returns `OperationRefusal::Limit` if the text would be longer than 16,777,216 bytes.
///
/// An object prints as nothing.
pub fn write(
    alloc: Global,
    text: &mut Text,
    value: &Value,
) -> Result<Result<(), OperationRefusal>, AllocError>
    ensures { IfOk result (λ r. Appends text.old (text_of_value (data_of value.now)) text.new r) }
{
    match plain_text(value, &mut Buffer::new()) {
        Some(piece) => text.push(alloc, piece),
        None => write_pieces(alloc, text, value),
    }
}

// Appends the printed value to a text, piece by piece.
fn write_pieces(
    alloc: Global,
    text: &mut Text,
    value: &Value,
) -> Result<Result<(), OperationRefusal>, AllocError>
    ensures { IfOk result (λ r. Appends text.old (text_of_value (data_of value.now)) text.new r) }
{
    let mut printer = Printer::new(alloc, value)?;
    write_left(alloc, text, &mut printer)
}

// Appends all that the printer has left to a text.
fn write_left(
    alloc: Global,
    text: &mut Text,
    printer: &mut Printer<'_>,
) -> Result<Result<(), OperationRefusal>, AllocError>
    ensures { IfOk result (λ r. Appends text.old (whole printer.old) text.new r) }
{
    let _within = text.as_str();
    while let Some(piece) = printer.next()? {
        if let Err(refusal) = push_piece(alloc, text, piece)? {
            return Ok(Err(refusal));
        }
    }
    Ok(Ok(()))
}

fn push_piece(
    alloc: Global,
    text: &mut Text,
    piece: Piece<'_>,
) -> Result<Result<(), OperationRefusal>, AllocError>
    ensures { IfOk result (λ r. Appends text.old (piece_bytes piece.entry) text.new r) }
{
    match piece {
        Piece::Text(piece) => text.push(alloc, piece),
        Piece::Integer(integer) => text.push(alloc, Buffer::new().format(integer)),
    }
}
