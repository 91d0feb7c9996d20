//! Implements `message`, `warning`, `error` and `assert`: what the user is shown.
ghost use Rattle.std.specs.Prelude.{◌≡◌, ◌++◌, IfOk, OnOk, map, option_map, string_bytes, codes};
ghost use Rattle.std.specs.List.{list_all};
ghost use Rattle.values.specs.printing.Parts.{piece_bytes};
ghost use Rattle.values.specs.printing.Pieces.{whole};
ghost use Rattle.values.specs.printing.Printed.{is_printable, text_of_value};
ghost use Rattle.world.specs.Prelude.{Does, MayFail, arguments_data, data_of};
ghost use Rattle.world.specs.Deed.{say};
ghost use Rattle.language_calls.specs.Messages.{assert, error, line_of, logged_line, message, need_printable, warning};
ghost use Rattle.language_calls.specs.Saying.{behind_spaces, say_each};

use arguments::Arguments;
use itoa::Buffer;
use ports::{Outputs, Tree};
use std::alloc::{AllocError, Global};
use support::faults::Refusal;
use values::Value;
use values::printing::{Piece, Printer, is_printable};
use world::{Caller, Stop};

// Returns whether all of these values can be printed.
fn are_printable(values: &[Value]) -> bool
    ensures { result ≡ list_all (λ v. is_printable (data_of v)) values.now }
{
    values.iter().all(|value| is_printable(value))
}

// Refuses the call if one of these values cannot be printed (E9).
fn need_printable<T: Tree, O: Outputs>(
    caller: &Caller<'_, T, O>,
    values: &[Value],
) -> Result<(), Stop>
    ensures { Does T.seen O.seen (λ u. u) (need_printable (map data_of values.now)) caller.now result caller.now }
{
    caller.need(
        are_printable(values),
        Refusal::Arguments,
        "arguments: one can't be printed",
    )
}

// Returns the text of a piece. The digits of an integer are written to the buffer.
fn text_of<'b>(piece: Piece<'b>, buffer: &'b mut Buffer) -> &'b str
    ensures { result.now ≡ piece_bytes piece.entry }
{
    match piece {
        Piece::Text(text) => text,
        Piece::Integer(integer) => buffer.format(integer),
    }
}

// Writes a piece of a printed value to the log.
fn say_piece<T: Tree, O: Outputs>(
    caller: &mut Caller<'_, T, O>,
    piece: Piece<'_>,
) -> Result<(), Stop>
    requires { MayFail T.seen O.seen caller.old }
    ensures { Does T.seen O.seen (λ u. u) (say (piece_bytes piece.entry)) caller.old result caller.new }
{
    let mut buffer = Buffer::new();
    caller.say(text_of(piece, &mut buffer))
}

// Writes a printed value to the log, piece by piece: the whole may be longer than a text can be.
fn say_value<T: Tree, O: Outputs>(caller: &mut Caller<'_, T, O>, value: &Value) -> Result<(), Stop>
    requires { MayFail T.seen O.seen caller.old }
    ensures { Does T.seen O.seen (λ u. u) (say (text_of_value (data_of value.now))) caller.old result caller.new }
{
    let mut printer = Printer::new(caller.alloc, value)?;
    while let Some(piece) = printer.next()? {
        say_piece(caller, piece)?;
    }
    Ok(())
}

// Writes values to the log, with a space before each.
fn say_others<T: Tree, O: Outputs>(
    caller: &mut Caller<'_, T, O>,
    values: &[Value],
) -> Result<(), Stop>
    requires { MayFail T.seen O.seen caller.old }
    ensures { Does T.seen O.seen (λ u. u) (say_each (behind_spaces (map data_of values.now))) caller.old result caller.new }
{
    for value in values {
        caller.say(" ")?;
        say_value(caller, value)?;
    }
    Ok(())
}

// Writes values to the log, with a space between each two.
fn say_values<T: Tree, O: Outputs>(
    caller: &mut Caller<'_, T, O>,
    values: &[Value],
) -> Result<(), Stop>
    requires { MayFail T.seen O.seen caller.old }
    ensures { Does T.seen O.seen (λ u. u) (say (line_of (map data_of values.now))) caller.old result caller.new }
{
    let Some((first, others)) = values.split_first() else {
        return Ok(());
    };
    say_value(caller, first)?;
    say_others(caller, others)
}

// Writes a line that begins with `start` to the log.
fn say_line<T: Tree, O: Outputs>(
    caller: &mut Caller<'_, T, O>,
    start: &str,
    values: &[Value],
) -> Result<(), Stop>
    requires { MayFail T.seen O.seen caller.old }
    ensures { Does T.seen O.seen (λ u. u) (say (start.now ++ (line_of (map data_of values.now) ++ codes "\n")))
        caller.old result caller.new }
{
    caller.say(start)?;
    say_values(caller, values)?;
    caller.say("\n")
}

// Writes a line that begins with `start` to the log, unless an argument cannot be printed.
fn log_line<T: Tree, O: Outputs>(
    caller: &mut Caller<'_, T, O>,
    start: &str,
    arguments: &Arguments,
) -> Result<Option<Value>, Stop>
    requires { MayFail T.seen O.seen caller.old }
    ensures { Does T.seen O.seen (option_map data_of) (logged_line start.now (arguments_data arguments.now)) caller.old result caller.new }
{
    need_printable(caller, &arguments.positional)?;
    say_line(caller, start, &arguments.positional)?;
    Ok(None)
}

// Appends a piece of a printed value to a text.
fn put_piece(text: &mut String, piece: Piece<'_>) -> Result<(), AllocError>
    ensures { OnOk result (string_bytes text.new ≡ string_bytes text.old ++ piece_bytes piece.entry) }
{
    let mut buffer = Buffer::new();
    text.push_str(text_of(piece, &mut buffer))?;
    Ok(())
}

// Appends a printed value to a text, however long it becomes.
fn put_value(alloc: Global, text: &mut String, value: &Value) -> Result<(), AllocError>
    ensures { OnOk result (string_bytes text.new ≡ string_bytes text.old ++ text_of_value (data_of value.now)) }
{
    let mut printer = Printer::new(alloc, value)?;
    while let Some(piece) = printer.next()? {
        put_piece(text, piece)?;
    }
    Ok(())
}

// Appends values to a text, with a space before each.
fn put_others(alloc: Global, text: &mut String, values: &[Value]) -> Result<(), AllocError>
    ensures { OnOk result (string_bytes text.new ≡ string_bytes text.old ++ whole (behind_spaces (map data_of values.now))) }
{
    for value in values {
        text.push_str(" ")?;
        put_value(alloc, text, value)?;
    }
    Ok(())
}

// Returns printed values with a space between each two, however long the result is.
fn line_of(alloc: Global, values: &[Value]) -> Result<String, AllocError>
    ensures { IfOk result (λ line. string_bytes line ≡ line_of (map data_of values.now)) }
{
    let mut line = String::new(alloc);
    let Some((first, others)) = values.split_first() else {
        return Ok(line);
    };
    put_value(alloc, &mut line, first)?;
    put_others(alloc, &mut line, others)?;
    Ok(line)
}

/// Runs `message(values..)`.
pub fn message<T: Tree, O: Outputs>(
    caller: &mut Caller<'_, T, O>,
    arguments: &Arguments,
) -> Result<Option<Value>, Stop>
    requires { MayFail T.seen O.seen caller.old }
    ensures { Does T.seen O.seen (option_map data_of) (message (arguments_data arguments.now)) caller.old result caller.new }
{
    log_line(caller, "Message: ", arguments)
}

/// Runs `warning(values..)`.
pub fn warning<T: Tree, O: Outputs>(
    caller: &mut Caller<'_, T, O>,
    arguments: &Arguments,
) -> Result<Option<Value>, Stop>
    requires { MayFail T.seen O.seen caller.old }
    ensures { Does T.seen O.seen (option_map data_of) (warning (arguments_data arguments.now)) caller.old result caller.new }
{
    log_line(caller, "WARNING: ", arguments)
}

/// Runs `error(values..)`, which ends the run with E18 and the printed values.
pub fn error<T: Tree, O: Outputs>(
    caller: &Caller<'_, T, O>,
    arguments: &Arguments,
) -> Result<Option<Value>, Stop>
    ensures { Does T.seen O.seen (option_map data_of) (error (arguments_data arguments.now)) caller.now result caller.now }
{
    need_printable(caller, &arguments.positional)?;
    let text = line_of(caller.alloc, &arguments.positional)?;
    caller.refuse(Refusal::Message, text.as_str())
}

/// Runs `assert(condition, text)`, which ends the run with E18 if the condition is false.
pub fn assert<T: Tree, O: Outputs>(
    caller: &Caller<'_, T, O>,
    arguments: &Arguments,
) -> Result<Option<Value>, Stop>
    ensures { Does T.seen O.seen (option_map data_of) (assert (arguments_data arguments.now)) caller.now result caller.now }
{
    let is_so = arguments.flag_at(0, true);
    caller.need(is_so, Refusal::Message, arguments.text_or(1, "assert"))?;
    Ok(None)
}
