//! Writes the output of `configure_file`.
ghost use Rattle.std.specs.Prelude.{◌≡◌, IfOk, OnOk, length, option_map};
ghost use Rattle.support.specs.Faults.{plain_fault};
ghost use Rattle.ports.specs.Outputs.{IsOpen, closing_steps, opening_steps};
ghost use Rattle.ports.specs.Tree.{bytes_at};
ghost use Rattle.world.specs.Answering.{Acts};
ghost use Rattle.world.specs.Prelude.{MayFail, state_of};
ghost use Rattle.world.specs.Gives.{IsRefusal};
ghost use Rattle.world.specs.Making.{filled_output, sent_steps, written_output};
ghost use Rattle.configuration_calls.specs.Written.{StopsSo, filling_in, header_filling, template_filling};

use ports::{Outputs, Tree};
use std::alloc::{AllocError, Global};
use support::faults::{Fault, Refusal};
use template::{ConfigData, LINE_LIMIT, PassStop, header, pass};
use world::{Caller, Stop};

// Opens an output.
fn open<T: Tree, O: Outputs>(caller: &mut Caller<'_, T, O>, path: &str) -> Result<(), Stop>
    requires { MayFail T.seen O.seen caller.old }
    ensures acts { Acts (λ u. u) (λ files. sent_steps (opening_steps path.now))
        (state_of T.seen O.seen caller.old) result (state_of T.seen O.seen caller.new) }
    ensures open { OnOk result (IsOpen (state_of T.seen O.seen caller.new).out) }
{
    caller.out.open(path)?;
    Ok(())
}

// Closes the open output.
fn close<T: Tree, O: Outputs>(caller: &mut Caller<'_, T, O>) -> Result<(), Stop>
    requires { IsOpen (state_of T.seen O.seen caller.old).out }
    ensures { Acts (λ u. u) (λ files. sent_steps closing_steps)
        (state_of T.seen O.seen caller.old) result (state_of T.seen O.seen caller.new) }
{
    caller.out.close()?;
    Ok(())
}

// Fills the open output without a template.
fn fill_header<T: Tree, O: Outputs>(
    caller: &mut Caller<'_, T, O>,
    values: &ConfigData,
) -> Result<(), Stop>
    requires { IsOpen (state_of T.seen O.seen caller.old).out }
    ensures acts { Acts (λ u. u) (λ files. filled_output (header_filling values.now.entries))
        (state_of T.seen O.seen caller.old) result (state_of T.seen O.seen caller.new) }
    ensures open { OnOk result (IsOpen (state_of T.seen O.seen caller.new).out) }
{
    header(values, caller.out)?;
    Ok(())
}

// Returns the stop for a line of a template that is refused.
fn refuse_line(alloc: Global, path: &str, line: u64, refusal: Refusal) -> Stop
    ensures { IsRefusal result (plain_fault path.now line refusal) }
{
    match Fault::plain(alloc, path, line as usize, refusal) {
        Ok(fault) => Stop::Refused(fault),
        Err(_) => Stop::Memory,
    }
}

// Returns the stop of a call whose template was given up.
fn stop_for(alloc: Global, path: &str, stop: PassStop) -> Stop
    ensures { StopsSo path.now stop result }
{
    match stop {
        PassStop::Template(line) => refuse_line(alloc, path, line, Refusal::Template),
        PassStop::Limit(line) => refuse_line(alloc, path, line, Refusal::Limit),
        PassStop::Device => Stop::Device,
    }
}

// Fills the open output with the template at a path.
fn fill_template<T: Tree, O: Outputs>(
    caller: &mut Caller<'_, T, O>,
    values: &ConfigData,
    template: &str,
    line: &mut [u8],
) -> Result<(), Stop>
    requires room { MayFail T.seen O.seen caller.old }
    requires open { IsOpen (state_of T.seen O.seen caller.old).out }
    requires line { length line.old ≡ LINE_LIMIT }
    ensures acts { Acts (λ u. u) (λ files. filled_output (template_filling values.now.entries template.now (bytes_at files template.now)))
        (state_of T.seen O.seen caller.old) result (state_of T.seen O.seen caller.new) }
    ensures open { OnOk result (IsOpen (state_of T.seen O.seen caller.new).out) }
{
    match pass(caller.tree, template, values, line, caller.out) {
        Ok(()) => Ok(()),
        Err(stop) => Err(stop_for(caller.alloc, template, stop)),
    }
}

// Writes an output without a template.
fn write_header<T: Tree, O: Outputs>(
    caller: &mut Caller<'_, T, O>,
    path: &str,
    values: &ConfigData,
) -> Result<(), Stop>
    requires { MayFail T.seen O.seen caller.old }
    ensures { Acts (λ u. u) (λ files. written_output path.now (header_filling values.now.entries))
        (state_of T.seen O.seen caller.old) result (state_of T.seen O.seen caller.new) }
{
    open(caller, path)?;
    fill_header(caller, values)?;
    close(caller)
}

// Returns the buffer for one line of a template.
fn empty_line(alloc: Global) -> Result<Vec<u8>, AllocError>
    ensures { IfOk result (λ line. length line.items ≡ LINE_LIMIT) }
{
    vec![in alloc; 0u8; LINE_LIMIT]
}

// Writes an output with a template. The output is not opened if the line buffer cannot be allocated.
fn write_template<T: Tree, O: Outputs>(
    caller: &mut Caller<'_, T, O>,
    path: &str,
    values: &ConfigData,
    template: &str,
) -> Result<(), Stop>
    requires { MayFail T.seen O.seen caller.old }
    ensures { Acts (λ u. u)
        (λ files. written_output path.now (template_filling values.now.entries template.now (bytes_at files template.now)))
        (state_of T.seen O.seen caller.old) result (state_of T.seen O.seen caller.new) }
{
    let mut line = empty_line(caller.alloc)?;
    open(caller, path)?;
    fill_template(caller, values, template, &mut line)?;
    close(caller)
}

/// Writes an output, with a template or without one.
pub fn write_output<T: Tree, O: Outputs>(
    caller: &mut Caller<'_, T, O>,
    path: &str,
    values: &ConfigData,
    template: Option<&str>,
) -> Result<(), Stop>
    requires { MayFail T.seen O.seen caller.old }
    ensures { Acts (λ u. u)
        (λ files. written_output path.now (filling_in values.now.entries (option_map (λ t. t.now) template.entry) files))
        (state_of T.seen O.seen caller.old) result (state_of T.seen O.seen caller.new) }
{
    match template {
        Some(template) => write_template(caller, path, values, template),
        None => write_header(caller, path, values),
    }
}
