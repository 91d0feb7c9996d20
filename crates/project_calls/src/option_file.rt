//! Reads the option file of a project.
ghost use Rattle.syntax.specs.Tree.{file_of};
ghost use Rattle.options.specs.option_file.Declares.{file_declares};
ghost use Rattle.options.specs.option_file.View.{options_in};
ghost use Rattle.world.specs.FindingView.{found_in};
ghost use Rattle.world.specs.Prelude.{Does, MayFail};
ghost use Rattle.project_calls.specs.OptionFile.{declared_at, declared_in, declared_or_fault, option_file, option_file_by};
ghost use Rattle.project_calls.specs.OptionFile.{text_declares};
ghost use Rattle.project_calls.specs.OptionFile.{bytes_declare};
ghost use Rattle.project_calls.specs.OptionFileView.{file_in};

use options::{Declared, declare};
use ports::{Outputs, Tree};
use std::str;
use support::faults::Refusal;
use syntax::fault::SyntaxError;
use syntax::parse;
use syntax::tree::File;
use world::definition_files::{Found, find, line_at, refusal_of};
use world::{Caller, Place, Stop};

/// Holds an option file: its path, and the options that it declares.
#[derive(Drop)]
pub struct OptionFile {
    pub path: &'static str,
    pub declared: Declared,
}

// Returns the options declared by the statements of the present file.
fn collect_in_file<T: Tree, O: Outputs>(
    caller: &mut Caller<'_, T, O>,
    file: &File<'_>,
) -> Result<Declared, Stop>
    ensures { Does T.seen O.seen options_in (declared_or_fault (file_declares (file_of file.now))) caller.old result caller.new }
{
    match declare(caller.alloc, file, caller.store.file())? {
        Ok(declared) => Ok(declared),
        Err(fault) => {
            caller.store.at(fault.line());
            caller.refuse(fault.refusal(), fault.detail())
        }
    }
}

// Returns the options declared by a text of the present file.
fn collect_in_text<T: Tree, O: Outputs>(
    caller: &mut Caller<'_, T, O>,
    text: &str,
) -> Result<Declared, Stop>
    ensures { Does T.seen O.seen options_in (text_declares text.now) caller.old result caller.new }
{
    match parse(caller.alloc, text) {
        Ok(file) => collect_in_file(caller, &file),
        Err(SyntaxError::Memory) => Err(Stop::Memory),
        Err(SyntaxError::Fault(fault)) => {
            caller.store.at(fault.line);
            caller.refuse(refusal_of(fault.kind), "")
        }
    }
}

// Returns the options declared by the bytes of the present file.
fn collect_in_bytes<T: Tree, O: Outputs>(
    caller: &mut Caller<'_, T, O>,
    bytes: &[u8],
) -> Result<Declared, Stop>
    ensures { Does T.seen O.seen options_in (bytes_declare bytes.now) caller.old result caller.new }
{
    match str::from_utf8(bytes) {
        Ok(text) => collect_in_text(caller, text),
        Err(error) => {
            caller.store.at(line_at(bytes, error.valid_up_to()));
            caller.refuse(Refusal::NotUtf8, "")
        }
    }
}

// Returns the options declared by the present file, from what was found there.
fn collect_found<T: Tree, O: Outputs>(
    caller: &mut Caller<'_, T, O>,
    found: &Found,
) -> Result<Declared, Stop>
    ensures { Does T.seen O.seen options_in (declared_in (found_in found.now)) caller.old result caller.new }
{
    match found {
        Found::Nothing => Ok(Declared::empty(caller.alloc)),
        Found::TooLong => caller.refuse(Refusal::Limit, ""),
        Found::Bytes(bytes) => collect_in_bytes(caller, bytes),
    }
}

// Returns the options declared by the file at a path, from what was found there. The present place is restored afterwards.
fn collect_at<T: Tree, O: Outputs>(
    caller: &mut Caller<'_, T, O>,
    path: &'static str,
    found: &Found,
) -> Result<OptionFile, Stop>
    ensures { Does T.seen O.seen file_in (declared_at path.entry.now (found_in found.now)) caller.old result caller.new }
{
    let place = Place {
        file: String::from_str(caller.alloc, path)?,
        folder: String::new(caller.alloc),
        line: 1,
    };
    let outer = caller.store.go(place);
    let declared = collect_found(caller, found)?;
    let _inner = caller.store.go(outer);
    Ok(OptionFile { path, declared })
}

// Returns the option file, by what was found at the new path.
fn option_file_by<T: Tree, O: Outputs>(
    caller: &mut Caller<'_, T, O>,
    found: &Found,
) -> Result<OptionFile, Stop>
    requires { MayFail T.seen O.seen caller.old }
    ensures { Does T.seen O.seen file_in (option_file_by (found_in found.now)) caller.old result caller.new }
{
    match found {
        Found::Nothing => {
            let old = find(caller, "meson_options.txt")?;
            collect_at(caller, "meson_options.txt", &old)
        }
        Found::TooLong => collect_at(caller, "meson.options", found),
        Found::Bytes(_) => collect_at(caller, "meson.options", found),
    }
}

/// Returns the option file: `meson.options`, or if that is absent `meson_options.txt`. Refuses with E22 at its first line, then E1 to E4,
/// E15 and E23.
pub fn option_file<T: Tree, O: Outputs>(caller: &mut Caller<'_, T, O>) -> Result<OptionFile, Stop>
    requires { MayFail T.seen O.seen caller.old }
    ensures { Does T.seen O.seen file_in option_file caller.old result caller.new }
{
    let found = find(caller, "meson.options")?;
    option_file_by(caller, &found)
}
