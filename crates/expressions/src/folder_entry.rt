//! Enters folders and reads their definition files, for `subdir` of the page "Reference manual".
ghost use Rattle.std.specs.Prelude.{◌≡◌, ℕ, List, IfOk, Some, false, length, string_bytes, bytes_eq};
ghost use Rattle.std.specs.List.{list_any};
ghost use Rattle.std.specs.Str.{is_utf8};
ghost use Rattle.arguments.specs.Rules.{breach_message};
ghost use Rattle.syntax.specs.Parsed.{parsed_file};
ghost use Rattle.syntax.specs.Tree.{file_of, statements};
ghost use Rattle.ports.specs.Tree.{file_at};
ghost use Rattle.world.specs.Prelude.{Files, Holds, Refuses, failures_after};
ghost use Rattle.world.specs.Costs.{definition_file};
ghost use Rattle.world.specs.Plan.{deed, give};
ghost use Rattle.expressions.specs.Codes.{file_by};
ghost use Rattle.world.specs.DefinitionFiles.{statements_of_bytes, spelled_by, tree_or_fault};
ghost use Rattle.expressions.specs.Folders.{fresh, fresh_by, statements_of_folder, opened_by};

use crate::context::Context;
use arguments::Rule;
use code::Code;
use ports::{Outputs, Tree};
use std::alloc::AllocError;
use std::str;
use std::sync::ledger::Ledger;
use support::faults::Refusal;
use support::limits::FOLDERS;
use support::paths::{folder_below, path_in};
use syntax::fault::SyntaxError;
use syntax::lexer::keep_room;
use syntax::parse;
use syntax::tree::File;
use world::definition_files::{MOST_BYTES, line_at, read_file, refusal_of};
use world::{Place, Stop};

impl<'a, T: Tree, O: Outputs, L: Ledger> Context<'a, T, O, L> {
    ghost use Rattle.expressions.specs.Contexts.{Answers, Fails, Given, HasRoom, Same, fault_on, stand_of};

    /// Returns the present line.
    pub fn line(&self) -> usize
        ensures { result ≡ self.now.store.now.line }
    {
        self.store.line()
    }

    /// Returns the present place.
    pub fn place(&self) -> Result<Place, AllocError>
        ensures file { IfOk result (λ place. string_bytes place.file ≡ self.now.store.now.file) }
        ensures folder { IfOk result (λ place. string_bytes place.folder ≡ self.now.store.now.folder) }
        ensures line { IfOk result (λ place. place.line ≡ self.now.store.now.line) }
    {
        Ok(Place {
            file: String::from_str(self.alloc, self.store.file())?,
            folder: String::from_str(self.alloc, self.store.folder())?,
            line: self.store.line(),
        })
    }

    /// Returns the folder that a text names below the present one. Refuses with E12 if it names none or one that was entered before, and
    /// with E22 past 4,096 folders.
    pub fn fresh(&self, text: &str) -> Result<String, Stop>
        ensures gives { Answers T.seen O.seen string_bytes (fresh text.now) self.now result self.now }
        ensures new { IfOk result (λ path. list_any (bytes_eq (string_bytes path)) self.now.store.now.entered ≡ false) }
        ensures quiet { (n : ℕ) → failures_after n result ≡ n }
    {
        match folder_below(self.alloc, self.store.folder(), text)? {
            Some(folder) => self.not_entered(text, folder),
            None => self.refuse_folder(Rule::IsBelow, text),
        }
    }

    // Refuses to enter a folder with E12, since the text that names it breaks the rule.
    fn refuse_folder<A>(&self, rule: Rule, text: &str) -> Result<A, Stop>
        ensures { Refuses (fault_on self.now self.now.store.now.line Refusal.Subdir (breach_message rule text.now)) result }
    {
        let detail = rule.tell_breach(self.alloc, text)?;
        self.refuse(self.store.line(), Refusal::Subdir, detail.as_str())
    }

    // Returns the folder that a text names, unless it was entered before or too many were.
    fn not_entered(&self, text: &str, folder: String) -> Result<String, Stop>
        ensures gives { Answers T.seen O.seen string_bytes
            (fresh_by text.now (Some (string_bytes folder)) self.now.store.now.entered) self.now result self.now }
        ensures new { IfOk result (λ path. list_any (bytes_eq (string_bytes path)) self.now.store.now.entered ≡ false) }
        ensures quiet { (n : ℕ) → failures_after n result ≡ n }
    {
        if self.store.is_entered(&folder) {
            return self.refuse_folder(Rule::IsNew, text);
        }
        if self.store.folders_entered() < FOLDERS {
            Ok(folder)
        } else {
            self.refuse(self.store.line(), Refusal::Limit, "")
        }
    }

    /// Enters a folder and returns the code of its definition file. Refuses with E14 if the file is absent, and with E22 or E1 to E4 for
    /// its bytes.
    pub fn open(&mut self, folder: &str) -> Result<Code, Stop>
        requires new { list_any (bytes_eq folder.now) self.old.store.now.entered ≡ false }
        requires room { HasRoom T.seen O.seen self.old }
        ensures same { Same self.old self.new }
        ensures device { Fails T.seen O.seen self.old result self.new }
        ensures known { IfOk result (λ code. code.names ≡ length self.new.store.now.names) }
        ensures gives { Answers T.seen O.seen (file_by self.new.store.now.names) (statements_of_folder folder.now) self.old result
            self.new }
    {
        let file = path_in(self.alloc, folder, "meson.build")?;
        let size = self.tree.size(&file)?;
        self.store.note_look(self.alloc, &file, size.is_some())?;
        let line = self.store.line();
        match size {
            Some(size) => self.enter_folder(folder, file, size),
            None => self.refuse(line, Refusal::FileMissing, &file),
        }
    }

    // Enters a folder whose definition file has this many bytes, and returns the code of the file.
    fn enter_folder(&mut self, folder: &str, file: String, size: u64) -> Result<Code, Stop>
        requires new { list_any (bytes_eq folder.now) self.old.store.now.entered ≡ false }
        requires room { HasRoom T.seen O.seen self.old }
        requires file { string_bytes file ≡ definition_file folder.now }
        ensures same { Same self.old self.new }
        ensures device { Fails T.seen O.seen self.old result self.new }
        ensures known { IfOk result (λ code. code.names ≡ length self.new.store.now.names) }
        ensures gives { (files : Files) (bytes : List ℕ) → Holds (T.seen self.old.tree.now) files
            → file_at files (definition_file folder.now) ≡ Some bytes → size ≡ length bytes
            → Given (file_by self.new.store.now.names) files (opened_by folder.now (Some bytes)) (stand_of T.seen O.seen self.old)
            result (stand_of T.seen O.seen self.new) }
    {
        self.store.enter(folder)?;
        let folder = String::from_str(self.alloc, folder)?;
        self.store.go(Place {
            file,
            folder,
            line: 1,
        });
        self.read(size)
    }

    // Returns the code of the present definition file, which has this many bytes.
    fn read(&mut self, size: u64) -> Result<Code, Stop>
        requires room { HasRoom T.seen O.seen self.old }
        ensures same { Same self.old self.new }
        ensures device { Fails T.seen O.seen self.old result self.new }
        ensures known { IfOk result (λ code. code.names ≡ length self.new.store.now.names) }
        ensures gives { (files : Files) (bytes : List ℕ) → Holds (T.seen self.old.tree.now) files
            → file_at files self.old.store.now.file ≡ Some bytes → size ≡ length bytes
            → Given (file_by self.new.store.now.names) files (deed (statements_of_bytes bytes)) (stand_of T.seen O.seen self.old)
            result (stand_of T.seen O.seen self.new) }
    {
        let line = self.store.line();
        if size > MOST_BYTES {
            return self.refuse(line, Refusal::Limit, "");
        }
        keep_room(self.alloc, size as usize);
        let bytes = read_file(self.alloc, self.tree, self.store.file(), size as usize)?;
        self.code_of(&bytes)
    }

    // Returns the code of the present definition file, from its bytes.
    fn code_of(&mut self, bytes: &[u8]) -> Result<Code, Stop>
        ensures same { Same self.old self.new }
        ensures device { Fails T.seen O.seen self.old result self.new }
        ensures known { IfOk result (λ code. code.names ≡ length self.new.store.now.names) }
        ensures gives { Answers T.seen O.seen (file_by self.new.store.now.names) (deed (spelled_by (is_utf8 bytes.now) bytes.now))
            self.old result self.new }
    {
        match str::from_utf8(bytes) {
            Ok(text) => self.code_of_text(text),
            Err(error) => {
                let line = line_at(bytes, error.valid_up_to());
                self.refuse(line, Refusal::NotUtf8, "")
            }
        }
    }

    // Returns the code of a parsed file.
    fn flatten(&mut self, file: &File<'_>) -> Result<Code, Stop>
        ensures same { Same self.old self.new }
        ensures device { Fails T.seen O.seen self.old result self.new }
        ensures known { IfOk result (λ code. code.names ≡ length self.new.store.now.names) }
        ensures gives { Answers T.seen O.seen (file_by self.new.store.now.names) (give (statements (file_of file.now)))
            self.old result self.new }
    {
        let code = self.store.flatten(self.alloc, file)?;
        Ok(code)
    }

    // Returns the code of the present definition file, from its text.
    fn code_of_text(&mut self, text: &str) -> Result<Code, Stop>
        ensures same { Same self.old self.new }
        ensures device { Fails T.seen O.seen self.old result self.new }
        ensures known { IfOk result (λ code. code.names ≡ length self.new.store.now.names) }
        ensures gives { Answers T.seen O.seen (file_by self.new.store.now.names) (deed (tree_or_fault (parsed_file text.now)))
            self.old result self.new }
    {
        match parse(self.alloc, text) {
            Ok(file) => self.flatten(&file),
            Err(SyntaxError::Memory) => Err(Stop::Memory),
            Err(SyntaxError::Fault(fault)) => self.refuse(fault.line, refusal_of(fault.kind), ""),
        }
    }
}
