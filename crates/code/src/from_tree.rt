//! Makes code from the syntax tree of a file.
ghost use Rattle.std.specs.Prelude.{◌≡◌, IfOk, length};
ghost use Rattle.syntax.specs.Tree.{file_of};
ghost use Rattle.code.specs.Draft.{IsFront};
ghost use Rattle.code.specs.Code.{code_tree, KeepsTree};

use crate::code::Code;
use crate::draft::Draft;
use crate::file_draft::FileDraft;
use crate::names::Names;
use std::alloc::{AllocError, Global};
use std::mem;
use syntax::tree::File;

/// Returns the code of a file. Names of variables that the table lacks are appended; names that are present keep their numbers, even if
/// memory runs out. The work is linear in the size of the file.
pub fn flatten(alloc: Global, file: &File<'_>, names: &mut Names) -> Result<Code, AllocError>
    ensures tree { IfOk result (λ code. code_tree names.new code ≡ file_of file.now) }
    ensures count { IfOk result (λ code. code.names ≡ length names.new) }
    ensures names { IsFront names.old names.new }
{
    let table = mem::replace(names, Names::new(alloc));
    let mut made = FileDraft::new(alloc, table);
    let body = made.body(&file.statements);
    let FileDraft { draft, statements } = made;
    let Draft {
        alloc: _,
        names: table,
        nodes,
    } = draft;
    let count = table.len();
    *names = table;
    Ok(Code {
        nodes,
        statements,
        body: body?,
        names: count,
    })
}

/// Proves that code means the same after names are appended to the table.
pub fn names_may_grow(code: &Code)
    ensures { KeepsTree code.now }
{
    let _ = &code.body;
}
