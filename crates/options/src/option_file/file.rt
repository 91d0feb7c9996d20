//! Reads an option file, statement by statement.

ghost use Rattle.std.specs.Prelude.{◌≡◌, IfOk};
ghost use Rattle.syntax.specs.ExpressionTree.{argument_trees, expression_of};
ghost use Rattle.syntax.specs.Tree.{file_of, statement_of};
ghost use Rattle.options.specs.option_file.Declares.{line_of, function_declares, expression_declares, statement_declares, after};
ghost use Rattle.options.specs.option_file.Declares.{declares_in, file_declares};
ghost use Rattle.options.specs.option_file.View.{call_in, after_in, options_in, declared_in, declared_or_fault_in};

use crate::option_file::call::call_declares;
use crate::option_file::declaration::{Declaration, Declared};
use crate::option_file::fault::DeclareFault;
use crate::option_file::statement_problem::{StatementError, StatementProblem};
use std::alloc::{AllocError, Global};
use support::faults::Fault;
use syntax::tree::{Argument, Expression, File, Statement};

fn line_of(statement: &Statement<'_>) -> usize
    ensures { result ≡ line_of (statement_of statement.now) }
{
    match statement {
        Statement::Assign { line, .. } => *line,
        Statement::Append { line, .. } => *line,
        Statement::Expression { line, .. } => *line,
        Statement::Break { line } => *line,
        Statement::Continue { line } => *line,
        Statement::If { line, .. } => *line,
        Statement::Foreach { line, .. } => *line,
    }
}

// Returns the option that a call of this function declares on this line.
fn function_declares(
    alloc: Global,
    line: usize,
    name: &str,
    arguments: &[Argument<'_>],
) -> Result<Result<(String, Declaration), StatementError>, AllocError>
    ensures { IfOk result (λ option. call_in option ≡ function_declares line name.now (argument_trees arguments.now)) }
{
    if name == "option" {
        call_declares(alloc, line, arguments)
    } else {
        Ok(Err(StatementProblem::NoCall.refuse(alloc)?))
    }
}

fn expression_declares(
    alloc: Global,
    line: usize,
    expression: &Expression<'_>,
) -> Result<Result<(String, Declaration), StatementError>, AllocError>
    ensures { IfOk result (λ option. call_in option ≡ expression_declares line (expression_of expression.now)) }
{
    match expression {
        Expression::Call {
            name,
            arguments,
            ..
        } => function_declares(alloc, line, name, arguments),
        _ => Ok(Err(StatementProblem::NoCall.refuse(alloc)?)),
    }
}

// Returns the option that a statement declares. The statement must be a call of `option`.
fn statement_declares(
    alloc: Global,
    statement: &Statement<'_>,
) -> Result<Result<(String, Declaration), StatementError>, AllocError>
    ensures { IfOk result (λ option. call_in option ≡ statement_declares (statement_of statement.now)) }
{
    match statement {
        Statement::Expression { value, line } => expression_declares(alloc, *line, value),
        _ => Ok(Err(StatementProblem::NoCall.refuse(alloc)?)),
    }
}

// Adds the option that a statement declares. Its name must be new.
#[tactic(auto, unfolding(crate::specs::option_file::Declares::after))]
fn after(
    alloc: Global,
    declared: Declared,
    statement: &Statement<'_>,
) -> Result<Result<Declared, StatementError>, AllocError>
    ensures { IfOk result (λ more. after_in more ≡ after (options_in declared) (statement_of statement.now)) }
{
    let (name, declaration) = match statement_declares(alloc, statement)? {
        Ok(option) => option,
        Err(refused) => return Ok(Err(refused)),
    };
    if declared.has(name.as_str()) {
        let refused = StatementProblem::Again(name.as_str()).refuse(alloc)?;
        return Ok(Err(refused));
    }
    let more = declared.with(name, declaration)?;
    Ok(Ok(more))
}

// Returns what the statements of a file declare, or the first fault, at the line of its statement.
fn file_declares(
    alloc: Global,
    file: &File<'_>,
) -> Result<Result<Declared, DeclareFault>, AllocError>
    ensures { IfOk result (λ answer. declared_in answer ≡ file_declares (file_of file.now)) }
{
    let mut declared = Declared::empty(alloc);
    for statement in &file.statements {
        match after(alloc, declared, statement)? {
            Ok(more) => declared = more,
            Err(refused) => {
                let line = line_of(statement);
                let StatementError { refusal, detail } = refused;
                return Ok(Err(DeclareFault {
                    refusal,
                    line,
                    detail,
                }));
            }
        }
    }
    Ok(Ok(declared))
}

/// Returns what an option file declares, in the order of its statements, or its first fault, at the line of its statement. `path` is the
/// path of the file, which the fault names.
///
/// Each statement must be a call of `option`, as the Meson manual's page "Build options" describes it. The fault is E15 if a statement
/// declares no option, and E23 if it has a keyword that is left out.
pub fn declare(
    alloc: Global,
    file: &File<'_>,
    path: &str,
) -> Result<Result<Declared, Fault>, AllocError>
    ensures { IfOk result (λ answer. declared_or_fault_in answer ≡ declares_in path.now (file_of file.now)) }
{
    match file_declares(alloc, file)? {
        Ok(declared) => Ok(Ok(declared)),
        Err(fault) => Ok(Err(fault.tell_in(alloc, path)?)),
    }
}
