//! Reads statements.

ghost use Rattle.std.specs.Prelude.{◌≡◌, ◌<◌, ◌≤◌, length, map, OnOk, true};
ghost use Rattle.std.specs.Option.{option_map};
ghost use Rattle.syntax.specs.lexer.Lexeme.{lexemes};
ghost use Rattle.syntax.specs.ExpressionTree.{expression_of};
ghost use Rattle.syntax.specs.Reading.{Gives, begins, ended_at, optional_at};
ghost use Rattle.syntax.specs.ReadingExpressions.{expr_at};
ghost use Rattle.syntax.specs.ReadingStatements.{GivesLine, alternatives_at, begins_block, body_at, branch_at, conditional_at};
ghost use Rattle.syntax.specs.ReadingStatements.{ends_line, foreach_at, in_body, leave_at, leave_tree, leave_word, maybe_at, names_at};
ghost use Rattle.syntax.specs.ReadingStatements.{otherwise_at, parts_at, plain_at, second_at, set_at, set_tree, sign_of, simple_at};
ghost use Rattle.syntax.specs.ReadingStatements.{stmt_at};
ghost use Rattle.syntax.specs.Tree.{branch_of, statement_of};

use super::{Parser, Read, allocate, fit, put};
use crate::lexer::token::{Token, TokenKind};
use crate::stop::{ParseStop, ReadError};
use crate::tree::{Branch, Expression, Statement};

// Returns the statement that sets a name, or that adds to its value.
fn set<'a>(name: Token<'a>, adds: bool, value: Box<Expression<'a>>) -> Statement<'a>
    ensures { statement_of result ≡ set_tree adds name.entry.text.now name.entry.line (expression_of value.entry.value) }
{
    if adds {
        Statement::Append {
            name: name.text,
            line: name.line,
            value,
        }
    } else {
        Statement::Assign {
            name: name.text,
            line: name.line,
            value,
        }
    }
}

// Returns the `break` or `continue` of a `foreach`.
fn leaving<'a>(ends: bool, line: usize) -> Statement<'a>
    ensures { statement_of result ≡ leave_tree ends line }
{
    if ends {
        Statement::Break { line }
    } else {
        Statement::Continue { line }
    }
}

impl<'a> Parser<'_, 'a> {
    // Returns whether a block is next.
    fn begins_block(&self) -> bool
        ensures { result ≡ begins_block (lexemes self.now.rest.now) }
    {
        match self.rest {
            [token, ..] => token.is(TokenKind::Foreach) || token.is(TokenKind::If),
            [] => false,
        }
    }

    // Returns whether a body continues.
    fn in_body(&self) -> bool
        ensures { result ≡ in_body (lexemes self.now.rest.now) }
    {
        match self.rest {
            [token, ..] => {
                !(token.is(TokenKind::EndForeach)
                    || token.is(TokenKind::EndIf)
                    || token.is(TokenKind::Elif)
                    || token.is(TokenKind::Else))
            }
            [] => false,
        }
    }

    // Returns whether this line has no more tokens.
    fn ends_line(&self) -> bool
        ensures { result ≡ ends_line (lexemes self.now.rest.now) }
    {
        match self.rest {
            [token, ..] => token.is(TokenKind::Newline),
            [] => true,
        }
    }

    // Reads a name, `=` or `+=`, and a value.
    #[tactic(auto, unfolding(crate::specs::ReadingStatements::set_at))]
    fn assign(&mut self, adds: bool, levels: u32) -> Read<Statement<'a>>
        ensures read { Gives statement_of result (lexemes self.new.rest.now)
            (set_at (sign_of adds) (set_tree adds) (expr_at levels) (lexemes self.old.rest.now)) }
        ensures shorter { OnOk result (length self.new.rest.now < length self.old.rest.now) }
    {
        let name = self.take(TokenKind::Name)?;
        self.take(if adds {
            TokenKind::PlusAssign
        } else {
            TokenKind::Assign
        })?;
        let value = self.expression(levels);
        let value = allocate(self.alloc, value)?;
        Ok(set(name, adds, value))
    }

    // Reads an expression as a statement.
    #[tactic(auto, unfolding(crate::specs::ReadingStatements::plain_at))]
    fn plain(&mut self, levels: u32) -> Read<Statement<'a>>
        ensures read { Gives statement_of result (lexemes self.new.rest.now)
            (plain_at (expr_at levels) (lexemes self.old.rest.now)) }
        ensures shorter { OnOk result (length self.new.rest.now < length self.old.rest.now) }
    {
        let line = self.first_line();
        let value = self.expression(levels)?;
        Ok(Statement::Expression { value, line })
    }

    // Reads a `break` or a `continue`, which must be inside a `foreach`.
    #[tactic(auto, using(crate::proofs::StatementTails::leave_cases))]
    fn leave(&mut self, ends: bool, inside: bool) -> Read<Statement<'a>>
        ensures read { Gives statement_of result (lexemes self.new.rest.now)
            (leave_at (leave_word ends) (leave_tree ends) inside (lexemes self.old.rest.now)) }
        ensures shorter { OnOk result (length self.new.rest.now < length self.old.rest.now) }
    {
        if inside {
            let word = self.take(if ends {
                TokenKind::Break
            } else {
                TokenKind::Continue
            })?;
            Ok(leaving(ends, word.line))
        } else {
            Err(self.unexpected())
        }
    }

    // Reads a statement of one line.
    #[tactic(auto, using(crate::proofs::StatementTails::simple_cases))]
    fn simple(&mut self, inside: bool, levels: u32) -> Read<Statement<'a>>
        ensures read { Gives statement_of result (lexemes self.new.rest.now) (simple_at inside levels (lexemes self.old.rest.now)) }
        ensures shorter { OnOk result (length self.new.rest.now < length self.old.rest.now) }
    {
        if self.begins(TokenKind::Break) {
            self.leave(true, inside)
        } else if self.begins(TokenKind::Continue) {
            self.leave(false, inside)
        } else if self.two_begin(TokenKind::Name, TokenKind::Assign) {
            self.assign(false, levels)
        } else if self.two_begin(TokenKind::Name, TokenKind::PlusAssign) {
            self.assign(true, levels)
        } else {
            self.plain(levels)
        }
    }

    // Reads a statement in which `levels` more levels may be opened. `inside` says whether it is inside a `foreach`.
    #[cycle(statement)]
    #[tactic(auto, using(crate::proofs::StatementTails::statement_cases))]
    fn statement(&mut self, inside: bool, levels: u32) -> Read<Statement<'a>>
        ensures read { Gives statement_of result (lexemes self.new.rest.now) (stmt_at inside levels (lexemes self.old.rest.now)) }
        ensures shorter { OnOk result (length self.new.rest.now < length self.old.rest.now) }
    {
        if !self.begins_block() {
            self.simple(inside, levels)
        } else if levels == 0 {
            Err(ReadError::Stop(ParseStop::TooDeep(self.rest.len())))
        } else if self.begins(TokenKind::Foreach) {
            self.foreach(levels - 1)
        } else {
            self.conditional(inside, levels - 1)
        }
    }

    // Reads a comma and a name.
    #[tactic(auto, unfolding(crate::specs::ReadingStatements::second_at))]
    fn comma_name(&mut self) -> Read<&'a str>
        ensures read { Gives (λ name. name.now) result (lexemes self.new.rest.now) (second_at (lexemes self.old.rest.now)) }
        ensures shorter { OnOk result (length self.new.rest.now < length self.old.rest.now) }
    {
        self.take(TokenKind::Comma)?;
        let name = self.take(TokenKind::Name)?;
        Ok(name.text)
    }

    // Reads the second name of a `foreach`, if there is one.
    #[tactic(auto, using(crate::proofs::StatementTails::optional_cases))]
    fn second(&mut self) -> Read<Option<&'a str>>
        ensures read { Gives (option_map (λ name. name.now)) result (lexemes self.new.rest.now)
            (optional_at (begins TokenKind.Comma) second_at (lexemes self.old.rest.now)) }
        ensures shorter { OnOk result (length self.new.rest.now ≤ length self.old.rest.now) }
    {
        if self.begins(TokenKind::Comma) {
            Ok(Some(self.comma_name()?))
        } else {
            Ok(None)
        }
    }

    // Reads the names of a `foreach`, up to the colon.
    #[tactic(auto, unfolding(crate::specs::ReadingStatements::names_at))]
    fn names(&mut self) -> Read<(&'a str, Option<&'a str>)>
        ensures read { Gives (λ p. (p.0.now, option_map (λ name. name.now) p.1)) result (lexemes self.new.rest.now)
            (names_at (lexemes self.old.rest.now)) }
        ensures shorter { OnOk result (length self.new.rest.now < length self.old.rest.now) }
    {
        let first = self.take(TokenKind::Name)?;
        let second = self.second()?;
        self.take(TokenKind::Colon)?;
        Ok((first.text, second))
    }

    // Reads the list of a `foreach` and its statements, up to `endforeach`.
    #[cycle(statement)]
    #[tactic(auto, unfolding(crate::specs::Reading::ended_at))]
    fn round(&mut self, levels: u32) -> Read<Box<Branch<'a>>>
        ensures read { Gives (λ b. branch_of b.value) result (lexemes self.new.rest.now)
            (ended_at TokenKind.EndForeach (branch_at (expr_at levels) (stmt_at true levels)) (lexemes self.old.rest.now)) }
        ensures shorter { OnOk result (length self.new.rest.now < length self.old.rest.now) }
    {
        let round = self.branch(true, levels);
        let round = allocate(self.alloc, round)?;
        self.close(TokenKind::EndForeach, round)
    }

    // Reads a `foreach`, up to its `endforeach`.
    #[cycle(statement)]
    #[tactic(auto, unfolding(crate::specs::ReadingStatements::foreach_at, crate::specs::Reading::ended_at))]
    fn foreach(&mut self, levels: u32) -> Read<Statement<'a>>
        ensures read { Gives statement_of result (lexemes self.new.rest.now)
            (foreach_at (expr_at levels) (stmt_at true levels) (lexemes self.old.rest.now)) }
        ensures shorter { OnOk result (length self.new.rest.now < length self.old.rest.now) }
    {
        let word = self.take(TokenKind::Foreach)?;
        let (first, second) = self.names()?;
        let round = self.round(levels)?;
        Ok(Statement::Foreach {
            line: word.line,
            first,
            second,
            round,
        })
    }

    // Reads the branches of an `if` and the statements after `else`, up to `endif`.
    #[cycle(statement)]
    #[tactic(auto, unfolding(crate::specs::ReadingStatements::alternatives_at))]
    fn alternatives(
        &mut self,
        inside: bool,
        levels: u32,
    ) -> Read<(Vec<Branch<'a>>, Vec<Statement<'a>>)>
        ensures read { Gives (λ p. (map branch_of p.0.items, map statement_of p.1.items)) result (lexemes self.new.rest.now)
            (alternatives_at (expr_at levels) (stmt_at inside levels) (lexemes self.old.rest.now)) }
        ensures shorter { OnOk result (length self.new.rest.now < length self.old.rest.now) }
    {
        let branches = self.parts(inside, levels)?;
        let otherwise = self.otherwise(inside, levels)?;
        self.close(TokenKind::EndIf, (branches, otherwise))
    }

    // Reads an `if`, up to its `endif`.
    #[cycle(statement)]
    #[tactic(auto, unfolding(crate::specs::ReadingStatements::conditional_at, crate::specs::ReadingStatements::alternatives_at))]
    fn conditional(&mut self, inside: bool, levels: u32) -> Read<Statement<'a>>
        ensures read { Gives statement_of result (lexemes self.new.rest.now)
            (conditional_at (expr_at levels) (stmt_at inside levels) (lexemes self.old.rest.now)) }
        ensures shorter { OnOk result (length self.new.rest.now < length self.old.rest.now) }
    {
        let word = self.take(TokenKind::If)?;
        let (branches, otherwise) = self.alternatives(inside, levels)?;
        Ok(Statement::If {
            line: word.line,
            branches,
            otherwise,
        })
    }

    // Reads a condition, or the list of a `foreach`, and the statements after it.
    #[cycle(statement)]
    #[tactic(auto, unfolding(crate::specs::ReadingStatements::branch_at, crate::specs::Reading::ended_at, crate::specs::ReadingExpressions::expr_at))]
    fn branch(&mut self, inside: bool, levels: u32) -> Read<Branch<'a>>
        ensures read { Gives branch_of result (lexemes self.new.rest.now)
            (branch_at (expr_at levels) (stmt_at inside levels) (lexemes self.old.rest.now)) }
        ensures shorter { OnOk result (length self.new.rest.now < length self.old.rest.now) }
    {
        let line = self.first_line();
        let condition = self.ended(TokenKind::Newline, levels, true)?;
        let body = self.body(inside, levels)?;
        Ok(Branch {
            condition,
            line,
            body,
        })
    }

    // Reads the branches of an `if` that have a condition.
    #[cycle(statement)]
    fn parts(&mut self, inside: bool, levels: u32) -> Read<Vec<Branch<'a>>>
        ensures read { Gives (λ v. map branch_of v.items) result (lexemes self.new.rest.now)
            (parts_at (expr_at levels) (stmt_at inside levels) (lexemes self.old.rest.now)) }
        ensures shorter { OnOk result (length self.new.rest.now < length self.old.rest.now) }
    {
        let mut parts = Vec::new(self.alloc);
        let first = self.branch(inside, levels);
        put(&mut parts, first)?;
        while self.begins(TokenKind::Elif) {
            self.take(TokenKind::Elif)?;
            let other = self.branch(inside, levels);
            put(&mut parts, other)?;
        }
        Ok(fit(parts))
    }

    // Reads the statements after `else`, or nothing.
    #[cycle(statement)]
    #[tactic(auto, using(crate::proofs::StatementTails::otherwise_cases), unfolding(crate::specs::ReadingStatements::last_part_at))]
    fn otherwise(&mut self, inside: bool, levels: u32) -> Read<Vec<Statement<'a>>>
        ensures read { Gives (λ v. map statement_of v.items) result (lexemes self.new.rest.now)
            (otherwise_at (stmt_at inside levels) (lexemes self.old.rest.now)) }
        ensures shorter { OnOk result (length self.new.rest.now ≤ length self.old.rest.now) }
    {
        if !self.begins(TokenKind::Else) {
            return Ok(Vec::new(self.alloc));
        }
        self.take(TokenKind::Else)?;
        self.take(TokenKind::Newline)?;
        self.body(inside, levels)
    }

    // Reads the statements up to the next branch or the end of a block.
    #[cycle(statement)]
    fn body(&mut self, inside: bool, levels: u32) -> Read<Vec<Statement<'a>>>
        ensures read { Gives (λ v. map statement_of v.items) result (lexemes self.new.rest.now)
            (body_at (stmt_at inside levels) (lexemes self.old.rest.now)) }
        ensures shorter { OnOk result (length self.new.rest.now ≤ length self.old.rest.now) }
    {
        let mut statements = Vec::new(self.alloc);
        while self.in_body() {
            self.line(inside, levels, &mut statements)?;
            self.take(TokenKind::Newline)?;
        }
        Ok(fit(statements))
    }

    // Appends the statement of a line, if the line has one.
    #[cycle(statement)]
    #[tactic(auto, using(crate::proofs::StatementTails::line_cases))]
    pub(super) fn line(
        &mut self,
        inside: bool,
        levels: u32,
        statements: &mut Vec<Statement<'a>>,
    ) -> Read<()>
        ensures read { GivesLine (map statement_of statements.old.items) (map statement_of statements.new.items) result
            (lexemes self.new.rest.now) (maybe_at (stmt_at inside levels) (lexemes self.old.rest.now)) }
        ensures shorter { OnOk result (length self.new.rest.now ≤ length self.old.rest.now) }
    {
        if self.ends_line() {
            return Ok(());
        }
        let statement = self.statement(inside, levels);
        put(statements, statement)
    }
}
