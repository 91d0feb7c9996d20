//! Reads the file that tokens spell, one token at a time.

ghost use Rattle.std.specs.Prelude.{◌≡◌, ℕ, ◌+◌, ◌++◌, ◌-◌, ◌<◌, ◌≤◌, length, map, OnOk, [], ◌∷◌, IfOk, MatchResult, ◌⊎◌};
ghost use Rattle.syntax.specs.lexer.Lexeme.{lexeme_of, lexemes};
ghost use Rattle.syntax.specs.lexer.Answers.{Answers};
ghost use Rattle.syntax.specs.Parsed.{FrontsAreShorter, HasFault, Spells, line_of, located_fault, parsed_file};
ghost use Rattle.syntax.specs.Reading.{Gives, GivesAll, GoesOn, all_of, begins, first_of, tokens_left, token_at};
ghost use Rattle.syntax.specs.ReadingStatements.{file_at};
ghost use Rattle.syntax.specs.Tree.{FileTree, file_of, statement_of};

mod atom;
mod expression;
mod postfix;
mod statement;

use crate::lexer::fault::{FaultKind, SyntaxError, SyntaxFault};
use crate::lexer::token::{Token, TokenKind};
use crate::lexer::{newlines, tokens};
use crate::stop::{ParseStop, ReadError};
use crate::tree::{File, Statement};
use std::alloc::Global;

/// States how many levels may be open at once: brackets, blocks and prefix operators, one inside another.
pub const LEVELS: u32 = 64;

// Holds what was read, or why reading stopped.
type Read<T> = Result<T, ReadError>;

// Holds the tokens that are still to be read, and the allocator of the tree.
#[derive(Drop)]
struct Parser<'t, 'a> {
    alloc: Global,
    rest: &'t [Token<'a>],
}

// Appends what was read.
fn put<T: Drop>(items: &mut Vec<T>, read: Read<T>) -> Read<()>
    ensures { GoesOn (λ item _. items.new.items ≡ items.old.items ++ item ∷ []) read result }
{
    let item = read?;
    items.push(item)?;
    Ok(())
}

// Moves what was read to the heap.
fn allocate<T: Drop>(alloc: Global, read: Read<T>) -> Read<Box<T>>
    ensures { GoesOn (λ value b. b.value ≡ value) read result }
{
    let value = read?;
    Ok(Box::new(alloc, value)?)
}

// Shrinks the list to its length. A tree lives long, and most of its lists are short.
fn fit<T>(items: Vec<T>) -> Vec<T>
    ensures { result.items ≡ items.items }
{
    let mut items = items;
    items.shrink_to_fit();
    items
}

impl<'t, 'a> Parser<'t, 'a> {
    // Takes the first token, which must be of this kind.
    #[tactic(auto, using(crate::proofs::Tails::token_cases))]
    fn take(&mut self, kind: TokenKind) -> Read<Token<'a>>
        ensures read { Gives lexeme_of result (lexemes self.new.rest.now) (token_at kind (lexemes self.old.rest.now)) }
        ensures shorter { OnOk result (length self.new.rest.now < length self.old.rest.now) }
    {
        match self.rest {
            [token, rest @ ..] if token.is(kind) => {
                self.rest = rest;
                Ok(*token)
            }
            _ => Err(self.unexpected()),
        }
    }

    // Returns the value after taking the token of this kind that closes it.
    #[tactic(auto, using(crate::proofs::Tails::first_taken))]
    fn close<T: Drop>(&mut self, kind: TokenKind, value: T) -> Read<T>
        ensures read { Gives (λ v. first_of (lexemes self.old.rest.now)) result (lexemes self.new.rest.now)
            (token_at kind (lexemes self.old.rest.now)) }
        ensures same { IfOk result (λ v. v ≡ value) }
        ensures shorter { OnOk result (length self.new.rest.now < length self.old.rest.now) }
    {
        self.take(kind)?;
        Ok(value)
    }

    // Returns whether the first token is of this kind.
    fn begins(&self, kind: TokenKind) -> bool
        ensures { result ≡ begins kind (lexemes self.now.rest.now) }
    {
        match self.rest {
            [token, ..] => token.is(kind),
            [] => false,
        }
    }

    // Returns the error of a first token that continues no file.
    fn unexpected(&self) -> ReadError
        ensures { result ≡ ReadError.Stop (ParseStop.Unexpected (length self.now.rest.now)) }
    {
        ReadError::Stop(ParseStop::Unexpected(self.rest.len()))
    }

    // Reads the statements of all lines.
    fn lines(&mut self, levels: u32) -> Read<Vec<Statement<'a>>>
        ensures read { Gives (λ v. map statement_of v.items) result (lexemes self.new.rest.now)
            (file_at levels (lexemes self.old.rest.now)) }
    {
        let mut statements = Vec::new(self.alloc);
        self.line(false, levels, &mut statements)?;
        while self.begins(TokenKind::Newline) {
            self.take(TokenKind::Newline)?;
            self.line(false, levels, &mut statements)?;
        }
        Ok(fit(statements))
    }

    // Reads the file that all tokens spell.
    #[tactic(auto, using(crate::proofs::Tails::all_cases))]
    fn file(&mut self, levels: u32) -> Read<File<'a>>
        ensures { GivesAll file_of result (all_of (file_at levels) (lexemes self.old.rest.now)) }
    {
        let statements = self.lines(levels)?;
        if !self.rest.is_empty() {
            return Err(self.unexpected());
        }
        Ok(File { statements })
    }
}

// Returns the line of the token after which `left` tokens remain, itself counted, or the line of the source's end.
fn line_of(source: &str, tokens: &[Token<'_>], left: usize) -> usize
    requires { left ≤ length tokens.now }
    ensures { result ≡ line_of source.now (lexemes tokens.now) (length tokens.now - left) }
{
    if left > 0 {
        tokens[tokens.len() - left].line
    } else {
        1 + newlines(source.as_bytes())
    }
}

// Returns the fault of a source, with its line.
fn locate(source: &str, tokens: &[Token<'_>], stop: ParseStop) -> SyntaxFault
    requires { tokens_left stop ≤ length tokens.now }
    ensures { result ≡ located_fault source.now (lexemes tokens.now) stop }
{
    match stop {
        ParseStop::Unexpected(left) => SyntaxFault {
            kind: FaultKind::Grammar,
            line: line_of(source, tokens, left),
        },
        ParseStop::TooDeep(left) => SyntaxFault {
            kind: FaultKind::Nesting,
            line: line_of(source, tokens, left),
        },
    }
}

/// Returns the file that a source spells.
///
/// A file is a sequence of lines, each with at most one statement, in the forms of the Meson manual's page "Syntax". The statements are
/// `name = expression`, `name += expression`, an expression, `break` and `continue` inside a `foreach`, `if` with its `elif` and `else`
/// parts up to `endif`, and `foreach` up to `endforeach`. Expressions are names, literals, lists, dictionaries, calls, methods, indexes,
/// operators and ternaries. Comparisons don't chain, the branches of a ternary hold no other ternary, and arguments with a name follow the
/// others.
///
/// Fails at the line of a token, where the end of the source counts as one:
/// - E2 if the source has no tokens;
/// - E3 at the first token that no file continues with;
/// - E4 at the first token that opens level 65, if it comes earlier.
///
/// A bracket and a prefix operator open a level. So does the first word of a block, with its condition or list inside. `elif` and `else`
/// open none.
pub fn parse(alloc: Global, source: &str) -> Result<File<'_>, SyntaxError>
    // Unless memory runs out, the result is this function of the source.
    ensures reads { Answers file_of result (parsed_file source.now) }

    // The tokens of the source spell this file and no other, however many levels may be open.
    ensures spelled { IfOk result (λ f. Spells LEVELS source.now (file_of f)) }
    ensures complete { (f : FileTree) → Spells LEVELS source.now f
        → MatchResult result (λ x. file_of x ≡ f) (λ e. e ≡ SyntaxError.Memory) }
    ensures only { (n : ℕ) (f : FileTree) → Spells n source.now f → IfOk result (λ x. file_of x ≡ f) }

    // Which fault the source has; it has no other, and none where it spells a file.
    ensures refused { (f : SyntaxFault) → result ≡ Err (SyntaxError.Fault f) → HasFault source.now f }
    ensures faulty { (f : SyntaxFault) → HasFault source.now f
        → MatchResult result (λ x. ⊥) (λ e. (e ≡ SyntaxError.Fault f) ⊎ (e ≡ SyntaxError.Memory)) }

    // A fault is the first: no longer front begins a file once a shorter one doesn't.
    ensures fronts { FrontsAreShorter source.now }
{
    let tokens = tokens(alloc, source)?;
    let mut parser = Parser {
        alloc,
        rest: &tokens,
    };
    match parser.file(LEVELS) {
        Ok(file) => Ok(file),
        Err(ReadError::Memory) => Err(SyntaxError::Memory),
        Err(ReadError::Stop(stop)) => Err(SyntaxError::Fault(locate(source, &tokens, stop))),
    }
}
