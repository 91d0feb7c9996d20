//! Reads atoms: names, literals, and expressions in brackets.

ghost use Rattle.std.specs.Prelude.{Bool, IfSome, Ok, Some, ℕ, ◌≡◌, ◌-◌, ◌<◌, ◌≤◌, length, map, OnOk, option_map};
ghost use Rattle.std.specs.Option.{IfNone, OnSome};
ghost use Rattle.syntax.specs.lexer.Lexeme.{lexeme_of, lexemes};
ghost use Rattle.syntax.specs.ExpressionTree.{entry_of, expression_of};
ghost use Rattle.syntax.specs.Expressions.{literal_of};
ghost use Rattle.syntax.specs.Reading.{Gives, head_is, more_at};
ghost use Rattle.syntax.specs.ReadingExpressions.{base_at, call_at, dictionary_at, elements_at, ends_expression, entered_at, entries_at};
ghost use Rattle.syntax.specs.ReadingExpressions.{entry_at, group_at, inner_at, items_at, list_at, single_at, single_of, ternary_at};
ghost use Rattle.syntax.specs.ReadingExpressions.{unary_at};

use super::{Parser, Read, fit, put};
use crate::lexer::token::{Token, TokenKind};
use crate::tree::{Entry, Expression, Literal};

// Returns the literal that a token is.
fn literal_of(kind: TokenKind) -> Option<Literal>
    ensures { result ≡ literal_of kind }
{
    match kind {
        TokenKind::True => Some(Literal::True),
        TokenKind::False => Some(Literal::False),
        TokenKind::Number => Some(Literal::Number),
        TokenKind::String => Some(Literal::String),
        TokenKind::RawString => Some(Literal::RawString),
        TokenKind::FormatString => Some(Literal::FormatString),
        TokenKind::RawFormatString => Some(Literal::RawFormatString),
        _ => None,
    }
}

// Returns the expression of a single token, if it is a name or a literal.
fn single_of<'a>(token: &Token<'a>) -> Option<Expression<'a>>
    ensures { option_map expression_of result ≡ single_of (lexeme_of token.now) }
{
    if token.is(TokenKind::Name) {
        return Some(Expression::Name {
            name: token.text,
            line: token.line,
        });
    }
    let literal = literal_of(token.kind)?;
    Some(Expression::Literal {
        literal,
        text: token.text,
        line: token.line,
    })
}

// Returns whether the next token can't continue an expression.
fn ends_expression(tokens: &[Token<'_>]) -> bool
    ensures { result ≡ head_is ends_expression (lexemes tokens.now) }
{
    let [token, ..] = tokens else {
        return false;
    };
    match token.kind {
        TokenKind::Comma | TokenKind::Colon | TokenKind::Newline => true,
        TokenKind::CloseParenthesis | TokenKind::CloseBracket | TokenKind::CloseBrace => true,
        _ => false,
    }
}

impl<'a> Parser<'_, 'a> {
    // Takes the expression of the first token, if the expression ends after it. Most expressions are like that, so this saves the descent
    // through the grammar.
    #[tactic(auto, using(crate::proofs::Alone::token_alone))]
    pub(super) fn alone(&mut self) -> Option<Expression<'a>>
        ensures read { IfSome result (λ e. (levels : ℕ) (ternaries : Bool)
            → ternary_at (unary_at levels) ternaries (lexemes self.old.rest.now) ≡ Ok (expression_of e, lexemes self.new.rest.now)) }
        ensures shorter { OnSome result (length self.new.rest.now < length self.old.rest.now) }
        ensures same { IfNone result (self.new.rest.now ≡ self.old.rest.now) }
    {
        let [token, rest @ ..] = self.rest else {
            return None;
        };
        if !ends_expression(rest) {
            return None;
        }
        let value = single_of(token)?;
        self.rest = rest;
        Some(value)
    }

    // Reads a name or a literal.
    #[tactic(auto, using(crate::proofs::Alone::single_cases))]
    fn single(&mut self) -> Read<Expression<'a>>
        ensures read { Gives expression_of result (lexemes self.new.rest.now) (single_at (lexemes self.old.rest.now)) }
        ensures shorter { OnOk result (length self.new.rest.now < length self.old.rest.now) }
    {
        let [token, rest @ ..] = self.rest else {
            return Err(self.unexpected());
        };
        let Some(value) = single_of(token) else {
            return Err(self.unexpected());
        };
        self.rest = rest;
        Ok(value)
    }

    // Returns whether another element of a list follows, and takes the comma before it.
    #[tactic(auto, using(crate::proofs::Loops::more_end, crate::proofs::Loops::more_none, crate::proofs::Loops::more_comma))]
    pub(super) fn more(&mut self, close: TokenKind) -> bool
        ensures read { (result, lexemes self.new.rest.now) ≡ more_at close (lexemes self.old.rest.now) }
        ensures within { length self.new.rest.now ≤ length self.old.rest.now }
    {
        match self.rest {
            [comma, rest @ ..] if comma.is(TokenKind::Comma) => {
                self.rest = rest;
                !self.begins(close)
            }
            _ => false,
        }
    }

    // Reads the elements of a list, up to its bracket.
    #[cycle(expression)]
    fn elements(&mut self, levels: u32, ternaries: bool) -> Read<Vec<Expression<'a>>>
        ensures read { Gives (λ v. map expression_of v.items) result (lexemes self.new.rest.now)
            (elements_at (unary_at levels) ternaries (lexemes self.old.rest.now)) }
        ensures shorter { OnOk result (length self.new.rest.now ≤ length self.old.rest.now) }
    {
        let mut items = Vec::new(self.alloc);
        let mut more = !self.begins(TokenKind::CloseBracket);
        while more {
            let item = self.ternary(levels, ternaries);
            put(&mut items, item)?;
            more = self.more(TokenKind::CloseBracket);
        }
        Ok(fit(items))
    }

    // Reads a list.
    #[cycle(expression)]
    #[tactic(auto, unfolding(crate::specs::ReadingExpressions::entered_at, crate::specs::ReadingExpressions::list_at, crate::specs::ReadingExpressions::elements_at))]
    fn list(&mut self, levels: u32, ternaries: bool) -> Read<Expression<'a>>
        ensures read { Gives expression_of result (lexemes self.new.rest.now)
            (entered_at TokenKind.OpenBracket levels (λ e. list_at e ternaries) (lexemes self.old.rest.now)) }
        ensures shorter { OnOk result (length self.new.rest.now < length self.old.rest.now) }
    {
        let (open, inside) = self.enter(TokenKind::OpenBracket, levels)?;
        let items = self.elements(inside, ternaries)?;
        self.take(TokenKind::CloseBracket)?;
        Ok(Expression::List {
            items,
            line: open.line,
        })
    }

    // Reads a key, a colon and a value.
    #[cycle(expression)]
    #[tactic(auto, unfolding(crate::specs::ReadingExpressions::entry_at, crate::specs::Reading::ended_at))]
    fn entry(&mut self, levels: u32, ternaries: bool) -> Read<Entry<'a>>
        ensures read { Gives entry_of result (lexemes self.new.rest.now)
            (entry_at (ternary_at (unary_at levels) ternaries) (lexemes self.old.rest.now)) }
        ensures shorter { OnOk result (length self.new.rest.now < length self.old.rest.now) }
    {
        let key = self.ended(TokenKind::Colon, levels, ternaries)?;
        let value = self.ternary(levels, ternaries)?;
        Ok(Entry { key, value })
    }

    // Reads the entries of a dictionary, up to its brace.
    #[cycle(expression)]
    fn entries(&mut self, levels: u32, ternaries: bool) -> Read<Vec<Entry<'a>>>
        ensures read { Gives (λ v. map entry_of v.items) result (lexemes self.new.rest.now)
            (entries_at (unary_at levels) ternaries (lexemes self.old.rest.now)) }
        ensures shorter { OnOk result (length self.new.rest.now ≤ length self.old.rest.now) }
    {
        let mut entries = Vec::new(self.alloc);
        let mut more = !self.begins(TokenKind::CloseBrace);
        while more {
            let entry = self.entry(levels, ternaries);
            put(&mut entries, entry)?;
            more = self.more(TokenKind::CloseBrace);
        }
        Ok(fit(entries))
    }

    // Reads a dictionary.
    #[cycle(expression)]
    #[tactic(auto, unfolding(crate::specs::ReadingExpressions::entered_at, crate::specs::ReadingExpressions::dictionary_at, crate::specs::ReadingExpressions::entries_at))]
    fn dictionary(&mut self, levels: u32, ternaries: bool) -> Read<Expression<'a>>
        ensures read { Gives expression_of result (lexemes self.new.rest.now)
            (entered_at TokenKind.OpenBrace levels (λ e. dictionary_at e ternaries) (lexemes self.old.rest.now)) }
        ensures shorter { OnOk result (length self.new.rest.now < length self.old.rest.now) }
    {
        let (open, inside) = self.enter(TokenKind::OpenBrace, levels)?;
        let entries = self.entries(inside, ternaries)?;
        self.take(TokenKind::CloseBrace)?;
        Ok(Expression::Dictionary {
            entries,
            line: open.line,
        })
    }

    // Reads a call of a function.
    #[cycle(expression)]
    #[tactic(auto, unfolding(crate::specs::ReadingExpressions::call_at))]
    fn call(&mut self, levels: u32, ternaries: bool) -> Read<Expression<'a>>
        ensures read { Gives expression_of result (lexemes self.new.rest.now)
            (call_at (entered_at TokenKind.OpenParenthesis levels (λ e. items_at e ternaries)) (lexemes self.old.rest.now)) }
        ensures shorter { OnOk result (length self.new.rest.now < length self.old.rest.now) }
    {
        let name = self.take(TokenKind::Name)?;
        let arguments = self.arguments(levels, ternaries)?;
        Ok(Expression::Call {
            line: name.line,
            name: name.text,
            arguments,
        })
    }

    // Reads an expression in parentheses.
    #[cycle(expression)]
    #[tactic(auto, unfolding(crate::specs::ReadingExpressions::entered_at, crate::specs::ReadingExpressions::group_at, crate::specs::Reading::ended_at))]
    fn group(&mut self, levels: u32, ternaries: bool) -> Read<Expression<'a>>
        ensures read { Gives expression_of result (lexemes self.new.rest.now)
            (entered_at TokenKind.OpenParenthesis levels (λ e. group_at e ternaries) (lexemes self.old.rest.now)) }
        ensures shorter { OnOk result (length self.new.rest.now < length self.old.rest.now) }
    {
        let (_, inside) = self.enter(TokenKind::OpenParenthesis, levels)?;
        self.ended(TokenKind::CloseParenthesis, inside, ternaries)
    }

    // Reads a call of a function, or an atom.
    #[cycle(expression)]
    #[tactic(auto, using(crate::proofs::ExpressionTails::base_cases))]
    pub(super) fn base(&mut self, levels: u32, ternaries: bool) -> Read<Expression<'a>>
        ensures read { Gives expression_of result (lexemes self.new.rest.now)
            (base_at (inner_at levels) ternaries (lexemes self.old.rest.now)) }
        ensures shorter { OnOk result (length self.new.rest.now < length self.old.rest.now) }
    {
        if self.two_begin(TokenKind::Name, TokenKind::OpenParenthesis) {
            self.call(levels, ternaries)
        } else if self.begins(TokenKind::OpenParenthesis) {
            self.group(levels, ternaries)
        } else if self.begins(TokenKind::OpenBracket) {
            self.list(levels, ternaries)
        } else if self.begins(TokenKind::OpenBrace) {
            self.dictionary(levels, ternaries)
        } else {
            self.single()
        }
    }
}
