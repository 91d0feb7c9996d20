//! Reads calls, methods, indexes and prefix operators.

ghost use Rattle.std.specs.Prelude.{IfOk, Some, ◌≡◌, ◌||◌, ◌-◌, ◌<◌, ◌≤◌, length, map, OnOk};
ghost use Rattle.std.specs.Option.{option_map};
ghost use Rattle.syntax.specs.lexer.Lexeme.{lexemes};
ghost use Rattle.syntax.specs.ExpressionTree.{argument_of, expression_of, link_of};
ghost use Rattle.syntax.specs.Reading.{Gives, head_is, two_begin};
ghost use Rattle.syntax.specs.ReadingExpressions.{entered_at, given_at, index_at, inner_at, items_at, label_at, link_at, links_at};
ghost use Rattle.syntax.specs.ReadingExpressions.{links_on, method_at, name_colon_at, postfix_at, prefix_of, prefixed_at, ternary_at};
ghost use Rattle.syntax.specs.ReadingExpressions.{unary_at, word_of};

use super::{Parser, Read, allocate, fit, put};
use crate::lexer::token::TokenKind;
use crate::tree::{Argument, Expression, Link, Prefix};

// Returns the token that a prefix operator is.
fn word_of(prefix: Prefix) -> TokenKind
    ensures { result ≡ word_of prefix }
{
    match prefix {
        Prefix::Not => TokenKind::Not,
        Prefix::Negative => TokenKind::Minus,
    }
}

impl<'a> Parser<'_, 'a> {
    // Returns whether a method or an index follows.
    fn links_on(&self) -> bool
        ensures { result ≡ head_is links_on (lexemes self.now.rest.now) }
    {
        match self.rest {
            [token, ..] => token.is(TokenKind::Dot) || token.is(TokenKind::OpenBracket),
            [] => false,
        }
    }

    // Returns whether a name and a colon are next, or have to be.
    fn labels(&self, behind: bool) -> bool
        ensures { result ≡ (behind || two_begin TokenKind.Name TokenKind.Colon (lexemes self.now.rest.now)) }
    {
        behind || self.two_begin(TokenKind::Name, TokenKind::Colon)
    }

    // Reads the name of an argument and its colon, if they are next. They have to be after an argument with a name.
    #[tactic(auto, using(crate::proofs::ExpressionTails::label_cases))]
    fn label(&mut self, behind: bool) -> Read<Option<&'a str>>
        ensures read { Gives (option_map (λ name. name.now)) result (lexemes self.new.rest.now)
            (label_at behind (lexemes self.old.rest.now)) }
        ensures shorter { OnOk result (length self.new.rest.now ≤ length self.old.rest.now) }
    {
        if self.labels(behind) {
            Ok(Some(self.name_colon()?))
        } else {
            Ok(None)
        }
    }

    // Reads a name and a colon.
    #[tactic(auto, unfolding(crate::specs::ReadingExpressions::name_colon_at))]
    fn name_colon(&mut self) -> Read<&'a str>
        ensures read { Gives (λ name. name.now) result (lexemes self.new.rest.now) (name_colon_at (lexemes self.old.rest.now)) }
        ensures shorter { OnOk result (length self.new.rest.now < length self.old.rest.now) }
    {
        let name = self.take(TokenKind::Name)?;
        self.take(TokenKind::Colon)?;
        Ok(name.text)
    }

    // Reads the value of an argument with this name, if it has one.
    #[cycle(expression)]
    fn argument(
        &mut self,
        name: Option<&'a str>,
        levels: u32,
        ternaries: bool,
    ) -> Read<Argument<'a>>
        ensures read { Gives (λ a. (argument_of a).1) result (lexemes self.new.rest.now)
            (ternary_at (unary_at levels) ternaries (lexemes self.old.rest.now)) }
        ensures named { IfOk result (λ a. (argument_of a).0 ≡ option_map (λ n. n.now) name.entry) }
        ensures shorter { OnOk result (length self.new.rest.now < length self.old.rest.now) }
    {
        let value = self.ternary(levels, ternaries)?;
        Ok(Argument { name, value })
    }

    // Reads the arguments of a call, up to its parenthesis.
    #[cycle(expression)]
    fn given(&mut self, levels: u32, ternaries: bool) -> Read<Vec<Argument<'a>>>
        ensures read { Gives (λ v. map argument_of v.items) result (lexemes self.new.rest.now)
            (given_at (unary_at levels) ternaries (lexemes self.old.rest.now)) }
        ensures shorter { OnOk result (length self.new.rest.now ≤ length self.old.rest.now) }
    {
        let mut items = Vec::new(self.alloc);
        let mut behind = false;
        let mut more = !self.begins(TokenKind::CloseParenthesis);
        while more {
            let name = self.label(behind)?;
            behind = name.is_some();
            let argument = self.argument(name, levels, ternaries);
            put(&mut items, argument)?;
            more = self.more(TokenKind::CloseParenthesis);
        }
        Ok(fit(items))
    }

    // Reads the arguments of a call, with their parentheses.
    #[cycle(expression)]
    #[tactic(auto, unfolding(crate::specs::ReadingExpressions::entered_at, crate::specs::ReadingExpressions::items_at, crate::specs::ReadingExpressions::given_at))]
    pub(super) fn arguments(&mut self, levels: u32, ternaries: bool) -> Read<Vec<Argument<'a>>>
        ensures read { Gives (λ v. map argument_of v.items) result (lexemes self.new.rest.now)
            (entered_at TokenKind.OpenParenthesis levels (λ e. items_at e ternaries) (lexemes self.old.rest.now)) }
        ensures shorter { OnOk result (length self.new.rest.now < length self.old.rest.now) }
    {
        let (_, inside) = self.enter(TokenKind::OpenParenthesis, levels)?;
        let items = self.given(inside, ternaries)?;
        self.close(TokenKind::CloseParenthesis, items)
    }

    // Reads a dot, the name of a method, and its arguments.
    #[cycle(expression)]
    #[tactic(auto, unfolding(crate::specs::ReadingExpressions::method_at))]
    fn method(&mut self, levels: u32, ternaries: bool) -> Read<Link<'a>>
        ensures read { Gives link_of result (lexemes self.new.rest.now)
            (method_at (entered_at TokenKind.OpenParenthesis levels (λ e. items_at e ternaries)) (lexemes self.old.rest.now)) }
        ensures shorter { OnOk result (length self.new.rest.now < length self.old.rest.now) }
    {
        self.take(TokenKind::Dot)?;
        let name = self.take(TokenKind::Name)?;
        let arguments = self.arguments(levels, ternaries)?;
        Ok(Link::Method {
            name: name.text,
            arguments,
        })
    }

    // Reads an index with its brackets.
    #[cycle(expression)]
    #[tactic(auto, unfolding(crate::specs::ReadingExpressions::entered_at, crate::specs::ReadingExpressions::index_at, crate::specs::Reading::ended_at))]
    fn index(&mut self, levels: u32, ternaries: bool) -> Read<Link<'a>>
        ensures read { Gives link_of result (lexemes self.new.rest.now)
            (entered_at TokenKind.OpenBracket levels (λ e. index_at e ternaries) (lexemes self.old.rest.now)) }
        ensures shorter { OnOk result (length self.new.rest.now < length self.old.rest.now) }
    {
        let (_, inside) = self.enter(TokenKind::OpenBracket, levels)?;
        let index = self.ended(TokenKind::CloseBracket, inside, ternaries)?;
        Ok(Link::Index { index })
    }

    // Reads a method or an index of a value.
    #[cycle(expression)]
    #[tactic(auto, using(crate::proofs::ExpressionTails::link_method, crate::proofs::ExpressionTails::link_index))]
    fn link(&mut self, levels: u32, ternaries: bool) -> Read<Link<'a>>
        ensures read { Gives link_of result (lexemes self.new.rest.now)
            (link_at (inner_at levels) ternaries (lexemes self.old.rest.now)) }
        ensures shorter { OnOk result (length self.new.rest.now < length self.old.rest.now) }
    {
        if self.begins(TokenKind::Dot) {
            self.method(levels, ternaries)
        } else {
            self.index(levels, ternaries)
        }
    }

    // Reads all methods and indexes that follow a value.
    #[cycle(expression)]
    fn links(&mut self, levels: u32, ternaries: bool) -> Read<Vec<Link<'a>>>
        ensures read { Gives (λ v. map link_of v.items) result (lexemes self.new.rest.now)
            (links_at (inner_at levels) ternaries (lexemes self.old.rest.now)) }
        ensures shorter { OnOk result (length self.new.rest.now ≤ length self.old.rest.now) }
    {
        let mut links = Vec::new(self.alloc);
        while self.links_on() {
            let link = self.link(levels, ternaries);
            put(&mut links, link)?;
        }
        Ok(fit(links))
    }

    // Reads a value and the methods and indexes that follow it.
    #[cycle(expression)]
    fn postfix(&mut self, levels: u32, ternaries: bool) -> Read<Expression<'a>>
        ensures read { Gives expression_of result (lexemes self.new.rest.now)
            (postfix_at (inner_at levels) ternaries (lexemes self.old.rest.now)) }
        ensures shorter { OnOk result (length self.new.rest.now < length self.old.rest.now) }
    {
        let line = self.first_line();
        let first = self.base(levels, ternaries);
        if first.is_err() || !self.links_on() {
            return first;
        }
        let first = allocate(self.alloc, first)?;
        let links = self.links(levels, ternaries)?;
        Ok(Expression::Postfix { first, links, line })
    }

    // Returns the prefix operator that is next, if there is one.
    fn prefix(&self) -> Option<Prefix>
        ensures { result ≡ prefix_of (lexemes self.now.rest.now) }
    {
        match self.rest {
            [token, ..] if token.is(TokenKind::Not) => Some(Prefix::Not),
            [token, ..] if token.is(TokenKind::Minus) => Some(Prefix::Negative),
            _ => None,
        }
    }

    // Reads a prefix operator and its value.
    #[cycle(expression)]
    #[tactic(auto, unfolding(crate::specs::ReadingExpressions::entered_at, crate::specs::ReadingExpressions::prefixed_at))]
    fn prefixed(&mut self, prefix: Prefix, levels: u32, ternaries: bool) -> Read<Expression<'a>>
        ensures read { Gives expression_of result (lexemes self.new.rest.now)
            (entered_at (word_of prefix) levels (λ e. prefixed_at prefix e ternaries) (lexemes self.old.rest.now)) }
        ensures shorter { OnOk result (length self.new.rest.now < length self.old.rest.now) }
    {
        let (word, levels) = self.enter(word_of(prefix), levels)?;
        let value = self.unary(levels, ternaries);
        let value = allocate(self.alloc, value)?;
        let line = word.line;
        Ok(Expression::Prefix {
            prefix,
            value,
            line,
        })
    }

    // Reads what is between operators: a prefix operator and its value, or a value with its methods and indexes. `levels` more levels may
    // be opened.
    #[cycle(expression)]
    #[tactic(auto, using(crate::proofs::ExpressionTails::unary_prefixed, crate::proofs::ExpressionTails::unary_postfix))]
    pub(super) fn unary(&mut self, levels: u32, ternaries: bool) -> Read<Expression<'a>>
        ensures read { Gives expression_of result (lexemes self.new.rest.now)
            (unary_at levels ternaries (lexemes self.old.rest.now)) }
        ensures shorter { OnOk result (length self.new.rest.now < length self.old.rest.now) }
    {
        match self.prefix() {
            Some(prefix) => self.prefixed(prefix, levels, ternaries),
            None => self.postfix(levels, ternaries),
        }
    }
}
