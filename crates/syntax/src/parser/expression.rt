//! Reads expressions: ternaries, and chains of operators.

ghost use Rattle.std.specs.Prelude.{true, false, Ok, Some, IfOk, ◌≡◌, ◌&&◌, ◌-◌, ◌++◌, ◌<◌, ◌≤◌, length, map, OnOk, [], ◌∷◌};
ghost use Rattle.std.specs.Option.{OnSome};
ghost use Rattle.syntax.specs.lexer.Lexeme.{lexeme_of, lexemes};
ghost use Rattle.syntax.specs.ExpressionTree.{expression_of, operand_of};
ghost use Rattle.syntax.specs.Expressions.{comparative};
ghost use Rattle.syntax.specs.Parts.{first_line, stands_for, taken_token};
ghost use Rattle.syntax.specs.Reading.{Gives, GoesOn, begins, ended_at, head_is, two_begin};
ghost use Rattle.syntax.specs.ReadingExpressions.{branches_at, chain_at, ternary_at, comparison_at, comparison_operator_at, compares};
ghost use Rattle.syntax.specs.ReadingExpressions.{disjunction_at, enter_at, expr_at, not_in_at, one_compared_at, operands_at};
ghost use Rattle.syntax.specs.ReadingExpressions.{operator_of, part_at, sum_at, unary_at};

use super::{Parser, Read, allocate, fit};
use crate::lexer::token::{Token, TokenKind};
use crate::stop::{ParseStop, ReadError};
use crate::tree::{Expression, Operand, Operator};

/// Names the operators between the parts of a chain, from the loosest to the tightest.
#[derive(Clone, Copy)]
enum Rank {
    Or,
    And,
    Sum,
    Product,
}

impl Rank {
    // Returns the operator of this rank that a token is.
    fn operator(self, kind: TokenKind) -> Option<Operator>
        ensures { result ≡ operator_of self kind }
    {
        match self {
            Rank::Or => match kind {
                TokenKind::Or => Some(Operator::Or),
                _ => None,
            },
            Rank::And => match kind {
                TokenKind::And => Some(Operator::And),
                _ => None,
            },
            Rank::Sum => match kind {
                TokenKind::Plus => Some(Operator::Add),
                TokenKind::Minus => Some(Operator::Subtract),
                _ => None,
            },
            Rank::Product => match kind {
                TokenKind::Times => Some(Operator::Multiply),
                TokenKind::Divide => Some(Operator::Divide),
                TokenKind::Remainder => Some(Operator::Remainder),
                _ => None,
            },
        }
    }
}

// Returns the comparison that one token is.
fn comparative(kind: TokenKind) -> Option<Operator>
    ensures { result ≡ comparative kind }
{
    match kind {
        TokenKind::Equal => Some(Operator::Equal),
        TokenKind::NotEqual => Some(Operator::NotEqual),
        TokenKind::Less => Some(Operator::Less),
        TokenKind::LessOrEqual => Some(Operator::LessOrEqual),
        TokenKind::Greater => Some(Operator::Greater),
        TokenKind::GreaterOrEqual => Some(Operator::GreaterOrEqual),
        TokenKind::In => Some(Operator::In),
        _ => None,
    }
}

// Appends an operator and the value after it, which was read.
fn put_operand<'a>(
    operands: &mut Vec<Operand<'a>>,
    operator: Operator,
    read: Read<Expression<'a>>,
) -> Read<()>
    ensures { GoesOn (λ value _. map operand_of operands.new.items ≡ map operand_of operands.old.items
        ++ (operator, expression_of value) ∷ []) read.entry result }
{
    let value = read?;
    operands.push(Operand { operator, value })?;
    Ok(())
}

impl<'a> Parser<'_, 'a> {
    // Returns the line of the next token.
    pub(super) fn first_line(&self) -> usize
        ensures { result ≡ first_line (lexemes self.now.rest.now) }
    {
        match self.rest {
            [token, ..] => token.line,
            [] => 0,
        }
    }

    // Takes the next token if it is an operator of this rank.
    #[tactic(auto, using(crate::proofs::ExpressionTails::taken_cases))]
    fn operator(&mut self, rank: Rank) -> Option<Operator>
        ensures read { (result, lexemes self.new.rest.now) ≡ taken_token (operator_of rank) (lexemes self.old.rest.now) }
        ensures within { length self.new.rest.now ≤ length self.old.rest.now }
        ensures shorter { OnSome result (length self.new.rest.now < length self.old.rest.now) }
    {
        let [token, rest @ ..] = self.rest else {
            return None;
        };
        let Some(operator) = rank.operator(token.kind) else {
            return None;
        };
        self.rest = rest;
        Some(operator)
    }

    // Returns whether the next token is an operator of this rank.
    fn operates(&self, rank: Rank) -> bool
        ensures { result ≡ head_is (stands_for (operator_of rank)) (lexemes self.now.rest.now) }
    {
        match self.rest {
            [token, ..] => rank.operator(token.kind).is_some(),
            [] => false,
        }
    }

    // Takes the next token if it is a comparison by itself.
    #[tactic(auto, using(crate::proofs::ExpressionTails::taken_cases))]
    fn plain_comparison(&mut self) -> Option<Operator>
        ensures read { (result, lexemes self.new.rest.now) ≡ taken_token comparative (lexemes self.old.rest.now) }
        ensures within { length self.new.rest.now ≤ length self.old.rest.now }
        ensures shorter { OnSome result (length self.new.rest.now < length self.old.rest.now) }
    {
        let [token, rest @ ..] = self.rest else {
            return None;
        };
        let Some(operator) = comparative(token.kind) else {
            return None;
        };
        self.rest = rest;
        Some(operator)
    }

    // Takes `not in`.
    #[tactic(auto, unfolding(crate::specs::ReadingExpressions::not_in_at))]
    fn not_in(&mut self) -> Read<Operator>
        ensures read { Gives (λ o. o) result (lexemes self.new.rest.now) (not_in_at (lexemes self.old.rest.now)) }
        ensures shorter { OnOk result (length self.new.rest.now < length self.old.rest.now) }
    {
        self.take(TokenKind::Not)?;
        self.take(TokenKind::In)?;
        Ok(Operator::NotIn)
    }

    // Takes a comparison.
    fn comparison_operator(&mut self) -> Read<Operator>
        ensures read { Gives (λ o. o) result (lexemes self.new.rest.now) (comparison_operator_at (lexemes self.old.rest.now)) }
        ensures shorter { OnOk result (length self.new.rest.now < length self.old.rest.now) }
    {
        if let Some(operator) = self.plain_comparison() {
            return Ok(operator);
        }
        self.not_in()
    }

    // Returns whether a comparison is next.
    fn compares(&self) -> bool
        ensures { result ≡ head_is compares (lexemes self.now.rest.now) }
    {
        match self.rest {
            [token, ..] => token.is(TokenKind::Not) || comparative(token.kind).is_some(),
            [] => false,
        }
    }

    // Returns whether a ternary continues, if one is allowed.
    fn asks(&self, ternaries: bool) -> bool
        ensures { result ≡ (ternaries && begins TokenKind.Question (lexemes self.now.rest.now)) }
    {
        ternaries && self.begins(TokenKind::Question)
    }

    // Returns whether the first two tokens are of these kinds.
    pub(super) fn two_begin(&self, first: TokenKind, second: TokenKind) -> bool
        ensures { result ≡ two_begin first second (lexemes self.now.rest.now) }
    {
        match self.rest {
            [one, two, ..] => one.is(first) && two.is(second),
            _ => false,
        }
    }

    // Takes a token that opens a level, and returns it with the number of levels that may still be opened inside.
    #[tactic(auto, using(crate::proofs::ExpressionTails::enter_cases))]
    pub(super) fn enter(&mut self, kind: TokenKind, levels: u32) -> Read<(Token<'a>, u32)>
        ensures read { Gives (λ x. (lexeme_of x.0, x.1)) result (lexemes self.new.rest.now)
            (enter_at kind levels (lexemes self.old.rest.now)) }
        ensures shorter { OnOk result (length self.new.rest.now < length self.old.rest.now) }
        ensures lower { IfOk result (λ x. x.1 < levels) }
    {
        if levels > 0 {
            let token = self.take(kind)?;
            Ok((token, levels - 1))
        } else if self.begins(kind) {
            Err(ReadError::Stop(ParseStop::TooDeep(self.rest.len())))
        } else {
            Err(self.unexpected())
        }
    }

    // Reads a part of a chain of this rank.
    #[cycle(expression)]
    #[tactic(auto, unfolding(crate::specs::ReadingExpressions::conjunction_at, crate::specs::ReadingExpressions::product_at))]
    fn part(&mut self, levels: u32, ternaries: bool, rank: Rank) -> Read<Expression<'a>>
        ensures read { Gives expression_of result (lexemes self.new.rest.now)
            (part_at rank (unary_at levels ternaries) (lexemes self.old.rest.now)) }
        ensures shorter { OnOk result (length self.new.rest.now < length self.old.rest.now) }
    {
        match rank {
            Rank::Or => self.chain(levels, ternaries, Rank::And),
            Rank::And => self.comparison(levels, ternaries),
            Rank::Sum => self.chain(levels, ternaries, Rank::Product),
            Rank::Product => self.unary(levels, ternaries),
        }
    }

    // Reads operators of this rank, each with the part after it.
    #[cycle(expression)]
    fn operands(&mut self, levels: u32, ternaries: bool, rank: Rank) -> Read<Vec<Operand<'a>>>
        ensures read { Gives (λ v. map operand_of v.items) result (lexemes self.new.rest.now)
            (operands_at (operator_of rank) (part_at rank (unary_at levels ternaries)) (lexemes self.old.rest.now)) }
        ensures shorter { OnOk result (length self.new.rest.now ≤ length self.old.rest.now) }
    {
        let mut others = Vec::new(self.alloc);
        while let Some(operator) = self.operator(rank) {
            let value = self.part(levels, ternaries, rank);
            put_operand(&mut others, operator, value)?;
        }
        Ok(fit(others))
    }

    // Reads parts with operators of this rank between them.
    #[cycle(expression)]
    #[tactic(auto, using(crate::proofs::ExpressionTails::chain_alone), unfolding(crate::specs::ReadingExpressions::chain_at))]
    fn chain(&mut self, levels: u32, ternaries: bool, rank: Rank) -> Read<Expression<'a>>
        ensures read { Gives expression_of result (lexemes self.new.rest.now)
            (chain_at (operator_of rank) (part_at rank (unary_at levels ternaries)) (lexemes self.old.rest.now)) }
        ensures shorter { OnOk result (length self.new.rest.now < length self.old.rest.now) }
    {
        let line = self.first_line();
        let first = self.part(levels, ternaries, rank);
        if first.is_err() || !self.operates(rank) {
            return first;
        }
        let first = allocate(self.alloc, first)?;
        let others = self.operands(levels, ternaries, rank)?;
        Ok(Expression::Chain {
            first,
            others,
            line,
        })
    }

    // Reads a comparison and the sum after it, as the only operand of a chain.
    #[cycle(expression)]
    fn compared(&mut self, levels: u32, ternaries: bool) -> Read<Vec<Operand<'a>>>
        ensures read { Gives (λ v. map operand_of v.items) result (lexemes self.new.rest.now)
            (one_compared_at (sum_at (unary_at levels ternaries)) (lexemes self.old.rest.now)) }
        ensures shorter { OnOk result (length self.new.rest.now < length self.old.rest.now) }
    {
        let operator = self.comparison_operator()?;
        let value = self.chain(levels, ternaries, Rank::Sum);
        let mut others = Vec::with_capacity(self.alloc, 1)?;
        put_operand(&mut others, operator, value)?;
        Ok(others)
    }

    // Reads a sum, or two sums with a comparison between them.
    #[cycle(expression)]
    fn comparison(&mut self, levels: u32, ternaries: bool) -> Read<Expression<'a>>
        ensures read { Gives expression_of result (lexemes self.new.rest.now)
            (comparison_at (unary_at levels ternaries) (lexemes self.old.rest.now)) }
        ensures shorter { OnOk result (length self.new.rest.now < length self.old.rest.now) }
    {
        let line = self.first_line();
        let first = self.chain(levels, ternaries, Rank::Sum);
        if first.is_err() || !self.compares() {
            return first;
        }
        let first = allocate(self.alloc, first)?;
        let others = self.compared(levels, ternaries)?;
        Ok(Expression::Chain {
            first,
            others,
            line,
        })
    }

    // Reads the branches of a ternary.
    #[cycle(expression)]
    fn branches(&mut self, levels: u32) -> Read<(Box<Expression<'a>>, Box<Expression<'a>>)>
        ensures read { Gives (λ p. (expression_of p.0.value, expression_of p.1.value)) result (lexemes self.new.rest.now)
            (branches_at (disjunction_at (unary_at levels false)) (lexemes self.old.rest.now)) }
        ensures shorter { OnOk result (length self.new.rest.now < length self.old.rest.now) }
    {
        self.take(TokenKind::Question)?;
        let yes = self.chain(levels, false, Rank::Or);
        let yes = allocate(self.alloc, yes)?;
        let yes = self.close(TokenKind::Colon, yes)?;
        let no = self.chain(levels, false, Rank::Or);
        let no = allocate(self.alloc, no)?;
        Ok((yes, no))
    }

    // Reads an expression of more than one token. `ternaries` says whether it may hold a ternary.
    #[cycle(expression)]
    fn choice(&mut self, levels: u32, ternaries: bool) -> Read<Expression<'a>>
        ensures read { Gives expression_of result (lexemes self.new.rest.now)
            (ternary_at (unary_at levels) ternaries (lexemes self.old.rest.now)) }
        ensures shorter { OnOk result (length self.new.rest.now < length self.old.rest.now) }
    {
        let line = self.first_line();
        let test = self.chain(levels, ternaries, Rank::Or);
        if test.is_err() || !self.asks(ternaries) {
            return test;
        }
        let test = allocate(self.alloc, test)?;
        let (yes, no) = self.branches(levels)?;
        Ok(Expression::Ternary {
            test,
            yes,
            no,
            line,
        })
    }

    // Reads an expression. `ternaries` says whether it may hold a ternary.
    #[cycle(expression)]
    pub(super) fn ternary(&mut self, levels: u32, ternaries: bool) -> Read<Expression<'a>>
        ensures read { Gives expression_of result (lexemes self.new.rest.now)
            (ternary_at (unary_at levels) ternaries (lexemes self.old.rest.now)) }
        ensures shorter { OnOk result (length self.new.rest.now < length self.old.rest.now) }
    {
        match self.alone() {
            Some(alone) => Ok(alone),
            None => self.choice(levels, ternaries),
        }
    }

    // Reads an expression and the token of this kind after it.
    #[cycle(expression)]
    pub(super) fn ended(
        &mut self,
        kind: TokenKind,
        levels: u32,
        ternaries: bool,
    ) -> Read<Expression<'a>>
        ensures read { Gives expression_of result (lexemes self.new.rest.now)
            (ended_at kind (ternary_at (unary_at levels) ternaries) (lexemes self.old.rest.now)) }
        ensures shorter { OnOk result (length self.new.rest.now < length self.old.rest.now) }
    {
        let value = self.ternary(levels, ternaries)?;
        self.close(kind, value)
    }

    // Reads an expression in which `levels` more levels may be opened.
    #[tactic(auto, unfolding(crate::specs::ReadingExpressions::expr_at))]
    pub(super) fn expression(&mut self, levels: u32) -> Read<Expression<'a>>
        ensures read { Gives expression_of result (lexemes self.new.rest.now) (expr_at levels (lexemes self.old.rest.now)) }
        ensures shorter { OnOk result (length self.new.rest.now < length self.old.rest.now) }
    {
        self.ternary(levels, true)
    }
}
