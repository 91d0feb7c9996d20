//! Reads what the arguments of a call give.

ghost use Rattle.std.specs.Prelude.{◌≡◌, IfOk, map};
ghost use Rattle.std.specs.Option.{option_map};
ghost use Rattle.syntax.specs.ExpressionTree.{expression_of, expressions};
ghost use Rattle.syntax.specs.lexer.Texts.{text_of};
ghost use Rattle.options.specs.option_file.Given.{Text as TextSaid, literal_given, negative_literal, negative_given, prefix_given};
ghost use Rattle.options.specs.option_file.Given.{item_given};
ghost use Rattle.options.specs.option_file.Given.{items_given, list_given, given_of_argument};
ghost use Rattle.options.specs.option_file.View.{given_in};

use crate::option_file::declaration::DeclaredValue;
use crate::option_file::number::numeral;
use std::alloc::{AllocError, Global};
use syntax::lexer::text_of_slice;
use syntax::lexer::token::TokenKind;
use syntax::tree::{Expression, Literal, Prefix};

// Returns the text of a string of this kind.
fn text(alloc: Global, kind: TokenKind, slice: &str) -> Result<Option<DeclaredValue>, AllocError>
    ensures { IfOk result (λ g. option_map given_in g ≡ Some (TextSaid (text_of kind slice.now))) }
{
    Ok(Some(DeclaredValue::Text(text_of_slice(alloc, kind, slice)?)))
}

fn literal_given(
    alloc: Global,
    literal: Literal,
    slice: &str,
) -> Result<Option<DeclaredValue>, AllocError>
    ensures { IfOk result (λ g. option_map given_in g ≡ literal_given literal slice.now) }
{
    match literal {
        Literal::String => text(alloc, TokenKind::String, slice),
        Literal::RawString => text(alloc, TokenKind::RawString, slice),
        Literal::True => Ok(Some(DeclaredValue::Boolean(true))),
        Literal::False => Ok(Some(DeclaredValue::Boolean(false))),
        Literal::Number => Ok(numeral(false, slice)),
        Literal::FormatString => Ok(None),
        Literal::RawFormatString => Ok(None),
    }
}

// Returns the negative number of a literal after a minus.
fn negative_literal(literal: Literal, slice: &str) -> Option<DeclaredValue>
    ensures { option_map given_in result ≡ negative_literal literal slice.now }
{
    match literal {
        Literal::Number => numeral(true, slice),
        _ => None,
    }
}

// Returns what an expression after a minus gives, which must be a number.
fn negative_given(value: &Expression<'_>) -> Option<DeclaredValue>
    ensures { option_map given_in result ≡ negative_given (expression_of value.now) }
{
    match value {
        Expression::Literal { literal, text, .. } => negative_literal(*literal, text),
        _ => None,
    }
}

fn prefix_given(prefix: Prefix, value: &Expression<'_>) -> Option<DeclaredValue>
    ensures { option_map given_in result ≡ prefix_given prefix (expression_of value.now) }
{
    match prefix {
        Prefix::Negative => negative_given(value),
        Prefix::Not => None,
    }
}

// Returns a string, a boolean, or a number with or without a minus.
fn item_given(alloc: Global, value: &Expression<'_>) -> Result<Option<DeclaredValue>, AllocError>
    ensures { IfOk result (λ g. option_map given_in g ≡ item_given (expression_of value.now)) }
{
    match value {
        Expression::Literal {
            literal,
            text,
            line,
        } => literal_given(alloc, *literal, text),
        Expression::Prefix { prefix, value, .. } => Ok(prefix_given(*prefix, value)),
        _ => Ok(None),
    }
}

// Returns the items of a list, or `None` if one of them is a list or something else.
fn items_given(
    alloc: Global,
    items: &[Expression<'_>],
) -> Result<Option<Vec<DeclaredValue>>, AllocError>
    ensures { IfOk result (λ v. option_map (λ gs. map given_in gs.items) v ≡ items_given (expressions (map expression_of items.now))) }
{
    let mut all = Vec::new(alloc);
    for item in items {
        let Some(given) = item_given(alloc, item)? else {
            return Ok(None);
        };
        all.push(given)?;
    }
    Ok(Some(all))
}

// Returns the list of texts, or `Other` if an item is no text.
fn list_given(alloc: Global, items: Vec<DeclaredValue>) -> Result<DeclaredValue, AllocError>
    ensures { IfOk result (λ g. given_in g ≡ list_given (map given_in items.items)) }
{
    let mut texts = Vec::new(alloc);
    for item in items {
        let DeclaredValue::Text(text) = item else {
            return Ok(DeclaredValue::Other);
        };
        texts.push(text)?;
    }
    Ok(DeclaredValue::Texts(texts))
}

// Returns a list of strings, booleans and numbers.
fn list(alloc: Global, items: &[Expression<'_>]) -> Result<Option<DeclaredValue>, AllocError>
    ensures { IfOk result (λ g. option_map given_in g ≡ option_map list_given (items_given (expressions (map expression_of items.now)))) }
{
    let Some(items) = items_given(alloc, items)? else {
        return Ok(None);
    };
    Ok(Some(list_given(alloc, items)?))
}

/// Returns what an argument gives: a string, a boolean, a number, or a list of these. Returns `None` if it is written as anything else.
pub fn read_given(
    alloc: Global,
    value: &Expression<'_>,
) -> Result<Option<DeclaredValue>, AllocError>
    ensures { IfOk result (λ g. option_map given_in g ≡ given_of_argument (expression_of value.now)) }
{
    match value {
        Expression::List { items, .. } => list(alloc, items),
        Expression::Literal { .. } => item_given(alloc, value),
        Expression::Prefix { .. } => item_given(alloc, value),
        _ => Ok(None),
    }
}
