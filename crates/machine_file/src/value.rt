//! Reads the values of a machine file.

ghost use Rattle.std.specs.Prelude.{◌≡◌, [], is_some, IfOk, string_bytes};
ghost use Rattle.std.specs.Option.{option_map};
ghost use Rattle.syntax.specs.lexer.Lexeme.{lexeme_of, lexemes};
ghost use Rattle.machine_file.specs.Values.{plain_text, no_further_items, items_of, of_word, negative_of, of_tokens, value_of};
ghost use Rattle.machine_file.specs.View.{value_in, strings_in};

use crate::number::integer;
use std::alloc::{AllocError, Global};
use syntax::lexer::fault::SyntaxError;
use syntax::lexer::token::{Token, TokenKind};
use syntax::lexer::{text_of, tokens};

/// Holds a value of a machine file.
#[derive(Drop)]
pub enum MachineValue {
    Text(String),
    Integer(i64),
    Boolean(bool),
    Texts(Vec<String>),
}

impl MachineValue {
    ghost use Rattle.machine_file.specs.Readers.{text_said, integer_said, boolean_said, texts_said};

    /// Returns the text, if the value is one.
    pub fn text(&self) -> Option<&str>
        ensures { option_map (λ t. t.now) result ≡ text_said (value_in self.now) }
    {
        match self {
            MachineValue::Text(text) => Some(text.as_str()),
            _ => None,
        }
    }

    /// Returns the integer, if the value is one.
    pub fn integer(&self) -> Option<i64>
        ensures { result ≡ integer_said (value_in self.now) }
    {
        match self {
            MachineValue::Integer(number) => Some(*number),
            _ => None,
        }
    }

    /// Returns the boolean, if the value is one.
    pub fn boolean(&self) -> Option<bool>
        ensures { result ≡ boolean_said (value_in self.now) }
    {
        match self {
            MachineValue::Boolean(boolean) => Some(*boolean),
            _ => None,
        }
    }

    /// Returns the texts, if the value is a list.
    pub fn texts(&self) -> Option<&[String]>
        ensures { option_map (λ items. strings_in items.now) result ≡ texts_said (value_in self.now) }
    {
        match self {
            MachineValue::Texts(items) => Some(items),
            _ => None,
        }
    }
}

// Returns the text of a token, if it is a plain string.
fn plain_text(alloc: Global, token: &Token<'_>) -> Result<Option<String>, AllocError>
    ensures { IfOk result (λ text. option_map string_bytes text ≡ plain_text (lexeme_of token.now)) }
{
    if !token.is(TokenKind::String) {
        return Ok(None);
    }
    Ok(Some(text_of(alloc, token)?))
}

// Returns whether these tokens are one closing bracket.
fn closes(tokens: &[Token<'_>]) -> bool
    ensures { result ≡ is_some (no_further_items (lexemes tokens.now)) }
{
    tokens.len() == 1 && tokens[0].is(TokenKind::CloseBracket)
}

// Returns the items of a list of plain strings, from after its opening bracket on.
fn items_of(alloc: Global, tokens: &[Token<'_>]) -> Result<Option<Vec<String>>, AllocError>
    ensures { IfOk result (λ items. option_map (λ v. strings_in v.items) items ≡ items_of (lexemes tokens.now)) }
{
    let mut items = Vec::new(alloc);
    let mut rest = tokens;
    while rest.len() > 1 {
        let Some(text) = plain_text(alloc, &rest[0])? else {
            return Ok(None);
        };
        items.push(text)?;
        if !rest[1].is(TokenKind::Comma) {
            return Ok(closes(&rest[1..]).then_some(items));
        }
        rest = &rest[2..];
    }
    Ok(closes(rest).then_some(items))
}

// Returns the value of one token, if it is a value.
fn of_word(alloc: Global, token: &Token<'_>) -> Result<Option<MachineValue>, AllocError>
    ensures { IfOk result (λ value. option_map value_in value ≡ of_word (lexeme_of token.now)) }
{
    if token.is(TokenKind::True) {
        return Ok(Some(MachineValue::Boolean(true)));
    }
    if token.is(TokenKind::False) {
        return Ok(Some(MachineValue::Boolean(false)));
    }
    if token.is(TokenKind::Number) {
        return Ok(integer(false, token.text).map(MachineValue::Integer));
    }
    Ok(plain_text(alloc, token)?.map(MachineValue::Text))
}

// Returns the negative number of the token after a minus.
fn negative_of(token: &Token<'_>) -> Option<MachineValue>
    ensures { option_map value_in result ≡ negative_of (lexeme_of token.now) [] }
{
    if token.is(TokenKind::Number) {
        integer(true, token.text).map(MachineValue::Integer)
    } else {
        None
    }
}

// Returns the value of these tokens, if they are a value.
fn of_tokens(alloc: Global, tokens: &[Token<'_>]) -> Result<Option<MachineValue>, AllocError>
    ensures { IfOk result (λ value. option_map value_in value ≡ of_tokens (lexemes tokens.now)) }
{
    if tokens.is_empty() {
        return Ok(None);
    }
    if tokens.len() == 1 {
        return of_word(alloc, &tokens[0]);
    }
    if tokens[0].is(TokenKind::OpenBracket) {
        return Ok(items_of(alloc, &tokens[1..])?.map(MachineValue::Texts));
    }
    if tokens[0].is(TokenKind::Minus) && tokens.len() == 2 {
        return Ok(negative_of(&tokens[1]));
    }
    Ok(None)
}

/// Returns the value of a text, or `None` if it is no value.
///
/// A value is a plain string, a number of 64 bits, a boolean or a list of plain strings, optionally followed by a comment. They are written
/// as in a definition file (Meson manual, page "Syntax").
#[tactic(auto, unfolding(crate::specs::Values::value_of))]
pub fn read_value(alloc: Global, text: &str) -> Result<Option<MachineValue>, AllocError>
    ensures { IfOk result (λ value. option_map value_in value ≡ value_of text.now) }
{
    match tokens(alloc, text) {
        Ok(tokens) => of_tokens(alloc, &tokens),
        Err(SyntaxError::Memory) => Err(AllocError),
        Err(SyntaxError::Fault(_)) => Ok(None),
    }
}
