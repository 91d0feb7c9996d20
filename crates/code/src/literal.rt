//! Reads literals.
ghost use Rattle.std.specs.Prelude.{◌≡◌, false, IfOk, IfSome, IsTrue};
ghost use Rattle.std.specs.Option.{ForSome};
ghost use Rattle.syntax.specs.lexer.Numerals.{magnitude};
ghost use Rattle.syntax.specs.lexer.Texts.{text_of};
ghost use Rattle.code.specs.Literals.{is_format, is_number, is_string, kind_of, means, bytes_of_literal};

use crate::format_string::FormatString;
use crate::names::Names;
use std::alloc::{AllocError, Global};
use std::snapshot::Snapshot;
use syntax::lexer::token::TokenKind;
use syntax::lexer::{magnitude, text_in_slice, text_of_slice};
use syntax::tree::Literal;
use values::{Short, Text};

/// Holds the value of a literal, or its text if the value is not kept. A short text is inline, and anything longer is boxed, so that no
/// node grows.
#[derive(Drop)]
pub enum LiteralValue {
    /// `true` or `false`.
    Boolean(bool),
    /// The number that the literal spells.
    Integer(u64),
    /// The text of a string, if the source spells it without escapes and it is short.
    Short(Short),
    /// The text of a string.
    Text(Box<Text>),
    /// The parts of an f-string, before its placeholders are filled.
    Format(Box<FormatString>),
    /// The literal as it is spelled: a number that does not fit in 64 bits, or a string, but no f-string, whose text is too long.
    Source(Box<String>),
}

/// Holds a literal as it is spelled in the source: a string includes its quotes. A short one is not allocated.
#[derive(Drop)]
pub enum Spelling {
    Short(Text),
    Long(String),
}

/// Holds a literal with its value, so that evaluation need not read its text again.
#[derive(Drop)]
pub struct LiteralNode {
    pub literal: Literal,
    pub meaning: LiteralValue,
    /// The literal as it is spelled in the source. Only proofs read it, and it takes no memory.
    pub source: Snapshot<Spelling>,
    pub ghost stands: { IsTrue (means literal (bytes_of_literal source.value) meaning) },
}

// Returns the kind of token of a literal.
fn kind_of(literal: Literal) -> TokenKind
    ensures { result ≡ kind_of literal }
{
    match literal {
        Literal::True => TokenKind::True,
        Literal::False => TokenKind::False,
        Literal::Number => TokenKind::Number,
        Literal::String => TokenKind::String,
        Literal::RawString => TokenKind::RawString,
        Literal::FormatString => TokenKind::FormatString,
        Literal::RawFormatString => TokenKind::RawFormatString,
    }
}

// Returns the number that a text spells, if it fits in 64 bits.
fn small_number(text: &str) -> Option<u64>
    ensures { ForSome result (λ n. n ≡ magnitude text.now) }
{
    let Some(number) = magnitude(text) else {
        return None;
    };
    if number < 1 << 64 {
        Some(number as u64)
    } else {
        None
    }
}

// Returns the text of a string, if the source spells it without escapes and it is short.
fn short(literal: Literal, text: &str) -> Option<Short>
    ensures { IfSome result (λ s. s ≡ text_of (kind_of literal) text.now) }
{
    let piece = text_in_slice(kind_of(literal), text)?;
    Short::of_str(piece)
}

// Returns the text of a string, and `None` if it is too long.
fn decode(alloc: Global, literal: Literal, text: &str) -> Result<Option<Box<Text>>, AllocError>
    ensures { IfOk result (λ o. ForSome o (λ t. t.value ≡ text_of (kind_of literal) text.now)) }
{
    let kind = kind_of(literal);
    let made = match text_in_slice(kind, text) {
        Some(piece) => Text::of_str(alloc, piece)?,
        None => Text::new(alloc, text_of_slice(alloc, kind, text)?)?,
    };
    match made {
        Ok(text) => Ok(Some(Box::new(alloc, text)?)),
        Err(_) => Ok(None),
    }
}

// Returns the spelling of a literal.
fn spelling_of(alloc: Global, text: &str) -> Result<Spelling, AllocError>
    ensures { IfOk result (λ s. bytes_of_literal s ≡ text.now) }
{
    match Text::of_short(text) {
        Some(text) => Ok(Spelling::Short(text)),
        None => Ok(Spelling::Long(String::from_str(alloc, text)?)),
    }
}

// Returns a literal as it is spelled in the source.
fn unread(alloc: Global, literal: Literal, text: &str) -> Result<LiteralValue, AllocError>
    requires { is_format literal ≡ false }
    ensures { IfOk result (λ m. IsTrue (means literal text.now m)) }
{
    let text = String::from_str(alloc, text)?;
    Ok(LiteralValue::Source(Box::new(alloc, text)?))
}

// Returns the value of a number.
fn number(alloc: Global, literal: Literal, text: &str) -> Result<LiteralValue, AllocError>
    requires { IsTrue (is_number literal) }
    ensures { IfOk result (λ m. IsTrue (means literal text.now m)) }
{
    match small_number(text) {
        Some(n) => Ok(LiteralValue::Integer(n)),
        None => unread(alloc, literal, text),
    }
}

// Returns the value of a string that is no f-string.
fn decode_string(alloc: Global, literal: Literal, text: &str) -> Result<LiteralValue, AllocError>
    requires { IsTrue (is_string literal) }
    ensures { IfOk result (λ m. IsTrue (means literal text.now m)) }
{
    if let Some(short) = short(literal, text) {
        return Ok(LiteralValue::Short(short));
    }
    match decode(alloc, literal, text)? {
        Some(decoded) => Ok(LiteralValue::Text(decoded)),
        None => unread(alloc, literal, text),
    }
}

// Returns the value of an f-string.
fn format(
    alloc: Global,
    names: &Names,
    literal: Literal,
    text: &str,
) -> Result<LiteralValue, AllocError>
    requires { IsTrue (is_format literal) }
    ensures { IfOk result (λ m. IsTrue (means literal text.now m)) }
{
    let text = text_of_slice(alloc, kind_of(literal), text)?;
    let format = FormatString::new(alloc, names, text.as_str())?;
    Ok(LiteralValue::Format(Box::new(alloc, format)?))
}

// Returns the value of a literal.
fn read(
    alloc: Global,
    names: &Names,
    literal: Literal,
    text: &str,
) -> Result<LiteralValue, AllocError>
    ensures { IfOk result (λ m. IsTrue (means literal text.now m)) }
{
    match literal {
        Literal::True => Ok(LiteralValue::Boolean(true)),
        Literal::False => Ok(LiteralValue::Boolean(false)),
        Literal::Number => number(alloc, literal, text),
        Literal::String => decode_string(alloc, literal, text),
        Literal::RawString => decode_string(alloc, literal, text),
        Literal::FormatString => format(alloc, names, literal, text),
        Literal::RawFormatString => format(alloc, names, literal, text),
    }
}

impl LiteralNode {
    /// Returns the literal with this text in the source, and looks names up in a table.
    pub fn new(
        alloc: Global,
        names: &Names,
        literal: Literal,
        text: &str,
    ) -> Result<LiteralNode, AllocError>
        ensures literal { IfOk result (λ node. node.literal ≡ literal) }
        ensures source { IfOk result (λ node. bytes_of_literal node.source.value ≡ text.now) }
    {
        let spelling = spelling_of(alloc, text)?;
        let source = Snapshot::of(&spelling);
        let meaning = read(alloc, names, literal, text)?;
        Ok(LiteralNode {
            literal,
            meaning,
            source,
        })
    }
}
