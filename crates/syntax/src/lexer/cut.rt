//! Cuts a source into tokens, as the Meson manual describes them (page "Syntax").

ghost use Rattle.std.specs.Prelude.{◌≡◌, ◌+◌, ◌<◌, ◌^◌, List, IfOk, MatchResult};
ghost use Rattle.syntax.specs.lexer.Kinds.{depth_after};
ghost use Rattle.syntax.specs.lexer.Lexeme.{Lexeme, lexemes};
ghost use Rattle.syntax.specs.lexer.Lexing.{token_at, lexed_tokens};
ghost use Rattle.syntax.specs.lexer.Answers.{Answers};
ghost use Rattle.syntax.specs.lexer.Tokens.{AreTokens, IsUnreadable};

use crate::lexer::bytes::{is_letter, newlines, opens_format};
use crate::lexer::fault::{FaultKind, SyntaxError, SyntaxFault};
use crate::lexer::gap::gap_length;
use crate::lexer::number::number_at;
use crate::lexer::string::{format_at, string_at};
use crate::lexer::symbol::symbol_at;
use crate::lexer::token::{Token, TokenKind};
use crate::lexer::word::word_at;
use std::alloc::{AllocError, Global};

// Returns the kind and the length in bytes of the longest token at the front, or `None` if no token begins there.
#[tactic(auto, using(crate::proofs::Cuts::token_cases))]
fn token_at(text: &str) -> Option<(TokenKind, usize)>
    ensures { result ≡ token_at text.now }
{
    let bytes = text.as_bytes();
    if bytes.is_empty() {
        return None;
    }
    let first = bytes[0];
    if is_letter(first) {
        if opens_format(bytes) {
            format_at(bytes)
        } else {
            Some(word_at(text))
        }
    } else if first.is_ascii_digit() {
        number_at(bytes)
    } else if first == b'\'' {
        string_at(bytes)
    } else {
        symbol_at(first, &bytes[1..])
    }
}

// Returns how many brackets are open after a token, given how many are open before it.
fn depth_after(kind: TokenKind, depth: usize) -> usize
    requires { depth + 1 < 2 ^ 64 }
    ensures { result ≡ depth_after kind depth }
{
    match kind {
        TokenKind::OpenParenthesis | TokenKind::OpenBracket | TokenKind::OpenBrace => depth + 1,
        TokenKind::CloseParenthesis | TokenKind::CloseBracket | TokenKind::CloseBrace =>
            depth.saturating_sub(1),
        _ => depth,
    }
}

// The sizes in bytes of the sources, from the least to the greatest, whose memory the C library keeps.
const LEAST_KEPT: usize = 16_384;

const MOST_KEPT: usize = 1_048_576;

/// Makes the C library keep the memory of a source of this many bytes, and of its tokens, after they are freed.
///
/// The C library takes a block of 128 KiB or more from the system and gives it back when it is freed. After the first such block it keeps
/// blocks up to that size. So this function allocates a block for the greatest number of tokens and frees it unused. Call it before reading
/// the source, so that the source's block is kept too.
///
/// It is only a hint: if the block can't be allocated, nothing is lost and the run continues.
pub fn keep_room(alloc: Global, bytes: usize) {
    if bytes >= LEAST_KEPT && bytes <= MOST_KEPT {
        let room: Result<Vec<Token<'_>>, AllocError> = Vec::with_capacity(alloc, bytes);
        drop(room);
    }
}

/// Returns the tokens of a source, in order. Their texts are slices of it.
///
/// Tokens are names and keywords, numbers of all bases, strings (`'..'`, `'''..'''`, and either with an `f` before it), and the symbols of
/// the Meson manual's page "Syntax". A further token ends each line outside of brackets, unless a backslash continues the line.
///
/// Fails with E2 at the line of the first place at which no token begins. No token begins at a number directly followed by a letter, digit
/// or underscore, or at a string without an end. Nor does one begin at a string with an escape of a surrogate or of a number above 10FFFF,
/// or at any other byte.
pub fn tokens(alloc: Global, source: &str) -> Result<Vec<Token<'_>>, SyntaxError>
    // Unless memory runs out, the result is this function of the source.
    ensures reads { Answers (λ v. lexemes v.items) result (lexed_tokens source.now) }

    // The tokens are those of the source, and the source has no others.
    ensures listed { IfOk result (λ v. AreTokens source.now (lexemes v.items)) }
    ensures only { (ts : List Lexeme) → AreTokens source.now ts
        → MatchResult result (λ v. lexemes v.items ≡ ts) (λ e. e ≡ SyntaxError.Memory) }

    // A fault is at the first place where no token begins.
    ensures refused { (f : SyntaxFault) → result ≡ Err (SyntaxError.Fault f)
        → (f.kind ≡ FaultKind.Token) × IsUnreadable source.now f.line }
{
    let mut tokens = Vec::new(alloc);
    let mut rest = source;
    let mut line = 1;
    let mut depth = 0;
    loop {
        let (gap, here) = rest.split_at(gap_length(rest.as_bytes(), depth));
        line += newlines(gap.as_bytes());
        if here.is_empty() {
            return Ok(tokens);
        }
        let Some((kind, length)) = token_at(here) else {
            let kind = FaultKind::Token;
            return Err(SyntaxError::Fault(SyntaxFault { kind, line }));
        };
        let (text, after) = here.split_at(length);
        tokens.push(Token { kind, line, text })?;
        line += newlines(text.as_bytes());
        depth = depth_after(kind, depth);
        rest = after;
    }
}
