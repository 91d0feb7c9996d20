//! Recognizes names and keywords.

ghost use Rattle.std.specs.Prelude.{◌≡◌};
ghost use Rattle.syntax.specs.lexer.Bytes.{continues_word};
ghost use Rattle.syntax.specs.lexer.Kinds.{word_kind};
ghost use Rattle.syntax.specs.lexer.Lexing.{run_length, word_at};

use crate::lexer::bytes::continues_word;
use crate::lexer::token::TokenKind;

// Returns how many bytes at the front can follow the first byte of a word.
#[tactic(auto, using(crate::proofs::Runs::run_steps))]
pub(crate) fn word_length(bytes: &[u8]) -> usize
    ensures { result ≡ run_length continues_word bytes.now }
{
    let mut length = 0;
    while length < bytes.len() && continues_word(bytes[length]) {
        length += 1;
    }
    length
}

// Returns the kind of a word: a keyword, or else a name.
fn word_kind(word: &str) -> TokenKind
    ensures { result ≡ word_kind word.now }
{
    match word {
        "true" => TokenKind::True,
        "false" => TokenKind::False,
        "if" => TokenKind::If,
        "elif" => TokenKind::Elif,
        "else" => TokenKind::Else,
        "endif" => TokenKind::EndIf,
        "and" => TokenKind::And,
        "or" => TokenKind::Or,
        "not" => TokenKind::Not,
        "in" => TokenKind::In,
        "foreach" => TokenKind::Foreach,
        "endforeach" => TokenKind::EndForeach,
        "break" => TokenKind::Break,
        "continue" => TokenKind::Continue,
        _ => TokenKind::Name,
    }
}

// Returns the kind and length of the word at the front.
#[tactic(auto, using(crate::proofs::Cuts::word_cases))]
pub(crate) fn word_at(text: &str) -> (TokenKind, usize)
    ensures { result ≡ word_at text.now }
{
    let length = word_length(text.as_bytes());
    (word_kind(&text[..length]), length)
}
