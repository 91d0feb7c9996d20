//! Defines the tokens of a source.

ghost use Rattle.std.specs.Prelude.{◌≡◌};

/// Lists the kinds of tokens.
#[derive(Clone, Copy, PartialEq, Eq)]
pub enum TokenKind {
    /// A name that is no keyword.
    Name,
    /// `'..'`
    String,
    True,
    False,
    If,
    Elif,
    Else,
    EndIf,
    And,
    Or,
    Not,
    In,
    Foreach,
    EndForeach,
    Break,
    Continue,
    /// `(`
    OpenParenthesis,
    /// `)`
    CloseParenthesis,
    /// `[`
    OpenBracket,
    /// `]`
    CloseBracket,
    /// `{`
    OpenBrace,
    /// `}`
    CloseBrace,
    Comma,
    Colon,
    Dot,
    Question,
    /// `=`
    Assign,
    /// `+=`
    PlusAssign,
    /// `==`
    Equal,
    /// `!=`
    NotEqual,
    Less,
    LessOrEqual,
    Greater,
    GreaterOrEqual,
    Plus,
    Minus,
    Times,
    Divide,
    Remainder,
    /// The end of a line outside of brackets.
    Newline,
    /// A decimal number, or one that begins with `0x`, `0o` or `0b`.
    Number,
    /// `'''..'''`
    RawString,
    /// `f'..'`
    FormatString,
    /// `f'''..'''`
    RawFormatString,
}

/// Holds one token of a source.
#[derive(Clone, Copy)]
pub struct Token<'a> {
    pub kind: TokenKind,
    /// The line, from 1, of its first byte.
    pub line: usize,
    /// The slice of the source. A string keeps its quotes.
    pub text: &'a str,
}

impl Token<'_> {
    ghost use Rattle.syntax.specs.lexer.Kinds.{is};

    /// Returns whether the token is of this kind.
    pub fn is(&self, kind: TokenKind) -> bool
        ensures { result ≡ is self.now.kind kind }
    {
        self.kind == kind
    }
}
