//! States what holds of the tokens of every text, as functions that do nothing and whose contracts hold.
ghost use Rattle.syntax.specs.lexer.Laws.{TextsAreLexed, TokensStandForTexts};

/// Proves that every text, of any bytes, is either exactly one list of longest tokens or has exactly one first place at which no token
/// begins.
///
/// The definition `lexed_tokens` returns those tokens or that fault. Contracts use it to describe a text's tokens.
pub fn texts_are_lexed()
    ensures { TextsAreLexed }
{}

/// Proves that a token has exactly one text. The definition `text_of` returns it for the token's kind and slice.
pub fn tokens_stand_for_texts()
    ensures { TokensStandForTexts }
{}
