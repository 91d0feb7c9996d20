//! States what holds of every text, as a function that does nothing and whose contract holds.
ghost use Rattle.option_values.specs.Laws.{TextsAreCut};

/// Proves that a text is written as exactly one list of words, or as no words.
///
/// The definition `words_of` returns that list. Contracts use it to describe the words of an option's text.
pub fn texts_are_cut()
    ensures { TextsAreCut }
{}
