//! States what holds of every text, as a function that does nothing and whose contract holds.
ghost use Rattle.syntax.specs.Laws.{TextsAreParsed};

/// Proves that every text, of any bytes, either spells exactly one file or has exactly one fault, its first.
///
/// The definition `parsed_file` returns that file or fault. Contracts use it to describe what a text spells.
pub fn texts_are_parsed()
    ensures { TextsAreParsed }
{}
