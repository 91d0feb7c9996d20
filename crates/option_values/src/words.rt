//! Cuts a text into words, as a shell does.

ghost use Rattle.std.specs.Prelude.{◌≡◌, ◌↔◌, ℕ, List, IfOk};
ghost use Rattle.std.specs.Str.{chars};
ghost use Rattle.option_values.specs.Shell.{AreWords};
ghost use Rattle.std.specs.Option.{option_map};
ghost use Rattle.option_values.specs.View.{strings_in};
ghost use Rattle.option_values.specs.Words.{after, after_at, bare, initial_cut, words_of_cut, cut_with_character, is_escapable};
ghost use Rattle.option_values.specs.Words.{cut_at_place, cut_after_word, parts_words};
ghost use Rattle.option_values.specs.Words.{words_of};
ghost use Rattle.option_values.specs.WordsView.{cut_in};

use std::alloc::{AllocError, Global};

/// Names the state in which a character is read: between words, or in which part of a word.
#[derive(Clone, Copy)]
pub enum ShellState {
    /// Between words.
    Between,
    /// In a word, outside quotes.
    Bare,
    /// After a backslash, outside quotes.
    Escaped,
    /// Between single quotes.
    Single,
    /// Between double quotes.
    Double,
    /// After a backslash, between double quotes.
    DoubleEscaped,
}

/// Holds the state for the next character, the word to which it may belong, and the words before it.
#[derive(Drop)]
pub struct Cutting {
    place: ShellState,
    word: String,
    words: Vec<String>,
}

// Returns whether a character separates words: a blank or a newline.
fn parts_words(character: char) -> bool
    ensures { result ≡ parts_words character }
{
    matches!(character, ' ' | '\t' | '\r' | '\n')
}

// Returns whether a backslash escapes this character between double quotes.
fn is_escapable(character: char) -> bool
    ensures { result ≡ is_escapable character }
{
    character == '"' || character == '\\'
}

fn begun(alloc: Global) -> Cutting
    ensures { cut_in result ≡ initial_cut }
{
    Cutting {
        place: ShellState::Between,
        word: String::new(alloc),
        words: Vec::new(alloc),
    }
}

fn move_on(cutting: Cutting, place: ShellState) -> Cutting
    ensures { cut_in result ≡ cut_at_place (cut_in cutting) place }
{
    let Cutting {
        place: _,
        word,
        words,
    } = cutting;
    Cutting { place, word, words }
}

// Adds the character to the word.
fn grow(cutting: Cutting, place: ShellState, character: char) -> Result<Cutting, AllocError>
    ensures { IfOk result (λ more. cut_in more ≡ cut_with_character (cut_in cutting) place character) }
{
    let Cutting {
        place: _,
        mut word,
        words,
    } = cutting;
    word.push(character)?;
    Ok(Cutting { place, word, words })
}

// Ends the word.
fn part(alloc: Global, cutting: Cutting) -> Result<Cutting, AllocError>
    ensures { IfOk result (λ more. cut_in more ≡ cut_after_word (cut_in cutting)) }
{
    let Cutting {
        place: _,
        word,
        mut words,
    } = cutting;
    words.push(word)?;
    Ok(Cutting {
        place: ShellState::Between,
        word: String::new(alloc),
        words,
    })
}

// Continues after a character outside quotes that begins or continues a word.
fn bare(cutting: Cutting, character: char) -> Result<Cutting, AllocError>
    ensures { IfOk result (λ more. cut_in more ≡ bare (cut_in cutting) character) }
{
    match character {
        '\\' => Ok(move_on(cutting, ShellState::Escaped)),
        '\'' => Ok(move_on(cutting, ShellState::Single)),
        '"' => Ok(move_on(cutting, ShellState::Double)),
        _ => grow(cutting, ShellState::Bare, character),
    }
}

// Continues after a character between double quotes.
fn double(cutting: Cutting, character: char) -> Result<Cutting, AllocError>
    ensures { IfOk result (λ more. cut_in more ≡ after_at ShellState.Double (cut_in cutting) character) }
{
    match character {
        '"' => Ok(move_on(cutting, ShellState::Bare)),
        '\\' => Ok(move_on(cutting, ShellState::DoubleEscaped)),
        _ => grow(cutting, ShellState::Double, character),
    }
}

// Continues after a character that follows a backslash between double quotes.
fn double_escaped(cutting: Cutting, character: char) -> Result<Cutting, AllocError>
    ensures { IfOk result (λ more. cut_in more ≡ after_at ShellState.DoubleEscaped (cut_in cutting) character) }
{
    if is_escapable(character) {
        return grow(cutting, ShellState::Double, character);
    }
    let cutting = grow(cutting, ShellState::Double, '\\')?;
    grow(cutting, ShellState::Double, character)
}

// Continues after a character that is read in this state.
fn after_at(
    alloc: Global,
    place: ShellState,
    cutting: Cutting,
    character: char,
) -> Result<Cutting, AllocError>
    ensures { IfOk result (λ more. cut_in more ≡ after_at place (cut_in cutting) character) }
{
    match place {
        ShellState::Between if parts_words(character) => Ok(cutting),
        ShellState::Bare if parts_words(character) => part(alloc, cutting),
        ShellState::Between | ShellState::Bare => bare(cutting, character),
        ShellState::Escaped => grow(cutting, ShellState::Bare, character),
        ShellState::Single if character == '\'' => Ok(move_on(cutting, ShellState::Bare)),
        ShellState::Single => grow(cutting, ShellState::Single, character),
        ShellState::Double => double(cutting, character),
        ShellState::DoubleEscaped => double_escaped(cutting, character),
    }
}

// Continues after one more character.
fn after(alloc: Global, cutting: Cutting, character: char) -> Result<Cutting, AllocError>
    ensures { IfOk result (λ more. cut_in more ≡ after (cut_in cutting) character) }
{
    let place = cutting.place;
    after_at(alloc, place, cutting, character)
}

// Returns the words at the end of the text, or `None` if a quote is open or nothing follows a backslash.
fn end(cutting: Cutting) -> Result<Option<Vec<String>>, AllocError>
    ensures { IfOk result (λ words. option_map (λ w. strings_in w.items) words ≡ words_of_cut (cut_in cutting)) }
{
    let Cutting {
        place,
        word,
        mut words,
    } = cutting;
    match place {
        ShellState::Between => Ok(Some(words)),
        ShellState::Bare => {
            words.push(word)?;
            Ok(Some(words))
        }
        _ => Ok(None),
    }
}

/// Returns the words of a text, cut as a shell cuts them, or `None` if a quote is not closed or a backslash is the last character.
///
/// Blanks and newlines separate words. Outside quotes a backslash yields the character after it. Single quotes keep everything between
/// them. So do double quotes, but there `\"` and `\\` yield their second character.
pub fn words_of(alloc: Global, text: &str) -> Result<Option<Vec<String>>, AllocError>
    ensures value { IfOk result (λ words. option_map (λ w. strings_in w.items) words ≡ words_of text.now) }

    // These are the words as which the text is written. If there are none, the text is written as no words.
    ensures written { (given : List (List ℕ)) → IfOk result (λ words.
        (option_map (λ w. strings_in w.items) words ≡ Some given) ↔ AreWords (chars text.now) given) }
{
    let mut cutting = begun(alloc);
    for character in text.chars() {
        cutting = after(alloc, cutting, character)?;
    }
    end(cutting)
}
