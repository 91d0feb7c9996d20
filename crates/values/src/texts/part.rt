//! Returns substrings by indexes that count characters.

ghost use Rattle.std.specs.Prelude.{◌≡◌, ◌≤◌, ℕ, IfSome, length, drop, min, take};
ghost use Rattle.std.specs.Str.{chars, encode_utf8_all, IsAscii};
ghost use Rattle.values.specs.texts.Part.{part, place, place_or};

use crate::text::Text;

/// Returns the part of `text` from the character at `from` up to the one at `to`, without the latter.
///
/// A negative index counts from the end, and both are clamped to the range. Without `from` the part begins at the start, without `to` it
/// goes to the end. If the end is before the start, the part is empty.
///
/// In a text of ASCII bytes both places are found in one step. Another text is read up to them, and to its end for a negative index.
pub fn substring(text: &Text, from: Option<i128>, to: Option<i128>) -> &str
    ensures { result.now ≡ part from to text.now }
{
    if text.is_ascii() {
        ascii_part(text.as_str(), from, to)
    } else {
        counted_part(text.as_str(), from, to)
    }
}

// Returns the part of a text in which each character is one byte.
fn ascii_part(text: &str, from: Option<i128>, to: Option<i128>) -> &str
    requires { IsAscii text.now }
    ensures { result.now ≡ part from to text.now }
{
    let count = text.len();
    let start = place_or(from, count, 0);
    let end = place_or(to, count, count).max(start);
    &text[start..end]
}

// Returns the part of a text whose characters have to be counted.
fn counted_part(text: &str, from: Option<i128>, to: Option<i128>) -> &str
    ensures { result.now ≡ part from to text.now }
{
    let count = count_for(text, from, to);
    let start = place_or(from, count, 0);
    let end = place_or(to, count, count);
    let rest = without_chars(text, start);
    first_chars(rest, end.saturating_sub(start))
}

fn place_or(index: Option<i128>, count: usize, other: usize) -> usize
    ensures place { result ≡ place_or index count other }
    ensures within { other ≤ count → result ≤ count }
{
    match index {
        Some(index) => place(index, count),
        None => other,
    }
}

// Returns the position that an index denotes among `count` characters.
fn place(index: i128, count: usize) -> usize
    ensures place { result ≡ place index count }
    ensures within { result ≤ count }
{
    let (back, steps) = (index < 0, index.unsigned_abs());
    if steps > count as u128 {
        return if back { 0 } else { count };
    }
    let steps = steps as usize;
    if back { count - steps } else { steps }
}

// Returns how many characters from the start decide both positions, and `None` if the whole text has to be counted.
fn needed(from: Option<i128>, to: Option<i128>) -> Option<usize>
    ensures { IfSome result (λ most. (count : ℕ) → (place_or from (min most count) 0 ≡ place_or from count 0)
        × (place_or to (min most count) (min most count) ≡ place_or to count count)) }
{
    let end = usize::try_from(to?).ok()?;
    match from {
        None => Some(end),
        Some(from) => Some(end.max(usize::try_from(from).ok()?)),
    }
}

// Returns the number of characters, or as many of them as decide both positions. So a walk goes no further than needed.
fn count_for(text: &str, from: Option<i128>, to: Option<i128>) -> usize
    ensures start { place_or from result 0 ≡ place_or from (length (chars text.now)) 0 }
    ensures end { place_or to result result ≡ place_or to (length (chars text.now)) (length (chars text.now)) }
{
    match needed(from, to) {
        Some(most) => char_count_to(text, most),
        None => char_count(text),
    }
}

fn char_count(text: &str) -> usize
    ensures { result ≡ length (chars text.now) }
{
    text.chars().count()
}

// Returns the number of characters, or `most` if there are more.
fn char_count_to(text: &str, most: usize) -> usize
    ensures { result ≡ min most (length (chars text.now)) }
{
    char_count(first_chars(text, most))
}

// Returns the text after its first `count` characters.
fn without_chars(text: &str, count: usize) -> &str
    ensures text { result.now ≡ encode_utf8_all (drop count (chars text.now)) }
    ensures within { length result.now ≤ length text.now }
{
    let mut rest = text.chars();
    'each: for _ in 0..count {
        let Some(_) = rest.next() else {
            break;
        };
    }
    rest.as_str()
}

// Returns the first `count` characters of a text.
fn first_chars(text: &str, count: usize) -> &str
    ensures { result.now ≡ encode_utf8_all (take count (chars text.now)) }
{
    let rest = without_chars(text, count);
    &text[..text.len() - rest.len()]
}
