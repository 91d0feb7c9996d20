//! Splits a text at its placeholders, as `@0@` or `@name@`.

ghost use Rattle.std.specs.Prelude.{◌≡◌, ◌<◌, ◌≤◌, ◌++◌, ◌∷◌, [], ℕ, length, map, drop, OnOk, IfOk, IfSome, MatchOption};
ghost use Rattle.std.specs.List.{prefix_len, flat_map};
ghost use Rattle.values.specs.texts.Segments.{place, name_length, place_length, segments, segment_data, text_of_segment, place_number};
ghost use Rattle.values.specs.texts.Segments.{is_number, is_name_byte, text_segments};

use crate::texts::number::are_digits;
use std::alloc::{AllocError, Global};
use versions::digit_count;

/// Says how the placeholders of a text are named.
#[derive(Clone, Copy)]
pub enum Places {
    /// Digits, as in `@0@`.
    Numbers,
    /// Letters, digits and underscores, not beginning with a digit, as in `@name@`.
    Names,
}

/// Holds a part of a text with placeholders.
#[derive(Clone, Copy)]
pub enum Segment<'t> {
    /// The text between placeholders. It is not empty.
    Text(&'t str),
    /// The name between the two `@` of a placeholder.
    Place(&'t str),
}

/// Returns the segments of a text, in order: its placeholders, and the text between them.
///
/// Placeholders are found from the left and never overlap.
pub fn segments(alloc: Global, places: Places, text: &str) -> Result<Vec<Segment<'_>>, AllocError>
    ensures segments { IfOk result (λ ss. map segment_data ss.items ≡ segments places text.now) }
    ensures spelled { IfOk result (λ ss. flat_map text_of_segment (map segment_data ss.items) ≡ text.now) }
{
    let mut found = Vec::new(alloc);
    push_segments(&mut found, places, text)?;
    Ok(found)
}

// Appends the segments of a text.
fn push_segments<'t>(
    found: &mut Vec<Segment<'t>>,
    places: Places,
    text: &'t str,
) -> Result<(), AllocError>
    ensures { OnOk result (map segment_data found.new.items ≡ map segment_data found.old.items ++ segments places text.now) }
{
    let mut rest = text;
    while let Some((before, name, after)) = first_place(places, rest) {
        push_text(found, before)?;
        found.push(Segment::Place(name))?;
        rest = after;
    }
    push_text(found, rest)
}

/// Returns the number that the digits of a placeholder spell, and `None` for another name or if a `usize` cannot hold the number.
pub fn place_number(name: &str) -> Option<usize>
    ensures { result ≡ place_number name.now }
{
    if let [byte] = name.as_bytes() {
        return digit_of(*byte);
    }
    if !is_number(name.as_bytes()) {
        return None;
    }
    match name.parse::<usize>() {
        Ok(number) => Some(number),
        Err(_) => None,
    }
}

// Returns the number that one byte spells, and `None` if it is no digit.
fn digit_of(byte: u8) -> Option<usize>
    ensures { result ≡ place_number (byte ∷ []) }
{
    if byte.is_ascii_digit() {
        Some(usize::from(byte - b'0'))
    } else {
        None
    }
}

fn is_number(name: &[u8]) -> bool
    ensures { result ≡ is_number name.now }
{
    !name.is_empty() && are_digits(name)
}

// Appends a text as a segment, unless it is empty.
fn push_text<'t>(found: &mut Vec<Segment<'t>>, text: &'t str) -> Result<(), AllocError>
    ensures { OnOk result (map segment_data found.new.items ≡ map segment_data found.old.items ++ text_segments text.now) }
{
    if !text.is_empty() {
        found.push(Segment::Text(text))?;
    }
    Ok(())
}

// Returns the text before the first placeholder, the name of the placeholder, and the text after it.
fn first_place(places: Places, text: &str) -> Option<(&str, &str, &str)>
    ensures first { MatchOption result (segments places text.now ≡ text_segments text.now)
        (λ p. segments places text.now ≡ text_segments p.0.now ++ (place p.1.now ∷ segments places p.2.now)) }
    ensures shorter { IfSome result (λ p. length p.2.now < length text.now) }
{
    let (before, rest) = text.split_at(bytes_before_place(places, text.as_bytes()));
    let count = place_length(places, rest.as_bytes());
    if count == 0 {
        return None;
    }
    Some((before, &rest[1..count + 1], &rest[count + 2..]))
}

// Returns how many bytes precede the first placeholder.
fn bytes_before_place(places: Places, text: &[u8]) -> usize
    ensures within { result ≤ length text.now }
    ensures before { (k : ℕ) → k < result → place_length places (drop k text.now) ≡ 0 }
    ensures place { result < length text.now → 0 < place_length places (drop result text.now) }
{
    for i in 0..text.len() {
        if place_length(places, &text[i..]) != 0 {
            return i;
        }
    }
    text.len()
}

// Returns the length of the name if a text begins with a placeholder, and 0 otherwise.
fn place_length(places: Places, text: &[u8]) -> usize
    ensures { result ≡ place_length places text.now }
{
    let Some((first, rest)) = text.split_first() else {
        return 0;
    };
    if *first != b'@' {
        return 0;
    }
    let count = name_length(places, rest);
    if count < rest.len() && rest[count] == b'@' {
        count
    } else {
        0
    }
}

// Returns how many bytes at the start of a text can name a placeholder.
fn name_length(places: Places, bytes: &[u8]) -> usize
    ensures count { result ≡ name_length places bytes.now }
    ensures within { result ≤ length bytes.now }
{
    match places {
        Places::Numbers => digit_count(bytes),
        Places::Names => match bytes {
            [first, ..] => {
                if first.is_ascii_alphabetic() || *first == b'_' {
                    name_count(bytes)
                } else {
                    0
                }
            }
            [] => 0,
        },
    }
}

// Returns how many letters, digits and underscores a text begins with.
fn name_count(bytes: &[u8]) -> usize
    ensures count { result ≡ prefix_len is_name_byte bytes.now }
    ensures within { result ≤ length bytes.now }
{
    for (i, b) in bytes.iter().enumerate() {
        if !is_name_byte(*b) {
            return i;
        }
    }
    bytes.len()
}

fn is_name_byte(b: u8) -> bool
    ensures { result ≡ is_name_byte b }
{
    b.is_ascii_alphanumeric() || b == b'_'
}
