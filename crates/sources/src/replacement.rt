//! Fills texts with placeholders.
ghost use Rattle.std.specs.Prelude.{◌≡◌, ◌==◌, ◌++◌, map, IfOk, OnOk, None, Some, option_map, string_bytes, if◌then◌else◌};
ghost use Rattle.std.specs.List.{slice_split};
ghost use Rattle.sources.specs.Holes.{meaning_of_name, behind_text, filled_behind, filled_parts, filled_text};
ghost use Rattle.sources.specs.HolesView.{place_view};
ghost use Rattle.support.specs.paths.Names.{has};

use crate::placeholders::{PlaceholderScope, PlaceholderValue, PlaceholderValues, meaning_of};
use std::alloc::{AllocError, Global};

// Returns the pieces of a text between its `@`.
fn pieces<'a>(alloc: Global, text: &'a str) -> Result<Vec<&'a str>, AllocError>
    ensures { IfOk result (λ pieces. map (λ s. s.now) pieces.items ≡ slice_split (λ b. b == 64) text.now) }
{
    text.split('@').collect(alloc)
}

// Appends two texts.
fn push_both(made: &mut String, first: &str, second: &str) -> Result<(), AllocError>
    ensures { OnOk result (string_bytes made.new ≡ (string_bytes made.old ++ first.now) ++ second.now) }
{
    made.push_str(first)?;
    made.push_str(second)
}

// Appends the parts after an `@`, with their placeholders replaced. Returns whether each placeholder has a value.
fn fill_behind(
    alloc: Global,
    scope: PlaceholderScope,
    place: &PlaceholderValues<'_>,
    made: &mut String,
    parts: &[&str],
) -> Result<bool, AllocError>
    ensures { IfOk result (λ done. (if done then Some (string_bytes made.new) else None)
        ≡ behind_text (string_bytes made.old) (filled_behind (meaning_of_name scope (place_view place.now)) (map (λ s. s.now) parts.now))) }
{
    let mut i = 0;
    while i < parts.len() {
        let name = parts[i];
        if i + 1 == parts.len() {
            push_both(made, "@", name)?;
            return Ok(true);
        }
        let text = parts[i + 1];
        let behind = i + 2;
        match meaning_of(alloc, scope, place, name)? {
            PlaceholderValue::Stays => {
                push_both(made, "@", name)?;
                i += 1;
            }
            PlaceholderValue::Refused => return Ok(false),
            PlaceholderValue::Lent(value) => {
                push_both(made, value, text)?;
                i = behind;
            }
            PlaceholderValue::Made(value) => {
                push_both(made, &value, text)?;
                i = behind;
            }
        }
    }
    Ok(true)
}

// Returns the text so far and the parts after an `@`, with their placeholders replaced, and `None` if one has no value.
fn filled_behind(
    alloc: Global,
    scope: PlaceholderScope,
    place: &PlaceholderValues<'_>,
    first: &str,
    parts: &[&str],
) -> Result<Option<String>, AllocError>
    ensures { IfOk result (λ r. option_map string_bytes r
        ≡ behind_text first.now (filled_behind (meaning_of_name scope (place_view place.now)) (map (λ s. s.now) parts.now))) }
{
    let mut made = String::from_str(alloc, first)?;
    if fill_behind(alloc, scope, place, &mut made, parts)? {
        Ok(Some(made))
    } else {
        Ok(None)
    }
}

// Returns the parts of a text with their placeholders replaced, and `None` if one has no value.
fn fill_parts(
    alloc: Global,
    scope: PlaceholderScope,
    place: &PlaceholderValues<'_>,
    parts: &[&str],
) -> Result<Option<String>, AllocError>
    ensures { IfOk result (λ r. option_map string_bytes r
        ≡ filled_parts (meaning_of_name scope (place_view place.now)) (map (λ s. s.now) parts.now)) }
{
    match parts {
        [] => Ok(Some(String::new(alloc))),
        [first, behind @ ..] => filled_behind(alloc, scope, place, first, behind),
    }
}

fn has_mark(text: &str) -> bool
    ensures { result ≡ has 64 text.now }
{
    text.as_bytes().contains(&b'@')
}

/// Returns the text with its placeholders replaced from the left, without scanning the result again.
///
/// Returns `None` if a placeholder has no value in this call (E9). Examples are `@INPUT@` inside an argument, `@BASENAME@` without exactly
/// one input, `@INPUT3@` past the last input, and `@DEPFILE@` without a depfile.
pub fn fill(
    alloc: Global,
    scope: PlaceholderScope,
    place: &PlaceholderValues<'_>,
    text: &str,
) -> Result<Option<String>, AllocError>
    ensures { IfOk result (λ r. option_map string_bytes r ≡ filled_text scope (place_view place.now) text.now) }
{
    if has_mark(text) {
        let parts = pieces(alloc, text)?;
        fill_parts(alloc, scope, place, &parts)
    } else {
        Ok(Some(String::from_str(alloc, text)?))
    }
}
