//! Removes characters from the ends of a text.

ghost use Rattle.std.specs.Prelude.{◌≡◌, IfOk, nat_eq};
ghost use Rattle.std.specs.HashSet.{IsFromIterResult};
ghost use Rattle.std.specs.Str.{chars};
ghost use Rattle.values.specs.texts.Strip.{is_blank, is_among, is_in, stripped_text, without_first, without_last};

use std::alloc::{AllocError, Global};
use std::collections::HashSet;

// The characters to remove.
#[derive(Drop)]
enum Set {
    Blanks,
    Given(HashSet<char>),
}

impl Set {
    fn has(&self, c: char) -> bool
        ensures { result ≡ is_in self.now c }
    {
        match self {
            Set::Blanks => matches!(c, '\t'..='\r' | ' '),
            Set::Given(given) => given.contains(&c),
        }
    }
}

/// Returns the text without the ASCII white space at its ends: spaces, tabs, newlines, vertical tabs, form feeds and carriage returns.
pub fn strip(text: &str) -> &str
    ensures { result.now ≡ stripped_text is_blank text.now }
{
    without_both(text, &Set::Blanks)
}

/// Returns the text without the characters of `set` at its ends.
pub fn strip_of<'a>(alloc: Global, text: &'a str, set: &str) -> Result<&'a str, AllocError>
    ensures { IfOk result (λ s. s.now ≡ stripped_text (is_among set.now) text.now) }
{
    let given = set_of(alloc, set)?;
    Ok(without_both(text, &Set::Given(given)))
}

fn set_of(alloc: Global, text: &str) -> Result<HashSet<char>, AllocError>
    ensures { IfOk result (λ s. IsFromIterResult nat_eq (chars text.now) s) }
{
    text.chars().collect(alloc)
}

fn without_both<'a>(text: &'a str, set: &Set) -> &'a str
    ensures { result.now ≡ stripped_text (is_in set.now) text.now }
{
    without_last(without_first(text, set), set)
}

fn without_first<'a>(text: &'a str, set: &Set) -> &'a str
    ensures { chars result.now ≡ without_first (is_in set.now) (chars text.now) }
{
    let mut rest = text;
    loop {
        let mut left = rest.chars();
        let Some(first) = left.next() else {
            return rest;
        };
        if !set.has(first) {
            return rest;
        }
        rest = left.as_str();
    }
}

fn without_last<'a>(text: &'a str, set: &Set) -> &'a str
    ensures { chars result.now ≡ without_last (is_in set.now) (chars text.now) }
{
    let mut rest = text;
    loop {
        let mut left = rest.chars();
        let Some(last) = left.next_back() else {
            return rest;
        };
        let front = left.as_str();
        if !set.has(last) {
            return rest;
        }
        rest = front;
    }
}
