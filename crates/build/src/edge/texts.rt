//! Appends to lists of texts, and removes repetitions from them.
ghost use Rattle.std.specs.Prelude.{◌≡◌, ◌++◌, ◌∷◌, [], bytes_eq, map, option_map, string_bytes, IfOk};
ghost use Rattle.std.specs.List.{list_any};
ghost use Rattle.build.specs.edge.Texts.{texts, first_kept, holds, put_new};

use std::alloc::{AllocError, Global};
use support::tables::{SipSet, new_set};
use support::text_lists::copies;

/// Returns the text borrowed, if there is one.
pub fn lend_text(text: &Option<String>) -> Option<&str>
    ensures { option_map (λ s. s.now) result ≡ option_map string_bytes text.now }
{
    match text {
        None => None,
        Some(string) => Some(string.as_str()),
    }
}

/// Appends the text.
pub fn push_text(to: &mut Vec<String>, text: &str) -> Result<(), AllocError>
    ensures { IfOk result (λ _. texts to.new.items ≡ texts to.old.items ++ text.now ∷ []) }
{
    let text = String::from_str(*to.allocator(), text)?;
    to.push(text)?;
    Ok(())
}

/// Appends each of these texts.
pub fn push_all(to: &mut Vec<String>, parts: &[&str]) -> Result<(), AllocError>
    ensures { IfOk result (λ _. texts to.new.items ≡ texts to.old.items ++ map (λ p. p.now) parts.now) }
{
    for part in parts {
        push_text(to, part)?;
    }
    Ok(())
}

/// Appends a copy of each string.
pub fn push_copies(to: &mut Vec<String>, from: &[String]) -> Result<(), AllocError>
    ensures { IfOk result (λ _. texts to.new.items ≡ texts to.old.items ++ texts from.now) }
{
    for string in from {
        to.push(string.clone()?)?;
    }
    Ok(())
}

// Up to this many texts are compared with each other, which is faster than a set.
const FEW: usize = 8;

fn is_one_of(list: &[String], text: &str) -> bool
    ensures { result ≡ list_any (λ s. bytes_eq text.now (string_bytes s)) list.now }
{
    list.iter().any(|other| text == other.as_str())
}

fn stands_in(list: &[String], text: &str) -> bool
    ensures { result ≡ holds text.now (texts list.now) }
{
    is_one_of(list, text)
}

// Appends the text, unless the list has it.
fn put_new(kept: &mut Vec<String>, text: &String) -> Result<(), AllocError>
    ensures { IfOk result (λ _. texts kept.new.items ≡ put_new (texts kept.old.items) (string_bytes text.now)) }
{
    if !stands_in(kept, text) {
        kept.push(text.clone()?)?;
    }
    Ok(())
}

// Keeps the first of equal texts, for few texts.
fn first_of_few(alloc: Global, all: &[String]) -> Result<Vec<String>, AllocError>
    ensures { IfOk result (λ v. texts v.items ≡ first_kept (texts all.now)) }
{
    let mut kept = Vec::new(alloc);
    for text in all {
        put_new(&mut kept, text)?;
    }
    Ok(kept)
}

fn first_by_set(alloc: Global, all: &[String]) -> Result<Vec<String>, AllocError>
    ensures { IfOk result (λ v. texts v.items ≡ first_kept (texts all.now)) }
{
    let mut kept = new_set(alloc);
    for text in all {
        kept.insert(text.clone()?)?;
    }
    copies(alloc, kept.as_slice())
}

/// Returns the texts without repetitions. The first of equal texts stays.
pub fn first_kept(alloc: Global, all: &[String]) -> Result<Vec<String>, AllocError>
    ensures { IfOk result (λ v. texts v.items ≡ first_kept (texts all.now)) }
{
    if all.len() <= FEW {
        first_of_few(alloc, all)
    } else {
        first_by_set(alloc, all)
    }
}

/// Returns whether the text is one of those in the set.
pub fn holds(set: &SipSet<String>, text: &str) -> bool
    ensures { result ≡ holds text.now (texts set.now.keys) }
{
    set.contains(text)
}
