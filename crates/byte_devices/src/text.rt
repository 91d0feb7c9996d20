//! Reads texts in a slice, each ended by a zero byte.
ghost use Rattle.std.specs.Prelude.{◌≡◌, ◌++◌, ◌∷◌, [], IfOk, OnOk, IfSome, IfNone, List, ℕ, map, string_bytes};
ghost use Rattle.std.specs.List.{position};
ghost use Rattle.byte_devices.specs.Texts.{is_zero, BeginsWith, BeginsWithNone, SpellsTexts};

use std::alloc::{AllocError, Global};
use thiserror::Error;

/// Says why there are no texts.
#[derive(Clone, Copy, Debug, PartialEq, Eq, Drop, Error)]
pub enum TextsFault {
    /// The bytes aren't texts of UTF-8, each ended by a zero byte.
    #[error("the bytes are no texts of UTF-8, each ended by a zero byte")]
    Bytes,
    /// Memory ran out.
    #[error("out of memory")]
    Memory,
}

impl From<AllocError> for TextsFault {
    ghost use Rattle.byte_devices.specs.declared.text.TextsFault.TheVariants.{Memory};

    ghost from_gives = { λ _ fault. fault ≡ Memory };

    fn from(_error: AllocError) -> TextsFault {
        TextsFault::Memory
    }
}

fn zero_at(bytes: &[u8]) -> Option<usize>
    ensures { result ≡ position is_zero bytes.now }
{
    bytes.iter().position(|b| *b == 0)
}

/// Returns the text with which the bytes begin, up to a zero byte, or `None` if they begin with none.
pub fn first_text(bytes: &[u8]) -> Option<&str>
    ensures some { IfSome result (λ text. BeginsWith bytes.now text.now) }
    ensures none { IfNone result (BeginsWithNone bytes.now) }
{
    let Some(end) = zero_at(bytes) else {
        return None;
    };
    match str::from_utf8(&bytes[..end]) {
        Ok(text) => Some(text),
        Err(_) => None,
    }
}

fn push_copy(alloc: Global, texts: &mut Vec<String>, text: &str) -> Result<(), AllocError>
    ensures { OnOk result (map string_bytes texts.new.items ≡ map string_bytes texts.old.items ++ text.now ∷ []) }
{
    texts.push(String::from_str(alloc, text)?)?;
    Ok(())
}

/// Returns the texts that the bytes are, each ended by a zero byte.
pub fn texts(alloc: Global, bytes: &[u8]) -> Result<Vec<String>, TextsFault>
    ensures texts { IfOk result (λ v. SpellsTexts bytes.now (map string_bytes v.items)) }
    ensures bad { result ≡ Err TextsFault.Bytes → (texts : List (List ℕ)) → SpellsTexts bytes.now texts → ⊥ }
{
    let mut found = Vec::new(alloc);
    let mut at = 0;
    while at < bytes.len() {
        let Some(text) = first_text(&bytes[at..]) else {
            return Err(TextsFault::Bytes);
        };
        at += text.len() + 1;
        push_copy(alloc, &mut found, text)?;
    }
    Ok(found)
}
