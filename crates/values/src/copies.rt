//! Copies strings to texts, and texts to strings.
ghost use Rattle.std.specs.Prelude.{◌≡◌, ◌++◌, ◌∷◌, [], IfOk, OnOk, map, string_bytes};
ghost use Rattle.values.specs.Copies.{short_texts, within_texts};

use crate::refusal::OperationRefusal;
use crate::text::{Text, Texts};
use std::alloc::{AllocError, Global};
use support::limits::ITEMS;

/// Appends a copy of `text`.
pub fn push_string(alloc: Global, strings: &mut Vec<String>, text: &str) -> Result<(), AllocError>
    ensures { OnOk result (map string_bytes strings.new.items ≡ map string_bytes strings.old.items ++ text.now ∷ []) }
{
    strings.push(String::from_str(alloc, text)?)?;
    Ok(())
}

/// Appends copies of `texts`.
pub fn push_strings(
    alloc: Global,
    strings: &mut Vec<String>,
    texts: &[Text],
) -> Result<(), AllocError>
    ensures { OnOk result (map string_bytes strings.new.items ≡ map string_bytes strings.old.items ++ texts.now) }
{
    for text in texts {
        push_string(alloc, strings, text.as_str())?;
    }
    Ok(())
}

/// Returns copies of texts as strings.
pub fn strings(alloc: Global, texts: &[Text]) -> Result<Vec<String>, AllocError>
    ensures { IfOk result (λ v. map string_bytes v.items ≡ texts.now) }
{
    let mut strings = Vec::new(alloc);
    push_strings(alloc, &mut strings, texts)?;
    Ok(strings)
}

/// Returns copies of strings as texts, or `OperationRefusal::Limit` if one is longer than 16,777,216 bytes.
pub fn short_texts(
    alloc: Global,
    strings: &[String],
) -> Result<Result<Texts, OperationRefusal>, AllocError>
    ensures { IfOk result (λ r. r ≡ short_texts (map string_bytes strings.now)) }
{
    let mut texts = Texts::new(alloc);
    for string in strings {
        match Text::of_str(alloc, string.as_str())? {
            Ok(text) => texts.push(text)?,
            Err(refusal) => return Ok(Err(refusal)),
        }
    }
    Ok(Ok(texts))
}

/// Returns copies of strings as texts, or `OperationRefusal::Limit` if one is too long or there are more than 65,536.
pub fn within_texts(
    alloc: Global,
    strings: &[String],
) -> Result<Result<Texts, OperationRefusal>, AllocError>
    ensures { IfOk result (λ r. r ≡ within_texts (map string_bytes strings.now)) }
{
    if strings.len() > ITEMS {
        return Ok(Err(OperationRefusal::Limit));
    }
    short_texts(alloc, strings)
}
