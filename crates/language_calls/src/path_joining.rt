//! Implements `join_paths`, which makes one path of many.
ghost use Rattle.std.specs.Prelude.{◌≡◌, ◌++◌, ◌<◌, IfOk, [], ℕ, List, false, length, map, ok_or, option_map, string_bytes};
ghost use Rattle.arguments.specs.Stops.{Gives};
ghost use Rattle.values.specs.Data.{text as text_data};
ghost use Rattle.support.specs.paths.Below.{is_absolute, path_below};
ghost use Rattle.world.specs.Prelude.{Does, arguments_data, data_of, within, within_bytes};
ghost use Rattle.language_calls.specs.JoinPaths.{join_paths, path_of};

use arguments::{Arguments, CallStop};
use ports::{Outputs, Tree};
use std::alloc::{AllocError, Global};
use support::limits::TEXT_BYTES;
use support::paths::{ends_with_slash, is_absolute};
use values::{OperationRefusal, Value};
use world::{Caller, Stop};

// Returns a path followed by a piece, and `None` past the limit of a text.
fn lengthen(mut path: String, piece: &str) -> Result<Option<String>, AllocError>
    ensures { IfOk result (λ p. ok_or (option_map string_bytes p) OperationRefusal.Limit
        ≡ within_bytes (string_bytes path ++ piece.now)) }
{
    if path.len() + piece.len() > TEXT_BYTES {
        return Ok(None);
    }
    path.push_str(piece)?;
    Ok(Some(path))
}

// Returns a relative path below a path that is not empty.
fn below(mut path: String, text: &str) -> Result<Option<String>, AllocError>
    requires some { 0 < length (string_bytes path) }
    requires relative { is_absolute text.now ≡ false }
    ensures { IfOk result (λ p. ok_or (option_map string_bytes p) OperationRefusal.Limit
        ≡ within_bytes (path_below (string_bytes path) text.now)) }
{
    if ends_with_slash(path.as_str()) {
        return lengthen(path, text);
    }
    path.push_str("/")?;
    lengthen(path, text)
}

// Returns a path below one that may already be past the limit.
fn join(alloc: Global, path: Option<String>, text: &str) -> Result<Option<String>, AllocError>
    ensures { (before : List ℕ) → ok_or (option_map string_bytes path) OperationRefusal.Limit ≡ within_bytes before
        → IfOk result (λ p. ok_or (option_map string_bytes p) OperationRefusal.Limit ≡ within_bytes (path_below before text.now)) }
{
    if is_absolute(text) {
        return lengthen(String::new(alloc), text);
    }
    match path {
        Some(path) => {
            if path.is_empty() {
                lengthen(path, text)
            } else {
                below(path, text)
            }
        }
        None => Ok(None),
    }
}

// Returns each path below the one before it, from the first on, and `None` if the whole is past the limit.
fn path_of(alloc: Global, texts: &[&str]) -> Result<Option<String>, AllocError>
    ensures { IfOk result (λ p. ok_or (option_map string_bytes p) OperationRefusal.Limit
        ≡ within_bytes (path_of [] (map (λ t. t.now) texts.now))) }
{
    let mut path = Some(String::new(alloc));
    for text in texts {
        path = join(alloc, path, text)?;
    }
    Ok(path)
}

// Returns the joined path as a value.
fn path_value(alloc: Global, texts: &[&str]) -> Result<Value, CallStop>
    ensures { Gives data_of (within (text_data (path_of [] (map (λ t. t.now) texts.now)))) result }
{
    let Some(path) = path_of(alloc, texts)? else {
        return Err(OperationRefusal::Limit.into());
    };
    Ok(Value::of_string(alloc, path)??)
}

/// Runs `join_paths(texts..)`, which refuses a path that is too long with E22.
pub fn join_paths<T: Tree, O: Outputs>(
    caller: &Caller<'_, T, O>,
    arguments: &Arguments,
) -> Result<Option<Value>, Stop>
    ensures { Does T.seen O.seen (option_map data_of) (join_paths (arguments_data arguments.now)) caller.now result caller.now }
{
    let texts = arguments.all_texts(caller.alloc)?;
    let value = caller.settle(path_value(caller.alloc, &texts))?;
    Ok(Some(value))
}
