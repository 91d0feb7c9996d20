//! Sends values to a serializer, and prints them with `serde_json`.
ghost use Rattle.std.specs.Prelude.{◌≡◌, IfOk, OnOk, Some, [], map, string_bytes};
ghost use Rattle.serde.specs.Event.{Log};
ghost use Rattle.serde_json.specs.Sent.{IsTextOf};
ghost use Rattle.introspection.specs.Document.{list};
ghost use Rattle.introspection.specs.Sending.{Sends};

use crate::json_values::Shown;
use serde::{Serialize, Serializer};
use std::alloc::{AllocError, Global};

/// Sends one value, and drops it.
pub fn send<T: Shown, S: Serializer>(alloc: Global, item: &T, out: &mut S) -> Result<(), S::Error>
    ensures { OnOk result (Sends (T.shown item.now) (S.written out.old) (S.written out.new)) }
{
    match item.value(alloc) {
        Ok(value) => value.serialize(out),
        Err(_) => Err(out.custom("out of memory")),
    }
}

/// Sends the list of these items, one value after another.
pub fn send_list<T: Shown, S: Serializer>(
    alloc: Global,
    items: &[T],
    out: &mut S,
) -> Result<(), S::Error>
    ensures { OnOk result (Sends (list (map T.shown items.now)) (S.written out.old) (S.written out.new)) }
{
    out.begin_seq(Some(items.len()))?;
    for item in items.iter() {
        send(alloc, item, out)?;
    }
    out.end_seq()
}

/// Returns the text that is printed of what `sender` sends.
pub fn printed<T: Serialize>(alloc: Global, sender: &T) -> Result<String, AllocError>
    ensures { IfOk result (λ s. (log : Log) × T.writes sender.now (Some []) log × IsTextOf log (string_bytes s)) }
{
    match serde_json::to_string(alloc, sender) {
        Ok(text) => Ok(text),
        Err(_) => Err(AllocError),
    }
}
