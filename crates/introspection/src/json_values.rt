//! Shows values of the project as JSON values, and lists of them.
ghost use Rattle.std.specs.Prelude.{◌≡◌, IfOk, OnOk, map, string_bytes};
ghost use Rattle.serde_json.specs.Data.{Data, string};
ghost use Rattle.serde_json.specs.View.{members_view, view};
ghost use Rattle.build.specs.edge.Texts.{texts};
ghost use Rattle.introspection.specs.Document.{list, strings, with_field};
ghost use Rattle.introspection.specs.Sending.{Reads};

use serde_json::{Map, Value, put};
use std::alloc::{AllocError, Global};

/// Shows something as one value of the document.
pub trait Shown {
    ghost shown: { Self → Data };

    /// Returns the value. A reader reads its text as this value.
    fn value(&self, alloc: Global) -> Result<Value, AllocError>
        ensures shows { IfOk result (λ v. view v ≡ shown self.now) }
        ensures reads { IfOk result (λ _. Reads (shown self.now)) };
}

impl Shown for String {
    ghost shown = { λ s. string (string_bytes s) };

    fn value(&self, alloc: Global) -> Result<Value, AllocError> {
        Value::try_from_str(alloc, self)
    }
}

/// Returns the list of the values of these.
pub fn list_of<T: Shown>(alloc: Global, items: &[T]) -> Result<Value, AllocError>
    ensures { IfOk result (λ v. view v ≡ list (map T.shown items.now)) }
{
    let mut values = Vec::new(alloc);
    for item in items {
        values.push(item.value(alloc)?)?;
    }
    Ok(Value::from(values))
}

/// Returns the list of these texts.
pub fn strings(alloc: Global, items: &[String]) -> Result<Value, AllocError>
    ensures { IfOk result (λ v. view v ≡ strings (texts items.now)) }
{
    list_of(alloc, items)
}

/// Adds a member with this key and text.
pub fn put_text(
    members: &mut Map<String, Value>,
    alloc: Global,
    key: &str,
    text: &str,
) -> Result<(), AllocError>
    ensures { OnOk result (members_view members.new.entries ≡ with_field (members_view members.old.entries) (key.now, string text.now)) }
{
    let value = Value::try_from_str(alloc, text)?;
    put(members, alloc, key, value)
}

/// Adds a member with this key and the list of these texts.
pub fn put_texts(
    members: &mut Map<String, Value>,
    alloc: Global,
    key: &str,
    items: &[String],
) -> Result<(), AllocError>
    ensures { OnOk result (members_view members.new.entries
        ≡ with_field (members_view members.old.entries) (key.now, strings (texts items.now))) }
{
    let value = strings(alloc, items)?;
    put(members, alloc, key, value)
}
