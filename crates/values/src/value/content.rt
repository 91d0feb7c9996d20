//! Takes values apart.
ghost use Rattle.std.specs.Prelude.{◌≡◌};
ghost use Rattle.values.specs.Content.{content_of};

use crate::text::Text;
use crate::value::{Dictionary, List, Value};
use std::rc::Rc;

/// Holds what is moved out of a value: its text, its list or its dictionary.
#[derive(Drop)]
pub enum Content {
    Text(Text),
    List(Rc<List>),
    Dictionary(Rc<Dictionary>),
    /// The value had another type, and was dropped.
    Other,
}

impl Value {
    /// Returns the text, the list or the dictionary of the value, and `Other` for another type.
    #[inline(always)]
    pub fn into_content(self) -> Content
        ensures { result ≡ content_of self }
    {
        match self {
            Value::Text(text) => Content::Text(text),
            Value::List(list) => Content::List(list),
            Value::Dictionary(dictionary) => Content::Dictionary(dictionary),
            Value::Boolean(_) | Value::Integer(_) | Value::Object(_) => Content::Other,
        }
    }
}
