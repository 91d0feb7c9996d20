//! Prints a value piece by piece.

ghost use Rattle.std.specs.Prelude.{◌≡◌, ◌++◌, ◌∷◌, [], codes, OnOk, IfOk, MatchOption};
ghost use Rattle.values.specs.Prelude.{data_of, entries_of, items_of};
ghost use Rattle.values.specs.printing.Printed.{text_of_value};
ghost use Rattle.values.specs.printing.Pieces.{pieces, inside_pieces, item_pieces, entry_pieces, whole};
ghost use Rattle.values.specs.printing.Parts.{part_pieces, piece_bytes};

use crate::{Text, Value};
use std::alloc::{AllocError, Global};
use std::marker::Model;

/// Holds a piece of a printed value.
#[derive(Clone, Copy)]
pub enum Piece<'v> {
    /// A text, which may be empty.
    Text(&'v str),
    /// An integer, to be printed in decimal.
    Integer(i128),
}

/// Holds the parts of a value that are still to be printed.
///
/// The pieces, one after another, are the text that [`crate::printing::print`] describes. That text may be longer than any value can be,
/// and is never in memory as a whole. The work is linear in the size of the value.
#[derive(Drop)]
pub struct Printer<'v> {
    // The next part is last.
    parts: Vec<Part<'v>>,
}

// A part that is still to be printed.
#[derive(Clone, Copy)]
enum Part<'v> {
    Text(&'v str),
    // A value inside a list or a dictionary.
    Value(&'v Value),
    // Items of a list, and its closing bracket.
    Items {
        items: &'v [Value],
        is_first: bool,
    },
    // Entries of a dictionary, and its closing brace.
    Entries {
        keys: &'v [Text],
        values: &'v [Value],
        is_first: bool,
    },
}

impl<'v> Model for Printer<'v> {
    ghost use Rattle.std.specs.Prelude.{List, ℕ};
    ghost use Rattle.values.specs.printing.Parts.{remaining_pieces};

    ghost Value = { List (List ℕ) };

    ghost view = { λ p. remaining_pieces p.parts.items };
}

impl<'v> Printer<'v> {
    /// Returns a printer of a value.
    pub fn new(alloc: Global, value: &'v Value) -> Result<Printer<'v>, AllocError>
        ensures pieces { IfOk result (λ p. p ≡ pieces (data_of value.entry.now)) }
        ensures whole { IfOk result (λ p. whole p ≡ text_of_value (data_of value.entry.now)) }
    {
        let mut printer = Printer {
            parts: Vec::new(alloc),
        };
        let part = match value {
            Value::Text(text) => Part::Text(text.as_str()),
            _ => Part::Value(value),
        };
        printer.push(part)?;
        Ok(printer)
    }

    /// Returns the next piece, and `None` once all is printed.
    pub fn next(&mut self) -> Result<Option<Piece<'v>>, AllocError>
        ensures { IfOk result (λ r. MatchOption r (self.old ≡ []) (λ p. self.old ≡ piece_bytes p ∷ self.new)) }
    {
        let Some(part) = self.parts.pop() else {
            return Ok(None);
        };
        let piece = match part {
            Part::Text(text) => Piece::Text(text),
            Part::Value(value) => self.open(value)?,
            Part::Items { items, is_first } => self.next_item(items, is_first)?,
            Part::Entries {
                keys,
                values,
                is_first,
            } => self.next_entry(keys, values, is_first)?,
        };
        Ok(Some(piece))
    }

    fn push(&mut self, part: Part<'v>) -> Result<(), AllocError>
        ensures { OnOk result (self.new ≡ part_pieces part.entry ++ self.old) }
    {
        self.parts.push(part)?;
        Ok(())
    }

    // Returns the first piece of a value inside a list or a dictionary, and pushes the other parts of the value.
    fn open(&mut self, value: &'v Value) -> Result<Piece<'v>, AllocError>
        ensures { IfOk result (λ p. inside_pieces (data_of value.entry.now) ++ self.old ≡ piece_bytes p ∷ self.new) }
    {
        match value {
            Value::Boolean(true) => Ok(Piece::Text("true")),
            Value::Boolean(false) => Ok(Piece::Text("false")),
            Value::Integer(integer) => Ok(Piece::Integer(*integer)),
            Value::Text(text) => {
                self.push(Part::Text("'"))?;
                self.push(Part::Text(text.as_str()))?;
                Ok(Piece::Text("'"))
            }
            Value::List(list) => {
                let items = list.items();
                self.push(Part::Items {
                    items,
                    is_first: true,
                })?;
                Ok(Piece::Text("["))
            }
            Value::Dictionary(dictionary) => {
                let keys = dictionary.keys();
                let values = dictionary.values();
                self.push(Part::Entries {
                    keys,
                    values,
                    is_first: true,
                })?;
                Ok(Piece::Text("{"))
            }
            Value::Object(_) => Ok(Piece::Text("")),
        }
    }

    // Returns what is printed before the next item, or after the last one, and pushes the remaining items.
    fn next_item(&mut self, items: &'v [Value], is_first: bool) -> Result<Piece<'v>, AllocError>
        ensures { IfOk result (λ p. item_pieces is_first (items_of items.entry.now) ++ self.old ≡ piece_bytes p ∷ self.new) }
    {
        let Some((item, items)) = items.split_first() else {
            return Ok(Piece::Text("]"));
        };
        self.push(Part::Items {
            items,
            is_first: false,
        })?;
        self.push(Part::Value(item))?;
        Ok(Piece::Text(if is_first { "" } else { ", " }))
    }

    // Returns what is printed before the key of the next entry, or after the last one, and pushes the remaining entries.
    fn next_entry(
        &mut self,
        keys: &'v [Text],
        values: &'v [Value],
        is_first: bool,
    ) -> Result<Piece<'v>, AllocError>
        ensures { IfOk result (λ p. entry_pieces is_first (entries_of keys.entry.now values.entry.now) ++ self.old
            ≡ piece_bytes p ∷ self.new) }
    {
        let Some((key, keys)) = keys.split_first() else {
            return Ok(Piece::Text("}"));
        };
        let Some((value, values)) = values.split_first() else {
            return Ok(Piece::Text("}"));
        };
        self.push(Part::Entries {
            keys,
            values,
            is_first: false,
        })?;
        self.push_entry(key, value)?;
        Ok(Piece::Text(if is_first { "'" } else { ", '" }))
    }

    // Pushes a key, whose opening `'` is already printed, and its value.
    fn push_entry(&mut self, key: &'v Text, value: &'v Value) -> Result<(), AllocError>
        ensures { OnOk result (self.new ≡ key.entry.now ∷ codes "' : " ∷ (inside_pieces (data_of value.entry.now) ++ self.old)) }
    {
        self.push(Part::Value(value))?;
        self.push(Part::Text("' : "))?;
        self.push(Part::Text(key.as_str()))
    }
}
