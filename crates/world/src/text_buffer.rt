//! Stores texts one after another in one buffer.
use std::alloc::{AllocError, Global};
use std::marker::Model;

/// Holds the slice that a text takes.
#[derive(Clone, Copy)]
pub struct Span {
    pub from: usize,
    pub length: usize,
}

/// Holds a list of texts in one buffer, so that a further text seldom allocates.
#[derive(Drop)]
pub struct Trail {
    whole: String,
    spans: Vec<Span>,
}

impl Model for Trail {
    ghost use Rattle.std.specs.Prelude.{◌≡◌, ℕ, List, string_bytes, true};
    ghost use Rattle.world.specs.Trail.{are_within, pieces};

    ghost Value = { List (List ℕ) };

    ghost view = { λ t. pieces (string_bytes t.whole) t.spans.items };

    ghost invariant = { λ t. are_within (string_bytes t.whole) t.spans.items ≡ true };
}

impl Trail {
    ghost use Rattle.std.specs.Prelude.{◌≡◌, ◌++◌, ◌∷◌, [], OnOk};

    /// Returns an empty list.
    pub fn new(alloc: Global) -> Trail
        ensures { result ≡ [] }
    {
        Trail {
            whole: String::new(alloc),
            spans: Vec::new(alloc),
        }
    }

    /// Appends a text.
    pub fn push(&mut self, text: &str) -> Result<(), AllocError>
        ensures { OnOk result (self.new ≡ self.old ++ text.now ∷ []) }
    {
        let from = self.whole.as_str().len();
        self.whole.push_str(text)?;
        let length = text.len();
        self.spans.push(Span { from, length })?;
        Ok(())
    }
}
