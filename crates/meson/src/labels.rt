//! Keeps the labels of the lines of questions.

ghost use Rattle.std.specs.Prelude.{◌≡◌, ◌<◌, ◌++◌, ◌∷◌, [], ℕ, List, IfOk, OnOk, bytes_eq, length, not, slice_index_or, slice_set, if◌then◌else◌};
ghost use Rattle.std.specs.List.{IsDistinct, list_any};
ghost use Rattle.code.specs.Names.{with_name};
ghost use Rattle.meson.specs.Labels.{Fits, Knows, held_in};
ghost use Rattle.meson.specs.Questions.{is_told};

use code::Names;
use std::alloc::{AllocError, Global};

/// Keeps labels. The second part of a label is kept once for all labels that have it.
#[derive(Drop)]
pub struct Labels {
    pub alloc: Global,
    /// The second parts.
    pub besides: Names,
    /// For each second part, the first parts of its labels.
    pub heads: Vec<Names>,
}

impl Labels {
    /// Returns no labels.
    pub fn new(alloc: Global) -> Labels
        ensures fits { Fits result }
        ensures knows { Knows result [] }
    {
        Labels {
            alloc,
            besides: Names::new(alloc),
            heads: Vec::new(alloc),
        }
    }

    // Returns the number of a second part, which is added if it is new.
    fn number_of(&mut self, beside: &str) -> Result<usize, AllocError>
        requires { Fits self.old }
        ensures fits { OnOk result (Fits self.new) }
        ensures within { IfOk result (λ n. n < length self.new.besides) }
        ensures at { IfOk result (λ n. slice_index_or self.new.besides n [] ≡ beside.now) }
        ensures apart { OnOk result (IsDistinct bytes_eq self.new.besides) }
        ensures same { (l : List ℕ × List ℕ) → OnOk result
            (held_in self.new.besides self.new.heads.items l ≡ held_in self.old.besides self.old.heads.items l) }
    {
        let count = self.besides.len();
        let number = self.besides.put(beside)?;
        if count < self.besides.len() {
            self.heads.push(Names::new(self.alloc))?;
        }
        Ok(number)
    }

    /// Adds a label, and returns whether it is new.
    pub fn add(&mut self, head: &str, beside: &str) -> Result<bool, AllocError>
        requires { Fits self.old }
        ensures fits { OnOk result (Fits self.new) }
        ensures new { (told : List (List ℕ × List ℕ)) → Knows self.old told
            → IfOk result (λ new. new ≡ not (is_told (head.now, beside.now) told)) }
        ensures knows { (told : List (List ℕ × List ℕ)) → Knows self.old told
            → IfOk result (λ new. Knows self.new (if new then told ++ (head.now, beside.now) ∷ [] else told)) }
    {
        let number = self.number_of(beside)?;
        self.add_head(number, head)
    }

    // Adds a first part to those of a second part, and returns whether it is new.
    fn add_head(&mut self, number: usize, head: &str) -> Result<bool, AllocError>
        requires { number < length self.old.heads.items }
        ensures besides { self.new.besides ≡ self.old.besides }
        ensures new { IfOk result (λ new. new ≡ not (list_any (bytes_eq head.now) (slice_index_or self.old.heads.items number []))) }
        ensures heads { OnOk result (self.new.heads.items
            ≡ slice_set self.old.heads.items number (with_name head.now (slice_index_or self.old.heads.items number []))) }
    {
        let heads = &mut self.heads[number];
        let count = heads.len();
        heads.put(head)?;
        Ok(heads.len() != count)
    }
}
