//! Holds the choices of an option.

ghost use Rattle.std.specs.Prelude.{◌≡◌, ℕ, List, IfOk};
ghost use Rattle.support.specs.Among.{is_among};
ghost use Rattle.machine_file.specs.View.{strings_in};

use std::alloc::{AllocError, Global};
use support::tables::{SipSet, new_set};

/// Holds the texts that an option takes, in their order. A text may occur twice. The time of a look-up does not depend on their number.
pub struct Choices {
    texts: Vec<String>,
    known: SipSet<String>,
    ghost same: { (text : List ℕ) → is_among (strings_in known.keys) text ≡ is_among (strings_in texts.items) text },
}

impl Drop for Choices {
    fn drop(self) {
        let Choices { texts: _, known: _ } = self;
    }
}

// Returns the set of the texts.
fn set_of(alloc: Global, texts: &[String]) -> Result<SipSet<String>, AllocError>
    ensures { (text : List ℕ) → IfOk result (λ known. is_among (strings_in known.keys) text ≡ is_among (strings_in texts.now) text) }
{
    let mut known = new_set(alloc);
    for text in texts {
        let text = String::from_str(alloc, text.as_str())?;
        known.insert(text)?;
    }
    Ok(known)
}

impl Choices {
    ghost use Rattle.option_values.specs.View.{texts_of};

    /// Returns these texts as choices.
    pub fn new(alloc: Global, texts: Vec<String>) -> Result<Choices, AllocError>
        ensures { IfOk result (λ choices. texts_of choices ≡ strings_in texts.items) }
    {
        let known = set_of(alloc, &texts)?;
        Ok(Choices { texts, known })
    }

    /// Returns the texts, in their order.
    pub fn texts(&self) -> &[String]
        ensures { strings_in result.now ≡ texts_of self.now }
    {
        &self.texts
    }

    /// Returns whether the text is one of the choices.
    pub fn has(&self, text: &str) -> bool
        ensures { result ≡ is_among (texts_of self.now) text.now }
    {
        self.known.contains(text)
    }
}
