//! Defines faults: a refusal with its place and detail.

ghost use Rattle.std.specs.Prelude.{◌≡◌, ◌++◌, IfOk, string_bytes};
ghost use Rattle.support.specs.Faults.{detail_text, fault_text, fault_number, plain_fault};
ghost use Rattle.support.specs.View.{fault_view};

use crate::faults::Refusal;
use itoa::Buffer;
use std::alloc::{AllocError, Global};
use thiserror::Error;

/// Says why a run ended: the first refusal in the order of evaluation. It is one pointer in size, since most results could be one.
#[derive(Debug, Drop, Error)]
#[error("{}{}{}", .told.refusal, self.shown_detail().0, self.shown_detail().1)]
pub struct Fault {
    told: Box<Told>,
}

/// The content of a fault.
#[derive(Debug, Drop)]
struct Told {
    file: String,
    line: usize,
    refusal: Refusal,
    detail: String,
}

impl Fault {
    /// Returns a fault with a detail, which names what was refused.
    pub fn new(
        alloc: Global,
        file: &str,
        line: usize,
        refusal: Refusal,
        detail: &str,
    ) -> Result<Fault, AllocError>
        ensures { IfOk result (λ f. fault_view f ≡ record { file = file.now; line = line; refusal = refusal; detail = detail.now }) }
    {
        let file = String::from_str(alloc, file)?;
        let detail = String::from_str(alloc, detail)?;
        let told = Box::new(
            alloc,
            Told {
                file,
                line,
                refusal,
                detail,
            },
        )?;
        Ok(Fault { told })
    }

    /// Returns a fault without a detail: its place says enough.
    pub fn plain(
        alloc: Global,
        file: &str,
        line: usize,
        refusal: Refusal,
    ) -> Result<Fault, AllocError>
        ensures { IfOk result (λ f. fault_view f ≡ plain_fault file.now line refusal) }
    {
        Fault::new(alloc, file, line, refusal, "")
    }

    /// Returns the path of the file relative to the source root, or `<command line>` or `<machine file>`.
    pub fn file(&self) -> &str
        ensures { result.now ≡ (fault_view self.now).file }
    {
        &self.told.file
    }

    /// Returns the line in that file, from 1, or the number of an argument on the command line.
    pub fn line(&self) -> usize
        ensures { result ≡ (fault_view self.now).line }
    {
        self.told.line
    }

    /// Returns the refusal.
    pub fn refusal(&self) -> Refusal
        ensures { result ≡ (fault_view self.now).refusal }
    {
        self.told.refusal
    }

    /// Returns the name or path that was refused, or the message of E18. It is empty if there is no detail.
    pub fn detail(&self) -> &str
        ensures { result.now ≡ (fault_view self.now).detail }
    {
        &self.told.detail
    }

    // Returns what is printed of the detail: what precedes it, and the detail itself. Both are empty if the detail is not printed.
    fn shown_detail(&self) -> (&'static str, &str)
        ensures { result.0.now ++ result.1.now ≡ detail_text (fault_view self.now) }
    {
        match self.refusal().detail_sign() {
            Some(sign) => (sign, self.detail()),
            None => ("", ""),
        }
    }

    /// Returns the number, the words and the printed detail, as in `E5 undefined name: x`.
    pub fn text(&self, alloc: Global) -> Result<String, AllocError>
        ensures { IfOk result (λ text. string_bytes text ≡ fault_text (fault_view self.now)) }
    {
        let mut digits = Buffer::new();
        let mut text = String::from_str(alloc, "E")?;
        text.push_str(digits.format(self.number()))?;
        text.push_str(" ")?;
        text.push_str(self.refusal().words())?;
        let (sign, detail) = self.shown_detail();
        text.push_str(sign)?;
        text.push_str(detail)?;
        Ok(text)
    }

    /// Returns the number after the `E`.
    pub fn number(&self) -> u8
        ensures { result ≡ fault_number (fault_view self.now).refusal }
    {
        self.told.refusal.number()
    }
}
