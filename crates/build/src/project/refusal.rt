//! Says why a project refuses what it is given, and which text is at fault. The words are made only if something is refused.
ghost use Rattle.std.specs.Prelude.{◌≡◌, IfOk, Err as Refuses, string_bytes};
ghost use Rattle.build.specs.project.Refused.{answer_data, detail_for_text, refusal_for_text};

use std::alloc::{AllocError, Global};
use support::faults::Refusal;
use thiserror::Error;

/// Holds why a project refuses what it is given: E9, E11, E14, E21, E22 or E24.
#[derive(Debug, Drop, Error)]
#[error("{why}{}{detail}", if .detail.is_empty() {""} else {": "})]
pub struct ProjectError {
    pub why: Refusal,
    /// The details, in words.
    pub detail: String,
}

// Returns the details for a path, a word or the name of a target.
fn detail_for_text(alloc: Global, why: Refusal, text: &str) -> Result<String, AllocError>
    ensures { IfOk result (λ words. string_bytes words ≡ detail_for_text why text.now) }
{
    match why {
        Refusal::NinjaName => format!(in alloc; "'{text}': has what Ninja can't hold"),
        Refusal::Duplicate => format!(in alloc; "output '{text}': exists already"),
        Refusal::Limit => {
            String::from_str(alloc, "a list of the target: has more than 65,536 items")
        }
        Refusal::LateArguments => format!(in alloc; "target '{text}': is declared before"),
        _ => Ok(String::new(alloc)),
    }
}

/// Returns the refusal for this text.
#[tactic(auto, unfolding(crate::specs::project::Refused::refusal_for_text))]
pub fn refuse<A>(
    alloc: Global,
    why: Refusal,
    text: &str,
) -> Result<Result<A, ProjectError>, AllocError>
    ensures { IfOk result (λ answer. answer_data answer ≡ Refuses (refusal_for_text why text.now)) }
{
    let detail = detail_for_text(alloc, why, text)?;
    Ok(Err(ProjectError { why, detail }))
}
