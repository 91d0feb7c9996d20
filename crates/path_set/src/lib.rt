//! Keeps the set of the paths that a project makes.
//!
//! # Decisions
//!
//! **Paths are inserted, and taken out again if one is taken.** So each path is looked up once. The set stays as it was if a path is taken
//! or memory runs out.
#![tactic(auto)]

ghost use Rattle.std.specs.Prelude.{◌≡◌, ◌++◌, IfOk, OnErr, ◌&&◌, not, is_some, None, option_map, if◌then◌else◌};
ghost use Rattle.support.specs.Texts.{texts};
ghost use Rattle.path_set.specs.Paths.{IsFront, first_taken};

use std::alloc::AllocError;
use support::tables::SipSet;

// Inserts the paths up to the first that is in the set, and returns that one.
fn insert_new<'p>(
    paths: &mut SipSet<String>,
    fresh: &'p [String],
) -> Result<Option<&'p str>, AllocError>
    ensures tested { IfOk result (λ taken. option_map (λ p. p.now) taken ≡ first_taken (texts paths.old.keys) (texts fresh.now)) }
    ensures added { IfOk result (λ taken. taken ≡ None → texts paths.new.keys ≡ texts paths.old.keys ++ texts fresh.now) }
    ensures begins { IsFront paths.old.keys paths.new.keys }
{
    for path in fresh {
        if !paths.insert(path.clone()?)? {
            return Ok(Some(path.as_str()));
        }
    }
    Ok(None)
}

/// Returns the first path of both lists that is in the set or occurs twice.
///
/// If there is none and `keep` is true, all paths are added. Otherwise the set stays unchanged.
pub fn claim<'p>(
    paths: &mut SipSet<String>,
    these: &'p [String],
    others: &'p [String],
    keep: bool,
) -> Result<Option<&'p str>, AllocError>
    ensures tested { IfOk result (λ taken. option_map (λ p. p.now) taken
        ≡ first_taken (texts paths.old.keys) (texts these.now ++ texts others.now)) }
    ensures added { IfOk result (λ taken. texts paths.new.keys
        ≡ (if not (is_some taken) && keep then texts paths.old.keys ++ (texts these.now ++ texts others.now) else texts paths.old.keys)) }
    ensures err { OnErr result (paths.new.keys ≡ paths.old.keys) }
{
    let mark = paths.len();
    let taken = match insert_new(paths, these) {
        Ok(None) => insert_new(paths, others),
        Ok(Some(path)) => Ok(Some(path)),
        Err(refused) => Err(refused),
    };
    let is_free = matches!(taken, Ok(None));
    if !(is_free && keep) {
        paths.truncate(mark);
    }
    taken
}
