//! Appends words of commands.
ghost use Rattle.std.specs.Prelude.{◌≡◌, [], ◌∷◌, ◌++◌, IfOk, string_bytes};
ghost use Rattle.build.specs.edge.Texts.{texts};
ghost use Rattle.build.specs.Sources.{items_of_dependencies};
ghost use Rattle.build.specs.View.{build_view, lists_view};
ghost use Rattle.build.specs.target_edges.Words.{texts_of, word_if};

use crate::edge::{push_copies, push_text};
use crate::{BuildTarget, Lists};
use std::alloc::{AllocError, Global};

/// Returns the first text followed by the second.
pub fn join(alloc: Global, front: &str, end: &str) -> Result<String, AllocError>
    ensures { IfOk result (λ s. string_bytes s ≡ front.now ++ end.now) }
{
    let mut whole = String::with_capacity(alloc, front.len().saturating_add(end.len()))?;
    whole.push_str(front)?;
    whole.push_str(end)?;
    Ok(whole)
}

/// Appends a word that is the first text followed by the second.
pub fn push_joined(words: &mut Vec<String>, front: &str, end: &str) -> Result<(), AllocError>
    ensures { IfOk result (λ _. texts words.new.items ≡ texts words.old.items ++ (front.now ++ end.now) ∷ []) }
{
    let word = join(*words.allocator(), front, end)?;
    words.push(word)?;
    Ok(())
}

/// Appends the word if the test holds.
pub fn push_if(words: &mut Vec<String>, test: bool, word: &str) -> Result<(), AllocError>
    ensures { IfOk result (λ _. texts words.new.items ≡ texts words.old.items ++ word_if test word.now) }
{
    if test {
        push_text(words, word)?;
    }
    Ok(())
}

/// Names the texts that a dependency adds to the targets that name it.
#[derive(Clone, Copy)]
pub enum Brought {
    IncludeFolders,
    CompileArgs,
    LinkArgs,
}

impl Brought {
    /// Returns the texts of this kind in these lists.
    pub fn of(self, lists: &Lists) -> &[String]
        ensures { texts result.now ≡ texts_of self (lists_view lists.now) }
    {
        match self {
            Brought::IncludeFolders => &lists.include_folders,
            Brought::CompileArgs => &lists.compile_args,
            Brought::LinkArgs => &lists.link_args,
        }
    }
}

/// Appends the texts of this kind that the dependencies add.
pub fn push_brought(
    words: &mut Vec<String>,
    target: &BuildTarget,
    what: Brought,
) -> Result<(), AllocError>
    ensures { IfOk result
        (λ _. texts words.new.items ≡ texts words.old.items ++ items_of_dependencies (λ l. texts_of what l) (build_view target.now)) }
{
    for lists in &target.dependencies {
        push_copies(words, what.of(lists))?;
    }
    Ok(())
}
