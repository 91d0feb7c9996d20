//! Finds the libraries that a target links: those that it names, those of its dependencies, and after each static library its own. The last
//! of equal ones stays.
//!
//! No target stores them. One walk through the static libraries finds them, from the last that the target names to the first. A library is
//! kept once its own libraries are kept, and is not entered again.
ghost use Rattle.std.specs.Prelude.{◌≡◌, ◌∷◌, [], ◌++◌, ◌<◌, true, false, map, flat_map, IfOk};
ghost use Rattle.std.specs.Prelude.{length, nat_eq, slice_index_or, slice_set, option_map};
ghost use Rattle.std.specs.List.{list_any};
ghost use Rattle.support.specs.Sets.{insert_key};
ghost use Rattle.build.specs.Libraries.{LinkBack, libraries_of, linked_libraries};
ghost use Rattle.build.specs.DeclaredTargetViews.{declared_target_views};
ghost use Rattle.build.specs.Marks.{AreMarks};
ghost use Rattle.build.specs.View.{target_view, build_view};
ghost use Rattle.build.specs.Walk.{if_static, static_at, steps_of, steps_into, kept_into, steps_for, kept_after};
ghost use Rattle.build.specs.declared.walk.Step.TheVariants.{Enter};

use crate::declared_target::DeclaredTarget;
use crate::libraries::build_target_at;
use crate::target::{BuildTarget, Target};
use std::alloc::{AllocError, Global};

// From this many kept libraries on, the walk uses marks. For fewer, a search is faster than making marks for all targets.
const MARKED_FROM: usize = 32;

// Names what the walk still has to do.
#[derive(Clone, Copy)]
enum Step {
    // Enter a library and, if it is static, its libraries.
    Enter(u32),
    // Keep a library whose own libraries are kept.
    Leave(u32),
}

// Marks the number, and returns whether it was marked before.
fn mark(marks: &mut Vec<bool>, number: usize) -> bool
    requires { number < length marks.old.items }
    ensures tested { result ≡ slice_index_or marks.old.items number false }
    ensures marked { marks.new.items ≡ slice_set marks.old.items number true }
{
    let was = marks[number];
    marks[number] = true;
    was
}

fn is_among(numbers: &[u32], number: u32) -> bool
    ensures { result ≡ list_any (nat_eq number) numbers.now }
{
    numbers.contains(&number)
}

// Returns whether the number is kept.
fn is_kept(marks: &[bool], kept: &[u32], number: u32) -> bool
    requires { AreMarks marks.now kept.now }
    ensures { result ≡ list_any (nat_eq number) kept.now }
{
    match marks.get(number as usize) {
        Some(mark) => *mark,
        None => is_among(kept, number),
    }
}

// Keeps the number in the marks, and returns whether it was kept before.
fn was_kept(marks: &mut Vec<bool>, kept: &[u32], number: u32) -> bool
    requires { AreMarks marks.old.items kept.now }
    ensures tested { result ≡ list_any (nat_eq number) kept.now }
    ensures marks { AreMarks marks.new.items (insert_key nat_eq kept.now number) }
{
    if (number as usize) < marks.len() {
        mark(marks, number as usize)
    } else {
        is_among(kept, number)
    }
}

// Sets a mark for each of `count` numbers, which says whether the number is kept.
fn mark_kept(marks: &mut Vec<bool>, kept: &[u32], count: usize) -> Result<(), AllocError>
    ensures { IfOk result (λ _. AreMarks marks.new.items kept.now) }
{
    marks.clear();
    marks.resize(count, false)?;
    for place in 0..kept.len() {
        let _known = was_kept(marks, &kept[..place], kept[place]);
    }
    Ok(())
}

// Keeps the number, once. `count` is the number of earlier targets.
fn keep(
    kept: &mut Vec<u32>,
    marks: &mut Vec<bool>,
    count: usize,
    number: u32,
) -> Result<(), AllocError>
    requires { AreMarks marks.old.items kept.old.items }
    ensures kept { IfOk result (λ _. kept.new.items ≡ insert_key nat_eq kept.old.items number) }
    ensures marks { IfOk result (λ _. AreMarks marks.new.items kept.new.items) }
{
    if was_kept(marks, kept, number) {
        return Ok(());
    }
    kept.push(number)?;
    if kept.len() == MARKED_FROM {
        mark_kept(marks, kept, count)?;
    }
    Ok(())
}

// Appends a step into a library. A number above 32 bits would need more targets than memory can hold.
fn push_step(steps: &mut Vec<Step>, number: usize) -> Result<(), AllocError>
    ensures { IfOk result (λ _. steps.new.items ≡ steps.old.items ++ map Enter (number ∷ [])) }
{
    steps.push(Step::Enter(u32::try_from(number).map_err(|_| AllocError)?))?;
    Ok(())
}

fn push_steps(steps: &mut Vec<Step>, numbers: &[usize]) -> Result<(), AllocError>
    ensures { IfOk result (λ _. steps.new.items ≡ steps.old.items ++ map Enter numbers.now) }
{
    for number in numbers {
        push_step(steps, *number)?;
    }
    Ok(())
}

// Appends steps into the libraries that the target names, then into those of its dependencies.
fn push_named(steps: &mut Vec<Step>, target: &BuildTarget) -> Result<(), AllocError>
    ensures { IfOk result (λ _. steps.new.items ≡ steps.old.items ++ (map Enter target.now.own.link_with.items
        ++ flat_map (λ l. map Enter l.value.link_with.items) target.now.dependencies.items)) }
{
    push_steps(steps, &target.own.link_with)?;
    for lists in &target.dependencies {
        push_steps(steps, &lists.link_with)?;
    }
    Ok(())
}

fn push_all(steps: &mut Vec<Step>, target: &BuildTarget) -> Result<(), AllocError>
    ensures { IfOk result (λ _. steps.new.items ≡ steps.old.items ++ steps_of (build_view target.now)) }
{
    push_named(steps, target)
}

fn if_static(target: &BuildTarget) -> Option<&BuildTarget>
    ensures { option_map (λ t. build_view t.now) result ≡ if_static (Some (build_view target.now)) }
{
    if target.kind.is_static() {
        Some(target)
    } else {
        None
    }
}

// Returns the static library with this number, if it is one.
fn static_at(earlier: &[DeclaredTarget], number: usize) -> Option<&BuildTarget>
    ensures { option_map (λ t. build_view t.now) result ≡ static_at (declared_target_views earlier.now) number }
{
    match build_target_at(earlier, number) {
        Some(target) => if_static(target),
        None => None,
    }
}

// Keeps a library without libraries of its own, or enters a static one.
fn enter(
    steps: &mut Vec<Step>,
    kept: &mut Vec<u32>,
    marks: &mut Vec<bool>,
    earlier: &[DeclaredTarget],
    number: u32,
) -> Result<(), AllocError>
    requires { AreMarks marks.old.items kept.old.items }
    ensures steps { IfOk result (λ _. steps.new.items
        ≡ steps.old.items ++ steps_into number (static_at (declared_target_views earlier.now) number)) }
    ensures kept { IfOk result (λ _. kept.new.items
        ≡ kept_into number (static_at (declared_target_views earlier.now) number) kept.old.items) }
    ensures marks { IfOk result (λ _. AreMarks marks.new.items kept.new.items) }
{
    match static_at(earlier, number as usize) {
        None => keep(kept, marks, earlier.len(), number),
        Some(target) => {
            steps.push(Step::Leave(number))?;
            push_all(steps, target)
        }
    }
}

fn take_step(
    steps: &mut Vec<Step>,
    kept: &mut Vec<u32>,
    marks: &mut Vec<bool>,
    earlier: &[DeclaredTarget],
    step: Step,
) -> Result<(), AllocError>
    requires { AreMarks marks.old.items kept.old.items }
    ensures steps { IfOk result (λ _. steps.new.items
        ≡ steps.old.items ++ steps_for (declared_target_views earlier.now) kept.old.items step) }
    ensures kept { IfOk result (λ _. kept.new.items ≡ kept_after (declared_target_views earlier.now) kept.old.items step) }
    ensures marks { IfOk result (λ _. AreMarks marks.new.items kept.new.items) }
{
    match step {
        Step::Leave(number) => keep(kept, marks, earlier.len(), number),
        Step::Enter(number) => {
            if is_kept(marks, kept, number) {
                Ok(())
            } else {
                enter(steps, kept, marks, earlier, number)
            }
        }
    }
}

// Returns the libraries of a build target, given the earlier targets.
fn libraries_of(
    alloc: Global,
    earlier: &[DeclaredTarget],
    target: &BuildTarget,
) -> Result<Vec<u32>, AllocError>
    requires { LinkBack (map (λ l. target_view l.target) earlier.now) }
    ensures { IfOk result (λ v. v.items ≡ libraries_of (declared_target_views earlier.now) (build_view target.now)) }
{
    let mut steps = Vec::new(alloc);
    push_all(&mut steps, target)?;
    if steps.is_empty() {
        return Ok(Vec::new(alloc));
    }
    let mut marks = Vec::new(alloc);
    let mut kept = Vec::new(alloc);
    while let Some(step) = steps.pop() {
        take_step(&mut steps, &mut kept, &mut marks, earlier, step)?;
    }
    kept.reverse();
    Ok(kept)
}

/// Returns the libraries with which the target's file is linked, given the earlier targets. An archive and a custom target link none.
pub fn linked_libraries(
    alloc: Global,
    earlier: &[DeclaredTarget],
    target: &Target,
) -> Result<Vec<u32>, AllocError>
    requires { LinkBack (map (λ l. target_view l.target) earlier.now) }
    ensures { IfOk result (λ v. v.items ≡ linked_libraries (declared_target_views earlier.now) (target_view target.now)) }
{
    match target {
        Target::Build(target) => {
            if target.kind.is_static() {
                Ok(Vec::new(alloc))
            } else {
                libraries_of(alloc, earlier, target)
            }
        }
        Target::Custom(_) => Ok(Vec::new(alloc)),
    }
}
