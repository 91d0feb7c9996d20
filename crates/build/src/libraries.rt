//! Looks up the libraries that a target names.
ghost use Rattle.std.specs.Prelude.{◌≡◌, slice_get, option_map, ◌&&◌};
ghost use Rattle.std.specs.List.{list_all};
ghost use Rattle.build.specs.Files.{file_path};
ghost use Rattle.build.specs.Libraries.{build_of, build_at, is_library_at, links_libraries};
ghost use Rattle.build.specs.DeclaredTargetViews.{declared_target_views};
ghost use Rattle.build.specs.View.{target_view, build_view};

use crate::declared_target::DeclaredTarget;
use crate::target::{BuildTarget, Target};

/// Returns the target with this number.
pub fn target_at(earlier: &[DeclaredTarget], number: usize) -> Option<&Target>
    ensures { option_map (λ t. target_view t.now) result
        ≡ option_map (λ l. l.target) (slice_get (declared_target_views earlier.now) number) }
{
    match earlier.get(number) {
        Some(linked) => Some(&linked.target),
        None => None,
    }
}

fn build_of(target: &Target) -> Option<&BuildTarget>
    ensures { option_map (λ t. build_view t.now) result ≡ build_of (target_view target.now) }
{
    match target {
        Target::Build(target) => Some(target),
        Target::Custom(_) => None,
    }
}

/// Returns the build target with this number, or `None` if that is a custom target or no target.
pub fn build_target_at(earlier: &[DeclaredTarget], number: usize) -> Option<&BuildTarget>
    ensures { option_map (λ t. build_view t.now) result ≡ build_at (declared_target_views earlier.now) number }
{
    match target_at(earlier, number) {
        Some(target) => build_of(target),
        None => None,
    }
}

// Returns the path of the file of a build target, which was computed before.
fn file_of(linked: &DeclaredTarget) -> Option<&str>
    ensures { option_map (λ f. f.now) result ≡ option_map file_path (build_of (target_view linked.now.target)) }
{
    match &linked.target {
        Target::Build(_) => match linked.paths.as_slice() {
            [file, ..] => Some(file.as_str()),
            [] => None,
        },
        Target::Custom(_) => None,
    }
}

/// Returns the path of the file of the build target with this number, or `None` if that is a custom target or no target.
pub fn file_at(earlier: &[DeclaredTarget], number: usize) -> Option<&str>
    ensures { option_map (λ f. f.now) result ≡ option_map file_path (build_at (declared_target_views earlier.now) number) }
{
    match earlier.get(number) {
        Some(linked) => file_of(linked),
        None => None,
    }
}

/// Returns whether the target with this number is a library.
pub fn is_library_at(earlier: &[DeclaredTarget], number: usize) -> bool
    ensures { result ≡ is_library_at (declared_target_views earlier.now) number }
{
    match build_target_at(earlier, number) {
        Some(target) => target.kind.is_library(),
        None => false,
    }
}

/// Returns whether the target with each of these numbers is an earlier library.
pub fn are_libraries(earlier: &[DeclaredTarget], numbers: &[usize]) -> bool
    ensures { result ≡ list_all (is_library_at (declared_target_views earlier.now)) numbers.now }
{
    numbers.iter().all(|number| is_library_at(earlier, *number))
}

fn dependencies_link_libraries(earlier: &[DeclaredTarget], target: &BuildTarget) -> bool
    ensures { result ≡ list_all (λ l. list_all
        (is_library_at (declared_target_views earlier.now)) l.value.link_with.items) target.now.dependencies.items }
{
    target
        .dependencies
        .iter()
        .all(|lists| are_libraries(earlier, &lists.link_with))
}

/// Returns whether the target and its dependencies link only earlier libraries.
pub fn links_libraries(earlier: &[DeclaredTarget], target: &BuildTarget) -> bool
    ensures { result ≡ links_libraries (declared_target_views earlier.now) (build_view target.now) }
{
    are_libraries(earlier, &target.own.link_with) && dependencies_link_libraries(earlier, target)
}
