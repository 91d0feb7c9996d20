//! Looks up the outputs of the targets so far.
ghost use Rattle.std.specs.Prelude.{◌≡◌, option_map};
ghost use Rattle.build.specs.edge.Texts.{texts};
ghost use Rattle.sources.specs.Outputs.{output_at, outputs_at};
ghost use Rattle.build.specs.DeclaredTargetViews.{declared_target_views};

use build::DeclaredTarget;

/// Returns the outputs of the target with a number, and `None` if there is no such target.
pub fn outputs_at(earlier: &[DeclaredTarget], number: usize) -> Option<&[String]>
    ensures { option_map (λ ps. texts ps.now) result ≡ outputs_at (declared_target_views earlier.now) number }
{
    match earlier.get(number) {
        Some(linked) => Some(linked.paths.as_slice()),
        None => None,
    }
}

/// Returns the output at an index of the target with a number, and `None` if there is none.
pub fn output_at(earlier: &[DeclaredTarget], number: usize, place: usize) -> Option<&str>
    ensures { option_map (λ p. p.now) result ≡ output_at (declared_target_views earlier.now) number place }
{
    match outputs_at(earlier, number)?.get(place) {
        Some(path) => Some(path.as_str()),
        None => None,
    }
}
