//! Computes the relative path from one folder of the build directory to another.
ghost use Rattle.std.specs.Prelude.{◌≡◌, ◌++◌, ◌==◌, map, flat_map, IfOk, string_bytes};
ghost use Rattle.std.specs.List.{slice_split};
ghost use Rattle.build.specs.target_edges.Ways.{parts_of, steps_up, step_down, way_between, relative_way};

use std::alloc::{AllocError, Global};

// Returns the parts of a path between its slashes.
fn pieces<'a>(alloc: Global, path: &'a str) -> Result<Vec<&'a str>, AllocError>
    ensures { IfOk result (λ pieces. map (λ s. s.now) pieces.items ≡ slice_split (λ c. c == 47) path.now) }
{
    path.split('/').collect(alloc)
}

// Returns the parts of a folder's path. The root has none.
fn parts_of<'a>(alloc: Global, folder: &'a str) -> Result<Vec<&'a str>, AllocError>
    ensures { IfOk result (λ parts. map (λ s. s.now) parts.items ≡ parts_of folder.now) }
{
    if folder.is_empty() {
        Ok(Vec::new(alloc))
    } else {
        pieces(alloc, folder)
    }
}

// Appends `/..`, `steps` times.
fn push_up(way: &mut String, steps: usize) -> Result<(), AllocError>
    ensures { IfOk result (λ _. string_bytes way.new ≡ string_bytes way.old ++ steps_up steps) }
{
    for _ in 0..steps {
        way.push_str("/..")?;
    }
    Ok(())
}

// Appends `/` and the part, for each of these parts.
fn push_down(way: &mut String, to: &[&str]) -> Result<(), AllocError>
    ensures { IfOk result (λ _. string_bytes way.new ≡ string_bytes way.old ++ flat_map step_down (map (λ s. s.now) to.now)) }
{
    for part in to {
        way.push_str("/")?;
        way.push_str(part)?;
    }
    Ok(())
}

// Appends the way between folders with these parts, without the parts that both begin with.
fn push_way_between(way: &mut String, from: &[&str], to: &[&str]) -> Result<(), AllocError>
    ensures { IfOk result (λ _. string_bytes way.new
        ≡ string_bytes way.old ++ way_between (map (λ s. s.now) from.now) (map (λ s. s.now) to.now)) }
{
    match from {
        [] => push_down(way, to),
        [first, from_there @ ..] => match to {
            [] => push_up(way, from.len()),
            [other, to_there @ ..] => {
                if first == other {
                    push_way_between(way, from_there, to_there)
                } else {
                    push_up(way, from.len())?;
                    push_down(way, to)
                }
            }
        },
    }
}

/// Appends the way from one folder to another.
pub fn push_way(way: &mut String, alloc: Global, from: &str, to: &str) -> Result<(), AllocError>
    ensures { IfOk result (λ _. string_bytes way.new ≡ string_bytes way.old ++ relative_way from.now to.now) }
{
    let from = parts_of(alloc, from)?;
    let to = parts_of(alloc, to)?;
    push_way_between(way, &from, &to)
}
