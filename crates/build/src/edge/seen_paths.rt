//! Makes paths relative to the build directory.
ghost use Rattle.std.specs.Prelude.{◌≡◌, ◌++◌, IfOk, string_bytes};
ghost use Rattle.build.specs.edge.Paths.{way_up, source_root, source_path, is_upward, flat_name, object_path};

use std::alloc::{AllocError, Global};

// Appends `../`, `depth` times.
fn push_way_up(path: &mut String, depth: usize) -> Result<(), AllocError>
    ensures { IfOk result (λ _. string_bytes path.new ≡ string_bytes path.old ++ way_up depth) }
{
    for _ in 0..depth {
        path.push_str("../")?;
    }
    Ok(())
}

/// Returns the path of the source root, which is `depth` folders above the build directory, at least one.
pub fn source_root(alloc: Global, depth: usize) -> Result<String, AllocError>
    ensures { IfOk result (λ root. string_bytes root ≡ source_root depth) }
{
    let mut root = String::new(alloc);
    push_way_up(&mut root, depth.saturating_sub(1))?;
    root.push_str("..")?;
    Ok(root)
}

/// Returns the path of a file of the source tree, given its path there.
pub fn source_path(alloc: Global, depth: usize, path: &str) -> Result<String, AllocError>
    ensures { IfOk result (λ whole. string_bytes whole ≡ source_path depth path.now) }
{
    let room = depth.saturating_mul(3).saturating_add(path.len());
    let mut whole = String::with_capacity(alloc, room)?;
    push_way_up(&mut whole, depth.saturating_sub(1))?;
    whole.push_str("../")?;
    whole.push_str(path)?;
    Ok(whole)
}

/// Returns whether the path leads out of the build directory.
pub fn is_upward(path: &str) -> bool
    ensures { result ≡ is_upward path.now }
{
    path.as_bytes().starts_with(b"../")
}

// Appends the path as a file's name, with `_` for each `/`.
fn push_flat_name(name: &mut String, path: &str) -> Result<(), AllocError>
    ensures { IfOk result (λ _. string_bytes name.new ≡ string_bytes name.old ++ flat_name path.now) }
{
    let mut rest = path;
    while let Some((part, behind)) = rest.split_once('/') {
        name.push_str(part)?;
        name.push_str("_")?;
        rest = behind;
    }
    name.push_str(rest)
}

/// Returns the path of the object of a source, for the target whose file is `out`.
pub fn object_path(alloc: Global, out: &str, source: &str) -> Result<String, AllocError>
    ensures { IfOk result (λ object. string_bytes object ≡ object_path out.now source.now) }
{
    let room = out.len().saturating_add(source.len()).saturating_add(5);
    let mut object = String::with_capacity(alloc, room)?;
    object.push_str(out)?;
    object.push_str(".p/")?;
    push_flat_name(&mut object, source)?;
    object.push_str(".o")?;
    Ok(object)
}
