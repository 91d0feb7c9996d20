//! Decides which texts `build.ninja` can hold.
ghost use Rattle.std.specs.Prelude.{◌≡◌, map, option_map, string_bytes, ◌&&◌};
ghost use Rattle.std.specs.List.{list_all};
ghost use Rattle.build.specs.edge.Texts.{texts};
ghost use Rattle.build.specs.edge.Holding.{path_byte_held, path_held, value_byte_held, value_held, value_held_if, is_path, is_some_list};
ghost use Rattle.build.specs.edge.Holding.{paths_writable, is_writable, are_writable};
ghost use Rattle.build.specs.edge.View.{edge_view};

use crate::edge::edge::Edge;

fn holds_path_byte(byte: u8) -> bool
    ensures { result ≡ path_byte_held byte }
{
    byte >= 32 && !matches!(byte, 127 | b'#' | b'|')
}

/// Returns whether `build.ninja` can hold the path: it has no control character, `#` or `|`.
pub fn can_hold_path(path: &str) -> bool
    ensures { result ≡ path_held path.now }
{
    path.as_bytes().iter().all(|byte| holds_path_byte(*byte))
}

fn holds_value_byte(byte: u8) -> bool
    ensures { result ≡ value_byte_held byte }
{
    !matches!(byte, 0 | b'\n' | b'\r')
}

/// Returns whether `build.ninja` can hold the value: it has no zero byte, newline or carriage return.
pub fn can_hold_value(text: &str) -> bool
    ensures { result ≡ value_held text.now }
{
    text.as_bytes().iter().all(|byte| holds_value_byte(*byte))
}

/// Returns whether the path isn't empty and `build.ninja` can hold it.
pub fn is_path(path: &str) -> bool
    ensures { result ≡ is_path path.now }
{
    !path.is_empty() && can_hold_path(path)
}

/// Returns whether none of the paths is empty and `build.ninja` can hold each.
pub fn are_paths(paths: &[String]) -> bool
    ensures { result ≡ list_all is_path (texts paths.now) }
{
    paths.iter().all(|path| is_path(path))
}

/// Returns whether `build.ninja` can hold each of the values.
pub fn can_hold_values(values: &[String]) -> bool
    ensures { result ≡ list_all value_held (texts values.now) }
{
    values.iter().all(|value| can_hold_value(value))
}

fn can_hold_optional(text: &Option<String>) -> bool
    ensures { result ≡ value_held_if (option_map string_bytes text.now) }
{
    match text {
        None => true,
        Some(text) => can_hold_value(text),
    }
}

/// Returns whether the list has an item.
pub fn is_some_list(list: &[String]) -> bool
    ensures { result ≡ is_some_list (texts list.now) }
{
    !list.is_empty()
}

fn paths_are_writable(edge: &Edge) -> bool
    ensures { result ≡ paths_writable (edge_view edge.now) }
{
    is_some_list(&edge.outputs)
        && are_paths(&edge.outputs)
        && are_paths(&edge.inputs)
        && are_paths(&edge.implicit)
        && are_paths(&edge.order_only)
}

fn is_writable(edge: &Edge) -> bool
    ensures { result ≡ is_writable (edge_view edge.now) }
{
    paths_are_writable(edge)
        && is_some_list(&edge.words)
        && can_hold_values(&edge.words)
        && can_hold_optional(&edge.redirect)
        && can_hold_value(&edge.description)
        && can_hold_optional(&edge.depfile)
}

fn all_writable(edges: &[Edge]) -> bool
    ensures { result ≡ list_all (λ e. is_writable (edge_view e)) edges.now }
{
    edges.iter().all(is_writable)
}

/// Returns whether `build.ninja` can hold each of the edges.
///
/// Each edge must make something by some command. None of its paths is empty or has a control character, `#` or `|`. None of its values has
/// a zero byte, newline or carriage return.
pub fn are_writable(edges: &[Edge]) -> bool
    ensures { result ≡ are_writable (map edge_view edges.now) }
{
    all_writable(edges)
}
