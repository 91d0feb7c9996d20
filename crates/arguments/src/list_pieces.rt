//! Decides whether values may be in a list of any depth.
ghost use Rattle.std.specs.Prelude.{◌≡◌, ◌||◌};
ghost use Rattle.arguments.specs.Pieces.{all_pieces, are_pieces, is_built, is_command, is_configuration, is_custom, is_feature, is_file};
ghost use Rattle.arguments.specs.Pieces.{is_target, takes_object, takes_text};
ghost use Rattle.values.specs.Prelude.{data_of, items_of};

use crate::row::Piece;
use values::{Object, Value};

/// Returns whether an object is a file.
pub fn is_file(object: &Object) -> bool
    ensures { result ≡ is_file object.now }
{
    matches!(object, Object::File { .. })
}

/// Returns whether an object is the value of a feature option.
pub fn is_feature(object: &Object) -> bool
    ensures { result ≡ is_feature object.now }
{
    matches!(object, Object::Feature(_))
}

/// Returns whether an object is configuration data.
pub fn is_configuration(object: &Object) -> bool
    ensures { result ≡ is_configuration object.now }
{
    matches!(object, Object::ConfigurationData(_))
}

fn is_built(object: &Object) -> bool
    ensures { result ≡ is_built object.now }
{
    matches!(object, Object::BuildTarget(_))
}

fn is_custom(object: &Object) -> bool
    ensures { result ≡ is_custom object.now }
{
    matches!(
        object,
        Object::CustomTarget { .. } | Object::CustomOutput { .. }
    )
}

fn is_target(object: &Object) -> bool
    ensures { result ≡ is_target object.now }
{
    is_built(object) || is_custom(object)
}

/// Returns whether a test can run an object.
pub fn is_command(object: &Object) -> bool
    ensures { result ≡ is_command object.now }
{
    matches!(object, Object::Program(_)) || is_target(object) || is_file(object)
}

fn takes_object(piece: Piece, object: &Object) -> bool
    ensures { result ≡ takes_object piece object.now }
{
    match piece {
        Piece::Path => is_file(object),
        Piece::Source => is_file(object) || is_custom(object),
        Piece::Folder => matches!(object, Object::IncludeDirectories(_)),
        Piece::BuildTarget => is_built(object),
        Piece::Dependency => matches!(object, Object::Dependency(_)),
        Piece::Target => is_target(object),
        Piece::Word => is_file(object) || is_target(object),
        Piece::CommandWord => is_command(object),
    }
}

fn takes_text(piece: Piece) -> bool
    ensures { result ≡ takes_text piece }
{
    !matches!(
        piece,
        Piece::BuildTarget | Piece::Dependency | Piece::Target
    )
}

/// Returns whether a value is a piece of this kind, or a list of such pieces at any depth.
#[cycle(pieces)]
pub fn are_pieces(piece: Piece, value: &Value) -> bool
    ensures { result ≡ are_pieces piece (data_of value.now) }
{
    match value {
        Value::Object(object) => takes_object(piece, object),
        Value::Text(_) => takes_text(piece),
        Value::List(list) => all_pieces(piece, list.items()),
        _ => false,
    }
}

#[cycle(pieces)]
fn all_pieces(piece: Piece, items: &[Value]) -> bool
    ensures { result ≡ all_pieces piece (items_of items.now) }
{
    for item in items {
        if !are_pieces(piece, item) {
            return false;
        }
    }
    true
}
