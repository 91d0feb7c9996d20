//! Defines the pieces that outputs keep, each of one kind.
ghost use Rattle.std.specs.Prelude.{◌≡◌, ◌++◌, ◌∷◌, [], OnOk, OnErr, true};
ghost use Rattle.byte_devices.specs.Pieces.{goes_on, piece, with_bytes};
ghost use Rattle.byte_devices.specs.PiecesView.{pieces_view};

use std::alloc::{AllocError, Global};

/// Says what a piece is.
#[derive(Clone, Copy, Debug, PartialEq, Eq)]
pub enum PieceKind {
    /// An output was begun: the bytes are its name.
    Open,
    /// Bytes of the open output.
    Bytes,
    /// The open output was ended: there are no bytes.
    Close,
    /// Bytes of the log.
    Log,
    /// Bytes of a fault's line.
    Fault,
}

/// Holds what was written, of one kind.
#[derive(Drop)]
pub struct Piece {
    pub kind: PieceKind,
    pub bytes: Vec<u8>,
}

// Returns whether bytes of the second kind continue a piece of the first.
fn goes_on(kind: PieceKind, next: PieceKind) -> bool
    ensures { result ≡ goes_on kind next }
{
    match (kind, next) {
        (PieceKind::Bytes, PieceKind::Bytes)
        | (PieceKind::Log, PieceKind::Log)
        | (PieceKind::Fault, PieceKind::Fault) => true,
        _ => false,
    }
}

// Appends a piece.
pub(crate) fn keep_piece(
    alloc: Global,
    pieces: &mut Vec<Piece>,
    kind: PieceKind,
    bytes: &[u8],
) -> Result<(), AllocError>
    ensures kept { OnOk result (pieces_view pieces.new.items ≡ pieces_view pieces.old.items ++ piece kind bytes.now ∷ []) }
    ensures same { OnErr result (pieces_view pieces.new.items ≡ pieces_view pieces.old.items) }
{
    let bytes = Vec::from_slice(alloc, bytes)?;
    pieces.push(Piece { kind, bytes })?;
    Ok(())
}

// Appends bytes of this kind. They continue the last piece if that is of the kind too.
pub(crate) fn keep_bytes(
    alloc: Global,
    pieces: &mut Vec<Piece>,
    kind: PieceKind,
    bytes: &[u8],
) -> Result<(), AllocError>
    requires { goes_on kind kind ≡ true }
    ensures kept { OnOk result (pieces_view pieces.new.items ≡ with_bytes kind (pieces_view pieces.old.items) bytes.now) }
    ensures same { OnErr result (pieces_view pieces.new.items ≡ pieces_view pieces.old.items) }
{
    if bytes.is_empty() {
        return Ok(());
    }
    let len = pieces.len();
    if len > 0 && goes_on(pieces[len - 1].kind, kind) {
        pieces[len - 1].bytes.extend_from_slice(bytes)?;
        return Ok(());
    }
    keep_piece(alloc, pieces, kind, bytes)
}
