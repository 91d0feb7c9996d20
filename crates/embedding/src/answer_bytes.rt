//! Writes the bytes of an answer, as many as there is room for.
ghost use Rattle.std.specs.Prelude.{◌≡◌, ◌+◌, ◌++◌, ◌≤◌, ℕ, List, length, IfSome, IfNone, IsTrue};
ghost use Rattle.byte_devices.specs.PiecesView.{piece_view, pieces_view};
ghost use Rattle.embedding.specs.Encoding.{IsFilled, bytes_of, kind_byte, piece_bytes};

use byte_devices::{Piece, PieceKind};

// The number of bytes of an event before its own bytes.
const HEAD: usize = 9;

fn kind_byte(kind: PieceKind) -> u8
    ensures { result ≡ kind_byte kind }
{
    match kind {
        PieceKind::Open => b'O',
        PieceKind::Bytes => b'B',
        PieceKind::Close => b'C',
        PieceKind::Log => b'L',
        PieceKind::Fault => b'E',
    }
}

// Writes bytes after those that are in the room, as many as fit.
fn put(room: &mut [u8], at: usize, bytes: &[u8])
    ensures { (before : List ℕ) → length before ≡ at → IsFilled room.old before → IsFilled room.new (before ++ bytes.now) }
{
    if room.len() <= at {
        return;
    }
    let count = bytes.len().min(room.len() - at);
    room[at..at + count].copy_from_slice(&bytes[..count]);
}

// Writes an event after what is in the room, and returns where it ends. Returns `None` if that is no `usize`.
fn write_piece(room: &mut [u8], at: usize, piece: &Piece) -> Option<usize>
    ensures { IfSome result (λ end. (before : List ℕ) → length before ≡ at → IsFilled room.old before
        → IsFilled room.new (before ++ piece_bytes (piece_view piece.now))
        × (end ≡ length (before ++ piece_bytes (piece_view piece.now)))) }
{
    let len = piece.bytes.len();
    let Some(own) = at.checked_add(HEAD) else {
        return None;
    };
    let Some(end) = own.checked_add(len) else {
        return None;
    };
    put(room, at, &[kind_byte(piece.kind)]);
    put(room, at + 1, &(len as u64).to_le_bytes());
    put(room, own, &piece.bytes);
    Some(end)
}

/// Writes these pieces into the room, as many bytes as fit, and returns how many bytes they have. Returns `None` if that is no `usize`.
pub fn write_pieces(room: &mut [u8], pieces: &[Piece]) -> Option<usize>
    ensures { IfSome result (λ len. IsFilled room.new (bytes_of (pieces_view pieces.now))
        × (len ≡ length (bytes_of (pieces_view pieces.now)))) }
{
    let mut at = 0;
    for piece in pieces {
        let Some(end) = write_piece(room, at, piece) else {
            return None;
        };
        at = end;
    }
    Some(at)
}
