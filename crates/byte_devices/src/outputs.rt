//! Keeps what a run writes as pieces.
ghost use Rattle.std.specs.Prelude.{◌≡◌, ◌∷◌, [], ℕ, List};
ghost use Rattle.std.proofs.Props.{props};
ghost use Rattle.ports.specs.Outputs.{events_of_steps};
ghost use Rattle.std.specs.Prelude.{None};
ghost use Rattle.byte_devices.specs.Pieces.{pieces_of, steps_in};
ghost use Rattle.byte_devices.specs.PiecesView.{pieces_view};

use crate::piece::{Piece, PieceKind, keep_bytes, keep_piece};
use ports::{DeviceFault, Outputs};
use std::alloc::Global;

/// Keeps what a run writes. Bytes of one kind that follow one another are joined. A call fails only if memory runs out.
#[derive(Drop)]
pub struct KeptOutputs {
    alloc: Global,
    pieces: Vec<Piece>,
    failures: u64,
    ghost joined: { pieces_of (events_of_steps None (steps_in (pieces_view pieces.items)))
        ≡ pieces_view pieces.items } by { Prim.hlevel props },
}

impl KeptOutputs {
    ghost use Rattle.byte_devices.specs.KeptView.{kept_seen};
    ghost use Rattle.byte_devices.specs.Kept.{kept_state};

    /// Returns outputs to which nothing was written.
    pub fn new(alloc: Global) -> KeptOutputs
        ensures { kept_seen result ≡ kept_state [] 0 }
    {
        let pieces = Vec::new(alloc);
        KeptOutputs {
            alloc,
            pieces,
            failures: 0,
        }
    }

    /// Returns what was written, in order.
    pub fn pieces(&self) -> &[Piece]
        ensures pieces { pieces_view result.now ≡ pieces_of (kept_seen self.now).events }
    {
        &self.pieces
    }
}

impl Outputs for KeptOutputs {
    ghost use Rattle.byte_devices.specs.KeptView.{kept_seen};

    ghost seen = { kept_seen };

    fn failures(&self) -> u64 {
        self.failures
    }

    fn open(&mut self, name: &str) -> Result<(), DeviceFault> {
        match keep_piece(
            self.alloc,
            &mut self.pieces,
            PieceKind::Open,
            name.as_bytes(),
        ) {
            Ok(()) => Ok(()),
            Err(_) => {
                self.failures += 1;
                Err(DeviceFault)
            }
        }
    }

    fn close(&mut self) -> Result<(), DeviceFault> {
        match keep_piece(self.alloc, &mut self.pieces, PieceKind::Close, &[]) {
            Ok(()) => Ok(()),
            Err(_) => {
                self.failures += 1;
                Err(DeviceFault)
            }
        }
    }

    fn put(&mut self, bytes: &[u8]) -> Result<usize, DeviceFault> {
        match keep_bytes(self.alloc, &mut self.pieces, PieceKind::Bytes, bytes) {
            Ok(()) => Ok(bytes.len()),
            Err(_) => {
                self.failures += 1;
                Err(DeviceFault)
            }
        }
    }

    fn log(&mut self, bytes: &[u8]) -> Result<usize, DeviceFault> {
        match keep_bytes(self.alloc, &mut self.pieces, PieceKind::Log, bytes) {
            Ok(()) => Ok(bytes.len()),
            Err(_) => {
                self.failures += 1;
                Err(DeviceFault)
            }
        }
    }

    fn fault(&mut self, bytes: &[u8]) -> Result<usize, DeviceFault> {
        match keep_bytes(self.alloc, &mut self.pieces, PieceKind::Fault, bytes) {
            Ok(()) => Ok(bytes.len()),
            Err(_) => {
                self.failures += 1;
                Err(DeviceFault)
            }
        }
    }
}
