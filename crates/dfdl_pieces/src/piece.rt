// Pieces of data, each of which is written at once.
ghost use Rattle.std.specs.Prelude.{◌≡◌, ◌≤◌, OnOk, ◌++◌, [], ◌∷◌, take};

use std::alloc::{AllocError, Global};
use std::marker::Model;

/// The most bytes of a piece.
pub const MOST_BYTES: usize = 8;

/// The bytes of one element, at most 8.
#[derive(Debug, Drop)]
pub struct Piece {
    bytes: [u8; MOST_BYTES],
    len: usize,
}

impl Model for Piece {
    ghost use Rattle.std.specs.Prelude.{ℕ, List, take, ◌≤◌};

    ghost Value = { List ℕ };

    ghost view = { λ p. take p.len p.bytes };

    ghost invariant = { λ p. p.len ≤ 8 };
}

impl Piece {
    pub fn new(bytes: [u8; MOST_BYTES], len: usize) -> Piece
        requires { len ≤ 8 }
        ensures { result ≡ take len bytes }
    {
        Piece { bytes, len }
    }

    pub fn as_slice(&self) -> &[u8]
        ensures { result.now ≡ self.now }
    {
        &self.bytes[..self.len]
    }
}

/// Pieces in the order of the data.
#[derive(Debug, Drop)]
pub struct PieceList {
    pieces: Vec<Piece>,
}

impl Model for PieceList {
    ghost use Rattle.std.specs.Prelude.{ℕ, List};

    ghost Value = { List (List ℕ) };

    ghost view = { λ l. l.pieces.items };
}

impl PieceList {
    pub fn new(alloc: Global) -> PieceList
        ensures { result ≡ [] }
    {
        PieceList {
            pieces: Vec::new(alloc),
        }
    }

    pub fn push(&mut self, piece: Piece) -> Result<(), AllocError>
        ensures { OnOk result (self.new ≡ self.old ++ piece ∷ []) }
    {
        self.pieces.push(piece)?;
        Ok(())
    }

    pub fn as_slice(&self) -> &[Piece]
        ensures { result.now ≡ self.now }
    {
        self.pieces.as_slice()
    }
}
