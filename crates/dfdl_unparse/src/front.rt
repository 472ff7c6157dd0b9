// The pieces whose bits are known, joined to what can be written.
ghost use Rattle.std.specs.Prelude.{◌≡◌, ◌+◌, ◌-◌, ◌*◌, ◌^◌, ◌<◌, ◌≤◌, ◌↔◌, IsTrue, None, [], IfOk, length};
ghost use Rattle.dfdl_splice.specs.Bits.{bits_from};
ghost use Rattle.dfdl_splice.specs.Splicing.{IsAwaited, bit_count, piece_count, with_bits, with_piece, without_front};
ghost use Rattle.dfdl_unparse.specs.Fronts.{ArePacked};

use dfdl_forms::BitOrder;
use dfdl_splice::{Full, Splice};
use std::alloc::{AllocError, Global};
use std::marker::Model;

/// The pieces so far, and how many bits are put and not dropped.
#[derive(Drop)]
pub(crate) struct Front {
    pub(crate) splice: Splice,
    most: u64,
    pub(crate) held: u64,
}

impl Model for Front {
    ghost use Rattle.std.specs.Prelude.{◌≡◌, ◌*◌, ◌^◌, ◌<◌, ◌≤◌};
    ghost use Rattle.dfdl_splice.specs.Splicing.{Spliced, bit_count};

    ghost Value = { Spliced };

    ghost view = { λ f. f.splice };

    ghost invariant = { λ f. (f.most ≡ 8 * f.splice.most_bytes) × (f.held ≡ bit_count f.splice) × (f.held ≤ f.most) × (f.most < 2 ^ 40) };
}

impl Front {
    /// No pieces, with the memory for `pieces` of them and for `bytes` bytes of their bits.
    pub(crate) fn open(
        alloc: Global,
        pieces: u32,
        bytes: u32,
        order: BitOrder,
    ) -> Result<Front, AllocError>
        ensures { IfOk result (λ front. front ≡ record { most_pieces = pieces; most_bytes = bytes; order = order; added = 0; front = []; awaited = [] }) }
    {
        Ok(Front {
            splice: Splice::open(alloc, pieces, bytes, order)?,
            most: 8 * u64::from(bytes),
            held: 0,
        })
    }

    /// How many pieces were added.
    pub(crate) fn added(&self) -> u32
        ensures { result ≡ self.now.added }
    {
        self.splice.added()
    }

    /// Adds a piece, which is awaited.
    pub(crate) fn add(&mut self)
        requires number { self.old.added < 2 ^ 32 - 1 }
        requires room { piece_count self.old < self.old.most_pieces }
        ensures { self.new ≡ with_piece self.old None }
    {
        match self.splice.add_piece(None) {
            Ok(_) => {}
            Err(Full) => unreachable!(),
        }
    }

    /// Whether so many bits may be put.
    pub(crate) fn has_room(&self, bits: u64) -> bool
        ensures { IsTrue result ↔ (bit_count self.now + bits ≤ 8 * self.now.most_bytes) }
    {
        bits <= self.most - self.held
    }

    /// Puts the bits of a piece that is awaited, the first `bits` bits of `bytes`.
    pub(crate) fn put(&mut self, piece: u32, bytes: &[u8], bits: u64)
        requires awaited { IsAwaited piece bits self.old.awaited }
        requires inside { bits ≤ 8 * length bytes.now }
        requires room { bit_count self.old + bits ≤ 8 * self.old.most_bytes }
        ensures { self.new ≡ with_bits self.old piece (bits_from self.old.order bytes.now 0 bits) }
    {
        match self.splice.put(piece, bytes, bits) {
            Ok(()) => self.held += bits,
            Err(Full) => unreachable!(),
        }
    }

    /// The whole bytes of what can be written.
    pub(crate) fn known(&self) -> &[u8]
        ensures { ArePacked self.now.order self.now.front result.now }
    {
        self.splice.known_front()
    }

    /// Drops the whole bytes of what can be written.
    pub(crate) fn drop_known(&mut self)
        ensures { self.new ≡ without_front self.old }
    {
        self.held -= 8 * self.known().len() as u64;
        self.splice.drop_front();
    }
}
