// Pieces of bits that are put in any order.
ghost use Rattle.std.specs.Prelude.{◌≡◌, ◌+◌, ◌-◌, ◌*◌, ◌/◌, ◌^◌, ◌<◌, ◌≤◌, ◌↔◌, [], length, take, All, IsTrue, IfOk, OnErr, IsErr};
ghost use Rattle.dfdl_splice.specs.Bits.{bits_from};
ghost use Rattle.dfdl_splice.specs.Splicing.{with_piece, with_bits, without_front, whole_bits, piece_count, bit_count, IsAwaited};

use crate::buffer::Buffer;
use crate::table::Table;
use dfdl_forms::BitOrder;
use std::alloc::{AllocError, Global};
use std::marker::Model;
use thiserror::Error;

/// There are as many pieces, or as many bytes, as there may be.
#[derive(Debug, Clone, Copy, PartialEq, Eq, Error)]
#[error("as many pieces or bytes as there may be")]
pub struct Full;

/// Pieces of bits in the order of the data. The bits of each are put once, in any order; those before the first piece that is
/// awaited are the front, whose whole bytes can be read and dropped.
#[derive(Drop)]
pub struct Splice {
    most_pieces: u32,
    most_bytes: u32,
    front: Buffer,
    table: Table,
    // how many bits are put and not dropped
    held: u64,
}

impl Model for Splice {
    ghost use Rattle.dfdl_splice.specs.Splicing.{Spliced};
    ghost use Rattle.dfdl_splice.specs.Tables.{Stands, stretch_in};

    ghost Value = { Spliced };

    ghost view = { λ s. record {
      most_pieces = s.most_pieces;
      most_bytes = s.most_bytes;
      order = s.front.order;
      added = s.table.next;
      front = s.front.bits;
      awaited = (stretch_in s.table).awaited;
    } };

    ghost invariant = { λ s. Stands s.most_pieces s.most_bytes s.front s.table s.held };
}

impl Splice {
    /// No pieces, with the memory for `pieces` of them at once and for `bytes` bytes of their bits. No other call takes memory.
    pub fn open(
        alloc: Global,
        pieces: u32,
        bytes: u32,
        order: BitOrder,
    ) -> Result<Splice, AllocError>
        ensures { IfOk result (λ splice. splice ≡ record { most_pieces = pieces; most_bytes = bytes; order = order; added = 0; front = []; awaited = [] }) }
    {
        let entries = 2 * pieces as usize + bytes as usize / 8;
        Ok(Splice {
            most_pieces: pieces,
            most_bytes: bytes,
            front: Buffer::open(alloc, u64::from(bytes), order)?,
            table: Table::open(alloc, entries, 2 * u64::from(bytes), order)?,
            held: 0,
        })
    }

    /// How many pieces were added.
    pub fn added(&self) -> u32
        ensures { result ≡ self.now.added }
    {
        self.table.next
    }

    /// Adds a piece behind the others and answers its number, from 0. `bits` is how many bits it has, where that is fixed. It is
    /// `Full`, and nothing changes, exactly where as many pieces count as there may be: each that is awaited, each run of
    /// pieces behind an awaited one that are put, and what is left of the front.
    pub fn add_piece(&mut self, bits: Option<u64>) -> Result<u32, Full>
        requires { self.old.added < 2 ^ 32 - 1 }
        ensures number { IfOk result (λ piece. piece ≡ self.old.added) }
        ensures added { IfOk result (λ _. self.new ≡ with_piece self.old bits) }
        ensures full { IsErr result ↔ (self.old.most_pieces ≤ piece_count self.old) }
        ensures same { OnErr result (self.new ≡ self.old) }
    {
        let most = (self.most_pieces as usize).saturating_sub(self.front.any());
        if self.table.runs >= most {
            return Err(Full);
        }
        let piece = self.table.next;
        self.table.push(bits);
        Ok(piece)
    }

    /// Whether the piece of this number is awaited, and so many bits fit it.
    pub fn awaits(&self, piece: u32, bits: u64) -> bool
        ensures { IsTrue result ↔ IsAwaited piece bits self.now.awaited }
    {
        self.table.awaits(piece, bits)
    }

    /// Puts the bits of a piece that is awaited, the first `bits` bits of `bytes`. It is `Full`, and nothing changes, exactly where
    /// the bits that are put and not dropped would be more than the bytes that there may be.
    pub fn put(&mut self, piece: u32, bytes: &[u8], bits: u64) -> Result<(), Full>
        requires awaited { IsAwaited piece bits self.old.awaited }
        requires inside { bits ≤ 8 * length bytes.now }
        ensures put { IfOk result (λ _. self.new ≡ with_bits self.old piece (bits_from self.old.order bytes.now 0 bits)) }
        ensures full { IsErr result ↔ (8 * self.old.most_bytes < bit_count self.old + bits) }
        ensures same { OnErr result (self.new ≡ self.old) }
    {
        if bits > 8 * u64::from(self.most_bytes) - self.held {
            return Err(Full);
        }
        self.table.put(piece, bytes, bits);
        self.table.take_lead(&mut self.front);
        self.held += bits;
        Ok(())
    }

    /// The whole bytes of the front.
    pub fn known_front(&self) -> &[u8]
        ensures bits { bits_from self.now.order result.now 0 (whole_bits self.now) ≡ take (whole_bits self.now) self.now.front }
        ensures len { length result.now ≡ length self.now.front / 8 }
        ensures bytes { All (λ byte. byte < 256) result.now }
    {
        self.front.whole()
    }

    /// Drops the whole bytes of the front.
    pub fn drop_front(&mut self)
        ensures { self.new ≡ without_front self.old }
    {
        self.held -= self.front.len() / 8 * 8;
        self.front.drop_whole();
    }
}
