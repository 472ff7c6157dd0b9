// What lays the events of an infoset into pieces of bits, as a trait.
ghost use Rattle.std.specs.Prelude.{◌≡◌, ◌≢◌, ℕ, ◌*◌, ◌<◌, ◌≤◌, List, Option, None, IfOk, OnOk, OnErr, length, string_bytes};
ghost use Rattle.dfdl_forms.specs.declared.order.BitOrder.{BitOrder};
ghost use Rattle.dfdl_report.specs.declared.cause.LimitCause.{LimitCause as Limit};
ghost use Rattle.dfdl_splice.specs.Bits.{bits_from};
ghost use Rattle.dfdl_suspend.specs.Asks.{at};
ghost use Rattle.dfdl_suspend.specs.Rounds.{Reached};
ghost use Rattle.dfdl_unparse.specs.Documents.{Pieces, HasCells, IsSteady, Comes, Lays, IsPieceOf};
ghost use Rattle.dfdl_unparse.specs.Unparsers.{IsRefusedBy};

use crate::stop::Refusal;
use dfdl_forms::BitOrder;
use dfdl_suspend::{CellId, Equations, Known};
use std::alloc::{AllocError, Global};

/// A document that is written: the events so far are laid into pieces of bits, in the order of the data, and into the equations of unknowns.
/// One unknown is that of a piece's bits; once it has a value, the bits are known.
pub trait Document: Equations {
    /// What comes of the infoset at once.
    type Event;

    // whether an event may come next
    ghost takes: { Self → Self.Event → Type 0 };
    // what a document is after an event
    ghost follows: { Self → Self.Event → Self → Type 0 };
    // the limit that an event passes, of those that the document counts by itself
    ghost passes: { Self → Self.Event → Option Limit };
    // the pieces of the events so far
    ghost pieces: { Self → Pieces };
    // the unknowns that waited for the last event and do no more
    ghost given: { Self → List ℕ };
    // the path of the element that an unknown belongs to
    ghost path: { Self → ℕ → List ℕ };

    /// Lays one event more. After an Err it is only good for being dropped.
    fn add_event(&mut self, alloc: Global, event: &Self::Event) -> Result<(), Refusal>
        requires takes { takes self.old event.now }
        ensures follows { OnOk result (follows self.old event.now self.new) }
        ensures limit { IsRefusedBy (passes self.old event.now) result }
        ensures more { OnOk result (Self.unknowns self.old ≤ Self.unknowns self.new) }
        ensures comes { OnOk result (Comes (Self.unknowns self.old) (Self.equation self.old) (Self.equation self.new) (given self.new)) }
        ensures lays { OnOk result (Lays (Self.unknowns self.old) (Self.equation self.old) (pieces self.old) (pieces self.new)) };

    /// The unknowns that waited for the last event and do no more, each once.
    fn given(&self) -> &[CellId]
        ensures { result.now ≡ given self.now };

    /// The order of bits in bytes.
    fn bit_order(&self) -> BitOrder
        ensures { result ≡ (pieces self.now).order };

    /// How many pieces were laid.
    fn piece_count(&self) -> u32
        ensures { result ≡ (pieces self.now).count };

    /// The piece whose bits an unknown is, if there is one.
    fn piece_of(&self, cell: CellId) -> Option<u32>
        ensures { IsPieceOf (pieces self.now) cell result };

    /// How many bits a piece has whose bits are known.
    fn bit_count(&self, piece: u32, known: &Known) -> u64
        requires piece { piece < (pieces self.now).count }
        requires fits { Reached (length known.now) (Self.equation self.now) known.now }
        requires is_known { at known.now ((pieces self.now).cell piece) ≢ None }
        ensures { result ≡ length ((pieces self.now).bits known.now piece) };

    /// Writes the bits of a piece, where they are known, to the front of some bytes, whatever these were.
    fn write_bits(
        &mut self,
        alloc: Global,
        piece: u32,
        known: &Known,
        into: &mut Vec<u8>,
    ) -> Result<(), AllocError>
        requires piece { piece < (pieces self.old).count }
        requires fits { Reached (length known.now) (Self.equation self.old) known.now }
        requires is_known { at known.now ((pieces self.old).cell piece) ≢ None }
        ensures same { self.new ≡ self.old }
        ensures room { OnOk result (length ((pieces self.old).bits known.now piece) ≤ 8 * length into.new.items) }
        ensures bits { OnOk result (bits_from (pieces self.old).order into.new.items 0 (length ((pieces self.old).bits known.now piece))
            ≡ (pieces self.old).bits known.now piece) };

    /// The path of the element that an unknown belongs to, for a message.
    fn path_of(&self, alloc: Global, cell: CellId) -> Result<String, AllocError>
        ensures { IfOk result (λ text. string_bytes text ≡ path self.now cell) };

    // each piece has an unknown of its own
    ghost cells: { (s : Self) → HasCells (Self.unknowns s) (pieces s) };
    // the bits of a piece that are known stay the same while more is known
    ghost steady: { (s : Self) → IsSteady (Self.equation s) (pieces s) };
}
