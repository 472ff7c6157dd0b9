// The unknowns that are ready are run, and the pieces whose bits are then known are put.
ghost use Rattle.std.specs.Prelude.{◌≡◌, ◌≢◌, ℕ, ◌+◌, ◌-◌, ◌*◌, ◌^◌, ◌<◌, ◌≤◌, ◌++◌, Option, None, List, OnOk, length, replicate, take};
ghost use Rattle.dfdl_splice.specs.Splicing.{IsAwaited, bit_count, with_bits};
ghost use Rattle.dfdl_suspend.specs.Asks.{at};
ghost use Rattle.dfdl_suspend.specs.Boards.{Fits, Runs, WentOn};
ghost use Rattle.dfdl_suspend.specs.Rises.{RoseBy};
ghost use Rattle.dfdl_suspend.specs.Rounds.{Reached, solution};
ghost use Rattle.dfdl_suspend.specs.declared.known.Held.{Held as Value};
ghost use Rattle.dfdl_unparse.specs.Documents.{told};
ghost use Rattle.dfdl_unparse.specs.Fronts.{bits_known, front as front_of, whole};
ghost use Rattle.dfdl_unparse.specs.Splices.{IsNext, IsSpliced};
ghost use Rattle.dfdl_unparse.specs.Unparsers.{IfHeldBack, held_back};

use crate::document::Document;
use crate::front::Front;
use crate::stop::Refusal;
use dfdl_bits::Steps;
use dfdl_report::LimitCause;
use dfdl_suspend::{Board, CellId, Chooser, Held, Known, laws};
use std::alloc::{AllocError, Global};
use std::sync::ledger::Ledger;

// Puts the bits of a piece, where so many may be held back.
fn put_piece<D: Document>(
    alloc: Global,
    document: &mut D,
    known: &Known,
    front: &mut Front,
    bits: &mut Vec<u8>,
    piece: u32,
) -> Result<(), Refusal>
    requires piece { piece < (D.pieces document.old).count }
    requires fits { Reached (length known.now) (D.equation document.old) known.now }
    requires is_known { at known.now ((D.pieces document.old).cell piece) ≢ None }
    requires awaited { (count : ℕ) → IsAwaited piece count front.old.awaited }
    requires order { front.old.order ≡ (D.pieces document.old).order }
    ensures same { document.new ≡ document.old }
    ensures most { (front.new.most_pieces ≡ front.old.most_pieces) × (front.new.most_bytes ≡ front.old.most_bytes) }
    ensures put { OnOk result (front.new ≡ with_bits front.old piece ((D.pieces document.old).bits known.now piece)) }
    ensures room { OnOk result (bit_count front.old + length ((D.pieces document.old).bits known.now piece) ≤ 8 * front.old.most_bytes) }
    ensures limit { IfHeldBack (8 * front.old.most_bytes < bit_count front.old + length ((D.pieces document.old).bits known.now piece)) result }
{
    let count = document.bit_count(piece, known);
    if !front.has_room(count) {
        return Err(Refusal::Limit(LimitCause::Held));
    }
    match document.write_bits(alloc, piece, known, bits) {
        Ok(()) => {}
        Err(AllocError) => return Err(Refusal::OutOfMemory),
    }
    front.put(piece, bits, count);
    Ok(())
}

// Puts the bits of the piece whose bits an unknown is that was run, where it has a value now and there is such a piece.
fn put_known<D: Document>(
    alloc: Global,
    document: &mut D,
    known: &Known,
    front: &mut Front,
    bits: &mut Vec<u8>,
    cell: CellId,
) -> Result<(), Refusal>
    requires next { (before : List (Option Value)) × (dropped : ℕ) × IsNext (D.equation document.old) (D.pieces document.old) before known.now cell dropped front.old }
    ensures same { document.new ≡ document.old }
    ensures most { (front.new.most_pieces ≡ front.old.most_pieces) × (front.new.most_bytes ≡ front.old.most_bytes) }
    ensures spliced { OnOk result ((before : List (Option Value)) (dropped : ℕ)
        → IsNext (D.equation document.old) (D.pieces document.old) before known.now cell dropped front.old
        → IsSpliced (D.pieces document.old).order (told (D.pieces document.old) known.now) dropped front.new) }
    ensures longer { (before : List (Option Value)) (dropped : ℕ)
        → IsNext (D.equation document.old) (D.pieces document.old) before known.now cell dropped front.old
        → take (length (front_of (told (D.pieces document.old) before))) (front_of (told (D.pieces document.old) known.now)) ≡ front_of (told (D.pieces document.old) before) }
    ensures limit { IfHeldBack ((before : List (Option Value)) (dropped : ℕ)
        → IsNext (D.equation document.old) (D.pieces document.old) before known.now cell dropped front.old
        → 8 * front.old.most_bytes < bits_known (told (D.pieces document.old) known.now) - dropped) result }
{
    if known.get(cell).is_none() {
        return Ok(());
    }
    match document.piece_of(cell) {
        Some(piece) => put_piece(alloc, document, known, front, bits, piece),
        None => Ok(()),
    }
}

// Runs unknowns, as the chooser picks them, until none is ready, and puts each piece once its bits are known. Then what is known is the
// least solution.
pub(crate) fn run_known<D: Document, C: Chooser, L: Ledger>(
    alloc: Global,
    document: &mut D,
    board: &mut Board,
    front: &mut Front,
    bits: &mut Vec<u8>,
    chooser: &mut C,
    steps: &mut Steps<L>,
) -> Result<(), Refusal>
    requires fits { Fits (D.unknowns document.old) (D.equation document.old) board.old }
    requires spliced { IsSpliced (D.pieces document.old).order (told (D.pieces document.old) board.old.known)
        (whole (front_of (told (D.pieces document.old) board.old.known))) front.old }
    ensures same { document.new ≡ document.old }
    ensures room { length board.new.known ≡ length board.old.known }
    ensures most { (front.new.most_pieces ≡ front.old.most_pieces) × (front.new.most_bytes ≡ front.old.most_bytes) }
    ensures fits { OnOk result (Fits (D.unknowns document.old) (D.equation document.old) board.new) }
    ensures none_ready { OnOk result (length board.new.ready ≡ 0) }
    ensures least { OnOk result (board.new.known ≡ solution (length board.old.known) (D.equation document.old)) }
    ensures spliced { OnOk result (IsSpliced (D.pieces document.old).order (told (D.pieces document.old) board.new.known)
        (whole (front_of (told (D.pieces document.old) board.old.known))) front.new) }
    ensures longer { OnOk result (take (length (front_of (told (D.pieces document.old) board.old.known))) (front_of (told (D.pieces document.old) board.new.known))
        ≡ front_of (told (D.pieces document.old) board.old.known)) }
    ensures limit { IfHeldBack (8 * front.old.most_bytes < held_back (D.pieces document.old) (solution (length board.old.known) (D.equation document.old))
        (front_of (told (D.pieces document.old) board.old.known))) result }
    ensures picks { RoseBy (steps.new - steps.old) (C.picks chooser.old) (C.picks chooser.new) }
    ensures runs { OnOk result ((ran were_set : List ℕ) → Runs (D.equation document.old) board.old ran were_set
        → WentOn (D.equation document.old) board.new ran were_set (steps.new - steps.old)) }
{
    laws::solution_is::<Held>();
    laws::reached_least::<Held>();
    'running: while board.ready() > 0 {
        let choice = chooser.pick(board.ready());
        let cell = match board.run_one(alloc, document, choice, steps) {
            Ok(cell) => cell,
            Err(AllocError) => return Err(Refusal::OutOfMemory),
        };
        match put_known(alloc, document, board.known(), front, bits, cell) {
            Ok(()) => {}
            Err(refusal) => return Err(refusal),
        }
    }
    Ok(())
}
