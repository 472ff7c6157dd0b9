// One event is laid.
ghost use Rattle.std.specs.Prelude.{◌≡◌, ℕ, ◌+◌, ◌-◌, ◌*◌, ◌^◌, ◌<◌, ◌≤◌, ◌++◌, false, nat_lt, Option, None, List, IsOk, OnOk, length, replicate};
ghost use Rattle.dfdl_edge.specs.Faults.{Rose};
ghost use Rattle.dfdl_forms.specs.declared.order.BitOrder.{BitOrder as Order};
ghost use Rattle.dfdl_suspend.specs.Boards.{Fits, Runs, WentOn};
ghost use Rattle.dfdl_suspend.specs.Rises.{RoseBy};
ghost use Rattle.dfdl_suspend.specs.Rounds.{solution};
ghost use Rattle.dfdl_unparse.specs.Documents.{told};
ghost use Rattle.dfdl_unparse.specs.Fronts.{HasTaken, HasTakenFront, front as front_of, whole};
ghost use Rattle.dfdl_unparse.specs.Splices.{IsSpliced};
ghost use Rattle.dfdl_unparse.specs.Unparsers.{IfSinkFailed, IfUnwritten, IsReady, IsRefusedBy, IsStoppedBy, first_limit, held_back};

use crate::document::Document;
use crate::front::Front;
use crate::running::run_known;
use crate::stop::{Refusal, Stop};
use crate::writing::write_known;
use dfdl_bits::Steps;
use dfdl_edge::Sink;
use dfdl_report::LimitCause;
use dfdl_suspend::{Board, Chooser, Held, laws, take_up};
use std::alloc::Global;
use std::sync::ledger::Ledger;

// Adds pieces until there are so many.
fn add_pieces(front: &mut Front, count: u32)
    requires room { count ≤ front.old.most_pieces }
    requires spliced { (order : Order) × (pieces : List (Option (List ℕ))) × (dropped : ℕ) × IsSpliced order pieces dropped front.old }
    requires more { front.old.added ≤ count }
    ensures most { (front.new.most_pieces ≡ front.old.most_pieces) × (front.new.most_bytes ≡ front.old.most_bytes) }
    ensures spliced { (order : Order) (pieces : List (Option (List ℕ))) (dropped : ℕ) → IsSpliced order pieces dropped front.old
        → IsSpliced order (pieces ++ replicate (count - front.old.added) None) dropped front.new }
{
    'adding: for _ in front.added()..count {
        front.add();
    }
}

// Lays an event, and takes up what it brings.
fn bring<D: Document>(
    alloc: Global,
    document: &mut D,
    board: &mut Board,
    front: &mut Front,
    event: &D::Event,
) -> Result<(), Refusal>
    requires ready { IsReady (D.unknowns document.old) (D.equation document.old) (D.pieces document.old) board.old front.old }
    requires takes { D.takes document.old event.now }
    ensures follows { OnOk result (D.follows document.old event.now document.new) }
    ensures limit { IsRefusedBy (first_limit (D.passes document.old event.now) (nat_lt (length board.old.known) (D.unknowns document.new)) false) result }
    ensures known { board.new.known ≡ board.old.known }
    ensures most { (front.new.most_pieces ≡ front.old.most_pieces) × (front.new.most_bytes ≡ front.old.most_bytes) }
    ensures fits { OnOk result (Fits (D.unknowns document.new) (D.equation document.new) board.new) }
    ensures order { OnOk result ((D.pieces document.new).order ≡ (D.pieces document.old).order) }
    ensures front { OnOk result (front_of (told (D.pieces document.new) board.old.known) ≡ front_of (told (D.pieces document.old) board.old.known)) }
    ensures spliced { OnOk result (IsSpliced (D.pieces document.new).order (told (D.pieces document.new) board.old.known)
        (whole (front_of (told (D.pieces document.old) board.old.known))) front.new) }
    ensures runs { OnOk result ((ran were_set : List ℕ) → Runs (D.equation document.old) board.old ran were_set
        → Runs (D.equation document.new) board.new ran (were_set ++ D.given document.new)) }
{
    laws::reached_waiting::<Held>();
    match document.add_event(alloc, event) {
        Ok(()) => {}
        Err(refusal) => return Err(refusal),
    }
    if take_up(board, document, document.given()).is_err() {
        return Err(Refusal::Limit(LimitCause::Cells));
    }
    add_pieces(front, document.piece_count());
    Ok(())
}

// Takes an event: lays it, runs what is ready, and writes what is then known.
pub(crate) fn take_event<D: Document, C: Chooser, K: Sink, L: Ledger>(
    alloc: Global,
    document: &mut D,
    board: &mut Board,
    front: &mut Front,
    bits: &mut Vec<u8>,
    event: &D::Event,
    chooser: &mut C,
    sink: &mut K,
    steps: &mut Steps<L>,
) -> Result<(), Stop>
    requires ready { IsReady (D.unknowns document.old) (D.equation document.old) (D.pieces document.old) board.old front.old }
    requires takes { D.takes document.old event.now }
    ensures ready { OnOk result (IsReady (D.unknowns document.new) (D.equation document.new) (D.pieces document.new) board.new front.new) }
    ensures follows { OnOk result (D.follows document.old event.now document.new) }
    ensures limit { IsStoppedBy (first_limit (D.passes document.old event.now) (nat_lt (length board.old.known) (D.unknowns document.new))
        (nat_lt (8 * front.old.most_bytes) (held_back (D.pieces document.new) (solution (length board.old.known) (D.equation document.new))
        (front_of (told (D.pieces document.old) board.old.known))))) result }
    ensures taken { OnOk result ((before : List ℕ)
        → HasTaken (D.pieces document.old).order (front_of (told (D.pieces document.old) board.old.known)) before (K.seen sink.old).taken
        → HasTaken (D.pieces document.new).order (front_of (told (D.pieces document.new) board.new.known)) before (K.seen sink.new).taken) }
    ensures failed { IfSinkFailed (Rose (K.seen sink.old).faults (K.seen sink.new).faults × ((before : List ℕ)
        → HasTaken (D.pieces document.old).order (front_of (told (D.pieces document.old) board.old.known)) before (K.seen sink.old).taken
        → HasTakenFront (D.pieces document.new).order (front_of (told (D.pieces document.new) (solution (length board.old.known) (D.equation document.new)))) before (K.seen sink.new).taken)) result }
    ensures unwritten { IfUnwritten (K.seen sink.new ≡ K.seen sink.old) result }
    ensures still { IsOk result → (K.seen sink.new).faults ≡ (K.seen sink.old).faults }
    ensures room { length board.new.known ≡ length board.old.known }
    ensures most { front.new.most_bytes ≡ front.old.most_bytes }
    ensures picks { RoseBy (steps.new - steps.old) (C.picks chooser.old) (C.picks chooser.new) }
    ensures runs { OnOk result ((ran were_set : List ℕ) → Runs (D.equation document.old) board.old ran were_set
        → WentOn (D.equation document.new) board.new ran (were_set ++ D.given document.new) (steps.new - steps.old)) }
{
    match bring(alloc, document, board, front, event) {
        Ok(()) => {}
        Err(unlaid) => return Err(Stop::of(unlaid)),
    }
    match run_known(alloc, document, board, front, bits, chooser, steps) {
        Ok(()) => {}
        Err(refusal) => return Err(Stop::of(refusal)),
    }
    match write_known(front, sink) {
        Ok(()) => Ok(()),
        Err(_) => Err(Stop::Sink),
    }
}
