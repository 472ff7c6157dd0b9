// The writing of a document, event by event.
ghost use Rattle.std.specs.Prelude.{◌≡◌, ◌≢◌, ℕ, ◌-◌, ◌*◌, ◌++◌, [], Option, Some, None, List, IfOk, OnOk, Err, length, nat_lt, string_bytes};
ghost use Rattle.dfdl_edge.specs.Faults.{Rose};
ghost use Rattle.dfdl_suspend.specs.Boards.{Runs, WentOn};
ghost use Rattle.dfdl_suspend.specs.Rises.{RoseBy};
ghost use Rattle.dfdl_suspend.specs.Rounds.{solution};
ghost use Rattle.dfdl_unparse.specs.Documents.{all_bits, told};
ghost use Rattle.dfdl_unparse.specs.Fronts.{HasTaken, HasTakenFront, front as front_of};
ghost use Rattle.dfdl_unparse.specs.Unparsers.{HasStopped, IfSinkFailed, IfUnwritten, IsEnd, IsReady, IsStoppedBy, first_limit, held_back};
ghost use Rattle.dfdl_unparse.specs.declared.stop.End.TheVariants as end;
ghost use Rattle.dfdl_unparse.specs.declared.stop.Stop.{Stop as Halt};

use crate::document::Document;
use crate::front::Front;
use crate::stepping::take_event;
use crate::stop::{End, Stop};
use dfdl_bits::Steps;
use dfdl_edge::Sink;
use dfdl_suspend::{Board, CellId, Chooser, Held, laws};
use std::alloc::{AllocError, Global};
use std::sync::ledger::Ledger;

/// A document while it is written: what its events laid, what is known of it, and what is held back of that. Between two calls, until it
/// has stopped, it is ready: what is known is the least solution of the events so far.
#[derive(Drop)]
pub struct Unparser<D: Document> {
    pub(crate) document: D,
    pub(crate) board: Board,
    pub(crate) front: Front,
    pub(crate) bits: Vec<u8>,
    pub(crate) stopped: Option<Stop>,
}

impl<D: Document + Drop> Unparser<D> {
    /// An unparser of a document without events, with the memory for `cells` unknowns and for `held` bytes of output that are held
    /// back.
    pub fn open(
        alloc: Global,
        document: D,
        cells: u32,
        held: u32,
    ) -> Result<Unparser<D>, AllocError>
        requires empty { D.unknowns document ≡ 0 }
        ensures document { IfOk result (λ unparser. unparser.document ≡ document) }
        ensures goes_on { IfOk result (λ unparser. unparser.stopped ≡ None) }
        ensures room { IfOk result (λ unparser. (length unparser.board.known ≡ cells) × (unparser.front.most_bytes ≡ held)) }
        ensures ready { IfOk result (λ unparser. IsReady (D.unknowns document) (D.equation document) (D.pieces document) unparser.board unparser.front) }
        ensures taken { IfOk result (λ unparser. (before : List ℕ)
            → HasTaken (D.pieces document).order (front_of (told (D.pieces document) unparser.board.known)) before (Some before)) }
        ensures runs { IfOk result (λ unparser. Runs (D.equation document) unparser.board [] []) }
    {
        laws::solution_is::<Held>();
        let board = Board::open(alloc, cells)?;
        let front = Front::open(alloc, cells, held, document.bit_order())?;
        Ok(Unparser {
            document,
            board,
            front,
            bits: Vec::new(alloc),
            stopped: None,
        })
    }

    /// The document.
    pub fn document(&self) -> &D
        ensures { result.now ≡ self.now.document }
    {
        &self.document
    }

    /// Takes an event, computes all that can then be known, and writes the whole bytes of the known front that aren't written yet, in one
    /// write, or in none where there are none. No fault of the document is told here. Once it has stopped, it answers the same again, and does
    /// nothing.
    pub fn push<C: Chooser, K: Sink, L: Ledger>(
        &mut self,
        alloc: Global,
        event: &D::Event,
        chooser: &mut C,
        sink: &mut K,
        steps: &mut Steps<L>,
    ) -> Result<(), Stop>
        requires ready { self.old.stopped ≡ None → IsReady (D.unknowns self.old.document) (D.equation self.old.document) (D.pieces self.old.document) self.old.board self.old.front }
        requires takes { self.old.stopped ≡ None → D.takes self.old.document event.now }
        ensures stopped { HasStopped result self.new.stopped }
        ensures again { (stop : Halt) → self.old.stopped ≡ Some stop → (result ≡ Err stop) × (self.new ≡ self.old)
            × (K.seen sink.new ≡ K.seen sink.old) × (C.picks chooser.new ≡ C.picks chooser.old) × (steps.new ≡ steps.old) }
        ensures ready { OnOk result (IsReady (D.unknowns self.new.document) (D.equation self.new.document) (D.pieces self.new.document) self.new.board self.new.front) }
        ensures follows { OnOk result (D.follows self.old.document event.now self.new.document) }
        ensures least { OnOk result (self.new.board.known ≡ solution (length self.old.board.known) (D.equation self.new.document)) }
        ensures limit { self.old.stopped ≡ None → IsStoppedBy (first_limit (D.passes self.old.document event.now) (nat_lt (length self.old.board.known) (D.unknowns self.new.document))
            (nat_lt (8 * self.old.front.most_bytes) (held_back (D.pieces self.new.document) (solution (length self.old.board.known) (D.equation self.new.document))
            (front_of (told (D.pieces self.old.document) self.old.board.known))))) result }
        ensures taken { OnOk result ((before : List ℕ)
            → HasTaken (D.pieces self.old.document).order (front_of (told (D.pieces self.old.document) self.old.board.known)) before (K.seen sink.old).taken
            → HasTaken (D.pieces self.new.document).order (front_of (told (D.pieces self.new.document) self.new.board.known)) before (K.seen sink.new).taken) }
        ensures failed { self.old.stopped ≡ None → IfSinkFailed (Rose (K.seen sink.old).faults (K.seen sink.new).faults × ((before : List ℕ)
            → HasTaken (D.pieces self.old.document).order (front_of (told (D.pieces self.old.document) self.old.board.known)) before (K.seen sink.old).taken
            → HasTakenFront (D.pieces self.new.document).order (front_of (told (D.pieces self.new.document) (solution (length self.old.board.known) (D.equation self.new.document)))) before (K.seen sink.new).taken)) result }
        ensures unwritten { IfUnwritten (K.seen sink.new ≡ K.seen sink.old) result }
        ensures still { OnOk result ((K.seen sink.new).faults ≡ (K.seen sink.old).faults) }
        ensures room { (length self.new.board.known ≡ length self.old.board.known) × (self.new.front.most_bytes ≡ self.old.front.most_bytes) }
        ensures picks { RoseBy (steps.new - steps.old) (C.picks chooser.old) (C.picks chooser.new) }
        ensures runs { OnOk result ((ran were_set : List ℕ) → Runs (D.equation self.old.document) self.old.board ran were_set
            → WentOn (D.equation self.new.document) self.new.board ran (were_set ++ D.given self.new.document) (steps.new - steps.old)) }
    {
        if let Some(stop) = self.stopped {
            return Err(stop);
        }
        match take_event(
            alloc,
            &mut self.document,
            &mut self.board,
            &mut self.front,
            &mut self.bits,
            event,
            chooser,
            sink,
            steps,
        ) {
            Ok(()) => Ok(()),
            Err(stop) => {
                self.stopped = Some(stop);
                Err(stop)
            }
        }
    }

    /// What the document comes to, once all events were taken: Ok where each unknown has a value, and then all bits of all pieces are known;
    /// the first faulty unknown; where none is faulty, the first unknown without a value; or why it has stopped before.
    pub fn end(&self) -> Result<(), End>
        requires ready { self.now.stopped ≡ None → IsReady (D.unknowns self.now.document) (D.equation self.now.document) (D.pieces self.now.document) self.now.board self.now.front }
        ensures stopped { (stop : Halt) → self.now.stopped ≡ Some stop → result ≡ Err (end.Stopped stop) }
        ensures outcome { self.now.stopped ≡ None
            → IsEnd (D.precedes self.now.document) (D.unknowns self.now.document) (D.equation self.now.document) (solution (length self.now.board.known) (D.equation self.now.document)) result }
        ensures whole { OnOk result (front_of (told (D.pieces self.now.document) self.now.board.known)
            ≡ all_bits (D.pieces self.now.document) (solution (length self.now.board.known) (D.equation self.now.document))) }
    {
        if let Some(stop) = self.stopped {
            return Err(End::Stopped(stop));
        }
        if let Some((cell, cause)) = self.board.first_fault(&self.document) {
            return Err(End::Fault(cell, cause));
        }
        if let Some(cell) = self.board.stuck(&self.document) {
            return Err(End::Cycle(cell));
        }
        Ok(())
    }

    /// The path of the element that an unknown belongs to, for a message.
    pub fn path_of(&self, alloc: Global, cell: CellId) -> Result<String, AllocError>
        ensures { IfOk result (λ text. string_bytes text ≡ D.path self.now.document cell) }
    {
        self.document.path_of(alloc, cell)
    }
}
