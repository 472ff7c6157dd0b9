// The board, on which the equations of unknowns are evaluated in any order.
ghost use Rattle.std.specs.Prelude.{◌≡◌, ◌≢◌, ◌↔◌, ℕ, ◌+◌, ◌-◌, ◌<◌, ◌≤◌, ◌++◌, ◌∷◌, [], Option, Some, None, IfOk, IsErr, OnOk, OnErr, List, length, replicate, slice_index};
ghost use Rattle.std.specs.List.{slice_get};
ghost use Rattle.dfdl_suspend.specs.Asks.{Asks, gives, waiting};
ghost use Rattle.dfdl_suspend.specs.Boards.{Boarded, IsShown, Fits, Runs, with_added, with_set, with_given, weight};
ghost use Rattle.dfdl_suspend.specs.Events.{Brings};
ghost use Rattle.dfdl_suspend.specs.Marks.{IsReadyList};
ghost use Rattle.dfdl_suspend.specs.Outcomes.{IsFirstFault, IsStuckAt};
ghost use Rattle.dfdl_suspend.specs.Recorded.{IsRecordable, IsRecorded};
ghost use Rattle.dfdl_suspend.specs.declared.known.Held.{Held};

use crate::equations::{Answer, Equations};
use crate::firsts::{fault_with, first_open};
use crate::known::Known;
use crate::mark::Mark;
use crate::queue::Queue;
use dfdl_bits::Steps;
use dfdl_value::CellId;
use std::alloc::{AllocError, Global};
use std::marker::Model;
use std::sync::ledger::Ledger;

/// As many unknowns were added as the board was opened for.
#[derive(Clone, Copy, Debug, PartialEq, Eq, Drop)]
pub struct Full;

/// What is known of unknowns, which are ready, and who waits for whom. No call but `open` takes memory of its own.
#[derive(Drop)]
pub struct Board {
    known: Known,
    queue: Queue,
}

impl Model for Board {
    ghost use Rattle.std.specs.Prelude.{◌≡◌, length};
    ghost use Rattle.dfdl_suspend.specs.Boards.{Boarded};
    ghost use Rattle.dfdl_suspend.specs.Recorded.{IsTied};

    ghost Value = { Boarded };

    ghost view = { λ b. record { known = b.known; marks = b.queue.marks; ready = b.queue.ready } };

    ghost invariant = { λ b. IsTied b.known b.queue.marks × (b.queue.room ≡ length b.known) };
}

impl Board {
    /// Takes the memory for so many unknowns. None is added yet.
    pub fn open(alloc: Global, cells: u32) -> Result<Board, AllocError>
        ensures none { IfOk result (λ board. board ≡ record { known = replicate cells None; marks = []; ready = [] }) }
        ensures begins { IfOk result (λ board. (equation : ℕ → Asks Held) → Brings (λ cell. waiting cell) equation [] board) }
    {
        let known = Known::open(alloc, cells)?;
        let queue = Queue::open(alloc, cells)?;
        Ok(Board { known, queue })
    }

    /// What is known.
    pub fn known(&self) -> &Known
        ensures { result.now ≡ self.now.known }
    {
        &self.known
    }

    /// How many unknowns were added.
    pub fn added(&self) -> u32
        ensures { result ≡ length self.now.marks }
    {
        self.queue.added()
    }

    /// How many unknowns are ready.
    pub fn ready(&self) -> usize
        ensures count { result ≡ length self.now.ready }
        ensures shown { IsShown self.now }
    {
        self.queue.ready()
    }

    /// The ready unknown at a place.
    pub fn ready_at(&self, choice: usize) -> CellId
        requires { choice < length self.now.ready }
        ensures cell { result ≡ slice_index self.now.ready choice }
        ensures ready { slice_get self.now.marks result ≡ Some Mark.Ready }
    {
        CellId::new(self.queue.ready_at(choice))
    }

    /// Adds the next unknown, which is ready. It takes no memory.
    pub fn add(&mut self, cell: CellId) -> Result<(), Full>
        requires { cell ≡ length self.old.marks }
        ensures full { IsErr result ↔ (length self.old.marks ≡ length self.old.known) }
        ensures added { OnOk result (self.new ≡ with_added self.old) }
        ensures unchanged { OnErr result (self.new ≡ self.old) }
    {
        let _ = cell;
        if self.queue.added() == self.known.cells() {
            return Err(Full);
        }
        self.queue.add();
        Ok(())
    }

    /// Makes an unknown ready that waits for itself. It takes no memory.
    pub fn set(&mut self, cell: CellId)
        requires { slice_get self.old.marks cell ≡ Some (Mark.Waits cell) }
        ensures { self.new ≡ with_set self.old cell }
    {
        self.queue.set(cell.number());
    }

    /// Evaluates the equation of the ready unknown at a place, and answers its number. It is one step.
    pub fn run_one<E: Equations, L: Ledger>(
        &mut self,
        alloc: Global,
        equations: &mut E,
        choice: usize,
        steps: &mut Steps<L>,
    ) -> Result<CellId, AllocError>
        requires choice { choice < length self.old.ready }
        requires fits { Fits (E.unknowns equations.old) (E.equation equations.old) self.old }
        ensures same { equations.new ≡ equations.old }
        ensures ran { IfOk result (λ cell. cell ≡ slice_index self.old.ready choice) }
        ensures fits { IfOk result (λ cell. Fits (E.unknowns equations.old) (E.equation equations.old) self.new) }
        ensures step { IfOk result (λ cell. self.new.known ≡ with_given (gives (E.equation equations.old cell) self.old.known) cell self.old.known) }
        ensures runs { IfOk result (λ cell. (ran were_set : List ℕ) → Runs (E.equation equations.old) self.old ran were_set → Runs (E.equation equations.old) self.new (ran ++ cell ∷ []) were_set) }
        ensures less { IfOk result (λ cell. weight self.new < weight self.old) }
        ensures room { length self.new.known ≡ length self.old.known }
        ensures memory { OnErr result (self.new ≡ self.old) }
        ensures cost { steps.new ≡ steps.old + 1 }
    {
        let cell = self.queue.ready_at(choice);
        let answer = equations.answer(alloc, CellId::new(cell), &mut self.known, steps)?;
        record_answer(&mut self.queue, choice, answer);
        Ok(CellId::new(cell))
    }

    /// The first faulty unknown with the number of its cause. None where no unknown is faulty.
    pub fn first_fault<E: Equations>(&self, equations: &E) -> Option<(CellId, u8)>
        requires fits { Fits (E.unknowns equations.now) (E.equation equations.now) self.now }
        requires none_ready { length self.now.ready ≡ 0 }
        ensures { IsFirstFault (E.precedes equations.now) (E.unknowns equations.now) (E.equation equations.now) self.now.known result }
    {
        let mut best = None;
        for cell in 0..self.added() {
            best = self.fault_up_to(equations, best, CellId::new(cell));
        }
        best
    }

    // The first fault of the unknowns up to this one.
    fn fault_up_to<E: Equations>(
        &self,
        equations: &E,
        best: Option<(CellId, u8)>,
        cell: CellId,
    ) -> Option<(CellId, u8)>
        requires fits { Fits (E.unknowns equations.now) (E.equation equations.now) self.now }
        requires none_ready { length self.now.ready ≡ 0 }
        requires cell { cell < E.unknowns equations.now }
        requires best { IsFirstFault (E.precedes equations.now) cell (E.equation equations.now) self.now.known best }
        ensures { IsFirstFault (E.precedes equations.now) (cell + 1) (E.equation equations.now) self.now.known result }
    {
        match self.queue.mark(cell.number()) {
            Mark::Faulty(cause) => fault_with(equations, best, cell, cause),
            _ => best,
        }
    }

    /// The first unknown without a value, exactly where there is one and no unknown is faulty.
    pub fn stuck<E: Equations>(&self, equations: &E) -> Option<CellId>
        requires fits { Fits (E.unknowns equations.now) (E.equation equations.now) self.now }
        requires none_ready { length self.now.ready ≡ 0 }
        ensures { IsStuckAt (E.precedes equations.now) (E.unknowns equations.now) (E.equation equations.now) self.now.known result }
    {
        match self.first_fault(equations) {
            Some(_) => None,
            None => first_open(equations, &self.known),
        }
    }
}

// Records what the equation of a ready unknown gave.
fn record_answer(queue: &mut Queue, choice: usize, answer: Answer)
    requires choice { choice < length queue.old.ready }
    requires recordable { IsRecordable queue.old.marks answer }
    ensures recorded { IsRecorded answer (slice_index queue.old.ready choice) queue.old queue.new }
    ensures room { queue.new.room ≡ queue.old.room }
    ensures readies { IsReadyList queue.new.marks queue.new.ready }
{
    match answer {
        Answer::Value => queue.finish(choice),
        Answer::Wait(unknown) => queue.wait(choice, unknown.number()),
        Answer::Fault(cause) => queue.fail(choice, cause),
    }
}
