// Which unknowns are ready, and who waits for whom.
ghost use Rattle.std.specs.Prelude.{◌≡◌, ◌≢◌, ℕ, ◌+◌, ◌-◌, ◌^◌, ◌<◌, ◌≤◌, ◌++◌, ◌∷◌, [], Some, IfOk, List, length, slice_set, slice_index, slice_index_or, vec_capacity};
ghost use Rattle.std.specs.List.{slice_get};
ghost use Rattle.dfdl_suspend.specs.Marks.{IsReadyList, all_woken};
ghost use Rattle.dfdl_suspend.specs.Queued.{Queued};
ghost use Rattle.dfdl_suspend.specs.Queues.{IsWaking, list_end};

use crate::mark::Mark;
use std::alloc::{AllocError, Global};
use std::marker::Model;

// the number that ends a list of unknowns that wait
const LIST_END: u32 = u32::MAX;

// The marks of unknowns and the list of those that are ready. For each unknown without a value, those that wait for it
// are linked: `first` is the first of them, and `next` leads from each one to the next.
#[derive(Drop)]
pub(crate) struct Queue {
    marks: Vec<Mark>,
    ready: Vec<u32>,
    first: Vec<u32>,
    next: Vec<u32>,
    room: u32,
}

impl Model for Queue {
    ghost use Rattle.std.specs.Prelude.{length, vec_capacity, ◌≤◌};
    ghost use Rattle.dfdl_suspend.specs.Queued.{Queued};
    ghost use Rattle.dfdl_suspend.specs.Queues.{IsQueue, HasRoom};

    ghost Value = { Queued };

    ghost view = { λ q. record { marks = q.marks.items; ready = q.ready.items; room = q.room } };

    ghost invariant = { λ q. IsQueue q.marks.items q.ready.items q.first.items q.next.items × HasRoom q.room (length q.marks.items) (vec_capacity q.marks) (vec_capacity q.ready) (vec_capacity q.first) (vec_capacity q.next) };
}

impl Queue {
    // Takes the memory for so many unknowns.
    pub(crate) fn open(alloc: Global, room: u32) -> Result<Queue, AllocError>
        ensures { IfOk result (λ queue. queue ≡ record { marks = []; ready = []; room = room }) }
    {
        Ok(Queue {
            marks: Vec::with_capacity(alloc, room as usize)?,
            ready: Vec::with_capacity(alloc, room as usize)?,
            first: Vec::with_capacity(alloc, room as usize)?,
            next: Vec::with_capacity(alloc, room as usize)?,
            room,
        })
    }

    // Adds an unknown, which is ready.
    pub(crate) fn add(&mut self)
        requires { length self.old.marks < self.old.room }
        ensures { self.new ≡ record self.old { marks = self.old.marks ++ Mark.Ready ∷ []; ready = self.old.ready ++ length self.old.marks ∷ [] } }
    {
        let cell = self.marks.len() as u32;
        put_behind(&mut self.marks, Mark::Ready);
        put_behind(&mut self.ready, cell);
        put_behind(&mut self.first, LIST_END);
        put_behind(&mut self.next, LIST_END);
    }

    // How many unknowns were added.
    pub(crate) fn added(&self) -> u32
        ensures { result ≡ length self.now.marks }
    {
        self.marks.len() as u32
    }

    // How many unknowns are ready.
    pub(crate) fn ready(&self) -> usize
        ensures count { result ≡ length self.now.ready }
        ensures shown { IsReadyList self.now.marks self.now.ready }
    {
        self.ready.len()
    }

    // The ready unknown at a place.
    pub(crate) fn ready_at(&self, choice: usize) -> u32
        requires { choice < length self.now.ready }
        ensures cell { result ≡ slice_index self.now.ready choice }
        ensures ready { slice_get self.now.marks result ≡ Some Mark.Ready }
        ensures shown { IsReadyList self.now.marks self.now.ready }
    {
        self.ready[choice]
    }

    // The mark of an unknown.
    pub(crate) fn mark(&self, cell: u32) -> Mark
        requires { cell < length self.now.marks }
        ensures mark { slice_get self.now.marks cell ≡ Some result }
        ensures shown { IsReadyList self.now.marks self.now.ready }
    {
        self.marks[cell as usize]
    }

    // The ready unknown at a place has got a value; those that wait for it are ready.
    pub(crate) fn finish(&mut self, choice: usize)
        requires { choice < length self.old.ready }
        ensures marks { let cell = slice_index self.old.ready choice in self.new.marks ≡ all_woken cell (slice_set self.old.marks cell Mark.Done) }
        ensures room { self.new.room ≡ self.old.room }
        ensures readies { IsReadyList self.new.marks self.new.ready }
    {
        let cell = leave(&mut self.marks, &mut self.ready, choice, Mark::Done);
        let head = self.first[cell as usize];
        wake(
            &mut self.marks,
            &mut self.ready,
            self.next.as_slice(),
            cell,
            head,
        );
    }

    // The ready unknown at a place waits for another one, or for itself.
    pub(crate) fn wait(&mut self, choice: usize, unknown: u32)
        requires choice { choice < length self.old.ready }
        requires unknown { unknown < length self.old.marks }
        requires open { slice_get self.old.marks unknown ≢ Some Mark.Done }
        ensures marks { self.new.marks ≡ slice_set self.old.marks (slice_index self.old.ready choice) (Mark.Waits unknown) }
        ensures fewer { length self.new.ready + 1 ≡ length self.old.ready }
        ensures room { self.new.room ≡ self.old.room }
        ensures readies { IsReadyList self.new.marks self.new.ready }
    {
        let cell = leave(
            &mut self.marks,
            &mut self.ready,
            choice,
            Mark::Waits(unknown),
        );
        link(&mut self.first, &mut self.next, cell, unknown);
    }

    // The equation of the ready unknown at a place gives a fault.
    pub(crate) fn fail(&mut self, choice: usize, cause: u8)
        requires { choice < length self.old.ready }
        ensures marks { self.new.marks ≡ slice_set self.old.marks (slice_index self.old.ready choice) (Mark.Faulty cause) }
        ensures fewer { length self.new.ready + 1 ≡ length self.old.ready }
        ensures room { self.new.room ≡ self.old.room }
        ensures readies { IsReadyList self.new.marks self.new.ready }
    {
        leave(
            &mut self.marks,
            &mut self.ready,
            choice,
            Mark::Faulty(cause),
        );
    }

    // An unknown that waited for itself is ready.
    pub(crate) fn set(&mut self, cell: u32)
        requires { slice_get self.old.marks cell ≡ Some (Mark.Waits cell) }
        ensures { self.new ≡ record self.old { marks = slice_set self.old.marks cell Mark.Ready; ready = self.old.ready ++ cell ∷ [] } }
    {
        self.marks[cell as usize] = Mark::Ready;
        put_behind(&mut self.ready, cell);
    }
}

// Puts an item behind the others, where there is room for it.
fn put_behind<T: Drop>(items: &mut Vec<T>, item: T)
    requires { length items.old.items < vec_capacity items.old }
    ensures items { items.new.items ≡ items.old.items ++ item ∷ [] }
    ensures capacity { vec_capacity items.old ≤ vec_capacity items.new }
{
    match items.push(item) {
        Ok(()) => {}
        Err(_) => unreachable!(),
    }
}

// An unknown leaves the list of those that are ready, and gets another mark.
fn leave(marks: &mut Vec<Mark>, ready: &mut Vec<u32>, choice: usize, mark: Mark) -> u32
    requires choice { choice < length ready.old.items }
    requires readies { IsReadyList marks.old.items ready.old.items }
    requires other { mark ≢ Mark.Ready }
    ensures cell { result ≡ slice_index ready.old.items choice }
    ensures was { slice_get marks.old.items result ≡ Some Mark.Ready }
    ensures marks { marks.new.items ≡ slice_set marks.old.items result mark }
    ensures readies { IsReadyList marks.new.items ready.new.items }
    ensures fewer { length ready.new.items + 1 ≡ length ready.old.items }
    ensures capacity { vec_capacity ready.new ≡ vec_capacity ready.old }
    ensures marks_capacity { vec_capacity marks.new ≡ vec_capacity marks.old }
{
    let cell = ready.swap_remove(choice);
    marks[cell as usize] = mark;
    cell
}

// Links an unknown in front of those that wait for another one.
fn link(first: &mut Vec<u32>, next: &mut Vec<u32>, cell: u32, unknown: u32)
    requires unknown { unknown < length first.old.items }
    requires cell { cell < length next.old.items }
    ensures itself { unknown ≡ cell → (first.new.items ≡ first.old.items) × (next.new.items ≡ next.old.items) }
    ensures first { unknown ≢ cell → first.new.items ≡ slice_set first.old.items unknown cell }
    ensures next { unknown ≢ cell → next.new.items ≡ slice_set next.old.items cell (slice_index first.old.items unknown) }
    ensures first_capacity { vec_capacity first.new ≡ vec_capacity first.old }
    ensures next_capacity { vec_capacity next.new ≡ vec_capacity next.old }
{
    if unknown == cell {
        return;
    }
    next[cell as usize] = first[unknown as usize];
    first[unknown as usize] = cell;
}

// Makes all ready that wait for an unknown, along their list.
fn wake(marks: &mut Vec<Mark>, ready: &mut Vec<u32>, next: &[u32], unknown: u32, head: u32)
    requires waking { IsWaking marks.old.items next.now unknown head }
    requires readies { IsReadyList marks.old.items ready.old.items }
    requires nexts { length next.now ≡ length marks.old.items }
    requires few { length marks.old.items ≤ list_end }
    requires room { length marks.old.items ≤ vec_capacity ready.old }
    ensures marks { marks.new.items ≡ all_woken unknown marks.old.items }
    ensures readies { IsReadyList marks.new.items ready.new.items }
    ensures capacity { vec_capacity ready.old ≤ vec_capacity ready.new }
    ensures marks_capacity { vec_capacity marks.new ≡ vec_capacity marks.old }
{
    let mut at = head;
    'waking: while at != LIST_END {
        prove!((at as usize) < marks.len());
        marks[at as usize] = Mark::Ready;
        put_behind(ready, at);
        at = next[at as usize];
    }
}
