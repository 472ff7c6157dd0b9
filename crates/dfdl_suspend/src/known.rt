// What is known of unknowns.
ghost use Rattle.std.specs.Prelude.{◌≡◌, ◌<◌, ◌≤◌, Option, Some, None, IfOk, option_copied, length, replicate, slice_set, vec_capacity, ◌++◌, ◌-◌};
ghost use Rattle.dfdl_suspend.specs.Asks.{at};

use dfdl_value::{CellId, Value};
use std::alloc::{AllocError, Global};
use std::marker::Model;

/// The value of an unknown.
#[derive(Debug, PartialEq, Eq, Drop)]
pub enum Held {
    /// bits, or what the events alone determine, which the equations give by themselves
    Given,
    /// a number, as a length or a place in bits
    Number(u64),
    /// a value of the infoset
    Value(Value),
}

/// The values of unknowns, as a list of options. What is behind the last value that was put isn't written.
#[derive(Drop)]
pub struct Known {
    values: Vec<Option<Held>>,
    cells: u32,
}

impl Model for Known {
    ghost use Rattle.std.specs.Prelude.{List, Option, length, vec_capacity, ◌≤◌};
    ghost use Rattle.dfdl_suspend.specs.declared.known.Held.{Held};
    ghost use Rattle.dfdl_suspend.specs.Padded.{padded};

    ghost Value = { List (Option Held) };

    ghost view = { λ k. padded k.cells k.values.items };

    ghost invariant = { λ k. (length k.values.items ≤ k.cells) × (k.cells ≤ vec_capacity k.values) };
}

impl Known {
    /// Takes the memory for so many unknowns, of which none has a value.
    pub fn open(alloc: Global, cells: u32) -> Result<Known, AllocError>
        ensures { IfOk result (λ known. known ≡ replicate cells None) }
    {
        let values = Vec::with_capacity(alloc, cells as usize)?;
        Ok(Known { values, cells })
    }

    /// For how many unknowns memory was taken.
    pub fn cells(&self) -> u32
        ensures { result ≡ length self.now }
    {
        self.cells
    }

    /// The value of an unknown; None also for an unknown that isn't there.
    pub fn get(&self, cell: CellId) -> Option<&Held>
        ensures { option_copied result ≡ at self.now cell }
    {
        match self.values.get(cell.number() as usize) {
            Some(Some(held)) => Some(held),
            _ => None,
        }
    }

    /// Gives a value to an unknown. It takes no memory.
    pub fn put(&mut self, cell: CellId, held: Held)
        requires within { cell < length self.old }
        requires free { at self.old cell ≡ None }
        ensures { self.new ≡ slice_set self.old cell (Some held) }
    {
        let at = cell.number() as usize;
        fill(&mut self.values, at + 1);
        write(&mut self.values, at, held);
    }
}

// Writes None up to a number of places, in memory that was taken.
fn fill(values: &mut Vec<Option<Held>>, count: usize)
    requires { count ≤ vec_capacity values.old }
    ensures items { values.new.items ≡ values.old.items ++ replicate (count - length values.old.items) None }
    ensures capacity { vec_capacity values.old ≤ vec_capacity values.new }
{
    'filling: for at in values.len()..count {
        let _ = at;
        match values.push(None) {
            Ok(()) => {}
            Err(_) => unreachable!(),
        }
    }
}

// Writes a value at a place.
fn write(values: &mut Vec<Option<Held>>, at: usize, held: Held)
    requires { at < length values.old.items }
    ensures items { values.new.items ≡ slice_set values.old.items at (Some held) }
    ensures capacity { vec_capacity values.old ≤ vec_capacity values.new }
{
    values[at] = Some(held);
}
