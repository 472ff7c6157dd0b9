// What equations ask for: the values of unknowns, or what stops them.
ghost use Rattle.std.specs.Prelude.{◌≡◌, option_copied};
ghost use Rattle.dfdl_cells.specs.Asking as asking;
ghost use Rattle.dfdl_cells.specs.Asking.{answer_shown};
ghost use Rattle.dfdl_cells.specs.Values as values;

use crate::cell::Cell;
use dfdl_suspend::{CellId, Held, Known};
use dfdl_value::Value;

/// Why an equation goes no further: it waits for an unknown, or it has no value for the cause of this number.
#[derive(Debug, Clone, Copy, PartialEq, Eq)]
pub enum Stop {
    Wait(CellId),
    Fault(u8),
}

/// What a simple element is ('The DFDL Information Set').
#[derive(Clone, Copy)]
pub enum Told<'a> {
    Nil,
    Is(&'a Value),
}

// The number that an unknown has; another value is none.
fn number_in(held: &Held) -> u64
    ensures { result ≡ values.number_in held.now }
{
    match held {
        Held::Number(number) => *number,
        Held::Given | Held::Value(_) => 0,
    }
}

/// The number of an unknown.
pub fn number(known: &Known, cell: CellId) -> Result<u64, Stop>
    ensures { result ≡ asking.number known.now cell }
{
    match known.get(cell) {
        Some(held) => Ok(number_in(held)),
        None => Err(Stop::Wait(cell)),
    }
}

// What the unknown of a value is that the events alone determine.
fn told_in(one: Option<&Cell>) -> Result<Told<'_>, Stop>
    ensures { answer_shown result ≡ asking.or_none (values.told_in (option_copied one.entry)) }
{
    match one {
        Some(Cell::Given { value }) => Ok(Told::Is(value)),
        Some(Cell::Nil) => Ok(Told::Nil),
        _ => Err(Stop::Fault(0)),
    }
}

/// What the simple element is whose first unknown this is.
pub fn value<'a>(cells: &'a [Cell], known: &'a Known, first: CellId) -> Result<Told<'a>, Stop>
    ensures { answer_shown result ≡ asking.value cells.now known.now first }
{
    match known.get(first) {
        None => Err(Stop::Wait(first)),
        Some(Held::Given) => told_in(cells.get(first.number() as usize)),
        Some(Held::Value(value)) => Ok(Told::Is(value)),
        Some(Held::Number(_)) => Err(Stop::Fault(0)),
    }
}
