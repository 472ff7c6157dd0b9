// An environment in memory, for tests and as an example.
ghost use Rattle.std.specs.Prelude.{◌≡◌, true, refl};
ghost use Rattle.dfdl_expression_eval.specs.Listings.{item_at, item_for, length_for, listed, number_or, once_complete, only_item};

use super::env::{Env, Evaluated, OutOfMemory};
use dfdl_expressions::{Extent, Path};
use dfdl_value::{CellId, Value};
use std::alloc::Global;

/// Numbers that each path leads to, as the items of one array, and one variable.
#[derive(Debug, Drop)]
pub struct Listing {
    pub items: Vec<i128>,
    /// whether no more items can come; before that a path waits for the first unknown
    pub complete: bool,
    /// the length of each item in bits
    pub bits: i128,
    pub variable: Option<i128>,
    /// whether the variable was read
    pub was_read: bool,
}

fn number_or(cause: u8, number: Option<i128>) -> Evaluated
    ensures { result ≡ number_or cause number }
{
    match number {
        Some(number) => Evaluated::Known(Value::Int(number)),
        None => Evaluated::Fault(cause),
    }
}

fn only_item(items: &[i128]) -> Evaluated
    ensures { result ≡ only_item items.now }
{
    match items {
        [] => Evaluated::Fault(1),
        [number] => Evaluated::Known(Value::Int(*number)),
        _ => Evaluated::Fault(2),
    }
}

fn item_at(items: &[i128], place: u64) -> Evaluated
    ensures { result ≡ item_at items.now place }
{
    if place == 0 {
        return Evaluated::Fault(1);
    }
    number_or(1, items.get((place - 1) as usize).copied())
}

fn item_for(items: &[i128], places: &[u64]) -> Evaluated
    ensures { result ≡ item_for items.now places.now }
{
    match places {
        [] => only_item(items),
        [place, ..] => item_at(items, *place),
    }
}

fn length_for(bits: i128, item: Evaluated) -> Evaluated
    ensures { result ≡ length_for bits item }
{
    match item {
        Evaluated::Known(_) => Evaluated::Known(Value::Int(bits)),
        Evaluated::Wait(unknown) => Evaluated::Wait(unknown),
        Evaluated::Fault(cause) => Evaluated::Fault(cause),
    }
}

fn once_complete(complete: bool, answer: Evaluated) -> Evaluated
    ensures { result ≡ once_complete complete answer }
{
    if complete {
        answer
    } else {
        Evaluated::Wait(CellId::new(0))
    }
}

impl Env for Listing {
    ghost answers = { λ s. listed s.items.items s.complete s.bits s.variable };

    ghost read = { λ s number. record s { was_read = true } };

    ghost is_lean = { λ s. true };

    ghost steady = { λ s number. refl };

    ghost lean_stays = { λ s number. refl };

    fn item(
        &mut self,
        _alloc: Global,
        _path: &Path,
        places: &[u64],
    ) -> Result<Evaluated, OutOfMemory> {
        Ok(once_complete(self.complete, item_for(&self.items, places)))
    }

    fn count(
        &mut self,
        _alloc: Global,
        _path: &Path,
        _places: &[u64],
    ) -> Result<Evaluated, OutOfMemory> {
        let count = Value::Int(self.items.len() as i128);
        Ok(once_complete(self.complete, Evaluated::Known(count)))
    }

    fn length(
        &mut self,
        _alloc: Global,
        _path: &Path,
        places: &[u64],
        _extent: Extent,
    ) -> Result<Evaluated, OutOfMemory> {
        let length = length_for(self.bits, item_for(&self.items, places));
        Ok(once_complete(self.complete, length))
    }

    fn variable(&mut self, _alloc: Global, _number: u32) -> Result<Evaluated, OutOfMemory> {
        self.was_read = true;
        Ok(number_or(7, self.variable))
    }

    fn occurs_index(&mut self, _alloc: Global) -> Result<Evaluated, OutOfMemory> {
        Ok(Evaluated::Known(Value::Int(1)))
    }
}
