// Equations in memory, for tests and measurements.
ghost use Rattle.std.specs.Prelude.{◌≡◌, ℕ, ◌+◌, ◌^◌, ◌<◌, ◌≤◌, true, ◌++◌, ◌∷◌, [], Some, None, IfOk, IfSome, OnOk, OnErr, List, length, min, slice_set};
ghost use Rattle.std.specs.List.{slice_get};
ghost use Rattle.dfdl_suspend.specs.Answers.{Meets, NamesBelow};
ghost use Rattle.dfdl_suspend.specs.Asks.{at};
ghost use Rattle.dfdl_suspend.specs.Boards.{Boarded, Fits};
ghost use Rattle.dfdl_suspend.specs.Events.{Brings};
ghost use Rattle.dfdl_suspend.specs.Formulas.{number_of, equation_of, equation_in, NamesWithin, AreWithin, Tabled, comes_first, rows_order, rows_beyond};

use crate::equations::{Answer, Equations};
use crate::known::{Held, Known};
use dfdl_bits::Steps;
use dfdl_value::CellId;
use std::alloc::{AllocError, Global};
use std::marker::Model;
use std::sync::ledger::Ledger;

/// The equation of an unknown, in memory.
#[derive(Clone, Copy, Debug, PartialEq, Eq, Drop)]
pub enum Formula {
    /// it waits for an event
    Event,
    /// a number
    Plain(u64),
    /// a fault with the number of its cause
    Fault(u8),
    /// the number of another unknown
    Same(u32),
    /// the sum of two unknowns, at most the last value of a u64
    Sum(u32, u32),
}

/// A table of equations. Its order is that of the rows, or the other way round.
#[derive(Drop)]
pub struct Table {
    rows: Vec<Formula>,
    backwards: bool,
}

impl Model for Table {
    ghost use Rattle.std.specs.Prelude.{length, ◌<◌, ◌^◌};
    ghost use Rattle.dfdl_suspend.specs.Formulas.{Tabled, AreWithin};

    ghost Value = { Tabled };

    ghost view = { λ t. record { rows = t.rows.items; backwards = t.backwards } };

    ghost invariant = { λ t. AreWithin t.rows.items × (length t.rows.items < 2 ^ 32) };
}

// The unknowns that a formula names are there.
fn names_within(formula: Formula, count: usize) -> bool
    ensures { result ≡ true → NamesWithin count formula }
{
    match formula {
        Formula::Event | Formula::Plain(_) | Formula::Fault(_) => true,
        Formula::Same(other) => (other as usize) < count,
        Formula::Sum(first, second) => (first as usize) < count && (second as usize) < count,
    }
}

// The number of a value; zero for one that is no number.
fn number_of(held: &Held) -> u64
    ensures { result ≡ number_of held.now }
{
    match held {
        Held::Number(number) => *number,
        Held::Given | Held::Value(_) => 0,
    }
}

// The number of another unknown.
fn same(other: u32, cell: CellId, known: &mut Known) -> Answer
    requires within { cell < length known.old }
    requires free { at known.old cell ≡ None }
    ensures meets { Meets (equation_of cell (Formula.Same other)) cell known.old known.new result }
    ensures names { (count : ℕ) → other < count → NamesBelow count result }
{
    let Some(held) = known.get(CellId::new(other)) else {
        return Answer::Wait(CellId::new(other));
    };
    let number = number_of(held);
    known.put(cell, Held::Number(number));
    Answer::Value
}

// The sum of two unknowns.
fn sum(first: u32, second: u32, cell: CellId, known: &mut Known) -> Answer
    requires within { cell < length known.old }
    requires free { at known.old cell ≡ None }
    ensures meets { Meets (equation_of cell (Formula.Sum first second)) cell known.old known.new result }
    ensures names { (count : ℕ) → first < count → second < count → NamesBelow count result }
{
    let Some(held) = known.get(CellId::new(first)) else {
        return Answer::Wait(CellId::new(first));
    };
    let number = number_of(held);
    let Some(held) = known.get(CellId::new(second)) else {
        return Answer::Wait(CellId::new(second));
    };
    let number = number.saturating_add(number_of(held));
    known.put(cell, Held::Number(number));
    Answer::Value
}

// What a formula gives.
fn evaluate(formula: Formula, cell: CellId, known: &mut Known) -> Answer
    requires within { cell < length known.old }
    requires free { at known.old cell ≡ None }
    ensures meets { Meets (equation_of cell formula) cell known.old known.new result }
    ensures names { (count : ℕ) → cell < count → NamesWithin count formula → NamesBelow count result }
{
    match formula {
        Formula::Event => Answer::Wait(cell),
        Formula::Plain(number) => {
            known.put(cell, Held::Number(number));
            Answer::Value
        }
        Formula::Fault(cause) => Answer::Fault(cause),
        Formula::Same(other) => same(other, cell, known),
        Formula::Sum(first, second) => sum(first, second, cell, known),
    }
}

impl Table {
    /// A table of rows. None where a row names one that isn't there.
    pub fn of(alloc: Global, rows: &[Formula], backwards: bool) -> Result<Option<Table>, AllocError>
        ensures { IfOk result (λ found. IfSome found (λ table. table ≡ record { rows = rows.now; backwards = backwards })) }
    {
        let count = rows.len();
        if count >= u32::MAX as usize || !are_within(rows) {
            return Ok(None);
        }
        let rows = Vec::from_slice(alloc, rows)?;
        Ok(Some(Table { rows, backwards }))
    }

    /// An event: a row that waited for it has its formula.
    pub fn give(&mut self, cell: CellId, formula: Formula)
        requires waits { slice_get self.old.rows cell ≡ Some Formula.Event }
        requires within { NamesWithin (length self.old.rows) formula }
        ensures given { self.new ≡ record self.old { rows = slice_set self.old.rows cell formula } }
        ensures brings { (board : Boarded) → Fits (length board.marks) (equation_in self.old.rows) board → length board.ready ≡ 0
            → length board.marks ≡ length self.old.rows → Brings (equation_in self.old.rows) (equation_in self.new.rows) (cell ∷ []) board }
    {
        self.rows[cell.number() as usize] = formula;
    }

    /// An event: one row more.
    pub fn push(&mut self, formula: Formula) -> Result<(), AllocError>
        requires few { length self.old.rows < 2 ^ 31 }
        requires within { NamesWithin (length self.old.rows + 1) formula }
        ensures pushed { OnOk result (self.new ≡ record self.old { rows = self.old.rows ++ formula ∷ [] }) }
        ensures unchanged { OnErr result (self.new ≡ self.old) }
        ensures brings { OnOk result ((board : Boarded) → Fits (length board.marks) (equation_in self.old.rows) board → length board.ready ≡ 0
            → length board.marks ≡ length self.old.rows → Brings (equation_in self.old.rows) (equation_in self.new.rows) [] board) }
    {
        self.rows.push(formula)?;
        Ok(())
    }
}

// Each row names rows that are there.
fn are_within(rows: &[Formula]) -> bool
    ensures { result ≡ true → AreWithin rows.now }
{
    let count = rows.len();
    for row in rows {
        if !names_within(*row, count) {
            return false;
        }
    }
    true
}

impl Equations for Table {
    ghost unknowns = { λ t. length t.rows };

    ghost precedes = { λ t. comes_first t.backwards };

    ghost equation = { λ t. equation_in t.rows };

    ghost order = { λ t. rows_order t.backwards (length t.rows) };

    ghost beyond = { λ t cell past. rows_beyond t.rows cell past };

    fn count(&self) -> u32 {
        self.rows.len() as u32
    }

    fn earlier(&self, a: CellId, b: CellId) -> bool {
        if self.backwards {
            b.number() < a.number()
        } else {
            a.number() < b.number()
        }
    }

    fn answer<L: Ledger>(
        &mut self,
        _alloc: Global,
        cell: CellId,
        known: &mut Known,
        steps: &mut Steps<L>,
    ) -> Result<Answer, AllocError> {
        steps.tick();
        let formula = self.rows[cell.number() as usize];
        Ok(evaluate(formula, cell, known))
    }
}
