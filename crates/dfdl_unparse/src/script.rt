// A document in memory, for tests and measurements.
ghost use Rattle.std.specs.Prelude.{◌≡◌, ◌<◌, ◌≤◌, ◌∷◌, codes, [], None, Some, IfOk, IfSome, OnOk, length};
ghost use Rattle.dfdl_suspend.specs.Asks.{at};
ghost use Rattle.dfdl_suspend.specs.Formulas.{comes_first, equation_in, rows_beyond, rows_order};
ghost use Rattle.dfdl_unparse.specs.Documents.{Comes, Lays};
ghost use Rattle.dfdl_unparse.specs.Scripts.{MayCome, last_byte, pieces_of, rows_after, script_cells, script_steady, width_at};
ghost use Rattle.dfdl_unparse.specs.Unparsers.{IsRefusedBy};

use crate::document::Document;
use crate::stop::Refusal;
use dfdl_bits::Steps;
use dfdl_forms::BitOrder;
use dfdl_suspend::{Answer, CellId, Equations, Formula, Held, Known, Table};
use std::alloc::{AllocError, Global};
use std::sync::ledger::Ledger;

/// What comes next of a document in memory.
#[derive(Clone, Copy, Debug, PartialEq, Eq, Drop)]
pub enum Line {
    /// one unknown more, which is that of a piece of so many bits, at most eight
    Add(Formula, u8),
    /// an unknown that waited for this line has this formula
    Give(u32, Formula),
}

/// The rows of the lines so far. Each row is an unknown and a piece, whose bits are the first ones of the last byte of its number, the most
/// significant one first.
#[derive(Drop)]
pub struct Script {
    pub table: Table,
    pub widths: Vec<u8>,
    pub given: Vec<CellId>,
    ghost wide: { length table.rows ≤ length widths.items },
}

impl Script {
    /// No rows. Of two unknowns the one in the later row is the first, if so it is told.
    pub fn open(alloc: Global, backwards: bool) -> Result<Option<Script>, AllocError>
        ensures { IfOk result (λ found. IfSome found (λ script. script.table ≡ record { rows = []; backwards = backwards })) }
    {
        let Some(table) = Table::of(alloc, &[], backwards)? else {
            return Ok(None);
        };
        Ok(Some(Script {
            table,
            widths: Vec::new(alloc),
            given: Vec::new(alloc),
        }))
    }

    // How many bits a piece has.
    fn width(&self, piece: u32) -> u8
        ensures { result ≡ width_at self.now.widths.items piece }
    {
        match self.widths.get(piece as usize) {
            Some(width) => (*width).min(8),
            None => 0,
        }
    }

    // One row more.
    fn add(&mut self, formula: Formula, width: u8) -> Result<(), Refusal>
        requires { MayCome self.old.table.rows (Line.Add formula width) }
        ensures rows { OnOk result (self.new.table.rows ≡ rows_after self.old.table.rows (Line.Add formula width)) }
        ensures limit { IsRefusedBy None result }
        ensures more { OnOk result (length self.old.table.rows ≤ length self.new.table.rows) }
        ensures comes { OnOk result (Comes (length self.old.table.rows) (equation_in self.old.table.rows) (equation_in self.new.table.rows) self.new.given.items) }
        ensures lays { OnOk result (Lays (length self.old.table.rows) (equation_in self.old.table.rows)
            (pieces_of self.old.table self.old.widths.items) (pieces_of self.new.table self.new.widths.items)) }
    {
        self.given.clear();
        match self.widths.push(width) {
            Ok(()) => {}
            Err(_) => return Err(Refusal::OutOfMemory),
        }
        match self.table.push(formula) {
            Ok(()) => Ok(()),
            Err(AllocError) => Err(Refusal::OutOfMemory),
        }
    }

    // A row that waited has its formula.
    fn give(&mut self, cell: u32, formula: Formula) -> Result<(), Refusal>
        requires { MayCome self.old.table.rows (Line.Give cell formula) }
        ensures rows { OnOk result (self.new.table.rows ≡ rows_after self.old.table.rows (Line.Give cell formula)) }
        ensures limit { IsRefusedBy None result }
        ensures more { OnOk result (length self.old.table.rows ≤ length self.new.table.rows) }
        ensures comes { OnOk result (Comes (length self.old.table.rows) (equation_in self.old.table.rows) (equation_in self.new.table.rows) self.new.given.items) }
        ensures lays { OnOk result (Lays (length self.old.table.rows) (equation_in self.old.table.rows)
            (pieces_of self.old.table self.old.widths.items) (pieces_of self.new.table self.new.widths.items)) }
    {
        self.given.clear();
        match self.given.push(CellId::new(cell)) {
            Ok(()) => {}
            Err(_) => return Err(Refusal::OutOfMemory),
        }
        self.table.give(CellId::new(cell), formula);
        Ok(())
    }
}

impl Equations for Script {
    ghost unknowns = { λ s. length s.table.rows };

    ghost precedes = { λ s. comes_first s.table.backwards };

    ghost equation = { λ s. equation_in s.table.rows };

    ghost order = { λ s. rows_order s.table.backwards (length s.table.rows) };

    ghost beyond = { λ s cell past. rows_beyond s.table.rows cell past };

    fn count(&self) -> u32 {
        self.table.count()
    }

    fn earlier(&self, a: CellId, b: CellId) -> bool {
        self.table.earlier(a, b)
    }

    fn answer<L: Ledger>(
        &mut self,
        alloc: Global,
        cell: CellId,
        known: &mut Known,
        steps: &mut Steps<L>,
    ) -> Result<Answer, AllocError> {
        self.table.answer(alloc, cell, known, steps)
    }
}

// The last byte of the number that an unknown has.
fn last_byte(known: &Known, cell: u32) -> u8
    ensures { result ≡ last_byte (at known.now cell) }
{
    match known.get(CellId::new(cell)) {
        Some(Held::Number(number)) => (*number % 256) as u8,
        Some(Held::Given) => 0,
        Some(Held::Value(_)) => 0,
        None => 0,
    }
}

impl Document for Script {
    type Event = Line;

    ghost takes = { λ s line. MayCome s.table.rows line };

    ghost follows = { λ s line t. t.table.rows ≡ rows_after s.table.rows line };

    ghost passes = { λ s line. None };

    ghost pieces = { λ s. pieces_of s.table s.widths.items };

    ghost given = { λ s. s.given.items };

    ghost path = { λ s cell. codes "/" };

    ghost cells = { λ s. script_cells s.table s.widths.items };

    ghost steady = { λ s. script_steady s.table s.widths.items };

    fn add_event(&mut self, _alloc: Global, event: &Line) -> Result<(), Refusal> {
        match *event {
            Line::Add(formula, width) => self.add(formula, width),
            Line::Give(cell, formula) => self.give(cell, formula),
        }
    }

    fn given(&self) -> &[CellId] {
        self.given.as_slice()
    }

    fn bit_order(&self) -> BitOrder {
        BitOrder::MostFirst
    }

    fn piece_count(&self) -> u32 {
        self.table.count()
    }

    fn piece_of(&self, cell: CellId) -> Option<u32> {
        if cell.number() < self.table.count() {
            return Some(cell.number());
        }
        None
    }

    fn bit_count(&self, piece: u32, _known: &Known) -> u64 {
        u64::from(self.width(piece))
    }

    fn write_bits(
        &mut self,
        _alloc: Global,
        piece: u32,
        known: &Known,
        into: &mut Vec<u8>,
    ) -> Result<(), AllocError> {
        into.clear();
        into.push(last_byte(known, piece))?;
        Ok(())
    }

    fn path_of(&self, alloc: Global, _cell: CellId) -> Result<String, AllocError> {
        String::from_str(alloc, "/")
    }
}
