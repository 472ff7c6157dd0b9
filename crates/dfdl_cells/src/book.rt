// What was laid.
ghost use Rattle.std.specs.Prelude.{◌≡◌, ◌++◌, ◌∷◌, [], option_copied, OnOk};
ghost use Rattle.dfdl_cells.specs.Growing as growing;

use crate::cell::Cell;
use crate::complex::Complex;
use crate::piece::{Bound, Earlier, Piece, SlotEnd, Stands};
use crate::step::{Mark, Place, Step};
use dfdl_separators::SeparatorPosition;
use dfdl_suspend::CellId;
use dfdl_terms::{LengthUnit, Prefix};
use std::alloc::{AllocError, Global};
use std::marker::Model;

/// The numbers of lists of delimiters, the outermost first. A contract sees them as their list.
#[derive(Debug, Drop)]
pub struct NumberList {
    numbers: Vec<u32>,
}

impl Model for NumberList {
    ghost use Rattle.std.specs.Prelude.{List, ℕ};

    ghost Value = { List ℕ };

    ghost view = { λ l. l.numbers.items };
}

impl NumberList {
    ghost use Rattle.std.specs.Prelude.{◌≡◌};

    /// Takes the numbers as they are, and no memory.
    pub fn from_vec(numbers: Vec<u32>) -> NumberList
        ensures { result ≡ numbers.items }
    {
        NumberList { numbers }
    }

    pub fn as_slice(&self) -> &[u32]
        ensures { result.now ≡ self.now }
    {
        self.numbers.as_slice()
    }
}

/// The unknowns and the pieces that were laid, the elements with parts, and the lists of terminating markup that are open at contents, each
/// by its number.
#[derive(Debug, Drop)]
pub struct Book {
    cells: Vec<Cell>,
    pieces: Vec<Piece>,
    complexes: Vec<Complex>,
    markups: Vec<NumberList>,
}

impl Model for Book {
    ghost use Rattle.dfdl_cells.specs.Books.{Book};

    ghost Value = { Book };

    ghost view = { λ b. record { cells = b.cells.items; pieces = b.pieces.items; complexes = b.complexes.items; markups = b.markups.items } };
}

// What a piece has inside.
type Inside = (
    (CellId, Place, Mark, Bound),
    (SlotEnd, Stands, Earlier),
    (Prefix, LengthUnit, SeparatorPosition),
);

// Adds a piece behind the others. The last argument is none: it names the types of what a piece has inside.
fn put(pieces: &mut Vec<Piece>, piece: Piece, _inside: Option<Inside>) -> Result<(), AllocError>
    ensures { OnOk result (pieces.new.items ≡ pieces.old.items ++ piece ∷ []) }
{
    pieces.push(piece)?;
    Ok(())
}

// Whether an unknown waits for an event.
fn is_waiting(cell: Option<&Cell>) -> bool
    ensures { result ≡ growing.is_waiting (option_copied cell.entry) }
{
    matches!(cell, Some(Cell::Waiting))
}

impl Book {
    ghost use Rattle.std.specs.Prelude.{◌≡◌, ◌<◌, [], length, option_copied, slice_get, IfOk, OnOk};
    ghost use Rattle.dfdl_cells.specs.Books.{markup_at};
    ghost use Rattle.dfdl_cells.specs.Places as places;

    /// Nothing was laid yet.
    pub fn empty(alloc: Global) -> Book
        ensures { result ≡ record { cells = []; pieces = []; complexes = []; markups = [] } }
    {
        Book {
            cells: Vec::new(alloc),
            pieces: Vec::new(alloc),
            complexes: Vec::new(alloc),
            markups: Vec::new(alloc),
        }
    }

    /// Takes what was laid as it is, and no memory.
    pub fn new(
        cells: Vec<Cell>,
        pieces: Vec<Piece>,
        complexes: Vec<Complex>,
        markups: Vec<NumberList>,
    ) -> Book
        ensures { result ≡ record { cells = cells.items; pieces = pieces.items; complexes = complexes.items; markups = markups.items } }
    {
        Book {
            cells,
            pieces,
            complexes,
            markups,
        }
    }

    pub fn cells(&self) -> &[Cell]
        ensures { result.now ≡ self.now.cells }
    {
        self.cells.as_slice()
    }

    /// The pieces, in the order of the data.
    pub fn pieces(&self) -> &[Piece]
        ensures { result.now ≡ self.now.pieces }
    {
        self.pieces.as_slice()
    }

    /// How many elements with parts there are.
    pub fn complexes(&self) -> usize
        ensures { result ≡ length self.now.complexes }
    {
        self.complexes.as_slice().len()
    }

    /// The element with parts of a number, if there is one of it.
    pub fn complex(&self, number: Option<u32>) -> Option<&Complex>
        ensures { option_copied result ≡ places.complex_at self.now number }
    {
        match number {
            Some(number) => self.complexes.get(number as usize),
            None => None,
        }
    }

    /// Adds an unknown, and gives its number. There are fewer than 2^32 of them; one more is a want of memory.
    pub fn push_cell(&mut self, cell: Cell) -> Result<CellId, AllocError>
        ensures number { IfOk result (λ n. n ≡ length self.old.cells) }
        ensures cell { OnOk result (self.new ≡ growing.with_cell cell self.old) }
    {
        let Ok(number) = u32::try_from(self.cells.len()) else {
            return Err(AllocError);
        };
        self.cells.push(cell)?;
        Ok(CellId::new(number))
    }

    /// Says what an unknown is that waits for an event. Any other stays as it is.
    pub fn give_cell(&mut self, number: CellId, cell: Cell)
        ensures { self.new ≡ growing.with_given number cell self.old }
    {
        let at = number.number() as usize;
        if is_waiting(self.cells.get(at)) {
            self.cells[at] = cell;
        }
    }

    /// Adds a piece, and gives its number. There are fewer than 2^32 of them; one more is a want of memory.
    pub fn push_piece(&mut self, piece: Piece) -> Result<u32, AllocError>
        ensures number { IfOk result (λ n. n ≡ length self.old.pieces) }
        ensures piece { OnOk result (self.new ≡ growing.with_piece piece self.old) }
    {
        let Ok(number) = u32::try_from(self.pieces.len()) else {
            return Err(AllocError);
        };
        put(&mut self.pieces, piece, None)?;
        Ok(number)
    }

    /// Adds an element with parts, and gives its number. There are fewer than 2^32 of them; one more is a want of memory.
    pub fn push_complex(&mut self, complex: Complex) -> Result<u32, AllocError>
        ensures number { IfOk result (λ n. n ≡ length self.old.complexes) }
        ensures complex { OnOk result (self.new ≡ growing.with_complex complex self.old) }
    {
        let Ok(number) = u32::try_from(self.complexes.len()) else {
            return Err(AllocError);
        };
        self.complexes.push(complex)?;
        Ok(number)
    }

    /// Adds a list of markup that is open, and gives its number. There are fewer than 2^32 of them; one more is a want of memory.
    pub fn push_markup(&mut self, numbers: NumberList) -> Result<u32, AllocError>
        ensures number { IfOk result (λ n. n ≡ length self.old.markups) }
        ensures markup { OnOk result (self.new ≡ growing.with_markup numbers self.old) }
    {
        let Ok(number) = u32::try_from(self.markups.len()) else {
            return Err(AllocError);
        };
        self.markups.push(numbers)?;
        Ok(number)
    }

    /// Adds a step behind those in the content of an element with parts, if there is one of this number.
    pub fn push_step(&mut self, number: u32, step: Step) -> Result<(), AllocError>
        ensures { OnOk result (self.new ≡ growing.with_step number step self.old) }
    {
        let at = number as usize;
        if at < self.complexes.len() {
            self.complexes[at].inside.push(step)?;
        }
        Ok(())
    }

    /// How many steps lie in the content of an element with parts; an element that isn't there has none. There are fewer than 2^32 of them; more
    /// are a want of memory.
    pub fn steps_in(&self, number: u32) -> Result<u32, AllocError>
        ensures { IfOk result (λ n. n ≡ length (growing.inside_of (slice_get self.now.complexes number))) }
    {
        let steps = match self.complexes.get(number as usize) {
            Some(complex) => complex.inside.as_slice().len(),
            None => 0,
        };
        u32::try_from(steps).map_err(|_| AllocError)
    }

    /// The piece of a number, if it is laid.
    pub fn piece(&self, number: u32) -> Option<&Piece>
        ensures { option_copied result ≡ slice_get self.now.pieces number }
    {
        self.pieces.get(number as usize)
    }

    /// The list of a number, of lists of delimiters by their numbers, the outermost first; none are in a list that isn't there.
    pub fn markup(&self, number: u32) -> &[u32]
        ensures { result.now ≡ markup_at self.now number }
    {
        match self.markups.get(number as usize) {
            Some(list) => list.as_slice(),
            None => &[],
        }
    }
}
