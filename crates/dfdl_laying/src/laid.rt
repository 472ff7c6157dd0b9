// What was laid, and the smallest acts of laying.
ghost use Rattle.std.specs.Prelude.{◌≡◌, IfOk, OnOk};
ghost use Rattle.dfdl_laying.specs.Laying as laying;

use crate::spot::Spot;
use dfdl_cells::{Book, Cell, CellId, Piece, Place, Step};
use std::alloc::{AllocError, Global};
use std::collections::VecDeque;
use std::marker::Model;

/// What was laid: the book, the element of each unknown, and what is open.
#[derive(Drop)]
pub struct Laid {
    pub(crate) book: Book,
    pub(crate) owners: Vec<u32>,
    pub(crate) elements: u32,
    pub(crate) here: Spot,
    pub(crate) around: VecDeque<Spot>,
}

impl Model for Laid {
    ghost use Rattle.dfdl_laying.specs.Laying.{Laid};

    ghost Value = { Laid };

    ghost view = { λ l. record { book = l.book; owners = l.owners.items; elements = l.elements; here = l.here; around = l.around.items } };
}

impl Laid {
    /// What was laid so far.
    pub fn book(&self) -> &Book
        ensures { result.now ≡ self.now.book }
    {
        &self.book
    }

    /// The number of the element that each unknown belongs to, in the order of the unknowns. Elements are numbered in the order of the infoset.
    pub fn owners(&self) -> &[u32]
        ensures { result.now ≡ self.now.owners }
    {
        self.owners.as_slice()
    }

    /// How many elements were laid.
    pub fn elements(&self) -> u32
        ensures { result ≡ self.now.elements }
    {
        self.elements
    }

    /// The number of the next unknown.
    pub(crate) fn next(&self) -> Result<u32, AllocError>
        ensures { IfOk result (λ n. n ≡ laying.next self.now) }
    {
        u32::try_from(self.book.cells().len()).map_err(|_| AllocError)
    }

    /// The number of the list of markup that is open here.
    pub(crate) fn markup_here(&self) -> u32
        ensures { result ≡ self.now.here.markup }
    {
        self.here.markup
    }

    /// Adds an unknown of an element.
    pub(crate) fn push_unknown(&mut self, owner: u32, cell: Cell) -> Result<CellId, AllocError>
        ensures number { IfOk result (λ n. n ≡ laying.next self.old) }
        ensures unknown { OnOk result (self.new ≡ laying.with_unknown owner cell self.old) }
    {
        let number = self.book.push_cell(cell)?;
        self.owners.push(owner)?;
        Ok(number)
    }

    /// Says what an unknown is that waits.
    pub(crate) fn give(&mut self, cell: CellId, is: Cell)
        ensures { self.new ≡ laying.given cell is self.old }
    {
        self.book.give_cell(cell, is);
    }

    /// Lays a piece of an element, with the unknown of its bits.
    pub(crate) fn lay(&mut self, owner: u32, piece: Piece) -> Result<(), AllocError>
        ensures { OnOk result (self.new ≡ laying.lays owner piece self.old) }
    {
        let number = self.book.push_piece(piece)?;
        self.push_unknown(owner, Cell::Bits { piece: number })?;
        Ok(())
    }

    /// Lays a step in the innermost content.
    pub(crate) fn step(&mut self, step: Step) -> Result<(), AllocError>
        ensures { OnOk result (self.new ≡ laying.stepped step self.old) }
    {
        self.book.push_step(self.here.complex, step)
    }

    /// How many steps lie in the innermost content.
    pub(crate) fn steps_here(&self) -> Result<u32, AllocError>
        ensures { IfOk result (λ n. n ≡ laying.steps_here self.now) }
    {
        self.book.steps_in(self.here.complex)
    }

    /// The place before so many of the last steps.
    pub(crate) fn place_before(&self, last: u32) -> Result<Place, AllocError>
        ensures { IfOk result (λ place. place ≡ laying.place_before last self.now) }
    {
        let steps = self.steps_here()?;
        Ok(Place {
            around: Some(self.here.complex),
            after: self.here.after,
            first: self.here.since,
            count: steps.saturating_sub(self.here.since).saturating_sub(last),
        })
    }

    /// The place behind all steps.
    pub(crate) fn place_here(&self) -> Result<Place, AllocError>
        ensures { IfOk result (λ place. place ≡ laying.place_here self.now) }
    {
        self.place_before(0)
    }

    /// An element begins here, whose start this is. There are fewer than 2^32 of them; one more is a want of memory.
    pub(crate) fn begin(&mut self, start: CellId) -> Result<(), AllocError>
        ensures { OnOk result (self.new ≡ laying.begun start self.old) }
    {
        let since = self.steps_here()?;
        let Some(elements) = self.elements.checked_add(1) else {
            return Err(AllocError);
        };
        self.elements = elements;
        self.here.after = Some(start);
        self.here.since = since;
        Ok(())
    }
}
