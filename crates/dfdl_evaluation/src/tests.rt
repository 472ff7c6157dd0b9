// Pieces of fill in a book made by hand, and their equations.
ghost use Rattle.std.specs.Prelude.{◌≡◌, [], ◌∷◌, IfOk};
ghost use Rattle.dfdl_cells.specs.Sound.{PieceWithin, PlaceWithin};
ghost use Rattle.dfdl_cells.specs.declared.cell.Cell.TheVariants.{Bits};

use crate::{Joined, Plan, answer, join, write_piece};
use dfdl_cells::{Book, Cell, CellId, Piece, Place};
use dfdl_delims::Markup;
use dfdl_forms::BitOrder;
use dfdl_order::{Uses, order_of};
use dfdl_rows::{Components, are_of_one};
use dfdl_suspend::{Answer, Held, Known};
use dfdl_terms::{NameNumbers, Row, RowList, Tables, Terms};
use std::alloc::{AllocError, Global};
use std::test::Fail;

// One row, and tables of nothing.
fn terms(alloc: Global) -> Result<Terms, AllocError>
    ensures { IfOk result (λ t. t.delimiters ≡ []) }
{
    let children = RowList::new(Vec::new(alloc));
    let mut rows = Vec::new(alloc);
    rows.push(Row::Group { children })?;
    let names = NameNumbers::from_vec(Vec::new(alloc));
    let tables = Tables::new(
        Vec::new(alloc),
        Vec::new(alloc),
        Vec::new(alloc),
        names,
        Vec::new(alloc),
    );
    match Terms::build(alloc, rows, tables) {
        Ok(terms) => Ok(terms),
        Err(_) => Err(AllocError),
    }
}

// No components.
fn components(alloc: Global) -> Result<Components, AllocError> {
    let uses = Uses::new(alloc);
    if !uses.is_closed() {
        return Err(AllocError);
    }
    let Ok(order) = order_of(alloc, &uses) else {
        return Err(AllocError);
    };
    let components = Vec::new(alloc);
    let refusals = Vec::new(alloc);
    let places = Vec::new(alloc);
    if !are_of_one(&uses, &components, &refusals, &places) {
        return Err(AllocError);
    }
    Ok(Components::new(uses, order, components, refusals, places))
}

// A book of one unknown, the bits of this one piece.
fn book(alloc: Global, piece: Piece) -> Result<Book, AllocError>
    ensures { IfOk result (λ b. b ≡ record { cells = Bits 0 ∷ []; pieces = piece ∷ []; complexes = []; markups = [] }) }
{
    let mut cells = Vec::new(alloc);
    cells.push(Cell::Bits { piece: 0 })?;
    let pieces = Vec::from_slice(alloc, &[piece])?;
    Ok(Book::new(cells, pieces, Vec::new(alloc), Vec::new(alloc)))
}

// Behind the start that the unknown tells.
fn behind_start() -> Place
    ensures { PlaceWithin 1 result }
{
    Place {
        around: None,
        after: Some(CellId::new(0)),
        first: 0,
        count: 0,
    }
}

// The bits of a piece, where the unknown has the number 4.
fn written(alloc: Global, piece: Piece) -> Result<Joined, AllocError>
    requires { PieceWithin 1 piece }
{
    let terms = terms(alloc)?;
    let components = components(alloc)?;
    let markup = Markup::open(alloc, 0, 0)?;
    let plan = Plan::new(&terms, &components, &markup, &[], 0);
    let book = book(alloc, piece)?;
    let mut known = Known::open(alloc, 1)?;
    known.put(CellId::new(0), Held::Number(4));
    let bits = write_piece(alloc, &plan, &book, 0, &known)?;
    join(alloc, &bits, BitOrder::MostFirst)
}

// What the unknown of a piece comes to.
fn answered(alloc: Global, piece: Piece) -> Result<Answer, AllocError>
    requires { PieceWithin 1 piece }
{
    let terms = terms(alloc)?;
    let components = components(alloc)?;
    let markup = Markup::open(alloc, 0, 0)?;
    let plan = Plan::new(&terms, &components, &markup, &[], 0);
    let book = book(alloc, piece)?;
    let mut known = Known::open(alloc, 1)?;
    answer(alloc, &plan, &book, CellId::new(0), &mut known)
}

// So many bits of fill by this byte, at bit 4 of the data.
fn skipped(alloc: Global, bits: u32, fill: u8) -> Result<Joined, AllocError> {
    let place = behind_start();
    let piece = Piece::Skip {
        bits,
        fill,
        place,
        bound: None,
    };
    written(alloc, piece)
}

// The fill of the last byte at bit 4 of the data.
fn ended(alloc: Global, fill: u8) -> Result<Joined, AllocError> {
    let place = behind_start();
    written(alloc, Piece::End { fill, place })
}

// Whether these are so many bits in one byte.
fn is_one_byte(joined: &Joined, bits: u64, byte: u8) -> bool {
    joined.bits == bits && joined.bytes.as_slice() == [byte].as_slice()
}

#[test]
fn fill_is_told_by_its_place(rt: HostRuntime) -> Result<(), Fail> {
    let joined = skipped(rt.alloc(), 4, 0x05)?;
    assert!(&rt; is_one_byte(&joined, 4, 0x50));
    Ok(())
}

#[test]
fn last_byte_is_filled(rt: HostRuntime) -> Result<(), Fail> {
    let joined = ended(rt.alloc(), 0x0F)?;
    assert!(&rt; is_one_byte(&joined, 4, 0xF0));
    Ok(())
}

#[test]
fn what_is_missing_waits_for_itself(rt: HostRuntime) -> Result<(), Fail> {
    let answer = answered(rt.alloc(), Piece::Missing)?;
    assert!(&rt; answer == Answer::Wait(CellId::new(0)));
    Ok(())
}

#[test]
fn known_fill_has_a_value(rt: HostRuntime) -> Result<(), Fail> {
    let place = Place {
        around: None,
        after: None,
        first: 0,
        count: 0,
    };
    let answer = answered(rt.alloc(), Piece::End { fill: 0, place })?;
    assert!(&rt; answer == Answer::Value);
    Ok(())
}
