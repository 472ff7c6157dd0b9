// Where places are, over what is known.
ghost use Rattle.std.specs.Prelude.{◌≡◌, drop, option_copied, take};
ghost use Rattle.std.specs.List.{list_any};
ghost use Rattle.dfdl_cells.specs.Answers.{Answers};
ghost use Rattle.dfdl_cells.specs.Asking as asking;
ghost use Rattle.dfdl_cells.specs.Places as places;

use crate::asking::{Stop, number};
use crate::book::Book;
use crate::cell::Cell;
use crate::complex::Complex;
use crate::passing::passed_all;
use crate::step::{Place, Step};
use dfdl_suspend::{CellId, Known};

// Behind what lies between the start of an element with parts and its content, from so many bits on before the content around.
fn led(cells: &[Cell], known: &Known, complex: &Complex, n: u64) -> Result<u64, Stop>
    ensures { result ≡ asking.led cells.now known.now complex.now n }
{
    let start = number(known, complex.start)?;
    passed_all(
        cells,
        known,
        complex.lead.as_slice(),
        n.saturating_add(start),
    )
}

// The begin of the content of an element with parts, in bits of the data; at most so many elements are around one another.
fn begin_by(book: &Book, known: &Known, most: usize, around: Option<&Complex>) -> Result<u64, Stop>
    ensures { result ≡ asking.begin_by book.now known.now most (option_copied around.entry) }
{
    let Some(complex) = around else {
        return Ok(0);
    };
    if most == 0 {
        return Ok(0);
    }
    match begin_by(book, known, most - 1, book.complex(complex.around)) {
        Ok(begin) => led(book.cells(), known, complex, begin),
        Err(stop) => Err(stop),
    }
}

/// The begin of the content of the element with parts of a number, in bits of the data.
pub fn begin(book: &Book, known: &Known, around: Option<u32>) -> Result<u64, Stop>
    ensures { result ≡ asking.begin book.now known.now around }
{
    begin_by(book, known, book.complexes(), book.complex(around))
}

// The start that a place is behind.
fn start(known: &Known, after: Option<CellId>) -> Result<u64, Stop>
    ensures { result ≡ asking.start known.now after }
{
    match after {
        Some(cell) => number(known, cell),
        None => Ok(0),
    }
}

// Whether one of the steps counts from the start of the data.
fn have_aligned(steps: &[Step]) -> bool
    ensures { result ≡ list_any places.is_aligned steps.now }
{
    steps.iter().any(|step| matches!(step, Step::Align { .. }))
}

// Behind steps in a content, from so many bits of it on.
fn passed_in(
    book: &Book,
    known: &Known,
    around: Option<u32>,
    steps: &[Step],
    n: u64,
) -> Result<u64, Stop>
    ensures { result ≡ asking.passed_in book.now known.now around steps.now n }
{
    if !have_aligned(steps) {
        return passed_all(book.cells(), known, steps, n);
    }
    let begin = begin(book, known, around)?;
    let after = passed_all(book.cells(), known, steps, n.saturating_add(begin))?;
    Ok(after.saturating_sub(begin))
}

/// How many bits of its content lie before a place.
pub fn bits_before(book: &Book, known: &Known, place: &Place) -> Result<u64, Stop>
    ensures { result ≡ asking.place book.now known.now place.now }
{
    let start = start(known, place.after)?;
    let first = place.first as usize;
    let steps = steps_between(book.complex(place.around), first, place.count as usize);
    passed_in(book, known, place.around, steps, start)
}

/// So many steps in the content of an element with parts, from one on, as far as there are some; the document itself has none.
pub fn steps_between(around: Option<&Complex>, first: usize, count: usize) -> &[Step]
    ensures { result.now ≡ take count (drop first (places.steps_in (option_copied around.entry))) }
{
    let Some(complex) = around else {
        return &[];
    };
    let steps = complex.inside.as_slice();
    let begin = first.min(steps.len());
    let end = first.saturating_add(count).min(steps.len());
    &steps[begin..end]
}

/// How many bits of its content lie before a place, or what stops the question.
pub fn place_of(book: &Book, known: &Known, place: &Place) -> Result<u64, Stop>
    ensures { Answers (places.asked_place book.now place.now) known.now result }
{
    bits_before(book, known, place)
}

/// How many bits of the data lie before a place.
pub fn bits_from_start(book: &Book, known: &Known, place: &Place) -> Result<u64, Stop>
    ensures { result ≡ asking.bit book.now known.now place.now }
{
    let begin = begin(book, known, place.around)?;
    let bits = bits_before(book, known, place)?;
    Ok(bits.saturating_add(begin))
}

/// How many bits of the data lie before a place, or what stops the question.
pub fn bit_of(book: &Book, known: &Known, place: &Place) -> Result<u64, Stop>
    ensures { Answers (places.asked_bit book.now place.now) known.now result }
{
    bits_from_start(book, known, place)
}
