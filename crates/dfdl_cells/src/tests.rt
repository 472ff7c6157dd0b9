// Places in a book made by hand.

use crate::{Book, CellId, Complex, Place, Step, StepList, Stop, bit_of, place_of};
use dfdl_suspend::{Held, Known};
use std::alloc::{AllocError, Global};
use std::test::Fail;

// What is known of three unknowns: a length of 24 bits, and a start at bit 8; nothing of the last.
fn known(alloc: Global) -> Result<Known, AllocError> {
    let mut known = Known::open(alloc, 3)?;
    known.put(CellId::new(0), Held::Number(24));
    known.put(CellId::new(1), Held::Number(8));
    Ok(known)
}

// Steps one behind the other.
fn list(alloc: Global, steps: &[Step]) -> Result<StepList, AllocError> {
    Ok(StepList::from_vec(Vec::from_slice(alloc, steps)?))
}

// An element whose start has a number, and whose content begins 16 bits behind it.
fn book(alloc: Global, start: u32) -> Result<Book, AllocError> {
    let length = Step::Length {
        cell: CellId::new(0),
    };
    let open = Step::Length {
        cell: CellId::new(2),
    };
    let inside = [
        Step::Fixed { bits: 4 },
        length,
        Step::Align { bits: 32 },
        open,
    ];
    let mut complexes = Vec::new(alloc);
    complexes.push(Complex {
        around: None,
        start: CellId::new(start),
        lead: list(alloc, &[Step::Fixed { bits: 16 }])?,
        inside: list(alloc, &inside)?,
    })?;
    Ok(Book::new(Vec::new(alloc), Vec::new(alloc), complexes, Vec::new(alloc)))
}

// The place behind so many steps of that content.
fn behind(count: u32) -> Place {
    Place {
        around: Some(0),
        after: None,
        first: 0,
        count,
    }
}

fn place(alloc: Global, count: u32) -> Result<Result<u64, Stop>, AllocError> {
    Ok(place_of(&book(alloc, 1)?, &known(alloc)?, &behind(count)))
}

fn bit(alloc: Global, start: u32, count: u32) -> Result<Result<u64, Stop>, AllocError> {
    Ok(bit_of(&book(alloc, start)?, &known(alloc)?, &behind(count)))
}

#[test]
fn a_place_is_behind_its_steps(rt: HostRuntime) -> Result<(), Fail> {
    let alloc = rt.alloc();
    assert!(&rt; place(alloc, 0)? == Ok(0));
    assert!(&rt; place(alloc, 1)? == Ok(4));
    assert!(&rt; place(alloc, 2)? == Ok(28));
    assert!(&rt; bit(alloc, 1, 2)? == Ok(52));
    Ok(())
}

#[test]
fn an_alignment_counts_from_the_start_of_the_data(rt: HostRuntime) -> Result<(), Fail> {
    let alloc = rt.alloc();
    assert!(&rt; place(alloc, 3)? == Ok(40));
    assert!(&rt; bit(alloc, 1, 3)? == Ok(64));
    Ok(())
}

#[test]
fn an_unknown_without_a_value_stops_a_place_behind_it(rt: HostRuntime) -> Result<(), Fail> {
    let alloc = rt.alloc();
    assert!(&rt; place(alloc, 4)? == Err(Stop::Wait(CellId::new(2))));
    assert!(&rt; bit(alloc, 2, 0)? == Err(Stop::Wait(CellId::new(2))));
    Ok(())
}
