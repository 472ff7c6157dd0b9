// Infosets laid by layouts that are made by hand.

use crate::{Machine, Said};
use dfdl_cells::{Cell, Piece};
use dfdl_outline::{
    Around, ContentSize, Entry, Layout, Needs, Part, PartList, Separating, SimpleSort, Slot, Sort,
};
use dfdl_separators::SeparatorPosition;
use dfdl_value::Value;
use std::alloc::{AllocError, Global};
use std::test::Fail;

const BARE: Around = Around {
    fill: 0,
    leading_skip: 0,
    alignment: 1,
    initiator: None,
    terminator: None,
    trailing_skip: 0,
};

fn entry(alloc: Global, sort: Sort, parts: &[Part], declared: u32) -> Result<Entry, AllocError> {
    let needs = Needs {
        shown: true,
        hidden: true,
    };
    Ok(Entry {
        sort,
        parts: PartList::from_vec(Vec::from_slice(alloc, parts)?),
        declared,
        needs,
        around: BARE,
    })
}

fn simple(alloc: Global, default: Option<Value>) -> Result<Entry, AllocError> {
    let own = SimpleSort {
        default,
        prefix: None,
        nillable: false,
        empties: false,
        is_text: false,
        scanned: None,
    };
    entry(alloc, Sort::Simple(own), &[], 1)
}

// A part that is this element, so many before it, with so many occurrences.
fn element(component: u32, first: u32, least: u32, most: u64, slot: Slot) -> Part {
    Part {
        component,
        first,
        declared: 1,
        is_element: true,
        least,
        most,
        slot,
        is_last: false,
    }
}

// A part that is a group of so many elements.
fn group(component: u32, declared: u32) -> Part {
    Part {
        component,
        first: 0,
        declared,
        is_element: false,
        least: 1,
        most: 1,
        slot: Slot::Absent,
        is_last: true,
    }
}

fn root(alloc: Global, declared: u32) -> Result<Entry, AllocError> {
    let size = ContentSize::Unbounded;
    entry(alloc, Sort::Complex { size }, &[group(1, declared)], 1)
}

// A root (0) with this group (1) of elements (2, without a default, and 3, with one).
fn layout(alloc: Global, sort: Sort, parts: &[Part]) -> Result<Layout, AllocError> {
    let mut entries = Vec::new(alloc);
    entries.push(root(alloc, 2)?)?;
    entries.push(entry(alloc, sort, parts, 2)?)?;
    entries.push(simple(alloc, None)?)?;
    entries.push(simple(alloc, Some(Value::Truth(true)))?)?;
    Ok(Layout::from_vec(entries))
}

fn infix() -> Sort {
    let own = Separating {
        list: 7,
        position: SeparatorPosition::Infix,
    };
    Sort::Sequence {
        separating: Some(own),
    }
}

// The pieces, each by a letter.
fn letters(alloc: Global, pieces: &[Piece]) -> Result<String, AllocError> {
    let mut text = String::new(alloc);
    for piece in pieces {
        text.push_str(letter(piece))?;
    }
    Ok(text)
}

fn letter(piece: &Piece) -> &'static str {
    match piece {
        Piece::Skip { .. } => "k",
        Piece::Align { .. } => "a",
        Piece::Delimiter { .. } => "d",
        Piece::Marked { .. } => "m",
        Piece::Separator { .. } => "s",
        Piece::Prefix { .. } => "p",
        Piece::Content { .. } => "c",
        Piece::Rest { .. } => "r",
        Piece::End { .. } => "e",
        Piece::Missing => "x",
    }
}

// How many unknowns wait for an event.
fn waiting(cells: &[Cell]) -> usize {
    cells
        .iter()
        .filter(|cell| matches!(cell, Cell::Waiting))
        .count()
}

// How many have no value, for this cause.
fn faulty(cells: &[Cell], number: u8) -> usize {
    cells
        .iter()
        .filter(|cell| matches!(cell, Cell::Faulty { cause } if *cause == number))
        .count()
}

fn child(child: u32) -> Said {
    Said::Simple {
        child,
        value: Value::Truth(false),
    }
}

#[test]
fn elements_are_laid_with_a_separator_between_them(rt: HostRuntime) -> Result<(), Fail> {
    let alloc = rt.alloc();
    let parts = [
        element(2, 0, 1, 1, Slot::Always),
        element(3, 1, 1, 1, Slot::Always),
    ];
    let layout = layout(alloc, infix(), &parts)?;
    let mut machine = Machine::open(alloc, &layout, 0)?;
    machine.add_event(alloc, &layout, Said::Start { child: 0 })?;
    machine.add_event(alloc, &layout, child(0))?;
    assert!(&rt; letters(alloc, machine.laid().book().pieces())?.as_str() == "c");
    machine.add_event(alloc, &layout, Said::End)?;
    assert!(&rt; letters(alloc, machine.laid().book().pieces())?.as_str() == "csce");
    assert!(&rt; waiting(machine.laid().book().cells()) == 0);
    assert!(&rt; machine.laid().elements() == 3);
    Ok(())
}

#[test]
fn a_missing_element_is_faulty(rt: HostRuntime) -> Result<(), Fail> {
    let alloc = rt.alloc();
    let parts = [
        element(2, 0, 1, 1, Slot::Always),
        element(3, 1, 1, 1, Slot::Always),
    ];
    let layout = layout(alloc, infix(), &parts)?;
    let mut machine = Machine::open(alloc, &layout, 0)?;
    machine.add_event(alloc, &layout, Said::Start { child: 0 })?;
    machine.add_event(alloc, &layout, child(1))?;
    assert!(&rt; letters(alloc, machine.laid().book().pieces())?.as_str() == "csc");
    assert!(&rt; faulty(machine.laid().book().cells(), 10) == 1);
    Ok(())
}

#[test]
fn a_choice_takes_the_branch_of_its_item(rt: HostRuntime) -> Result<(), Fail> {
    let alloc = rt.alloc();
    let parts = [
        element(2, 0, 1, 1, Slot::Absent),
        element(3, 1, 1, 1, Slot::Absent),
    ];
    let layout = layout(alloc, Sort::Choice, &parts)?;
    let mut machine = Machine::open(alloc, &layout, 0)?;
    machine.add_event(alloc, &layout, Said::Start { child: 0 })?;
    machine.add_event(alloc, &layout, child(0))?;
    machine.add_event(alloc, &layout, child(1))?;
    machine.add_event(alloc, &layout, Said::End)?;
    assert!(&rt; letters(alloc, machine.laid().book().pieces())?.as_str() == "ce");
    assert!(&rt; faulty(machine.laid().book().cells(), 10) == 1);
    assert!(&rt; waiting(machine.laid().book().cells()) == 0);
    Ok(())
}

#[test]
fn slots_of_an_array_wait_for_later_ones(rt: HostRuntime) -> Result<(), Fail> {
    let alloc = rt.alloc();
    let parts = [
        element(2, 0, 1, 1, Slot::Always),
        element(3, 1, 0, 3, Slot::IfLater),
    ];
    let layout = layout(alloc, infix(), &parts)?;
    let mut machine = Machine::open(alloc, &layout, 0)?;
    machine.add_event(alloc, &layout, Said::Start { child: 0 })?;
    machine.add_event(alloc, &layout, child(0))?;
    machine.add_event(alloc, &layout, child(1))?;
    machine.add_event(alloc, &layout, child(1))?;
    machine.add_event(alloc, &layout, Said::End)?;
    assert!(&rt; letters(alloc, machine.laid().book().pieces())?.as_str() == "cscscsse");
    assert!(&rt; waiting(machine.laid().book().cells()) == 0);
    Ok(())
}

#[test]
fn a_hidden_element_is_laid_with_its_default(rt: HostRuntime) -> Result<(), Fail> {
    let alloc = rt.alloc();
    let mut entries = Vec::new(alloc);
    entries.push(root(alloc, 1)?)?;
    entries.push(entry(alloc, Sort::Hidden, &[group(2, 1)], 1)?)?;
    let parts = [element(3, 0, 2, 2, Slot::Absent)];
    entries.push(entry(alloc, Sort::Sequence { separating: None }, &parts, 1)?)?;
    entries.push(simple(alloc, Some(Value::Truth(true)))?)?;
    let layout = Layout::from_vec(entries);
    let mut machine = Machine::open(alloc, &layout, 0)?;
    machine.add_event(alloc, &layout, Said::Start { child: 0 })?;
    assert!(&rt; letters(alloc, machine.laid().book().pieces())?.as_str() == "cc");
    assert!(&rt; machine.laid().elements() == 3);
    Ok(())
}
