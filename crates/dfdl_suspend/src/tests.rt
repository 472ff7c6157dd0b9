// Equations on a board under several choosers, beside rounds and values found by hand.
ghost use Rattle.std.specs.Prelude.{◌≡◌, ◌<◌};

use crate::choosers::{InTurn, LastReady, Recording, Scattered};
use crate::{
    Board, CellId, Chooser, FirstReady, Formula, Held, Known, Solved, Table, laws, run_all,
    solve_by_rounds, take_up,
};
use dfdl_bits::Steps;
use std::alloc::{AllocError, AllocGlobal, Global};
use std::marker::Brand;
use std::process::Abort;
use std::sync::ledger::{Blank, Ledger};
use std::test::Fail;

// The number that an unknown has.
fn number_of(known: &Known, cell: u32) -> Option<u64> {
    match known.get(CellId::new(cell)) {
        Some(Held::Number(number)) => Some(*number),
        _ => None,
    }
}

// The number that each unknown of a table has, and what they come to.
#[derive(Drop)]
struct Found {
    known: Vec<Option<u64>>,
    outcome: Solved,
}

fn numbers_of(alloc: Global, known: &Known, count: u32) -> Result<Vec<Option<u64>>, AllocError> {
    let mut numbers = Vec::new(alloc);
    for cell in 0..count {
        numbers.push(number_of(known, cell))?;
    }
    Ok(numbers)
}

fn on_board<C: Chooser, L: Ledger>(
    alloc: Global,
    table: &mut Table,
    chooser: &mut C,
    blank: Blank,
) -> Result<Option<Found>, AllocError>
    requires name { blank.name ≡ L.name }
    requires parts { blank.parts ≡ L.parts }
    requires some { 0 < L.parts }
{
    let mut steps = Steps::<L>::open(blank);
    let mut board = Board::open(alloc, 100)?;
    if take_up(&mut board, table, &[]).is_err() {
        return Ok(None);
    }
    run_all(alloc, &mut board, table, chooser, &mut steps)?;
    let outcome = match board.first_fault(table) {
        Some((cell, cause)) => Solved::Fault(cell, cause),
        None => match board.stuck(table) {
            Some(cell) => Solved::Cycle(cell),
            None => Solved::All,
        },
    };
    let known = numbers_of(alloc, board.known(), board.added())?;
    Ok(Some(Found { known, outcome }))
}

fn by_rounds<L: Ledger>(alloc: Global, table: &mut Table, blank: Blank) -> Result<Found, AllocError>
    requires name { blank.name ≡ L.name }
    requires parts { blank.parts ≡ L.parts }
    requires some { 0 < L.parts }
{
    let mut steps = Steps::<L>::open(blank);
    let solution = solve_by_rounds(alloc, table, &mut steps)?;
    let known = numbers_of(alloc, &solution.known, solution.known.cells())?;
    Ok(Found {
        known,
        outcome: solution.outcome,
    })
}

// What a table comes to under each chooser and by rounds.
fn comes_to<R: Abort + AllocGlobal>(
    rt: &R,
    rows: &[Formula],
    backwards: bool,
    known: &[Option<u64>],
    outcome: Solved,
) -> Result<(), Fail> {
    let alloc = rt.alloc();
    let mut table = Table::of(alloc, rows, backwards)?.expect(rt, "the rows name rows");
    let found = by_rounds::<Brand>(alloc, &mut table, Blank::new(1))?;
    assert!(rt; found.outcome == outcome && found.known.as_slice() == known);
    let found = on_board::<FirstReady, Brand>(
        alloc,
        &mut table,
        &mut FirstReady { picks: 0 },
        Blank::new(1),
    )?
    .expect(rt, "there is room");
    assert!(rt; found.outcome == outcome && found.known.as_slice() == known);
    let found = on_board::<LastReady, Brand>(
        alloc,
        &mut table,
        &mut LastReady { picks: 0 },
        Blank::new(1),
    )?
    .expect(rt, "there is room");
    assert!(rt; found.outcome == outcome && found.known.as_slice() == known);
    let found = on_board::<InTurn, Brand>(
        alloc,
        &mut table,
        &mut InTurn { picks: 0 },
        Blank::new(1),
    )?.expect(rt, "there is room");
    assert!(rt; found.outcome == outcome && found.known.as_slice() == known);
    let mut scattered = Scattered { picks: 0, state: 7 };
    let found = on_board::<Scattered, Brand>(
        alloc,
        &mut table,
        &mut scattered,
        Blank::new(1),
    )?.expect(rt, "there is room");
    assert!(rt; found.outcome == outcome && found.known.as_slice() == known);
    Ok(())
}

#[test]
fn sums_and_chains_have_values(rt: HostRuntime) -> Result<(), Fail> {
    let rows = [
        Formula::Sum(1, 3),
        Formula::Same(2),
        Formula::Same(4),
        Formula::Plain(5),
        Formula::Sum(3, 5),
        Formula::Plain(1),
    ];
    comes_to(
        &rt,
        &rows,
        false,
        &[Some(11), Some(6), Some(6), Some(5), Some(6), Some(1)],
        Solved::All,
    )
}

#[test]
fn what_agrees_with_itself_has_no_value(rt: HostRuntime) -> Result<(), Fail> {
    let rows = [
        Formula::Plain(3),
        Formula::Same(2),
        Formula::Same(1),
        Formula::Sum(0, 1),
        Formula::Event,
    ];
    let known = [Some(3), None, None, None, None];
    comes_to(&rt, &rows, false, &known, Solved::Cycle(CellId::new(1)))?;
    comes_to(&rt, &rows, true, &known, Solved::Cycle(CellId::new(4)))
}

#[test]
fn first_fault_is_that_of_the_order(rt: HostRuntime) -> Result<(), Fail> {
    let rows = [
        Formula::Same(3),
        Formula::Fault(9),
        Formula::Same(0),
        Formula::Fault(7),
        Formula::Plain(2),
    ];
    let known = [None, None, None, None, Some(2)];
    comes_to(&rt, &rows, false, &known, Solved::Fault(CellId::new(1), 9))?;
    comes_to(&rt, &rows, true, &known, Solved::Fault(CellId::new(3), 7))
}

// The chain is run from its end that waits: three are ready, then two, then one after the other.
fn asked<L: Ledger>(alloc: Global, blank: Blank) -> Result<[usize; 8], AllocError>
    requires name { blank.name ≡ L.name }
    requires parts { blank.parts ≡ L.parts }
    requires some { 0 < L.parts }
{
    let mut chooser = Recording {
        picks: 0,
        asked: [0; 8],
    };
    let rows = [Formula::Same(1), Formula::Same(2), Formula::Plain(1)];
    if let Some(mut table) = Table::of(alloc, &rows, false)? {
        on_board::<Recording, L>(alloc, &mut table, &mut chooser, blank)?;
    }
    Ok(chooser.asked)
}

#[test]
fn chooser_is_asked_at_each_run(rt: HostRuntime) -> Result<(), Fail> {
    let numbers = asked::<Brand>(rt.alloc(), Blank::new(1))?;
    assert_eq!(rt; numbers, [3, 2, 1, 1, 0, 0, 0, 0]);
    Ok(())
}

// Three events: a row is new, then another one that copies it, and then the first has its formula.
fn after_events<L: Ledger>(alloc: Global, blank: Blank) -> Result<Option<Found>, AllocError>
    requires name { blank.name ≡ L.name }
    requires parts { blank.parts ≡ L.parts }
    requires some { 0 < L.parts }
{
    let mut steps = Steps::<L>::open(blank);
    let mut chooser = FirstReady { picks: 0 };
    let mut board = Board::open(alloc, 2)?;
    let Some(mut table) = Table::of(alloc, &[Formula::Event], false)? else {
        return Ok(None);
    };
    if take_up(&mut board, &table, &[]).is_err() {
        return Ok(None);
    }
    run_all(alloc, &mut board, &mut table, &mut chooser, &mut steps)?;
    table.push(Formula::Same(0))?;
    if take_up(&mut board, &table, &[]).is_err() {
        return Ok(None);
    }
    run_all(alloc, &mut board, &mut table, &mut chooser, &mut steps)?;
    let given = [CellId::new(0)];
    table.give(given[0], Formula::Plain(2));
    if take_up(&mut board, &table, &given).is_err() {
        return Ok(None);
    }
    run_all(alloc, &mut board, &mut table, &mut chooser, &mut steps)?;
    let outcome = match board.stuck(&table) {
        Some(cell) => Solved::Cycle(cell),
        None => Solved::All,
    };
    let known = numbers_of(alloc, board.known(), board.added())?;
    Ok(Some(Found { known, outcome }))
}

#[test]
fn events_add_unknowns(rt: HostRuntime) -> Result<(), Fail> {
    let found = after_events::<Brand>(rt.alloc(), Blank::new(1))?.expect(&rt, "there is room");
    assert!(rt; found.outcome == Solved::All);
    assert!(rt; found.known.as_slice() == [Some(2), Some(2)].as_slice());
    Ok(())
}

#[test]
fn full_board_takes_no_more(rt: HostRuntime) -> Result<(), Fail> {
    let mut board = Board::open(rt.alloc(), 1)?;
    assert!(rt; board.add(CellId::new(0)).is_ok());
    assert!(rt; board.add(CellId::new(1)).is_err());
    assert_eq!(rt; board.added(), 1);
    assert_eq!(rt; board.ready(), 1);
    assert_eq!(rt; board.ready_at(0), CellId::new(0));
    Ok(())
}

#[test]
fn laws_are_there(_rt: HostRuntime) {
    laws::value_stays::<Held>();
    laws::fault_stays::<Held>();
    laws::wait_stays::<Held>();
    laws::wait_open::<Held>();
    laws::solution_is::<Held>();
    laws::reached_least::<Held>();
    laws::reached_grows::<Held>();
    laws::reached_waiting::<Held>();
}
