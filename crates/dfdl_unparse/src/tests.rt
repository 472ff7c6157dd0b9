// Documents in memory under several choosers, limits and sinks.
ghost use Rattle.std.specs.Prelude.{◌≡◌, ◌<◌, true, None, IfOk, length};
ghost use Rattle.dfdl_suspend.specs.Boards.{Fits};
ghost use Rattle.dfdl_suspend.specs.Formulas.{equation_in};
ghost use Rattle.dfdl_unparse.specs.Scripts.{MayCome, pieces_of, rows_after};
ghost use Rattle.dfdl_unparse.specs.Unparsers.{IsReady};

use crate::choosers::{Last, Scattered};
use crate::{Document, End, Line, Script, Stop, Unparser};
use dfdl_bits::Steps;
use dfdl_edge::MemorySink;
use dfdl_report::LimitCause;
use dfdl_suspend::{Board, CellId, Chooser, FirstReady, Formula, run_all, take_up};
use std::alloc::{AllocError, AllocGlobal, Global};
use std::marker::Brand;
use std::process::Abort;
use std::sync::ledger::{Blank, Ledger};
use std::test::Fail;

// What was written, and what the document came to.
#[derive(Drop)]
struct Seen {
    bytes: Vec<u8>,
    end: Result<(), End>,
}

fn come_to(
    alloc: Global,
    unparser: &Unparser<Script>,
    sink: &MemorySink,
) -> Result<Option<Seen>, AllocError>
    requires { unparser.now.stopped ≡ None → IsReady (length unparser.now.document.table.rows) (equation_in unparser.now.document.table.rows)
        (pieces_of unparser.now.document.table unparser.now.document.widths.items) unparser.now.board unparser.now.front }
{
    let bytes = Vec::from_slice(alloc, sink.taken())?;
    let end = unparser.end();
    Ok(Some(Seen { bytes, end }))
}

// A byte that waits for the last line but one, a byte, half a byte, what the first one is, and half a byte.
fn written<C: Chooser, L: Ledger>(
    alloc: Global,
    chooser: &mut C,
    cells: u32,
    held: u32,
    failing: Vec<u64>,
    blank: Blank,
) -> Result<Option<Seen>, AllocError>
    requires name { blank.name ≡ L.name }
    requires parts { blank.parts ≡ L.parts }
    requires some { 0 < L.parts }
{
    let mut steps = Steps::<L>::open(blank);
    let mut sink = MemorySink::new(alloc, failing);
    let Some(script) = Script::open(alloc, false)? else {
        return Ok(None);
    };
    let mut unparser = Unparser::open(alloc, script, cells, held)?;
    let line = Line::Add(Formula::Event, 8);
    match unparser.push(alloc, &line, chooser, &mut sink, &mut steps) {
        Ok(()) => {}
        Err(_) => return come_to(alloc, &unparser, &sink),
    }
    let line = Line::Add(Formula::Plain(65), 8);
    match unparser.push(alloc, &line, chooser, &mut sink, &mut steps) {
        Ok(()) => {}
        Err(_) => return come_to(alloc, &unparser, &sink),
    }
    let line = Line::Add(Formula::Same(1), 4);
    match unparser.push(alloc, &line, chooser, &mut sink, &mut steps) {
        Ok(()) => {}
        Err(_) => return come_to(alloc, &unparser, &sink),
    }
    let line = Line::Give(0, Formula::Sum(1, 2));
    match unparser.push(alloc, &line, chooser, &mut sink, &mut steps) {
        Ok(()) => {}
        Err(_) => return come_to(alloc, &unparser, &sink),
    }
    let line = Line::Add(Formula::Plain(3), 4);
    match unparser.push(alloc, &line, chooser, &mut sink, &mut steps) {
        Ok(()) => {}
        Err(_) => return come_to(alloc, &unparser, &sink),
    }
    come_to(alloc, &unparser, &sink)
}

// Two faults.
fn faulty<L: Ledger>(
    alloc: Global,
    backwards: bool,
    blank: Blank,
) -> Result<Option<Seen>, AllocError>
    requires name { blank.name ≡ L.name }
    requires parts { blank.parts ≡ L.parts }
    requires some { 0 < L.parts }
{
    let mut steps = Steps::<L>::open(blank);
    let mut chooser = FirstReady { picks: 0 };
    let mut sink = MemorySink::new(alloc, Vec::new(alloc));
    let Some(script) = Script::open(alloc, backwards)? else {
        return Ok(None);
    };
    let mut unparser = Unparser::open(alloc, script, 9, 9)?;
    let line = Line::Add(Formula::Fault(9), 8);
    match unparser.push(alloc, &line, &mut chooser, &mut sink, &mut steps) {
        Ok(()) => {}
        Err(_) => return come_to(alloc, &unparser, &sink),
    }
    let line = Line::Add(Formula::Fault(7), 8);
    match unparser.push(alloc, &line, &mut chooser, &mut sink, &mut steps) {
        Ok(()) => {}
        Err(_) => return come_to(alloc, &unparser, &sink),
    }
    come_to(alloc, &unparser, &sink)
}

// Two unknowns that ask for each other.
fn circular<L: Ledger>(
    alloc: Global,
    backwards: bool,
    blank: Blank,
) -> Result<Option<Seen>, AllocError>
    requires name { blank.name ≡ L.name }
    requires parts { blank.parts ≡ L.parts }
    requires some { 0 < L.parts }
{
    let mut steps = Steps::<L>::open(blank);
    let mut chooser = FirstReady { picks: 0 };
    let mut sink = MemorySink::new(alloc, Vec::new(alloc));
    let Some(script) = Script::open(alloc, backwards)? else {
        return Ok(None);
    };
    let mut unparser = Unparser::open(alloc, script, 9, 9)?;
    let line = Line::Add(Formula::Event, 8);
    match unparser.push(alloc, &line, &mut chooser, &mut sink, &mut steps) {
        Ok(()) => {}
        Err(_) => return come_to(alloc, &unparser, &sink),
    }
    let line = Line::Add(Formula::Same(0), 8);
    match unparser.push(alloc, &line, &mut chooser, &mut sink, &mut steps) {
        Ok(()) => {}
        Err(_) => return come_to(alloc, &unparser, &sink),
    }
    let line = Line::Give(0, Formula::Same(1));
    match unparser.push(alloc, &line, &mut chooser, &mut sink, &mut steps) {
        Ok(()) => {}
        Err(_) => return come_to(alloc, &unparser, &sink),
    }
    come_to(alloc, &unparser, &sink)
}

// A line on a board, which is then run.
fn run_line<L: Ledger>(
    alloc: Global,
    script: &mut Script,
    board: &mut Board,
    line: Line,
    chooser: &mut Last,
    steps: &mut Steps<L>,
) -> Result<bool, AllocError>
    requires fits { Fits (length script.old.table.rows) (equation_in script.old.table.rows) board.old }
    requires idle { length board.old.ready ≡ 0 }
    requires takes { MayCome script.old.table.rows line }
    ensures rows { IfOk result (λ is_run. is_run ≡ true → script.new.table.rows ≡ rows_after script.old.table.rows line) }
    ensures fits { IfOk result (λ is_run. is_run ≡ true → Fits (length script.new.table.rows) (equation_in script.new.table.rows) board.new) }
    ensures idle { IfOk result (λ is_run. is_run ≡ true → length board.new.ready ≡ 0) }
{
    match script.add_event(alloc, &line) {
        Ok(()) => {}
        Err(_) => return Ok(false),
    }
    if take_up(board, script, script.given()).is_err() {
        return Ok(false);
    }
    run_all(alloc, board, script, chooser, steps)?;
    Ok(true)
}

// The numbers that a chooser is asked with where the same lines are taken by a board alone.
fn by_hand<L: Ledger>(alloc: Global, blank: Blank) -> Result<[usize; 16], AllocError>
    requires name { blank.name ≡ L.name }
    requires parts { blank.parts ≡ L.parts }
    requires some { 0 < L.parts }
{
    let mut steps = Steps::<L>::open(blank);
    let mut chooser = Last {
        picks: 0,
        asked: [0; 16],
    };
    let Some(mut script) = Script::open(alloc, false)? else {
        return Ok(chooser.asked);
    };
    let mut board = Board::open(alloc, 9)?;
    let first = Line::Add(Formula::Event, 8);
    if !run_line(
        alloc,
        &mut script,
        &mut board,
        first,
        &mut chooser,
        &mut steps,
    )? {
        return Ok(chooser.asked);
    }
    let second = Line::Add(Formula::Plain(65), 8);
    if !run_line(
        alloc,
        &mut script,
        &mut board,
        second,
        &mut chooser,
        &mut steps,
    )? {
        return Ok(chooser.asked);
    }
    let third = Line::Add(Formula::Same(1), 4);
    if !run_line(
        alloc,
        &mut script,
        &mut board,
        third,
        &mut chooser,
        &mut steps,
    )? {
        return Ok(chooser.asked);
    }
    let fourth = Line::Give(0, Formula::Sum(1, 2));
    if !run_line(
        alloc,
        &mut script,
        &mut board,
        fourth,
        &mut chooser,
        &mut steps,
    )? {
        return Ok(chooser.asked);
    }
    let fifth = Line::Add(Formula::Plain(3), 4);
    run_line(
        alloc,
        &mut script,
        &mut board,
        fifth,
        &mut chooser,
        &mut steps,
    )?;
    Ok(chooser.asked)
}

// What was written, and what the document came to.
fn is_seen<R: Abort + AllocGlobal>(
    rt: &R,
    found: Option<Seen>,
    bytes: &[u8],
    end: Result<(), End>,
) {
    let found = found.expect(rt, "there are no rows");
    assert!(rt; found.bytes.as_slice() == bytes);
    assert!(rt; found.end == end);
}

// The lines, where the first of those that are ready is picked.
fn first(
    alloc: Global,
    cells: u32,
    held: u32,
    failing: &[u64],
) -> Result<Option<Seen>, AllocError> {
    let failing = Vec::from_slice(alloc, failing)?;
    let mut chooser = FirstReady { picks: 0 };
    written::<FirstReady, Brand>(alloc, &mut chooser, cells, held, failing, Blank::new(1))
}

// The lines, where the last of them is picked, and the numbers that are asked with.
fn last(alloc: Global) -> Result<(Option<Seen>, [usize; 16]), AllocError> {
    let mut chooser = Last {
        picks: 0,
        asked: [0; 16],
    };
    let found = written::<Last, Brand>(alloc, &mut chooser, 9, 9, Vec::new(alloc), Blank::new(1))?;
    Ok((found, chooser.asked))
}

// The lines, where any of them is picked.
fn scattered(alloc: Global) -> Result<Option<Seen>, AllocError> {
    let mut chooser = Scattered { picks: 0, state: 7 };
    written::<Scattered, Brand>(alloc, &mut chooser, 9, 9, Vec::new(alloc), Blank::new(1))
}

fn asked_by_hand(alloc: Global) -> Result<[usize; 16], AllocError> {
    by_hand::<Brand>(alloc, Blank::new(1))
}

fn two_faults(alloc: Global, backwards: bool) -> Result<Option<Seen>, AllocError> {
    faulty::<Brand>(alloc, backwards, Blank::new(1))
}

fn a_circle(alloc: Global, backwards: bool) -> Result<Option<Seen>, AllocError> {
    circular::<Brand>(alloc, backwards, Blank::new(1))
}

#[test]
fn choosers_write_the_same(rt: HostRuntime) -> Result<(), Fail> {
    let alloc = rt.alloc();
    is_seen(&rt, first(alloc, 9, 9, &[])?, &[0x82, 0x41, 0x40], Ok(()));
    let (found, asked) = last(alloc)?;
    is_seen(&rt, found, &[0x82, 0x41, 0x40], Ok(()));
    assert!(rt; asked == asked_by_hand(alloc)?);
    is_seen(&rt, scattered(alloc)?, &[0x82, 0x41, 0x40], Ok(()));
    Ok(())
}

#[test]
fn limits_stop_before_a_write(rt: HostRuntime) -> Result<(), Fail> {
    let alloc = rt.alloc();
    let held = Err(End::Stopped(Stop::Limit(LimitCause::Held)));
    is_seen(&rt, first(alloc, 9, 1, &[])?, &[], held);
    is_seen(&rt, first(alloc, 9, 2, &[])?, &[], held);
    is_seen(&rt, first(alloc, 9, 3, &[])?, &[0x82, 0x41, 0x40], Ok(()));
    let cells = Err(End::Stopped(Stop::Limit(LimitCause::Cells)));
    is_seen(&rt, first(alloc, 3, 9, &[])?, &[0x82, 0x41], cells);
    Ok(())
}

#[test]
fn each_event_that_moves_the_front_is_one_write(rt: HostRuntime) -> Result<(), Fail> {
    let alloc = rt.alloc();
    let failed = Err(End::Stopped(Stop::Sink));
    is_seen(&rt, first(alloc, 9, 9, &[1])?, &[], failed);
    is_seen(&rt, first(alloc, 9, 9, &[2])?, &[0x82, 0x41], failed);
    is_seen(&rt, first(alloc, 9, 9, &[3])?, &[0x82, 0x41, 0x40], Ok(()));
    Ok(())
}

#[test]
fn end_tells_the_first_fault(rt: HostRuntime) -> Result<(), Fail> {
    let alloc = rt.alloc();
    let ninth = Err(End::Fault(CellId::new(0), 9));
    is_seen(&rt, two_faults(alloc, false)?, &[], ninth);
    let seventh = Err(End::Fault(CellId::new(1), 7));
    is_seen(&rt, two_faults(alloc, true)?, &[], seventh);
    Ok(())
}

#[test]
fn values_that_agree_with_each_other_are_a_cycle(rt: HostRuntime) -> Result<(), Fail> {
    let alloc = rt.alloc();
    is_seen(
        &rt,
        a_circle(alloc, false)?,
        &[],
        Err(End::Cycle(CellId::new(0))),
    );
    is_seen(
        &rt,
        a_circle(alloc, true)?,
        &[],
        Err(End::Cycle(CellId::new(1))),
    );
    Ok(())
}
