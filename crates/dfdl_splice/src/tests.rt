// A splice: three pieces by hand in each order, and random calls against a model of it in Python.
use crate::*;
use BitOrder::{LeastFirst, MostFirst};
use std::alloc::Global;
use std::process::Abort;
use std::test::Fail;

/// A call, and what it answers.
#[derive(Clone, Copy)]
enum Op {
    Add(Option<u64>, Result<u32, Full>),
    Put(u32, &'static [u8], u64, Result<(), Full>),
    Awaits(u32, u64, bool),
    Front(&'static [u8]),
    Drop,
}

const ADDED: &[Op] = &[
    Op::Add(Some(3), Ok(0)),
    Op::Add(None, Ok(1)),
    Op::Add(Some(8), Ok(2)),
    Op::Add(None, Err(Full)),
];

// The bits 101, 1100101011110 and 00111100 in the order of the data, with other bits behind them in their last bytes.
const MOST_PIECES: [Op; 3] = [
    Op::Put(0, b"\xBF", 3, Ok(())),
    Op::Put(1, b"\xCA\xF5", 13, Ok(())),
    Op::Put(2, b"\x3C", 8, Ok(())),
];

const LEAST_PIECES: [Op; 3] = [
    Op::Put(0, b"\xFD", 3, Ok(())),
    Op::Put(1, b"\x53\xAF", 13, Ok(())),
    Op::Put(2, b"\x3C", 8, Ok(())),
];

const TURNS: [(usize, usize, usize); 6] = [
    (0, 1, 2),
    (0, 2, 1),
    (1, 0, 2),
    (1, 2, 0),
    (2, 0, 1),
    (2, 1, 0),
];

// The bits 101, 00111100 and 1100101011110: the whole bytes are dropped in between.
const DROPPED: &[Op] = &[
    Op::Add(None, Ok(0)),
    Op::Add(None, Ok(1)),
    Op::Front(b""),
    Op::Put(0, b"\xBF", 3, Ok(())),
    Op::Front(b""),
    Op::Put(1, b"\x3C", 8, Ok(())),
    Op::Front(b"\xA7"),
    Op::Drop,
    Op::Front(b""),
    Op::Add(Some(13), Ok(2)),
    Op::Put(2, b"\xCA\xF5", 13, Ok(())),
    Op::Front(b"\x99\x5E"),
    Op::Drop,
    Op::Front(b""),
];

// Over two pieces and one byte.
const FULL: &[Op] = &[
    Op::Add(None, Ok(0)),
    Op::Add(Some(8), Ok(1)),
    Op::Add(None, Err(Full)),
    Op::Awaits(1, 8, true),
    Op::Awaits(1, 7, false),
    Op::Awaits(2, 8, false),
    Op::Put(1, b"\x3C", 8, Ok(())),
    Op::Awaits(1, 8, false),
    Op::Add(None, Err(Full)),
    Op::Put(0, b"\x01", 1, Err(Full)),
    Op::Awaits(0, 0, true),
    Op::Put(0, b"", 0, Ok(())),
    Op::Front(b"\x3C"),
    Op::Add(None, Ok(2)),
    Op::Put(2, b"\x01", 1, Err(Full)),
    Op::Drop,
    Op::Put(2, b"\x01", 1, Ok(())),
    Op::Front(b""),
];

// Over a splice of five pieces and six bytes, the bits in the order MostFirst; Python's random with seed 20261142.
const MOST: &[Op] = &[
    Op::Add(Some(8), Ok(0)),
    Op::Put(0, b"\x4C", 8, Ok(())),
    Op::Add(Some(4), Ok(1)),
    Op::Add(Some(7), Ok(2)),
    Op::Add(Some(12), Ok(3)),
    Op::Add(None, Ok(4)),
    Op::Put(3, b"\x17\xC5", 12, Ok(())),
    Op::Add(None, Err(Full)),
    Op::Put(4, b"\x2D", 8, Ok(())),
    Op::Put(2, b"\x7D", 7, Ok(())),
    Op::Front(b"\x4C"),
    Op::Put(1, b"\x3B", 4, Ok(())),
    Op::Add(None, Ok(5)),
    Op::Add(None, Ok(6)),
    Op::Put(6, b"\x44", 1, Ok(())),
    Op::Put(5, b"\x4F\x4F", 9, Err(Full)),
    Op::Put(5, b"\xDD", 1, Ok(())),
    Op::Add(Some(11), Ok(7)),
    Op::Add(None, Ok(8)),
    Op::Put(8, b"\x13", 1, Ok(())),
    Op::Put(7, b"\xC8\xD1", 11, Err(Full)),
    Op::Add(Some(4), Ok(9)),
    Op::Add(Some(1), Ok(10)),
    Op::Front(b"\x4C\x37\xC2\xF8\x5B"),
    Op::Add(None, Err(Full)),
    Op::Front(b"\x4C\x37\xC2\xF8\x5B"),
    Op::Drop,
    Op::Add(None, Err(Full)),
    Op::Put(9, b"\x48", 4, Ok(())),
    Op::Add(None, Ok(11)),
    Op::Put(11, b"", 0, Ok(())),
    Op::Put(10, b"\x30", 1, Ok(())),
    Op::Put(7, b"\x26\x86", 11, Ok(())),
    Op::Add(None, Ok(12)),
    Op::Add(None, Ok(13)),
    Op::Put(13, b"\x36", 3, Ok(())),
    Op::Front(b"\x13\x42"),
    Op::Drop,
    Op::Add(None, Ok(14)),
    Op::Put(12, b"\x66", 8, Ok(())),
    Op::Put(14, b"\xCB\xB2", 16, Ok(())),
    Op::Add(None, Ok(15)),
    Op::Put(15, b"\xA8", 8, Ok(())),
    Op::Add(None, Ok(16)),
    Op::Put(16, b"\xE3", 3, Ok(())),
    Op::Add(Some(0), Ok(17)),
    Op::Add(Some(9), Ok(18)),
    Op::Put(18, b"\x59\x29", 9, Err(Full)),
    Op::Add(None, Ok(19)),
    Op::Add(Some(12), Ok(20)),
    Op::Add(None, Err(Full)),
    Op::Put(19, b"\x22", 8, Ok(())),
    Op::Front(b"\x19\x8E\x5D\x95\x47"),
    Op::Drop,
    Op::Front(b""),
    Op::Add(None, Ok(21)),
    Op::Front(b""),
    Op::Front(b""),
];

// Over a splice of five pieces and six bytes, the bits in the order LeastFirst; Python's random with seed 20261142.
const LEAST: &[Op] = &[
    Op::Add(Some(8), Ok(0)),
    Op::Put(0, b"\x4C", 8, Ok(())),
    Op::Add(Some(4), Ok(1)),
    Op::Add(Some(7), Ok(2)),
    Op::Add(Some(12), Ok(3)),
    Op::Add(None, Ok(4)),
    Op::Put(3, b"\x17\xC5", 12, Ok(())),
    Op::Add(None, Err(Full)),
    Op::Put(4, b"\x2D", 8, Ok(())),
    Op::Put(2, b"\x7D", 7, Ok(())),
    Op::Front(b"\x4C"),
    Op::Put(1, b"\x3B", 4, Ok(())),
    Op::Add(None, Ok(5)),
    Op::Add(None, Ok(6)),
    Op::Put(6, b"\x44", 1, Ok(())),
    Op::Put(5, b"\x4F\x4F", 9, Err(Full)),
    Op::Put(5, b"\xDD", 1, Ok(())),
    Op::Add(Some(11), Ok(7)),
    Op::Add(None, Ok(8)),
    Op::Put(8, b"\x13", 1, Ok(())),
    Op::Put(7, b"\xC8\xD1", 11, Err(Full)),
    Op::Add(Some(4), Ok(9)),
    Op::Add(Some(1), Ok(10)),
    Op::Front(b"\x4C\xDB\xBF\xA8\x96"),
    Op::Add(None, Err(Full)),
    Op::Front(b"\x4C\xDB\xBF\xA8\x96"),
    Op::Drop,
    Op::Add(None, Err(Full)),
    Op::Put(9, b"\x48", 4, Ok(())),
    Op::Add(None, Ok(11)),
    Op::Put(11, b"", 0, Ok(())),
    Op::Put(10, b"\x30", 1, Ok(())),
    Op::Put(7, b"\x26\x86", 11, Ok(())),
    Op::Add(None, Ok(12)),
    Op::Add(None, Ok(13)),
    Op::Put(13, b"\x36", 3, Ok(())),
    Op::Front(b"\x4C\x1C"),
    Op::Drop,
    Op::Add(None, Ok(14)),
    Op::Put(12, b"\x66", 8, Ok(())),
    Op::Put(14, b"\xCB\xB2", 16, Ok(())),
    Op::Add(None, Ok(15)),
    Op::Put(15, b"\xA8", 8, Ok(())),
    Op::Add(None, Ok(16)),
    Op::Put(16, b"\xE3", 3, Ok(())),
    Op::Add(Some(0), Ok(17)),
    Op::Add(Some(9), Ok(18)),
    Op::Put(18, b"\x59\x29", 9, Err(Full)),
    Op::Add(None, Ok(19)),
    Op::Add(Some(12), Ok(20)),
    Op::Add(None, Err(Full)),
    Op::Put(19, b"\x22", 8, Ok(())),
    Op::Front(b"\x99\x79\x59\x16\x75"),
    Op::Drop,
    Op::Front(b""),
    Op::Add(None, Ok(21)),
    Op::Front(b""),
    Op::Front(b""),
];

fn call(rt: &impl Abort, splice: &mut Splice, op: Op) {
    match op {
        Op::Add(bits, answer) => {
            assert!(rt; splice.added() < 1000);
            assert_eq!(rt; splice.add_piece(bits), answer);
        }
        Op::Put(piece, bytes, bits, answer) => {
            assert!(rt; splice.awaits(piece, bits));
            assert!(rt; bytes.len() < 8 && bits <= 8 * bytes.len() as u64);
            assert_eq!(rt; splice.put(piece, bytes, bits), answer);
        }
        Op::Awaits(piece, bits, answer) => assert_eq!(rt; splice.awaits(piece, bits), answer),
        Op::Front(front) => assert!(rt; splice.known_front() == front),
        Op::Drop => splice.drop_front(),
    }
}

fn calls(rt: &impl Abort, splice: &mut Splice, ops: &[Op]) {
    for op in ops {
        call(rt, splice, *op);
    }
}

// Puts three pieces in turn.
fn joins(
    rt: &impl Abort,
    alloc: Global,
    order: BitOrder,
    pieces: [Op; 3],
    front: &'static [u8],
) -> Result<(), Fail> {
    for (first, second, third) in TURNS {
        assert!(rt; first < 3 && second < 3 && third < 3);
        let mut splice = Splice::open(alloc, 3, 3, order)?;
        calls(rt, &mut splice, ADDED);
        call(rt, &mut splice, pieces[first]);
        call(rt, &mut splice, pieces[second]);
        call(rt, &mut splice, pieces[third]);
        call(rt, &mut splice, Op::Front(front));
    }
    Ok(())
}

#[test]
fn pieces_join_in_any_order(rt: HostRuntime) -> Result<(), Fail> {
    joins(&rt, rt.alloc(), MostFirst, MOST_PIECES, b"\xB9\x5E\x3C")?;
    joins(&rt, rt.alloc(), LeastFirst, LEAST_PIECES, b"\x9D\x7A\x3C")
}

#[test]
fn the_front_is_dropped_and_pieces_are_refused(rt: HostRuntime) -> Result<(), Fail> {
    let mut splice = Splice::open(rt.alloc(), 3, 2, MostFirst)?;
    calls(&rt, &mut splice, DROPPED);
    let mut splice = Splice::open(rt.alloc(), 2, 1, LeastFirst)?;
    calls(&rt, &mut splice, FULL);
    Ok(())
}

#[test]
fn random_calls_answer_as_the_model(rt: HostRuntime) -> Result<(), Fail> {
    let mut splice = Splice::open(rt.alloc(), 5, 6, MostFirst)?;
    calls(&rt, &mut splice, MOST);
    let mut splice = Splice::open(rt.alloc(), 5, 6, LeastFirst)?;
    calls(&rt, &mut splice, LEAST);
    Ok(())
}
