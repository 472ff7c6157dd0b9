// A window fed in pieces, against a model of it in Python: random calls, and what the model answers.
ghost use Rattle.std.specs.Prelude.{◌≡◌, ◌<◌};

use crate::*;
use std::alloc::Global;
use std::marker::Brand;
use std::process::Abort;
use std::sync::ledger::{Blank, Ledger};
use std::test::Fail;

/// A call, and what it answers.
#[derive(Clone, Copy)]
enum Op {
    Append(&'static [u8], usize),
    DropBefore(u64),
    DropAfter(u64),
    Look(u64, Seen),
    Run(u64, usize, &'static [u8]),
    RunBelow(u64, usize, u8, &'static [u8]),
}

// Over a window of seven bytes; Python's random with seed 20261127.
const OPS: [Op; 48] = [
    Op::Append(b"\x00\x7F", 2),
    Op::DropAfter(0),
    Op::Append(b"\x41\x7F\x30", 3),
    Op::Run(7, 0, b""),
    Op::RunBelow(1, 3, 0x80, b"\x7F\x30"),
    Op::Look(7, Seen::Over),
    Op::Append(b"\x00\x00\x30\x30\x80", 4),
    Op::RunBelow(2, 7, 0x80, b"\x30\x00\x00\x30\x30"),
    Op::DropAfter(7),
    Op::Run(2, 6, b"\x30\x00\x00\x30\x30"),
    Op::RunBelow(1, 4, 0x31, b""),
    Op::DropAfter(7),
    Op::Look(3, Seen::Byte(0x00)),
    Op::Append(b"\xE9\x30\xFF\xFF", 0),
    Op::RunBelow(2, 1, 0x80, b"\x30"),
    Op::Append(b"", 0),
    Op::DropBefore(1),
    Op::Append(b"\x00\xE9\xFF\x30\x00", 1),
    Op::Append(b"\x7F\x80", 0),
    Op::Look(4, Seen::Byte(0x00)),
    Op::Append(b"\x7F\x30\x00\x00", 0),
    Op::DropBefore(8),
    Op::Run(12, 2, b""),
    Op::DropBefore(8),
    Op::Append(b"\x30\xFF", 2),
    Op::Run(12, 0, b""),
    Op::Look(10, Seen::NotYet),
    Op::Look(16, Seen::Over),
    Op::RunBelow(8, 4, 0x31, b"\x30"),
    Op::Append(b"", 0),
    Op::RunBelow(8, 4, 0x7F, b"\x30"),
    Op::RunBelow(9, 6, 0x31, b""),
    Op::Append(b"\x7F\x80\xE9\xFF", 4),
    Op::Append(b"", 0),
    Op::Append(b"\xFF", 1),
    Op::Look(13, Seen::Byte(0xFF)),
    Op::Append(b"\x80\x80\x80", 0),
    Op::DropAfter(15),
    Op::Append(b"\x41\x30\x00", 0),
    Op::DropBefore(10),
    Op::DropAfter(12),
    Op::Run(13, 8, b""),
    Op::DropBefore(10),
    Op::Append(b"\x30\x80\x00\x41", 4),
    Op::Look(14, Seen::Byte(0x00)),
    Op::Run(11, 3, b"\x80\x30\x80"),
    Op::RunBelow(12, 7, 0x7F, b"\x30"),
    Op::Look(18, Seen::Over),
];

fn call<L: Ledger>(rt: &impl Abort, window: &mut Window, op: Op, steps: &mut Steps<L>) {
    match op {
        Op::Append(piece, taken) => {
            assert!(rt; !window.ended() && window.end() < 1000 && piece.len() < 8);
            assert_eq!(rt; window.append(piece), taken);
        }
        Op::DropBefore(k) => {
            assert!(rt; window.base() <= k && k <= window.end());
            window.drop_before(k);
        }
        Op::DropAfter(k) => {
            assert!(rt; !window.ended() && window.base() <= k && k <= window.end());
            window.drop_after(k);
        }
        Op::Look(k, seen) => {
            assert!(rt; window.base() <= k);
            assert_eq!(rt; window.look(k, steps), seen);
        }
        Op::Run(k, most, run) => {
            assert!(rt; window.base() <= k);
            assert!(rt; window.run(k, most, steps) == run);
        }
        Op::RunBelow(k, most, limit, run) => {
            assert!(rt; window.base() <= k);
            assert!(rt; window.run_below(k, most, limit, steps) == run);
        }
    }
}

fn calls<L: Ledger>(rt: &impl Abort, alloc: Global, blank: Blank) -> Result<(), Fail>
    requires name { blank.name ≡ L.name }
    requires parts { blank.parts ≡ L.parts }
    requires some { 0 < L.parts }
{
    let mut steps = Steps::<L>::open(blank);
    let mut window = Window::open(alloc, 7)?;
    for op in OPS {
        call(rt, &mut window, op, &mut steps);
    }
    assert_eq!(rt; (window.size(), window.ended()), (7, false));
    window.tell_end();
    assert!(rt; window.ended());
    Ok(())
}

#[test]
fn random_calls_answer_as_the_model(rt: HostRuntime) -> Result<(), Fail> {
    calls::<Brand>(&rt, rt.alloc(), Blank::new(1))
}

#[test]
fn the_default_window_opens_and_fills(rt: HostRuntime) -> Result<(), Fail> {
    let mut window = Window::open(rt.alloc(), 33_554_432)?;
    let piece = [0x5A; 4096];
    assert_eq!(rt; window.append(&piece), 4096);
    assert_eq!(rt; window.room(), 33_550_336);
    Ok(())
}
