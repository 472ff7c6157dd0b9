// A text while it is read: a run of characters at once, or a unit.
ghost use Rattle.std.specs.Prelude.{◌≡◌, ℕ, ◌+◌, ◌-◌, ◌*◌, ◌/◌, ◌^◌, ◌<◌, ◌≤◌, List, ◌++◌, length, IfOk, OnOk};
ghost use Rattle.dfdl_bits.specs.declared.window.Seen.{Seen as AnySeen};
ghost use Rattle.dfdl_bits.specs.Window.{end_of, seen_at};
ghost use Rattle.dfdl_looks.specs.Asks.{Ask, Told, ask, go_on};
ghost use Rattle.dfdl_looks.specs.Tallies.{Tally};
ghost use Rattle.dfdl_texts.specs.Readings.{Fits, IsBehind, TakesWithin, Turns, found_shown, left_of, verdict_shown};
ghost use Rattle.dfdl_texts.specs.Texts.{Text, after_piece, at_bad, at_end};
ghost use Rattle.dfdl_texts.specs.Units.{IsUnit, far_of_run, far_seen, reached_of, unit_at as unit_of};

use crate::extent::Extent;
use crate::found::{Found, Glance};
use dfdl_bits::{Steps, Window};
use dfdl_chars::{Chars, Encoding, decode_at, decode_run};
use std::alloc::AllocError;
use std::sync::ledger::Ledger;

/// What is to be read.
#[derive(Clone, Copy)]
pub(crate) struct Task<'w> {
    pub enc: Encoding,
    pub replaces: bool,
    pub extent: Extent,
    pub stop: u64,
    pub window: &'w Window,
}

/// Where a text is read: the byte, how many more characters it has at most, and how far was looked.
#[derive(Clone, Copy)]
pub(crate) struct Spot {
    pub place: u64,
    pub left: u64,
    pub far: u64,
}

/// What is made of a unit.
#[derive(Clone, Copy)]
pub(crate) enum Verdict {
    Takes { c: char, bytes: u64 },
    Stops(Found),
}

/// How a text goes on behind a unit.
#[derive(Clone, Copy)]
pub(crate) enum Turn {
    Goes(Spot),
    Ends(Glance),
}

/// Reads the characters of one byte that stand at the spot.
pub(crate) fn take_run<L: Ledger>(
    task: &Task<'_>,
    spot: Spot,
    into: &mut Vec<char>,
    steps: &mut Steps<L>,
) -> Result<Spot, AllocError>
    requires base { task.now.window.now.base ≤ spot.place }
    requires place { spot.place ≤ 2 ^ 60 }
    requires bound { end_of task.now.window.now ≤ 2 ^ 60 }
    ensures left { IfOk result (λ next. left_of task.now.window.now task.now spot into.old.items steps.old ≡ left_of task.now.window.now task.now next into.new.items steps.new) }
    ensures behind { IfOk result (λ next. IsBehind spot next (end_of task.now.window.now)) }
    ensures steps { steps.old ≤ steps.new }
{
    let run = decode_run(
        task.enc,
        task.window,
        8 * spot.place,
        task.stop,
        spot.left as usize,
        steps,
    );
    put(run, into)?;
    let count = run.len() as u64;
    Ok(Spot {
        place: spot.place + count,
        left: spot.left - count,
        far: spot.far.max(far_of_run(spot.place, count)),
    })
}

// Puts characters of one byte behind others.
fn put(bytes: &[u8], into: &mut Vec<char>) -> Result<(), AllocError>
    ensures { OnOk result (into.new.items ≡ into.old.items ++ bytes.now) }
{
    for byte in bytes {
        into.push(char::from(*byte))?;
    }
    Ok(())
}

// How far a run of so many bytes has seen.
fn far_of_run(first: u64, count: u64) -> u64
    requires { first + count < 2 ^ 64 }
    ensures { result ≡ far_of_run first count }
{
    if count == 0 { 0 } else { first + count }
}

/// Reads the unit that stands at the spot, if the text goes on there.
pub(crate) fn take_unit<L: Ledger>(
    task: &Task<'_>,
    spot: Spot,
    into: &mut Vec<char>,
    steps: &mut Steps<L>,
) -> Result<Turn, AllocError>
    requires base { task.now.window.now.base ≤ spot.place }
    requires place { spot.place ≤ 2 ^ 60 }
    requires bound { end_of task.now.window.now ≤ 2 ^ 60 }
    ensures turn { IfOk result (λ turn. Turns task.now.window.now task.now (left_of task.now.window.now task.now spot into.old.items steps.old) spot into.new.items steps.new turn) }
    ensures steps { steps.old ≤ steps.new }
{
    if spot.left == 0 {
        return Ok(Turn::Ends(Glance {
            found: Found::Reads { end: spot.place },
            far: spot.far,
        }));
    }
    let (chars, seen) = unit_at(task, spot.place, steps);
    let far = spot.far.max(seen);
    match judge(task, spot.place, chars) {
        Verdict::Takes { c, bytes } => {
            into.push(c)?;
            Ok(Turn::Goes(Spot {
                place: spot.place + bytes,
                left: spot.left - 1,
                far,
            }))
        }
        Verdict::Stops(found) => Ok(Turn::Ends(Glance { found, far })),
    }
}

// What stands at a byte, and how far its bytes were seen.
fn unit_at<L: Ledger>(task: &Task<'_>, byte: u64, steps: &mut Steps<L>) -> (Chars, u64)
    requires base { task.now.window.now.base ≤ byte }
    requires byte { byte ≤ 2 ^ 60 }
    ensures unit { (t : Tally) → IsUnit result.0 result.1 steps.old steps.new t (ask (seen_at task.now.window.now) (unit_of task.now.enc task.now.stop byte) t) }
    ensures fits { Fits result.0 byte (end_of task.now.window.now) }
    ensures steps { steps.old ≤ steps.new }
{
    let (chars, far) = decode_at(task.enc, task.window, 8 * byte, task.stop, steps);
    (chars, far_seen(chars, byte, far))
}

// How far the bytes of a unit were seen, where its looks have gone so far.
fn far_seen(chars: Chars, byte: u64, far: u64) -> u64
    requires { byte ≤ 2 ^ 60 }
    ensures { result ≡ far_seen chars byte far }
{
    match chars {
        Chars::NotYet => far_of_run(byte, far.saturating_sub(byte + 1)),
        Chars::Char { .. } | Chars::Bad { .. } | Chars::End | Chars::Over => far,
    }
}

// What is made of what stands at a byte.
fn judge(task: &Task<'_>, byte: u64, chars: Chars) -> Verdict
    ensures shown { (look : ℕ → AnySeen) (text : List ℕ) (go : ℕ → ℕ → Ask Text) (t : Tally)
        → go_on look (after_piece task.now.replaces (at_bad task.now.extent text byte) (at_end task.now.extent task.now.stop text byte) go) (reached_of chars) t
        ≡ verdict_shown look text go t result }
    ensures within { (last : ℕ) → Fits chars byte last → TakesWithin result byte last }
{
    match chars {
        Chars::Char { c, bits } => Verdict::Takes {
            c,
            bytes: u64::from(bits / 8),
        },
        Chars::Bad { bits } if task.replaces => Verdict::Takes {
            c: '\u{FFFD}',
            bytes: u64::from(bits / 8),
        },
        Chars::Bad { .. } => Verdict::Stops(bad_at(task, byte)),
        Chars::End => Verdict::Stops(end_at(task, byte)),
        Chars::NotYet => Verdict::Stops(Found::NotYet),
        Chars::Over => Verdict::Stops(Found::TooFar),
    }
}

// What a text comes to where nothing stands at a byte.
fn end_at(task: &Task<'_>, byte: u64) -> Found
    ensures { (text : List ℕ) → found_shown text result ≡ Told (at_end task.now.extent task.now.stop text byte) }
{
    let is_cut = byte < task.stop / 8;
    match task.extent {
        Extent::Box if is_cut => Found::IsCut,
        Extent::Characters(_) if is_cut => Found::IsCut,
        Extent::Box | Extent::Front => Found::Reads { end: byte },
        Extent::Characters(_) => Found::IsBoxed,
    }
}

// What a text comes to where a bad unit that isn't replaced stands at a byte.
fn bad_at(task: &Task<'_>, byte: u64) -> Found
    ensures { (text : List ℕ) → found_shown text result ≡ Told (at_bad task.now.extent text byte) }
{
    match task.extent {
        Extent::Box | Extent::Characters(_) => Found::HasBad,
        Extent::Front => Found::Reads { end: byte },
    }
}
