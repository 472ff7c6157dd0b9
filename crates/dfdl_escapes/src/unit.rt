// What stands at a byte of the content.
ghost use Rattle.std.specs.Prelude.{◌≡◌, ℕ, ◌+◌, ◌-◌, ◌^◌, ◌<◌, ◌≤◌};
ghost use Rattle.dfdl_bits.specs.declared.window.Seen.{Seen as AnySeen};
ghost use Rattle.dfdl_bits.specs.Window.{end_of, seen_at};
ghost use Rattle.dfdl_looks.specs.Asks.{Answer, ask, go_on};
ghost use Rattle.dfdl_looks.specs.Tallies.{Tally};
ghost use Rattle.dfdl_texts.specs.Readings.{Fits};
ghost use Rattle.dfdl_texts.specs.Units.{far_of_run, far_seen, reached_of};
ghost use Rattle.dfdl_escapes.specs.Readings.{Comes, UnitFits, unit_shown};
ghost use Rattle.dfdl_escapes.specs.Steps.{piece_at, replaced};

use crate::form::Form;
use dfdl_bits::{Steps, Window};
use dfdl_chars::{Chars, decode_at};
use std::sync::ledger::Ledger;

/// What stands at a byte; sizes are in bytes.
#[derive(Debug, Clone, Copy)]
pub(crate) enum Unit {
    Holds { c: char, bytes: u32 },
    Bad { bytes: u32 },
    NoMore,
    NotYet,
    Over,
}

/// What stands at a byte, where a bad unit is U+FFFD if it is replaced, and how far its bytes were seen.
pub(crate) fn unit_at<L: Ledger>(
    form: &Form,
    window: &Window,
    byte: u64,
    steps: &mut Steps<L>,
) -> (Unit, u64)
    requires base { window.now.base ≤ byte }
    requires byte { byte ≤ 2 ^ 60 }
    ensures unit { (t : Tally) → Comes t (ask (seen_at window.now) (piece_at form.now byte) t) (unit_shown result.0) (steps.new - steps.old) result.1 }
    ensures fits { UnitFits result.0 byte (end_of window.now) }
    ensures steps { steps.old ≤ steps.new }
{
    let (chars, far) = decode_at(form.enc, window, 8 * byte, form.stop, steps);
    (unit_of(form.replaces, chars), far_seen(chars, byte, far))
}

// What was decoded, where a bad unit is U+FFFD if it is replaced.
fn unit_of(replaces: bool, chars: Chars) -> Unit
    ensures shown { (look : ℕ → AnySeen) (t : Tally)
        → go_on look (λ piece. Answer (replaced replaces piece)) (reached_of chars) t ≡ record { reached = unit_shown result; tally = t } }
    ensures fits { (k last : ℕ) → Fits chars k last → UnitFits result k last }
{
    match chars {
        Chars::Char { c, bits } => Unit::Holds { c, bytes: bits / 8 },
        Chars::Bad { bits } if replaces => Unit::Holds {
            c: '\u{FFFD}',
            bytes: bits / 8,
        },
        Chars::Bad { bits } => Unit::Bad { bytes: bits / 8 },
        Chars::End => Unit::NoMore,
        Chars::NotYet => Unit::NotYet,
        Chars::Over => Unit::Over,
    }
}

// How far the bytes of a unit were seen, where its looks have gone so far.
fn far_seen(chars: Chars, byte: u64, far: u64) -> u64
    requires { byte ≤ 2 ^ 60 }
    ensures { result ≡ far_seen chars byte far }
{
    match chars {
        Chars::NotYet => far_of_run(byte, far.saturating_sub(byte + 1)),
        Chars::Char { .. } | Chars::Bad { .. } | Chars::End | Chars::Over => far,
    }
}

// How far a run of so many bytes has seen.
fn far_of_run(first: u64, count: u64) -> u64
    requires { first + count < 2 ^ 64 }
    ensures { result ≡ far_of_run first count }
{
    if count == 0 { 0 } else { first + count }
}
