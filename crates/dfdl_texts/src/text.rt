// The characters of a text.
ghost use Rattle.std.specs.Prelude.{◌≡◌, ℕ, ◌-◌, ◌^◌, ◌≤◌, IfOk};
ghost use Rattle.dfdl_bits.specs.Window.{end_of, seen_at};
ghost use Rattle.dfdl_looks.specs.Asks.{ask};
ghost use Rattle.dfdl_looks.specs.Tallies.{nothing};
ghost use Rattle.dfdl_texts.specs.Readings.{Answers, EndsWithin};
ghost use Rattle.dfdl_texts.specs.Texts.{most_of, text_at};

use crate::extent::Extent;
use crate::found::Glance;
use crate::spot::{Spot, Task, Turn, take_run, take_unit};
use dfdl_bits::{Steps, Window};
use dfdl_chars::Encoding;
use std::alloc::AllocError;
use std::sync::ledger::Ledger;

/// Reads the text that begins at byte `byte`, in a box that ends at bit `stop`. A bad unit is U+FFFD if it is replaced, and
/// ends the reading else. `into` is cleared; if the text reads, its characters stand there then. Chapter 'Properties Common
/// to both Content and Framing' (encoding, encodingErrorPolicy).
pub fn read_text<L: Ledger>(
    enc: Encoding,
    replaces: bool,
    extent: Extent,
    window: &Window,
    byte: u64,
    stop: u64,
    into: &mut Vec<char>,
    steps: &mut Steps<L>,
) -> Result<Glance, AllocError>
    requires base { window.now.base ≤ byte }
    requires at { byte ≤ 2 ^ 60 }
    requires bound { end_of window.now ≤ 2 ^ 60 }
    ensures answers { IfOk result (λ glance. Answers (ask (seen_at window.now) (text_at enc replaces extent stop byte) nothing) into.new.items glance (steps.new - steps.old)) }
    ensures steps { steps.old ≤ steps.new }
    ensures within { IfOk result (λ glance. EndsWithin glance.found byte (end_of window.now)) }
{
    let task = Task {
        enc,
        replaces,
        extent,
        stop,
        window,
    };
    into.clear();
    let mut spot = Spot {
        place: byte,
        left: most_of(extent, byte, stop),
        far: 0,
    };
    'units: loop {
        spot = take_run(&task, spot, into, steps)?;
        match take_unit(&task, spot, into, steps)? {
            Turn::Goes(next) => spot = next,
            Turn::Ends(glance) => return Ok(glance),
        }
    }
}

// How many characters a text has at most.
fn most_of(extent: Extent, byte: u64, stop: u64) -> u64
    ensures { result ≡ most_of extent stop byte }
{
    match extent {
        Extent::Box | Extent::Front => (stop / 8).saturating_sub(byte),
        Extent::Characters(count) => count,
    }
}
