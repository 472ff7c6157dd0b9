// Runs of characters that have one byte each.
ghost use Rattle.std.specs.Prelude.{ℕ, ◌≡◌, ◌+◌, ◌-◌, ◌*◌, ◌/◌, ◌%◌, ◌<◌, ◌≤◌, false, length};
ghost use Rattle.dfdl_chars.specs.Decoding.{in_box, decoded_at, no_look};
ghost use Rattle.dfdl_chars.specs.Runs.{is_single, AreSingles};

use dfdl_bits::{Steps, Window};
use dfdl_forms::Encoding;
use std::sync::ledger::Ledger;

/// The characters that stand from bit `bit` on, in a box that ends at bit `stop`, as long as each has one byte: the code
/// point of each, at most `most` of them. There is none in UTF-16.
pub fn decode_run<'w, L: Ledger>(
    enc: Encoding,
    window: &'w Window,
    bit: u64,
    stop: u64,
    most: usize,
    steps: &mut Steps<L>,
) -> &'w [u8]
    requires place { bit % 8 ≡ 0 }
    requires base { window.now.base ≤ bit / 8 }
    ensures each { AreSingles enc (in_box window.now stop) (bit / 8) steps.old result.now }
    ensures few { length result.now ≤ most }
    ensures whole { length result.now < most
        → is_single (decoded_at enc (in_box window.now stop) (bit / 8 + length result.now) (no_look steps.new)).chars ≡ false }
    ensures looks { steps.new ≡ steps.old + length result.now }
{
    let byte = bit / 8;
    let most = most.min(room(byte, stop));
    match enc {
        Encoding::Utf8 | Encoding::UsAscii => window.run_below(byte, most, 0x80, steps),
        Encoding::Iso88591 => window.run(byte, most, steps),
        Encoding::Utf16Be | Encoding::Utf16Le => &[],
    }
}

// How many whole bytes a box has from a byte on.
fn room(byte: u64, stop: u64) -> usize
    ensures { result ≡ stop / 8 - byte }
{
    (stop / 8).saturating_sub(byte) as usize
}
