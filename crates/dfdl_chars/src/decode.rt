// What stands at a place of the data.
ghost use Rattle.std.specs.Prelude.{ℕ, ◌≡◌, ◌+◌, ◌*◌, ◌/◌, ◌%◌, ◌^◌, ◌<◌, ◌≤◌, IfErr};
ghost use Rattle.dfdl_chars.specs.Decoding.{in_box, Walk, Decoded, at_byte, decoded_at, narrow_at as narrow_of, no_look, HasWholeBytes};
ghost use Rattle.dfdl_chars.specs.Looks.{after, answered};

use super::utf8::utf8_at;
use super::utf16::utf16_at;
use dfdl_bits::{ByteOrder, Seen, Steps, Window};
use dfdl_forms::Encoding;
use std::sync::ledger::Ledger;

/// What stands at a place of the data; sizes are in bits.
#[derive(Clone, Copy, Debug, PartialEq, Eq)]
pub enum Chars {
    Char { c: char, bits: u32 },
    /// No character can be decoded there.
    Bad { bits: u32 },
    /// The box or the data ends.
    End,
    /// A byte that is needed hasn't come.
    NotYet,
    /// A byte that is needed lies past what the window can hold.
    Over,
}

/// A place of the data: the byte, and the bit at which the box ends that it lies in.
#[derive(Clone, Copy)]
pub(crate) struct Place<'w> {
    pub window: &'w Window,
    pub byte: u64,
    pub stop: u64,
}

/// A byte that was looked at, and one more than its place.
#[derive(Clone, Copy)]
pub(crate) struct Looked {
    pub byte: u8,
    pub far: u64,
}

/// Looks at the byte that stands `ahead` bytes behind the place. Where there is none, the answer is `at_end` at the end, with how far
/// the looks have gone.
pub(crate) fn byte_at<L: Ledger>(
    here: &Place<'_>,
    ahead: u64,
    at_end: Chars,
    far: u64,
    steps: &mut Steps<L>,
) -> Result<Looked, (Chars, u64)>
    requires base { here.now.window.now.base ≤ here.now.byte }
    requires byte { here.now.byte < 2 ^ 61 }
    requires ahead { ahead < 4 }
    requires at_end { HasWholeBytes at_end }
    ensures whole { IfErr result (λ answer. HasWholeBytes answer.0) }
    ensures next { (go : ℕ → Walk → Decoded) → at_byte (in_box here.now.window.now here.now.stop) (here.now.byte + ahead) (record { far = far; looks = steps.old }) at_end go ≡ after result steps.new go }
{
    let byte = here.byte + ahead;
    if byte >= here.stop / 8 {
        return Err((at_end, far));
    }
    match here.window.look(byte, steps) {
        Seen::Byte(seen) => Ok(Looked {
            byte: seen,
            far: byte + 1,
        }),
        Seen::End => Err((at_end, byte + 1)),
        Seen::NotYet => Err((Chars::NotYet, byte + 1)),
        Seen::Over => Err((Chars::Over, far)),
    }
}

/// An encoding of one byte a character, which has those below `limit`.
fn narrow_at<L: Ledger>(here: &Place<'_>, limit: u32, steps: &mut Steps<L>) -> (Chars, u64)
    requires base { here.now.window.now.base ≤ here.now.byte }
    requires byte { here.now.byte < 2 ^ 61 }
    ensures answer { narrow_of limit (in_box here.now.window.now here.now.stop) here.now.byte (no_look steps.old) ≡ answered result steps.new }
    ensures whole { HasWholeBytes result.0 }
{
    match byte_at(here, 0, Chars::End, 0, steps) {
        Ok(seen) if u32::from(seen.byte) < limit => (
            Chars::Char {
                c: char::from(seen.byte),
                bits: 8,
            },
            seen.far,
        ),
        Ok(seen) => (Chars::Bad { bits: 8 }, seen.far),
        Err(answer) => answer,
    }
}

/// What stands at bit `bit`, in a box that ends at bit `stop`, and one more than the greatest byte of which a look was not
/// Over, or 0 where there was no such look.
pub fn decode_at<L: Ledger>(
    enc: Encoding,
    window: &Window,
    bit: u64,
    stop: u64,
    steps: &mut Steps<L>,
) -> (Chars, u64)
    requires place { bit % 8 ≡ 0 }
    requires base { window.now.base ≤ bit / 8 }
    ensures chars { result.0 ≡ (decoded_at enc (in_box window.now stop) (bit / 8) (no_look steps.old)).chars }
    ensures far { result.1 ≡ (decoded_at enc (in_box window.now stop) (bit / 8) (no_look steps.old)).walk.far }
    ensures whole { HasWholeBytes result.0 }
    ensures looks { steps.new ≡ (decoded_at enc (in_box window.now stop) (bit / 8) (no_look steps.old)).walk.looks }
{
    let here = Place {
        window,
        byte: bit / 8,
        stop,
    };
    match enc {
        Encoding::Utf8 => utf8_at(&here, steps),
        Encoding::UsAscii => narrow_at(&here, 128, steps),
        Encoding::Iso88591 => narrow_at(&here, 256, steps),
        Encoding::Utf16Be => utf16_at(&here, ByteOrder::Big, steps),
        Encoding::Utf16Le => utf16_at(&here, ByteOrder::Little, steps),
    }
}
