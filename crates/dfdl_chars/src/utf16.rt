// UTF-16, a unit at a time.
ghost use Rattle.std.specs.Prelude.{ℕ, ◌≡◌, ◌+◌, ◌^◌, ◌<◌, ◌≤◌, IsTrue, IfErr};
ghost use Rattle.std.specs.Bool.{IsFalse};
ghost use Rattle.dfdl_chars.specs.Decoding.{in_box, Walk, Decoded, at_unit, is_high, is_low, no_look, found, pair_code, utf16_at as utf16_of, utf16_first, utf16_second, HasWholeBytes};
ghost use Rattle.dfdl_chars.specs.Looks.{after_unit, answered, joined_by};

use super::decode::{Chars, Place, byte_at};
use dfdl_bits::{ByteOrder, Steps};
use std::sync::ledger::Ledger;

/// A unit that was looked at, and one more than the place of its last byte.
#[derive(Clone, Copy)]
pub(crate) struct Unit {
    pub unit: u16,
    pub far: u64,
}

fn joined(order: ByteOrder, first: u8, second: u8) -> u16
    ensures { result ≡ joined_by order first second }
{
    match order {
        ByteOrder::Big => u16::from_be_bytes([first, second]),
        ByteOrder::Little => u16::from_le_bytes([first, second]),
    }
}

/// Looks at the unit that stands `ahead` bytes behind the place. The answer is `at_end` where there is none of its bytes, and `cut`
/// where there is one.
fn unit_at<L: Ledger>(
    here: &Place<'_>,
    order: ByteOrder,
    ahead: u64,
    ends: (Chars, Chars),
    far: u64,
    steps: &mut Steps<L>,
) -> Result<Unit, (Chars, u64)>
    requires base { here.now.window.now.base ≤ here.now.byte }
    requires byte { here.now.byte < 2 ^ 61 }
    requires ahead { ahead < 3 }
    requires at_end { HasWholeBytes ends.0 }
    requires cut { HasWholeBytes ends.1 }
    ensures whole { IfErr result (λ answer. HasWholeBytes answer.0) }
    ensures next { (go : ℕ → Walk → Decoded) → at_unit (joined_by order) (in_box here.now.window.now here.now.stop) (here.now.byte + ahead) (record { far = far; looks = steps.old }) ends go ≡ after_unit result steps.new go }
{
    let (at_end, cut) = ends;
    match byte_at(here, ahead, at_end, far, steps) {
        Ok(first) => match byte_at(here, ahead + 1, cut, first.far, steps) {
            Ok(second) => Ok(Unit {
                unit: joined(order, first.byte, second.byte),
                far: second.far,
            }),
            Err(answer) => Err(answer),
        },
        Err(answer) => Err(answer),
    }
}

fn is_high_surrogate(unit: u16) -> bool
    ensures { result ≡ is_high unit }
{
    unit >= 0xD800 && unit < 0xDC00
}

fn is_low_surrogate(unit: u16) -> bool
    ensures { result ≡ is_low unit }
{
    unit >= 0xDC00 && unit < 0xE000
}

/// The character of a pair of surrogates.
fn pair_character(high: u16, low: u16) -> char
    requires high { IsTrue (is_high high) }
    requires low { IsTrue (is_low low) }
    ensures { result ≡ pair_code high low }
{
    let code = 0x10000 + (u32::from(high) - 0xD800) * 1024 + (u32::from(low) - 0xDC00);
    char::from_u32(code).unwrap()
}

/// The character of a unit that is no surrogate.
fn character(unit: u16) -> char
    requires high { IsFalse (is_high unit) }
    requires low { IsFalse (is_low unit) }
    ensures { result ≡ unit }
{
    char::from_u32(u32::from(unit)).unwrap()
}

fn after_first<L: Ledger>(
    here: &Place<'_>,
    order: ByteOrder,
    first: Unit,
    steps: &mut Steps<L>,
) -> (Chars, u64)
    requires base { here.now.window.now.base ≤ here.now.byte }
    requires byte { here.now.byte < 2 ^ 61 }
    ensures answer { utf16_first (joined_by order) (in_box here.now.window.now here.now.stop) here.now.byte first.unit (record { far = first.far; looks = steps.old }) ≡ answered result steps.new }
    ensures whole { HasWholeBytes result.0 }
{
    let bad = Chars::Bad { bits: 16 };
    if is_high_surrogate(first.unit) {
        return match unit_at(here, order, 2, (bad, bad), first.far, steps) {
            Ok(second) => (after_high(first.unit, second.unit), second.far),
            Err(answer) => answer,
        };
    }
    if is_low_surrogate(first.unit) {
        return (bad, first.far);
    }
    let c = character(first.unit);
    (Chars::Char { c, bits: 16 }, first.far)
}

/// What a unit behind a high surrogate makes of both.
fn after_high(high: u16, second: u16) -> Chars
    requires { IsTrue (is_high high) }
    ensures second { (walk : Walk) → utf16_second high second walk ≡ found result walk }
    ensures whole { HasWholeBytes result }
{
    if is_low_surrogate(second) {
        Chars::Char {
            c: pair_character(high, second),
            bits: 32,
        }
    } else {
        Chars::Bad { bits: 16 }
    }
}

/// What stands at the place.
pub(crate) fn utf16_at<L: Ledger>(
    here: &Place<'_>,
    order: ByteOrder,
    steps: &mut Steps<L>,
) -> (Chars, u64)
    requires base { here.now.window.now.base ≤ here.now.byte }
    requires byte { here.now.byte < 2 ^ 61 }
    ensures answer { utf16_of (joined_by order) (in_box here.now.window.now here.now.stop) here.now.byte (no_look steps.old) ≡ answered result steps.new }
    ensures whole { HasWholeBytes result.0 }
{
    match unit_at(
        here,
        order,
        0,
        (Chars::End, Chars::Bad { bits: 8 }),
        0,
        steps,
    ) {
        Ok(first) => after_first(here, order, first, steps),
        Err(answer) => answer,
    }
}
