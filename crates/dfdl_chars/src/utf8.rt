// UTF-8, a byte at a time.
ghost use Rattle.std.specs.Prelude.{◌≡◌, ◌+◌, ◌^◌, ◌<◌, ◌≤◌, [], ◌∷◌};
ghost use Rattle.dfdl_chars.specs.Decoding.{in_box, HasWholeBytes, no_look, utf8_after};
ghost use Rattle.dfdl_chars.specs.Looks.{answered};
ghost use Rattle.dfdl_chars.specs.Sequences.{IsFront};

use super::decode::{Chars, Looked, Place, byte_at};
use super::sequences::{
    code_of_four, code_of_one, code_of_three, code_of_two, is_first_of_more, is_pair, is_quadruple,
    is_single, is_three_of_more, is_triple, is_two_of_more,
};
use dfdl_bits::Steps;
use std::sync::ledger::Ledger;

const BAD: Chars = Chars::Bad { bits: 8 };

/// What stands at the place.
pub(crate) fn utf8_at<L: Ledger>(here: &Place<'_>, steps: &mut Steps<L>) -> (Chars, u64)
    requires base { here.now.window.now.base ≤ here.now.byte }
    requires byte { here.now.byte < 2 ^ 61 }
    ensures answer { utf8_after 4 (in_box here.now.window.now here.now.stop) here.now.byte [] (no_look steps.old) ≡ answered result steps.new }
    ensures whole { HasWholeBytes result.0 }
{
    match byte_at(here, 0, Chars::End, 0, steps) {
        Ok(first) => after_one(here, first, steps),
        Err(answer) => answer,
    }
}

fn after_one<L: Ledger>(here: &Place<'_>, first: Looked, steps: &mut Steps<L>) -> (Chars, u64)
    requires base { here.now.window.now.base ≤ here.now.byte }
    requires byte { here.now.byte < 2 ^ 61 }
    ensures answer { utf8_after 3 (in_box here.now.window.now here.now.stop) here.now.byte (first.byte ∷ []) (record { far = first.far; looks = steps.old }) ≡ answered result steps.new }
    ensures whole { HasWholeBytes result.0 }
{
    if is_single(first.byte) {
        let c = code_of_one(first.byte);
        return (Chars::Char { c, bits: 8 }, first.far);
    }
    if !is_first_of_more(first.byte) {
        return (BAD, first.far);
    }
    match byte_at(here, 1, BAD, first.far, steps) {
        Ok(second) => after_two(here, first.byte, second, steps),
        Err(answer) => answer,
    }
}

fn after_two<L: Ledger>(
    here: &Place<'_>,
    first: u8,
    second: Looked,
    steps: &mut Steps<L>,
) -> (Chars, u64)
    requires base { here.now.window.now.base ≤ here.now.byte }
    requires byte { here.now.byte < 2 ^ 61 }
    ensures answer { utf8_after 2 (in_box here.now.window.now here.now.stop) here.now.byte (first ∷ second.byte ∷ []) (record { far = second.far; looks = steps.old }) ≡ answered result steps.new }
    ensures whole { HasWholeBytes result.0 }
{
    if is_pair(first, second.byte) {
        let c = code_of_two(first, second.byte);
        return (Chars::Char { c, bits: 16 }, second.far);
    }
    if !is_two_of_more(first, second.byte) {
        return (BAD, second.far);
    }
    match byte_at(here, 2, BAD, second.far, steps) {
        Ok(third) => after_three(here, first, second.byte, third, steps),
        Err(answer) => answer,
    }
}

fn after_three<L: Ledger>(
    here: &Place<'_>,
    first: u8,
    second: u8,
    third: Looked,
    steps: &mut Steps<L>,
) -> (Chars, u64)
    requires base { here.now.window.now.base ≤ here.now.byte }
    requires byte { here.now.byte < 2 ^ 61 }
    requires front { IsFront first second }
    ensures answer { utf8_after 1 (in_box here.now.window.now here.now.stop) here.now.byte (first ∷ second ∷ third.byte ∷ []) (record { far = third.far; looks = steps.old }) ≡ answered result steps.new }
    ensures whole { HasWholeBytes result.0 }
{
    if is_triple(first, second, third.byte) {
        let c = code_of_three(first, second, third.byte);
        return (Chars::Char { c, bits: 24 }, third.far);
    }
    if !is_three_of_more(first, second, third.byte) {
        return (BAD, third.far);
    }
    match byte_at(here, 3, BAD, third.far, steps) {
        Ok(fourth) if is_quadruple(first, second, third.byte, fourth.byte) => {
            let c = code_of_four(first, second, third.byte, fourth.byte);
            (Chars::Char { c, bits: 32 }, fourth.far)
        }
        Ok(fourth) => (BAD, fourth.far),
        Err(answer) => answer,
    }
}
