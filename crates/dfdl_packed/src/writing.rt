// The nibbles that a value is written as.
ghost use Rattle.std.specs.Prelude.{◌≡◌, ◌+◌, ◌-◌, ◌^◌, ◌<◌, ◌≤◌, nat_lt, Some, ℕ, ℤ, length, IfSome, slice_index, take, drop, replicate, ◌++◌, [], ◌∷◌, ◌==◌, unsigned_abs};
ghost use Rattle.dfdl_forms.specs.BinaryNumbers.{IsPackedForm};
ghost use Rattle.dfdl_forms.specs.Types.{form_of};
ghost use Rattle.dfdl_packed.specs.Digits.{padded_digits};
ghost use Rattle.dfdl_packed.specs.Packed.{packed_writing, is_negative, nibbles_by, ibm_filled, code_in};
ghost use Rattle.dfdl_forms.specs.declared.packed.PackedRep.TheVariants.{Packed, Bcd, Ibm4690};
ghost use Rattle.dfdl_packed.specs.Written.{ShowsNibbles};

use crate::nibbles::MOST;
use crate::scaled::{Rest, Scaled, integer_of};
use dfdl_forms::{PackedForm, PackedRep};
use dfdl_value::{Form, Value};

/// The nibbles that a value is written as, at the front of the array.
pub fn nibbles_for(value: &Value, form: &PackedForm) -> Option<[u8; MOST]>
    requires form { IsPackedForm form.now }
    ensures nibbles { ShowsNibbles result form.now.nibbles (packed_writing form.now value.now) }
    ensures fit { IfSome result (λ nibbles. (k : ℕ) → k < form.now.nibbles → slice_index nibbles k < 16) }
{
    let Some(number) = integer_of(value, form.kind, form.point) else {
        return None;
    };
    match form.rep {
        PackedRep::Packed => packed(number, form),
        PackedRep::Bcd => bcd(number, form),
        PackedRep::Ibm4690 => ibm(number, form),
    }
}

// Digits, and a sign in the last nibble.
fn packed(number: Scaled, form: &PackedForm) -> Option<[u8; MOST]>
    requires form { IsPackedForm form.now }
    ensures nibbles { (z : ℤ) → number.negative ≡ is_negative z → number.size ≡ unsigned_abs z
        → ShowsNibbles result form.now.nibbles (nibbles_by Packed form.now z) }
    ensures fit { IfSome result (λ nibbles. (k : ℕ) → slice_index nibbles k < 16) }
{
    let digits = (form.nibbles - 1) as usize;
    let mut nibbles = places_of(0);
    nibbles[digits] = code(form, number.negative, number.size.is_zero());
    if !fill(&mut nibbles, 0, digits, number.size) {
        return None;
    }
    Some(nibbles)
}

// Digits alone.
fn bcd(number: Scaled, form: &PackedForm) -> Option<[u8; MOST]>
    requires form { IsPackedForm form.now }
    ensures nibbles { (z : ℤ) → number.negative ≡ is_negative z → number.size ≡ unsigned_abs z
        → ShowsNibbles result form.now.nibbles (nibbles_by Bcd form.now z) }
    ensures fit { IfSome result (λ nibbles. (k : ℕ) → slice_index nibbles k < 16) }
{
    let mut nibbles = places_of(0);
    if number.negative || !fill(&mut nibbles, 0, form.nibbles as usize, number.size) {
        return None;
    }
    Some(nibbles)
}

// Nibbles F, then a nibble D for a negative number, then digits.
fn ibm(number: Scaled, form: &PackedForm) -> Option<[u8; MOST]>
    requires form { IsPackedForm form.now }
    ensures nibbles { (z : ℤ) → number.negative ≡ is_negative z → number.size ≡ unsigned_abs z
        → ShowsNibbles result form.now.nibbles (nibbles_by Ibm4690 form.now z) }
    ensures fit { IfSome result (λ nibbles. (k : ℕ) → slice_index nibbles k < 16) }
{
    if number.negative {
        marked(number.size, form.nibbles)
    } else {
        unmarked(number.size, form.nibbles)
    }
}

fn unmarked(size: Rest, count: u32) -> Option<[u8; MOST]>
    requires { count ≤ 39 }
    ensures nibbles { ShowsNibbles result count (ibm_filled count [] size) }
    ensures fit { IfSome result (λ nibbles. (k : ℕ) → slice_index nibbles k < 16) }
{
    let len = size.len();
    if len > count {
        return None;
    }
    let mut nibbles = places_of(0xF);
    fill(&mut nibbles, (count - len) as usize, count as usize, size);
    Some(nibbles)
}

fn marked(size: Rest, count: u32) -> Option<[u8; MOST]>
    requires { count ≤ 39 }
    ensures nibbles { ShowsNibbles result count (ibm_filled count (13 ∷ []) size) }
    ensures fit { IfSome result (λ nibbles. (k : ℕ) → slice_index nibbles k < 16) }
{
    let len = size.len();
    if len + 1 > count {
        return None;
    }
    let mut nibbles = places_of(0xF);
    let begin = (count - len) as usize;
    nibbles[begin - 1] = 0xD;
    fill(&mut nibbles, begin, count as usize, size);
    Some(nibbles)
}

fn places_of(nibble: u8) -> [u8; MOST]
    requires { nibble < 16 }
    ensures long { length result ≡ 39 }
    ensures alike { (n : ℕ) → n ≤ 39 → take n result ≡ replicate n nibble }
    ensures low { (k : ℕ) → slice_index result k < 16 }
{
    [nibble; MOST]
}

#[tactic(auto, using(crate::proofs::CodeLemmas::positive_low, crate::proofs::CodeLemmas::negative_low, crate::proofs::CodeLemmas::unsigned_low, crate::proofs::CodeLemmas::zero_low,))]
fn code(form: &PackedForm, negative: bool, is_zero: bool) -> u8
    requires form { IsPackedForm form.now }
    ensures low { result < 16 }
    ensures code { (z : ℤ) → negative ≡ is_negative z → is_zero ≡ (unsigned_abs z == 0)
        → result ≡ code_in (form_of form.now.kind) form.now.codes z }
{
    match form.kind.form() {
        Form::Unsigned { .. } => form.codes[2],
        _ if is_zero => form.codes[3],
        _ if negative => form.codes[1],
        _ => form.codes[0],
    }
}

// Puts the last digits of a number into the places from `from` up to `to`, and answers whether it has no others.
fn fill(places: &mut [u8], from: usize, to: usize, number: Rest) -> bool
    requires order { from ≤ to }
    requires inside { to ≤ length places.old }
    ensures all { result ≡ nat_lt number (10 ^ (to - from)) }
    ensures filled { places.new ≡ take from places.old ++ (padded_digits (to - from) number ++ drop to places.old) }
    ensures low { (k : ℕ) → slice_index places.old k < 16 → slice_index places.new k < 16 }
{
    let mut rest = number;
    for place in (from..to).rev() {
        places[place] = rest.pop();
    }
    rest.is_zero()
}
