// The number in zoned digits.
ghost use Rattle.std.specs.Prelude.{◌≡◌, ℕ, ◌+◌, ◌*◌, ◌^◌, ◌<◌, ◌≤◌, length, IfSome};
ghost use Rattle.dfdl_packed.specs.Sizes.{Shows, ShowsSigned, ShowsBehind, ShowsPlain};
ghost use Rattle.dfdl_packed.specs.Zoned.{counted_from, or_else, sign_digit, number_around, zoned_number};

use crate::size::{SHORT, SignedSize, Size};
use dfdl_forms::{ZonedForm, ZonedStyle};

/// The number that zoned digits write.
pub fn number_of(chars: &[char], form: &ZonedForm) -> Option<SignedSize>
    ensures { ShowsSigned result (zoned_number form.now chars.now) }
{
    if chars.is_empty() {
        return None;
    }
    if form.first {
        around(&[], signed_digit(form.style, chars[0]), &chars[1..])
    } else {
        let last = chars.len() - 1;
        around(&chars[..last], signed_digit(form.style, chars[last]), &[])
    }
}

// The digits before and behind the one with the sign.
fn around(before: &[char], signed: Option<(bool, u8)>, behind: &[char]) -> Option<SignedSize>
    requires few { length before.now + length behind.now + 2 < 2 ^ 64 }
    requires digit { IfSome signed (λ found. found.1 < 10) }
    ensures { ShowsSigned result (number_around before.now signed behind.now) }
{
    if before.len() + behind.len() < SHORT {
        return short_around(before, signed, behind);
    }
    long_around(before, signed, behind)
}

// Digits that 64 bits hold.
#[tactic(auto, using(crate::proofs::SizeLemmas::around_fits, crate::proofs::SizeLemmas::around_room, crate::proofs::SizeLemmas::few_fit,))]
fn short_around(before: &[char], signed: Option<(bool, u8)>, behind: &[char]) -> Option<SignedSize>
    requires few { length before.now + length behind.now < 18 }
    requires digit { IfSome signed (λ found. found.1 < 10) }
    ensures { ShowsSigned result (number_around before.now signed behind.now) }
{
    let (negative, digit) = signed?;
    let front = short_plain(0, before)?;
    let number = short_plain(front * 10 + u64::from(digit), behind)?;
    let size = Size::of(number);
    Some(SignedSize { negative, size })
}

// Digits one by one.
fn long_around(before: &[char], signed: Option<(bool, u8)>, behind: &[char]) -> Option<SignedSize>
    requires few { length before.now + length behind.now + 2 < 2 ^ 64 }
    requires digit { IfSome signed (λ found. found.1 < 10) }
    ensures { ShowsSigned result (number_around before.now signed behind.now) }
{
    let (negative, digit) = signed?;
    let front = plain(Size::zero(), before)?;
    let size = plain(front.then(digit), behind)?;
    Some(SignedSize { negative, size })
}

// The number that goes on with plain digits, where 64 bits hold it.
fn short_plain(front: u64, chars: &[char]) -> Option<u64>
    requires { (front + 1) * 10 ^ length chars.now ≤ 10 ^ 18 }
    ensures number { ShowsPlain result front chars.now }
    ensures small { IfSome result (λ number. number + 1 ≤ (front + 1) * 10 ^ length chars.now) }
{
    let mut number = front;
    for char in chars {
        if !char.is_ascii_digit() {
            return None;
        }
        number = number * 10 + u64::from(*char as u32 - 48);
    }
    Some(number)
}

// The size of the number that goes on with plain digits, one by one.
fn plain(front: Size, chars: &[char]) -> Option<Size>
    requires { front.zeros + length chars.now < 2 ^ 64 }
    ensures shows { ShowsBehind result front chars.now }
    ensures zeros { IfSome result (λ size. size.zeros ≤ front.zeros + length chars.now) }
{
    let mut size = front;
    for char in chars {
        if !char.is_ascii_digit() {
            return None;
        }
        size = size.then((*char as u32 - 48) as u8);
    }
    Some(size)
}

// The sign and the digit of the character that carries the sign.
fn signed_digit(style: ZonedStyle, char: char) -> Option<(bool, u8)>
    ensures digit { result ≡ sign_digit style char }
    ensures low { IfSome result (λ found. found.1 < 10) }
{
    let plain = counted('0', 10, 0, false, char);
    match style {
        ZonedStyle::AsciiStandard => or(plain, counted('p', 10, 0, true, char)),
        ZonedStyle::TranslatedEbcdic => {
            let positive = or(
                counted('{', 1, 0, false, char),
                counted('A', 9, 1, false, char),
            );
            let negative = or(
                counted('}', 1, 0, true, char),
                counted('J', 9, 1, true, char),
            );
            or(plain, or(positive, negative))
        }
    }
}

fn or(one: Option<(bool, u8)>, other: Option<(bool, u8)>) -> Option<(bool, u8)>
    requires one { IfSome one (λ found. found.1 < 10) }
    requires other { IfSome other (λ found. found.1 < 10) }
    ensures first { result ≡ or_else one other }
    ensures low { IfSome result (λ found. found.1 < 10) }
{
    match one {
        Some(found) => Some(found),
        None => other,
    }
}

fn counted(first: char, count: u32, digit: u8, negative: bool, char: char) -> Option<(bool, u8)>
    requires { count + digit ≤ 10 }
    ensures digit { result ≡ counted_from first count digit negative char }
    ensures low { IfSome result (λ found. found.1 < 10) }
{
    let (first, code) = (first as u32, char as u32);
    if first <= code && code < first + count {
        Some((negative, (code - first) as u8 + digit))
    } else {
        None
    }
}
