// The zoned digits of a number.
ghost use Rattle.std.specs.Prelude.{◌≡◌, ℕ, ℤ, ◌+◌, ◌^◌, ◌<◌, ◌≤◌, ◌++◌, max, map, length, take, drop, slice_index, slice_set, unsigned_abs, ◌-◌, Some, if◌then◌else◌};
ghost use Rattle.dfdl_forms.specs.Types.{form_of};
ghost use Rattle.dfdl_packed.specs.Digits.{padded_digits, digit_count};
ghost use Rattle.dfdl_packed.specs.Packed.{is_negative};
ghost use Rattle.dfdl_packed.specs.Zoned.{plain_char, sign_char, char_in, signed_chars, chars_if};
ghost use Rattle.dfdl_forms.specs.declared.packed.ZonedStyle.TheVariants.{AsciiStandard, TranslatedEbcdic};

use crate::scaled::{Rest, Scaled};
use dfdl_forms::{ZonedForm, ZonedStyle};
use dfdl_value::{Form, Simple};

/// Writes a number as at least as many digits as the form's width, and answers how many characters these are.
pub fn put_signed(number: Scaled, form: &ZonedForm, into: &mut [char]) -> usize
    requires small { number.size < 10 ^ 80 }
    requires width { form.now.width ≤ length into.old }
    requires room { 80 ≤ length into.old }
    ensures inside { result ≤ length into.old }
    ensures chars { (z : ℤ) → number.negative ≡ is_negative z → number.size ≡ unsigned_abs z
        → chars_if form.now (Some z) ≡ Some (take result into.new) }
    ensures rest { drop result into.new ≡ drop result into.old }
{
    let negative = number.negative;
    let count = count_of(&number.size, form.width);
    fill(into, count, number.size);
    put_sign(into, sign_place(form.first, count), form, negative);
    count
}

// How many digits are written.
fn count_of(size: &Rest, width: u32) -> usize
    requires { size.now < 10 ^ 80 }
    ensures count { result ≡ max width (digit_count 79 size.now) }
    ensures some { 1 ≤ result }
    ensures few { result ≤ max width 80 }
{
    (width as usize).max(size.len() as usize)
}

fn sign_place(first: bool, count: usize) -> usize
    requires { 1 ≤ count }
    ensures place { result ≡ (if first then 0 else count - 1) }
    ensures inside { result < count }
{
    if first { 0 } else { count - 1 }
}

// Puts the sign into a plain digit.
fn put_sign(chars: &mut [char], place: usize, form: &ZonedForm, negative: bool)
    requires inside { place < length chars.old }
    requires least { 48 ≤ slice_index chars.old place }
    requires most { slice_index chars.old place < 58 }
    ensures { chars.new ≡ slice_set chars.old place
        (char_in (form_of form.now.kind) form.now.style negative (slice_index chars.old place - 48)) }
{
    let digit = (chars[place] as u32 - 48) as u8;
    chars[place] = signed(form.kind, form.style, negative, digit);
}

// Puts the last digits of a number into the first places.
fn fill(places: &mut [char], count: usize, number: Rest)
    requires { count ≤ length places.old }
    ensures filled { places.new ≡ map plain_char (padded_digits count number) ++ drop count places.old }
    ensures least { (k : ℕ) → k < count → 48 ≤ slice_index places.new k }
    ensures most { (k : ℕ) → k < count → slice_index places.new k < 58 }
{
    let mut rest = number;
    for place in (0..count).rev() {
        places[place] = char::from(48 + rest.pop());
    }
}

// The character of a digit that carries the sign.
fn signed(kind: Simple, style: ZonedStyle, negative: bool, digit: u8) -> char
    requires { digit < 10 }
    ensures { result ≡ char_in (form_of kind) style negative digit }
{
    let code = match (kind.form(), style) {
        (Form::Unsigned { .. }, _) => 48 + digit,
        (_, ZonedStyle::AsciiStandard) => ascii(negative, digit),
        (_, ZonedStyle::TranslatedEbcdic) => ebcdic(negative, digit),
    };
    char::from(code)
}

fn ascii(negative: bool, digit: u8) -> u8
    requires { digit < 10 }
    ensures { result ≡ sign_char AsciiStandard negative digit }
{
    if negative { 112 + digit } else { 48 + digit }
}

fn ebcdic(negative: bool, digit: u8) -> u8
    requires { digit < 10 }
    ensures { result ≡ sign_char TranslatedEbcdic negative digit }
{
    match (negative, digit) {
        (false, 0) => 123,
        (true, 0) => 125,
        (false, digit) => 64 + digit,
        (true, digit) => 73 + digit,
    }
}
