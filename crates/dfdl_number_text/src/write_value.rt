// The unparser of text numbers.
ghost use Rattle.std.specs.Prelude.{◌≡◌, ℕ, ◌+◌, ◌*◌, ◌^◌, ◌<◌, ◌≤◌, ◌==◌, ◌&&◌, not, ◌↔◌, ◌++◌, Some, None, IsErr, IfOk, IfSome, OnErr, length, take, drop, map, option_and_then, unsigned_abs};
ghost use Rattle.dfdl_decimal.specs.Decimal.{DecimalNumber};
ghost use Rattle.dfdl_forms.specs.NumberForms.{IsNumberForm, IsNumberPattern};
ghost use Rattle.dfdl_forms.specs.NumberRooms.{room_of};
ghost use Rattle.dfdl_number_text.specs.Rounding.{rounded};
ghost use Rattle.dfdl_number_text.specs.Writing.{base_digits, base_text, behind_integer, body_text, grouped, integer_digits, least_digits, written_fraction, is_below_zero, number_of_value, pattern_text, places_of, signed_text, size_at, with_separator, writing};
ghost use Rattle.dfdl_number_text.specs.Digits.{digits_at, digit_character};
ghost use Rattle.dfdl_number_text.specs.Written.{IsPut, IsWritten, ShowsNumber};

use crate::digits::{Digits, Groups, digits_of, put_digits, put_plain, without_zeros};
use crate::rounding::{Number, Size, size_of};
use crate::write_text::{put_affix, put_char};
use dfdl_forms::{NoFit, NumberForm, NumberPattern, Point, Rounding};
use dfdl_value::Value;

/// Writes the text of a value in a form, and answers how many characters it has. A value doesn't fit that has no text in
/// the form: one that is no number, that would have to be rounded where that isn't allowed or that has digits behind
/// those of an implied decimal point, and one below zero in another base than 10.
pub fn write(form: &NumberForm, value: &Value, into: &mut [char]) -> Result<usize, NoFit>
    requires form { IsNumberForm form.now }
    requires room { room_of form.now ≤ length into.old }
    ensures no_fit { IsErr result ↔ (writing form.now value.now ≡ None) }
    ensures inside { IfOk result (λ count. count ≤ length into.old) }
    ensures chars { IfOk result (λ count. writing form.now value.now ≡ Some (take count into.new)) }
    ensures rest { IfOk result (λ count. drop count into.new ≡ drop count into.old) }
    ensures err { OnErr result (into.new ≡ into.old) }
{
    match &form.pattern {
        Some(pattern) => write_pattern(form, pattern, value, into),
        None => write_base(form.base, value, into),
    }
}

// Writes plain digits of a base.
fn write_base(base: u8, value: &Value, into: &mut [char]) -> Result<usize, NoFit>
    requires base { 1 < base }
    requires most { base ≤ 36 }
    requires room { 128 ≤ length into.old }
    ensures { IsWritten result (base_text base value.now) into.old into.new }
{
    match value {
        Value::Int(number) if *number >= 0 => Ok(put_base(into, base, number.unsigned_abs())),
        Value::Uns(number) => Ok(put_base(into, base, *number)),
        _ => Err(NoFit),
    }
}

fn put_base(into: &mut [char], base: u8, number: u128) -> usize
    requires base { 1 < base }
    requires most { base ≤ 36 }
    requires room { 128 ≤ length into.old }
    ensures place { result ≡ length (base_digits base number) }
    ensures few { result ≤ 128 }
    ensures put { IsPut into.old 0 (base_digits base number) into.new }
{
    put_plain(into, 0, digits_of(base, 1, number))
}

// Writes a number by a pattern.
fn write_pattern(
    form: &NumberForm,
    pattern: &NumberPattern,
    value: &Value,
    into: &mut [char],
) -> Result<usize, NoFit>
    requires pattern { IsNumberPattern pattern.now }
    requires room { length pattern.now.prefix + length pattern.now.suffix + 128 ≤ length into.old }
    requires negative_room { length pattern.now.negative_prefix + length pattern.now.negative_suffix + 128 ≤ length into.old }
    ensures { IsWritten result (option_and_then (pattern_text form.now pattern.now) (number_of_value value.now)) into.old into.new }
{
    let Some(number) = number_of(value) else {
        return Err(NoFit);
    };
    let mode = mode_of(form.rounding, pattern.point);
    match size_of(number, mode, places_of(pattern)) {
        Some(size) => Ok(put_number(into, form, pattern, number.negative, size)),
        None => Err(NoFit),
    }
}

// The number of a value, if it is one.
fn number_of(value: &Value) -> Option<Number>
    ensures number { ShowsNumber result (number_of_value value.now) }
    ensures few { IfSome result (λ number. 0 < number.scale → number.magnitude < 10 ^ 38) }
{
    match value {
        Value::Int(integer) => Some(Number {
            negative: *integer < 0,
            magnitude: integer.unsigned_abs(),
            scale: 0,
        }),
        Value::Uns(integer) => Some(Number {
            negative: false,
            magnitude: *integer,
            scale: 0,
        }),
        Value::Dec(decimal) => Some(Number {
            negative: decimal.is_negative(),
            magnitude: decimal.magnitude(),
            scale: u16::from(decimal.scale()),
        }),
        _ => None,
    }
}

// With an implied decimal point no number is rounded.
fn mode_of(rounding: Rounding, point: Point) -> Rounding
    ensures { (places : ℕ) → (number : DecimalNumber) → size_at rounding point places number
        ≡ rounded result (is_below_zero number) (unsigned_abs number.mantissa * 10 ^ places) (10 ^ number.scale) }
{
    match point {
        Point::Implied => Rounding::Unnecessary,
        _ => rounding,
    }
}

// How many fraction digits a number is rounded to, or has behind the implied decimal point.
fn places_of(pattern: &NumberPattern) -> u16
    requires pattern { IsNumberPattern pattern.now }
    ensures value { result ≡ places_of pattern.now pattern.now.point }
    ensures few { result ≤ 38 }
{
    match pattern.point {
        Point::Absent => 0,
        Point::Written => pattern.greatest_fraction,
        Point::Implied => pattern.implied,
    }
}

// Puts a number of this size with its sign.
fn put_number(
    into: &mut [char],
    form: &NumberForm,
    pattern: &NumberPattern,
    negative: bool,
    size: Size,
) -> usize
    requires pattern { IsNumberPattern pattern.now }
    requires room { length pattern.now.prefix + length pattern.now.suffix + 128 ≤ length into.old }
    requires negative_room { length pattern.now.negative_prefix + length pattern.now.negative_suffix + 128 ≤ length into.old }
    requires fraction { size.fraction < 10 ^ places_of pattern.now pattern.now.point }
    ensures place { result ≡ length (signed_text form.now pattern.now negative (size.whole * 10 ^ places_of pattern.now pattern.now.point + size.fraction)) }
    ensures inside { result ≤ length into.old }
    ensures put { IsPut into.old 0 (signed_text form.now pattern.now negative (size.whole * 10 ^ places_of pattern.now pattern.now.point + size.fraction)) into.new }
{
    if negative && !is_zero(size) {
        put_between(
            into,
            pattern.negative_prefix.as_slice(),
            pattern.negative_suffix.as_slice(),
            form,
            pattern,
            size,
        )
    } else {
        put_between(
            into,
            pattern.prefix.as_slice(),
            pattern.suffix.as_slice(),
            form,
            pattern,
            size,
        )
    }
}

#[tactic(auto, using(crate::proofs::WriteLemmas::zero_whole, crate::proofs::WriteLemmas::some_whole))]
fn is_zero(size: Size) -> bool
    ensures { (places : ℕ) → result ≡ (size.whole * 10 ^ places + size.fraction == 0) }
{
    if size.whole != 0 {
        return false;
    }
    size.fraction == 0
}

// Puts the body of a number between a prefix and a suffix.
fn put_between(
    into: &mut [char],
    prefix: &[char],
    suffix: &[char],
    form: &NumberForm,
    pattern: &NumberPattern,
    size: Size,
) -> usize
    requires pattern { IsNumberPattern pattern.now }
    requires room { length prefix.now + length suffix.now + 128 ≤ length into.old }
    requires fraction { size.fraction < 10 ^ places_of pattern.now pattern.now.point }
    ensures inside { result ≤ length into.old }
    ensures place { result ≡ length (prefix.now ++ (body_text form.now pattern.now (size.whole * 10 ^ places_of pattern.now pattern.now.point + size.fraction) ++ suffix.now)) }
    ensures put { IsPut into.old 0 (prefix.now ++ (body_text form.now pattern.now (size.whole * 10 ^ places_of pattern.now pattern.now.point + size.fraction) ++ suffix.now)) into.new }
{
    let behind_prefix = put_affix(into, 0, prefix);
    let behind_body = put_body(into, behind_prefix, form, pattern, size);
    put_affix(into, behind_body, suffix)
}

fn put_body(
    into: &mut [char],
    at: usize,
    form: &NumberForm,
    pattern: &NumberPattern,
    size: Size,
) -> usize
    requires pattern { IsNumberPattern pattern.now }
    requires room { at + 128 ≤ length into.old }
    requires fraction { size.fraction < 10 ^ places_of pattern.now pattern.now.point }
    ensures place { result ≡ at + length (body_text form.now pattern.now (size.whole * 10 ^ places_of pattern.now pattern.now.point + size.fraction)) }
    ensures few { result ≤ at + 128 }
    ensures put { IsPut into.old at (body_text form.now pattern.now (size.whole * 10 ^ places_of pattern.now pattern.now.point + size.fraction)) into.new }
{
    let fraction = fraction_of(pattern, size.fraction);
    let least = least_digits(pattern, fraction.count);
    let groups = Groups {
        separator: form.grouping,
        size: pattern.group_size,
    };
    let behind = put_whole(into, at, least, size.whole, groups);
    put_behind(into, behind, form, pattern, fraction)
}

// The fraction digits that are written.
fn fraction_of(pattern: &NumberPattern, fraction: u128) -> Digits
    requires pattern { IsNumberPattern pattern.now }
    ensures base { result.base ≡ 10 }
    ensures few { result.count ≤ 38 }
    ensures digits { (whole : ℕ) → written_fraction pattern.now pattern.now.point (whole * 10 ^ places_of pattern.now pattern.now.point + fraction)
        ≡ map digit_character (digits_at 10 result.count result.number) }
{
    match pattern.point {
        Point::Absent => Digits {
            base: 10,
            count: 0,
            number: 0,
        },
        Point::Written => without_zeros(
            pattern.least_fraction,
            pattern.greatest_fraction,
            fraction,
        ),
        Point::Implied => Digits {
            base: 10,
            count: pattern.implied,
            number: fraction,
        },
    }
}

// How many integer digits are written at least, in front of so many fraction digits.
fn least_digits(pattern: &NumberPattern, fraction: u16) -> u16
    requires pattern { IsNumberPattern pattern.now }
    ensures value { result ≡ least_digits pattern.now fraction }
    ensures few { result ≤ 38 }
{
    if pattern.greatest_integer == 0 && fraction > 0 {
        0
    } else {
        pattern.least_integer.max(1)
    }
}

// Puts integer digits, at least so many.
fn put_whole(into: &mut [char], at: usize, least: u16, whole: u128, groups: Groups) -> usize
    requires least { least ≤ 38 }
    requires room { at + 78 ≤ length into.old }
    ensures place { result ≡ at + length (grouped groups.separator groups.size (integer_digits least whole)) }
    ensures few { result ≤ at + 78 }
    ensures put { IsPut into.old at (grouped groups.separator groups.size (integer_digits least whole)) into.new }
{
    put_digits(into, at, digits_of(10, least, whole), groups)
}

// Puts what stands behind the integer digits.
fn put_behind(
    into: &mut [char],
    at: usize,
    form: &NumberForm,
    pattern: &NumberPattern,
    fraction: Digits,
) -> usize
    requires base { fraction.base ≡ 10 }
    requires digits { fraction.count ≤ 38 }
    requires room { at + 39 ≤ length into.old }
    ensures place { result ≡ at + length (behind_integer form.now pattern.now pattern.now.point (map digit_character (digits_at 10 fraction.count fraction.number))) }
    ensures few { result ≤ at + 39 }
    ensures put { IsPut into.old at (behind_integer form.now pattern.now pattern.now.point (map digit_character (digits_at 10 fraction.count fraction.number))) into.new }
{
    match pattern.point {
        Point::Absent => at,
        Point::Written => put_fraction(into, at, pattern.greatest_fraction, form.decimal, fraction),
        Point::Implied => put_plain(into, at, fraction),
    }
}

// No separator stands where no digit does, but for a pattern without a sign behind it.
fn is_left_away(places: u16, count: u16) -> bool
    ensures { result ≡ (count == 0 && not (places == 0)) }
{
    count == 0 && places != 0
}

// Puts fraction digits behind the decimal separator.
fn put_fraction(into: &mut [char], at: usize, places: u16, decimal: char, digits: Digits) -> usize
    requires base { digits.base ≡ 10 }
    requires few { digits.count ≤ 38 }
    requires room { at + 39 ≤ length into.old }
    ensures place { result ≡ at + length (with_separator places decimal (map digit_character (digits_at 10 digits.count digits.number))) }
    ensures few { result ≤ at + 39 }
    ensures put { IsPut into.old at (with_separator places decimal (map digit_character (digits_at 10 digits.count digits.number))) into.new }
{
    if is_left_away(places, digits.count) {
        return at;
    }
    let behind = put_char(into, at, decimal);
    put_plain(into, behind, digits)
}
