// The reading of decimal numbers.
ghost use Rattle.std.specs.Prelude.{◌≡◌, ◌^◌, ◌<◌, ◌≤◌, length, ◌++◌, Some, IsTrue};
ghost use Rattle.std.specs.Char.{is_ascii_digit};
ghost use Rattle.std.specs.List.{list_all, position, position_or_len, before_first, after_first};
ghost use Rattle.std.specs.Option.{SomeIff};
ghost use Rattle.dfdl_decimal.specs.Decimal.{fixed_of, with_sign};
ghost use Rattle.dfdl_value.specs.ReadValues.{decimal_reading};
ghost use Rattle.dfdl_value.specs.Texts.{is_point, is_zero, decimal_of, number_of};
ghost use Rattle.dfdl_lemmas.specs.Trimmed.{without_trailing};

use super::read::NoValue;
use super::text::{appended, are_digits, is_negative, unsigned_part};
use super::value::Value;
use dfdl_decimal::{Fixed, shortest};

fn first_point(text: &[u8]) -> Option<usize>
    ensures { result ≡ position is_point text.now }
{
    text.iter().position(|byte| *byte == b'.')
}

/// The place of the first point, or the length of the text.
fn point_of(text: &[u8]) -> usize
    ensures place { result ≡ position_or_len is_point text.now }
    ensures bound { result ≤ length text.now }
{
    match first_point(text) {
        Some(at) => at,
        None => text.len(),
    }
}

fn before_point(text: &[u8]) -> &[u8]
    ensures { result.now ≡ before_first is_point text.now }
{
    let at = point_of(text);
    &text[..at]
}

fn after_point(text: &[u8]) -> &[u8]
    ensures { result.now ≡ after_first is_point text.now }
{
    let at = point_of(text);
    if at < text.len() {
        &text[at + 1..]
    } else {
        &text[at..]
    }
}

fn without_trailing_zeros(digits: &[u8]) -> &[u8]
    requires { IsTrue (list_all is_ascii_digit digits.now) }
    ensures kept { result.now ≡ without_trailing is_zero digits.now }
    ensures digits { IsTrue (list_all is_ascii_digit result.now) }
{
    let mut rest = digits;
    while let [others @ .., last] = rest {
        if *last != b'0' {
            break;
        }
        rest = others;
    }
    rest
}

/// The number that the digits write one after the other, if it has 128 bits at most.
fn joined(whole: &[u8], fraction: &[u8]) -> Option<u128>
    requires whole { IsTrue (list_all is_ascii_digit whole.now) }
    requires fraction { IsTrue (list_all is_ascii_digit fraction.now) }
    ensures { SomeIff result
        (number_of (whole.now ++ fraction.now) < 2 ^ 128) (number_of (whole.now ++ fraction.now)) }
{
    let number = appended(0, whole)?;
    appended(number, fraction)
}

/// The number of which these are the digits before and after the point, if `Fixed` has a form for
/// it.
fn fixed_from(negative: bool, whole: &[u8], fraction: &[u8]) -> Option<Fixed>
    requires whole { IsTrue (list_all is_ascii_digit whole.now) }
    requires fraction { IsTrue (list_all is_ascii_digit fraction.now) }
    ensures { result ≡ fixed_of (record {
      mantissa = with_sign negative (number_of (whole.now ++ fraction.now));
      scale = length fraction.now;
    }) }
{
    let kept = without_trailing_zeros(fraction);
    if kept.len() > 255 {
        return None;
    }
    let Some(magnitude) = joined(whole, kept) else {
        return None;
    };
    shortest(negative, magnitude, kept.len() as u32)
}

/// What a text without white space at its ends says of a decimal.
pub(crate) fn read_decimal(text: &[u8]) -> Result<Value, NoValue>
    ensures { result ≡ decimal_reading (decimal_of text.now) }
{
    let whole = before_point(unsigned_part(text));
    let fraction = after_point(unsigned_part(text));
    let is_empty = whole.is_empty() && fraction.is_empty();
    if is_empty || !are_digits(whole) || !are_digits(fraction) {
        return Err(NoValue::NotAValue);
    }
    match fixed_from(is_negative(text), whole, fraction) {
        Some(number) => Ok(Value::Dec(number)),
        None => Err(NoValue::PastType),
    }
}
