// The reading of whole numbers.
ghost use Rattle.std.specs.Prelude.{◌≡◌, ℕ, ◌-◌, ◌^◌, ◌≤◌, Option, Some, None, ℤ, pos, neg_ℤ, IfOk, IsErrOf, unsigned_abs};
ghost use Rattle.dfdl_value.specs.Texts.{integer_of};
ghost use Rattle.dfdl_decimal.specs.Decimal.{with_sign};
ghost use Rattle.dfdl_value.specs.ReadValues.{signed_reading, unsigned_reading};
ghost use Rattle.dfdl_value.specs.WholeShown.{IsWholeOf};

use super::read::NoValue;
use super::text::{appended, is_negative, is_numeral, unsigned_part};
use super::value::Value;

/// A whole number as its text writes it.
#[derive(Clone, Copy)]
pub(crate) struct Whole {
    pub(crate) negative: bool,
    pub(crate) magnitude: u128,
}

fn read_whole(text: &[u8]) -> Result<Whole, NoValue>
    ensures { IsWholeOf (integer_of text.now) result }
{
    let digits = unsigned_part(text);
    if !is_numeral(digits) {
        return Err(NoValue::NotAValue);
    }
    match appended(0, digits) {
        Some(magnitude) => Ok(Whole {
            negative: is_negative(text),
            magnitude,
        }),
        None => Err(NoValue::PastType),
    }
}

/// Half of the numbers that so many bits hold.
fn half_of(bits: u32) -> u128
    requires some { 1 ≤ bits }
    requires few { bits ≤ 128 }
    ensures value { result ≡ 2 ^ (bits - 1) }
    ensures some { 1 ≤ result }
    ensures few { result ≤ 2 ^ 127 }
{
    1 << (bits - 1)
}

fn negated(magnitude: u128) -> i128
    requires { magnitude ≤ 2 ^ 127 }
    ensures { result ≡ neg_ℤ (pos magnitude) }
{
    if magnitude == 0 {
        0
    } else {
        -1 - (magnitude - 1) as i128
    }
}

/// The value of a signed type of so many bits.
fn signed_value(bits: u32, number: Whole) -> Result<Value, NoValue>
    requires some { 1 ≤ bits }
    requires few { bits ≤ 128 }
    ensures { result ≡ signed_reading bits (Some (with_sign number.negative number.magnitude)) }
{
    let half = half_of(bits);
    let magnitude = number.magnitude;
    if number.negative {
        if magnitude > half {
            return Err(NoValue::PastType);
        }
        Ok(Value::Int(negated(magnitude)))
    } else {
        if magnitude >= half {
            return Err(NoValue::PastType);
        }
        Ok(Value::Int(magnitude as i128))
    }
}

/// The value of an unsigned type of so many bits.
fn unsigned_value(bits: u32, number: Whole) -> Result<Value, NoValue>
    requires some { 1 ≤ bits }
    requires few { bits ≤ 128 }
    ensures { result ≡ unsigned_reading bits (Some (with_sign number.negative number.magnitude)) }
{
    let half = half_of(bits);
    let magnitude = number.magnitude;
    if number.negative {
        if magnitude > 0 {
            return Err(NoValue::PastType);
        }
        Ok(Value::Uns(0))
    } else {
        if magnitude > half - 1 + half {
            return Err(NoValue::PastType);
        }
        Ok(Value::Uns(magnitude))
    }
}

/// What a whole number says of a signed type of so many bits.
pub(crate) fn signed_of(bits: u32, whole: Result<Whole, NoValue>) -> Result<Value, NoValue>
    requires some { 1 ≤ bits }
    requires few { bits ≤ 128 }
    ensures { (number : Option ℤ) → IsWholeOf number whole → result ≡ signed_reading bits number }
{
    match whole {
        Ok(number) => signed_value(bits, number),
        Err(why) => Err(why),
    }
}

/// What a whole number says of an unsigned type of so many bits.
pub(crate) fn unsigned_of(bits: u32, whole: Result<Whole, NoValue>) -> Result<Value, NoValue>
    requires some { 1 ≤ bits }
    requires few { bits ≤ 128 }
    ensures { (number : Option ℤ) → IsWholeOf number whole → result ≡ unsigned_reading bits number }
{
    match whole {
        Ok(number) => unsigned_value(bits, number),
        Err(why) => Err(why),
    }
}

/// What a text without white space at its ends says of a signed type of so many bits.
pub(crate) fn read_signed(bits: u32, text: &[u8]) -> Result<Value, NoValue>
    requires some { 1 ≤ bits }
    requires few { bits ≤ 128 }
    ensures { result ≡ signed_reading bits (integer_of text.now) }
{
    signed_of(bits, read_whole(text))
}

/// What a text without white space at its ends says of an unsigned type of so many bits.
pub(crate) fn read_unsigned(bits: u32, text: &[u8]) -> Result<Value, NoValue>
    requires some { 1 ≤ bits }
    requires few { bits ≤ 128 }
    ensures { result ≡ unsigned_reading bits (integer_of text.now) }
{
    unsigned_of(bits, read_whole(text))
}
