// The value of a type that a decimal number is.
ghost use Rattle.std.specs.Prelude.{◌≡◌, ◌≢◌, ℕ, ◌^◌, ◌<◌, ◌≤◌, ◌%◌, Some, None};
ghost use Rattle.std.specs.Option.{SomeIff};
ghost use Rattle.dfdl_decimal.specs.Decimal.{fixed_of, with_sign};
ghost use Rattle.dfdl_forms.specs.Types.{form_of};
ghost use Rattle.dfdl_value.specs.Numbers.{number_reading, whole_if_short};
ghost use Rattle.dfdl_value.specs.ReadValues.{fixed_reading};
ghost use Rattle.dfdl_value.specs.WholeShown.{IsWholeOf};

use super::integer::{Whole, signed_of, unsigned_of};
use super::read::NoValue;
use super::value::Value;
use dfdl_decimal::{Digits, shortest, without_zeros};
use dfdl_forms::{Form, Simple};

fn whole_number(negative: bool, magnitude: Option<u128>, scale: usize) -> Result<Whole, NoValue>
    ensures { (n : ℕ) → SomeIff magnitude (n < 2 ^ 128) n
        → IsWholeOf (whole_if_short (record {
          mantissa = with_sign negative n;
          scale = scale;
        })) result }
{
    if scale > 0 {
        return Err(NoValue::NotAValue);
    }
    match magnitude {
        Some(magnitude) => Ok(Whole {
            negative,
            magnitude,
        }),
        None => Err(NoValue::PastType),
    }
}

fn decimal_number(negative: bool, magnitude: Option<u128>, scale: usize) -> Result<Value, NoValue>
    ensures { (n : ℕ) → SomeIff magnitude (n < 2 ^ 128) n → (0 < scale → n % 10 ≢ 0)
        → result ≡ fixed_reading (fixed_of (record {
          mantissa = with_sign negative n;
          scale = scale;
        })) }
{
    if scale > 255 {
        return Err(NoValue::PastType);
    }
    let Some(magnitude) = magnitude else {
        return Err(NoValue::PastType);
    };
    match shortest(negative, magnitude, scale as u32) {
        Some(number) => Ok(Value::Dec(number)),
        None => Err(NoValue::PastType),
    }
}

// Of digits whose last is no zero where some stand behind the point.
fn value_of_short(
    kind: Simple,
    negative: bool,
    magnitude: Option<u128>,
    scale: usize,
) -> Result<Value, NoValue>
    ensures { (n : ℕ) → SomeIff magnitude (n < 2 ^ 128) n → (0 < scale → n % 10 ≢ 0)
        → result ≡ number_reading (form_of kind) (record {
          mantissa = with_sign negative n;
          scale = scale;
        }) }
{
    match kind.form() {
        Form::Signed { bits } => signed_of(bits, whole_number(negative, magnitude, scale)),
        Form::Unsigned { bits } => unsigned_of(bits, whole_number(negative, magnitude, scale)),
        Form::Fixed => decimal_number(negative, magnitude, scale),
        Form::Characters | Form::Truths | Form::Octets => Err(NoValue::NotAValue),
    }
}

/// The value that a number is: `magnitude` is its digits, and `scale` how many of them stand behind
/// the point. No magnitude stands for each of more than 128 bits whose last digit is no zero where
/// some stand behind the point.
pub fn value_of_number(
    kind: Simple,
    negative: bool,
    magnitude: Option<u128>,
    scale: usize,
) -> Result<Value, NoValue>
    ensures held { (n : ℕ) → magnitude ≡ Some n
        → result ≡ number_reading (form_of kind) (record {
          mantissa = with_sign negative n;
          scale = scale;
        }) }
    ensures past { magnitude ≡ None → (n : ℕ) → 2 ^ 128 ≤ n → (0 < scale → n % 10 ≢ 0)
        → result ≡ number_reading (form_of kind) (record {
          mantissa = with_sign negative n;
          scale = scale;
        }) }
{
    match magnitude {
        Some(magnitude) => {
            let digits = without_zeros(Digits { magnitude, scale });
            value_of_short(kind, negative, Some(digits.magnitude), digits.scale)
        }
        None => value_of_short(kind, negative, None, scale),
    }
}
