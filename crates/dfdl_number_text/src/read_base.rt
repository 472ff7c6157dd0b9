// Plain digits of a base.
ghost use Rattle.std.specs.Prelude.{◌≡◌, ℕ, ◌+◌, ◌*◌, ◌<◌, ◌≤◌, ◌^◌, nat_lt, fold, IsTrue};
ghost use Rattle.std.specs.Char.{digit_value};
ghost use Rattle.std.specs.List.{list_all};
ghost use Rattle.std.specs.Option.{SomeIff};
ghost use Rattle.dfdl_forms.specs.Types.{form_of};
ghost use Rattle.dfdl_number_text.specs.NumberReading.{base_number as base_number_of, base_reading, whole_if};
ghost use Rattle.dfdl_number_text.specs.ReadShown.{Shows};

use crate::fault::NumberFault;
use crate::read_number::{Number, value_of};
use dfdl_value::{Form, Simple, Value};

fn are_digits(base: u32, text: &[char]) -> bool
    requires low { 2 ≤ base }
    requires high { base ≤ 36 }
    ensures { result ≡ list_all (λ c. nat_lt (digit_value c) base) text.now }
{
    text.iter().all(|c| c.is_digit(base))
}

/// The number that digits of a base write, if it has 128 bits at most.
fn held(base: u32, digits: &[char]) -> Option<u128>
    requires low { 2 ≤ base }
    requires high { base ≤ 36 }
    requires digits { IsTrue (list_all (λ c. nat_lt (digit_value c) base) digits.now) }
    ensures { SomeIff result (fold (λ (n : ℕ) (c : ℕ). n * base + digit_value c) 0 digits.now < 2 ^ 128) (fold (λ (n : ℕ) (c : ℕ). n * base + digit_value c) 0 digits.now) }
{
    let mut number: u128 = 0;
    for c in digits {
        let digit = c.to_digit(base)?;
        let shifted = number.checked_mul(u128::from(base))?;
        number = shifted.checked_add(u128::from(digit))?;
    }
    Some(number)
}

fn base_number(base: u32, text: &[char]) -> Option<Number>
    requires low { 2 ≤ base }
    requires high { base ≤ 36 }
    ensures { Shows result (whole_if (base_number_of base text.now)) }
{
    if text.is_empty() || !are_digits(base, text) {
        return None;
    }
    Some(Number {
        negative: false,
        magnitude: held(base, text),
        scale: 0,
    })
}

/// The value that plain digits of a base are read as.
pub fn read_in_base(base: u8, kind: Simple, text: &[char]) -> Result<Value, NumberFault>
    requires low { 2 ≤ base }
    requires high { base ≤ 36 }
    ensures { result ≡ base_reading base (form_of kind) text.now }
{
    match kind.form() {
        Form::Signed { .. } | Form::Unsigned { .. } => value_of(
            kind,
            base_number(u32::from(base), text),
        ),
        _ => Err(NumberFault::NotANumber),
    }
}
