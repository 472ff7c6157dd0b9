// The integer that a value is written as.
ghost use Rattle.std.specs.Prelude.{◌≡◌, ◌+◌, ◌*◌, ◌/◌, ◌%◌, ◌^◌, ◌<◌, ◌≤◌, nat_lt, length, IfSome, false, unsigned_abs, ◌==◌, ◌*ℤ◌, pos};
ghost use Rattle.dfdl_forms.specs.Types.{form_of};
ghost use Rattle.dfdl_packed.specs.Digits.{padded_digits};
ghost use Rattle.dfdl_packed.specs.Packed.{is_negative};
ghost use Rattle.dfdl_packed.specs.Typed.{integer_in};
ghost use Rattle.dfdl_packed.specs.Written.{ShowsInteger, HasDigits};

use dfdl_value::{Form, Simple, Value};
use std::marker::Model;

/// A number with zeros behind it.
#[derive(Drop)]
pub struct Rest {
    number: u128,
    zeros: u8,
}

impl Model for Rest {
    ghost use Rattle.std.specs.Prelude.{ℕ, ◌*◌, ◌^◌};

    ghost Value = { ℕ };

    ghost view = { λ r. r.number * 10 ^ r.zeros };
}

/// A sign and a size.
#[derive(Drop)]
pub struct Scaled {
    pub negative: bool,
    pub size: Rest,
}

/// The integer that a value times ten to the power of `point` is, if it is one.
pub fn integer_of(value: &Value, kind: Simple, point: u8) -> Option<Scaled>
    ensures integer { ShowsInteger result (integer_in (form_of kind) point value.now) }
    ensures small { IfSome result (λ number. number.size < 10 ^ (39 + point)) }
{
    match (kind.form(), value) {
        (Form::Signed { .. }, Value::Int(integer)) => Some(signed(*integer, point)),
        (Form::Unsigned { .. }, Value::Uns(number)) => Some(unsigned(*number, point)),
        (Form::Fixed, Value::Dec(decimal)) if decimal.scale() <= point => {
            Some(signed(decimal.mantissa(), point - decimal.scale()))
        }
        _ => None,
    }
}

fn signed(integer: i128, zeros: u8) -> Scaled
    ensures negative { result.negative ≡ is_negative (integer *ℤ pos (10 ^ zeros)) }
    ensures size { result.size ≡ unsigned_abs (integer *ℤ pos (10 ^ zeros)) }
    ensures small { result.size < 10 ^ (39 + zeros) }
{
    Scaled {
        negative: integer < 0,
        size: Rest {
            number: integer.unsigned_abs(),
            zeros,
        },
    }
}

fn unsigned(number: u128, zeros: u8) -> Scaled
    ensures negative { result.negative ≡ false }
    ensures size { result.size ≡ number * 10 ^ zeros }
    ensures small { result.size < 10 ^ (39 + zeros) }
{
    Scaled {
        negative: false,
        size: Rest { number, zeros },
    }
}

impl Rest {
    /// Takes its last digit off.
    pub fn pop(&mut self) -> u8
        ensures digit { result ≡ self.old % 10 }
        ensures rest { self.new ≡ self.old / 10 }
    {
        if self.zeros > 0 {
            self.zeros -= 1;
            return 0;
        }
        let (rest, digit) = cut(self.number);
        self.number = rest;
        digit
    }

    /// How many digits it has.
    pub fn len(&self) -> u32
        ensures digits { HasDigits self.now result }
        ensures few { result < 300 }
    {
        if self.number == 0 {
            return 1;
        }
        digits_of(self.number) + u32::from(self.zeros)
    }

    pub fn is_zero(&self) -> bool
        ensures { result ≡ (self.now == 0) }
    {
        self.number == 0
    }
}

// A number without its last digit, and that. What 64 bits hold is divided there.
fn cut(number: u128) -> (u128, u8)
    ensures rest { result.0 ≡ number / 10 }
    ensures digit { result.1 ≡ number % 10 }
{
    match u64::try_from(number) {
        Ok(short) => (u128::from(short / 10), (short % 10) as u8),
        Err(_) => (number / 10, (number % 10) as u8),
    }
}

fn digits_of(number: u128) -> u32
    ensures digits { HasDigits number result }
    ensures few { result ≤ 39 }
{
    let mut rest = number;
    let mut len = 1;
    while rest >= 10 {
        rest = cut(rest).0;
        len += 1;
    }
    len
}
