// Decimal numbers of at most 38 digits, of which at most 255 are fraction digits. Each number has
// one form.
ghost use Rattle.std.specs.Prelude.{◌≡◌, ◌≢◌, ◌^◌, ◌%◌, ◌<◌, Bool};
ghost use Rattle.dfdl_decimal.specs.Decimal.{fixed_of, shortest_from, with_sign};

use std::marker::Model;
use thiserror::Error;

/// The number `mantissa` divided by ten to the power of `scale`.
#[derive(Clone, Copy, Debug, PartialEq, Eq)]
pub struct Fixed {
    mantissa: i128,
    scale: u8,
}

/// No `Fixed` has the number.
#[derive(Clone, Copy, Debug, PartialEq, Eq, Error)]
#[error("too many digits")]
pub struct Overflow;

/// Why a division has no result.
#[derive(Clone, Copy, Debug, PartialEq, Eq, Error)]
pub enum DivFault {
    #[error("division by zero")]
    Zero,
    /// The quotient takes more than 18 digits after its point.
    #[error("a quotient with too many digits after its point")]
    Inexact,
    /// No `Fixed` has the quotient.
    #[error("too many digits")]
    Overflow,
}

impl Model for Fixed {
    ghost use Rattle.dfdl_decimal.specs.Decimal.{DecimalNumber, IsFixed};

    ghost Value = { DecimalNumber };

    ghost view = { λ f. record { mantissa = f.mantissa; scale = f.scale } };

    ghost invariant = { λ f. IsFixed (record { mantissa = f.mantissa; scale = f.scale }) };

    ghost inverse = { λ d. record { mantissa = d.mantissa; scale = d.scale } };
}

impl Fixed {
    ghost use Rattle.std.specs.Prelude.{◌≡◌, ◌<◌, ◌^◌, pos, int_lt, unsigned_abs};
    ghost use Rattle.dfdl_decimal.specs.Decimal.{IsFixed};

    pub fn new(mantissa: i128, scale: u8) -> Fixed
        requires { IsFixed (record { mantissa = mantissa; scale = scale }) }
        ensures { result ≡ record { mantissa = mantissa; scale = scale } }
    {
        Fixed { mantissa, scale }
    }

    pub fn mantissa(&self) -> i128
        ensures value { result ≡ self.now.mantissa }
        ensures fixed { IsFixed self.now }
    {
        self.mantissa
    }

    pub fn is_negative(&self) -> bool
        ensures { result ≡ int_lt self.now.mantissa (pos 0) }
    {
        self.mantissa < 0
    }

    /// The mantissa without its sign.
    pub fn magnitude(&self) -> u128
        ensures value { result ≡ unsigned_abs self.now.mantissa }
        ensures digits { result < 10 ^ 38 }
    {
        self.mantissa.unsigned_abs()
    }

    /// How many digits stand after the point.
    pub fn scale(&self) -> u8
        ensures value { result ≡ self.now.scale }
        ensures fixed { IsFixed self.now }
    {
        self.scale
    }
}

/// Ten to the power of the greatest number of digits.
const DIGITS: u128 = 100_000_000_000_000_000_000_000_000_000_000_000_000;

fn signed(negative: bool, magnitude: u128) -> i128
    requires { magnitude < 10 ^ 38 }
    ensures { result ≡ with_sign negative magnitude }
{
    if negative {
        -(magnitude as i128)
    } else {
        magnitude as i128
    }
}

/// The digits of a number, of which `scale` stand behind the point.
#[derive(Clone, Copy, Debug, PartialEq, Eq)]
pub struct Digits {
    pub magnitude: u128,
    pub scale: usize,
}

// At most 38 zeros are dropped.
fn without_some_zeros(digits: Digits) -> Digits
    requires { 0 < digits.magnitude }
    ensures same { (b : Bool) → shortest_from result.scale (with_sign b result.magnitude)
        ≡ shortest_from digits.scale (with_sign b digits.magnitude) }
    ensures last { 0 < result.scale → result.magnitude % 10 ≢ 0 }
{
    let mut magnitude = digits.magnitude;
    let mut scale = digits.scale;
    while scale > 0 && magnitude % 10 == 0 {
        magnitude /= 10;
        scale -= 1;
    }
    Digits { magnitude, scale }
}

/// The digits without the zeros at the end of those behind the point. It takes no more than 38
/// steps.
pub fn without_zeros(digits: Digits) -> Digits
    ensures same { (b : Bool) → shortest_from result.scale (with_sign b result.magnitude)
        ≡ shortest_from digits.scale (with_sign b digits.magnitude) }
    ensures last { 0 < result.scale → result.magnitude % 10 ≢ 0 }
{
    if digits.magnitude == 0 {
        return Digits {
            magnitude: 0,
            scale: 0,
        };
    }
    without_some_zeros(digits)
}

/// The form that `Fixed` has for digits whose last is no zero where some stand behind the point.
fn held(negative: bool, digits: Digits) -> Option<Fixed>
    requires { 0 < digits.scale → digits.magnitude % 10 ≢ 0 }
    ensures { result ≡ fixed_of (record {
      mantissa = with_sign negative digits.magnitude;
      scale = digits.scale;
    }) }
{
    if digits.magnitude >= DIGITS {
        return None;
    }
    if digits.scale > 255 {
        return None;
    }
    Some(Fixed::new(signed(negative, digits.magnitude), digits.scale as u8))
}

/// The form that `Fixed` has for a number, if it has one.
pub fn shortest(negative: bool, magnitude: u128, scale: u32) -> Option<Fixed>
    ensures { result
        ≡ fixed_of (record { mantissa = with_sign negative magnitude; scale = scale }) }
{
    let digits = Digits {
        magnitude,
        scale: scale as usize,
    };
    held(negative, without_zeros(digits))
}
