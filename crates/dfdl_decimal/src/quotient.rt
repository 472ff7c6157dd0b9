// Exact quotients of decimal numbers.
ghost use Rattle.std.specs.Prelude.{ℕ, ◌≡◌, ◌≢◌, ◌+◌, ◌*◌, ◌%◌, ◌^◌, ◌<◌, ◌≤◌};
ghost use Rattle.std.specs.Option.{SomeIff};
ghost use Rattle.dfdl_decimal.specs.Arithmetic.{exact_quotient, quotient_answer};
ghost use Rattle.dfdl_decimal.specs.Decimal.{fixed_of, with_sign};

use super::arithmetic::shifted;
use super::division::divide;
use super::fixed::{DivFault, Fixed, shortest};

/// The form that `Fixed` has for a number with so many zeros behind it, divided by ten to the power
/// of 18.
fn raised(negative: bool, number: Option<u128>, zeros: u32) -> Option<Fixed>
    ensures { (n : ℕ) → SomeIff number (n < 2 ^ 128) n → (2 ^ 128 ≤ n → n % 10 ≢ 0)
        → result ≡ fixed_of (record {
          mantissa = with_sign negative (n * 10 ^ zeros);
          scale = 18;
        }) }
{
    let magnitude = number?;
    if zeros <= 18 {
        return shortest(negative, magnitude, 18 - zeros);
    }
    let longer = shifted(magnitude, zeros - 18)?;
    shortest(negative, longer, 0)
}

/// A division of magnitudes, and whether its quotient is negative.
#[derive(Clone, Copy)]
pub(crate) struct Division {
    pub(crate) negative: bool,
    pub(crate) dividend: u128,
    pub(crate) divisor: u128,
}

/// The quotient, where zeros are put behind the dividend.
fn long_quotient(of: Division, zeros: u32) -> Result<Fixed, DivFault>
    requires some { 0 < of.divisor }
    requires divisor { of.divisor < 10 ^ 38 }
    ensures { result
        ≡ quotient_answer (exact_quotient of.negative (of.dividend * 10 ^ zeros) of.divisor) }
{
    match divide(of.dividend, of.divisor, zeros) {
        Some(found) => {
            raised(of.negative, found.number, zeros - found.zeros).ok_or(DivFault::Overflow)
        }
        None => Err(DivFault::Inexact),
    }
}

/// The quotient, where zeros are put behind the divisor.
fn short_quotient(of: Division, zeros: u32) -> Result<Fixed, DivFault>
    requires some { 0 < of.divisor }
    requires dividend { of.dividend < 10 ^ 38 }
    ensures { result
        ≡ quotient_answer (exact_quotient of.negative of.dividend (of.divisor * 10 ^ zeros)) }
{
    let dividend = of.dividend;
    if dividend == 0 {
        return shortest(of.negative, 0, 18).ok_or(DivFault::Overflow);
    }
    let Some(longer) = shifted(of.divisor, zeros) else {
        return Err(DivFault::Inexact);
    };
    if longer > dividend {
        return Err(DivFault::Inexact);
    }
    if dividend % longer != 0 {
        return Err(DivFault::Inexact);
    }
    shortest(of.negative, dividend / longer, 18).ok_or(DivFault::Overflow)
}

/// The quotient, where so many zeros are put behind the dividend and so many behind the divisor.
pub(crate) fn quotient_at(of: Division, up: u32, down: u32) -> Result<Fixed, DivFault>
    requires some { 0 < of.divisor }
    requires dividend { of.dividend < 10 ^ 38 }
    requires divisor { of.divisor < 10 ^ 38 }
    ensures { result ≡ quotient_answer
        (exact_quotient of.negative (of.dividend * 10 ^ up) (of.divisor * 10 ^ down)) }
{
    if down <= up {
        long_quotient(of, up - down)
    } else {
        short_quotient(of, down - up)
    }
}
