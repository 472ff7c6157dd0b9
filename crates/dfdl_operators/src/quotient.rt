// Exact quotients.
ghost use Rattle.std.specs.Prelude.{ℕ, ◌≡◌, ◌≢◌, ◌*◌, ◌%◌, ◌^◌, ◌<◌, ◌≤◌};
ghost use Rattle.std.specs.Option.{SomeIff};
ghost use Rattle.dfdl_decimal.specs.Arithmetic.{exact_quotient};
ghost use Rattle.dfdl_decimal.specs.Decimal.{with_sign};
ghost use Rattle.dfdl_operators.specs.Numbers.{held};
ghost use Rattle.dfdl_operators.specs.NumberShown.{IsShort, IsSigned, shown};
ghost use Rattle.dfdl_operators.specs.Operators.{exactly, quotient_answer};

use super::division::exact;
use super::fault::OperatorFault;
use super::held::value_of;
use super::number::Operands;
use super::zeros::shifted;
use dfdl_value::Value;

/// The value that carries a number with so many zeros behind it, divided by ten to the power of 18.
fn raised(negative: bool, number: Option<u128>, zeros: u32) -> Option<Value>
    ensures { (n : ℕ) → SomeIff number (n < 2 ^ 128) n → (2 ^ 128 ≤ n → n % 10 ≢ 0)
        → result ≡ held (record {
          mantissa = with_sign negative (n * 10 ^ zeros);
          scale = 18;
        }) }
{
    let magnitude = number?;
    if zeros <= 18 {
        return value_of(negative, magnitude, 18 - zeros);
    }
    let longer = shifted(magnitude, zeros - 18)?;
    value_of(negative, longer, 0)
}

/// A division of magnitudes, and whether its quotient is negative.
#[derive(Clone, Copy)]
struct Fraction {
    negative: bool,
    dividend: u128,
    divisor: u128,
}

/// The quotient, where zeros are put behind the dividend.
fn long_quotient(of: Fraction, zeros: u32) -> Result<Value, OperatorFault>
    requires { 0 < of.divisor }
    ensures { result ≡ exactly (exact_quotient of.negative (of.dividend * 10 ^ zeros) of.divisor) }
{
    match exact(of.dividend, of.divisor, zeros) {
        Some(found) => {
            raised(of.negative, found.number, zeros - found.zeros).ok_or(OperatorFault::PastRange)
        }
        None => Err(OperatorFault::NoQuotient),
    }
}

/// The quotient, where zeros are put behind the divisor.
fn short_quotient(of: Fraction, zeros: u32) -> Result<Value, OperatorFault>
    requires { 0 < of.divisor }
    ensures { result ≡ exactly (exact_quotient of.negative of.dividend (of.divisor * 10 ^ zeros)) }
{
    let dividend = of.dividend;
    if dividend == 0 {
        return value_of(of.negative, 0, 18).ok_or(OperatorFault::PastRange);
    }
    let Some(longer) = shifted(of.divisor, zeros) else {
        return Err(OperatorFault::NoQuotient);
    };
    if longer > dividend {
        return Err(OperatorFault::NoQuotient);
    }
    if dividend % longer != 0 {
        return Err(OperatorFault::NoQuotient);
    }
    value_of(of.negative, dividend / longer, 18).ok_or(OperatorFault::PastRange)
}

/// The quotient, where so many zeros are put behind the dividend and so many behind the divisor.
fn quotient_at(of: Fraction, up: u32, down: u32) -> Result<Value, OperatorFault>
    requires { 0 < of.divisor }
    ensures { result ≡ exactly
        (exact_quotient of.negative (of.dividend * 10 ^ up) (of.divisor * 10 ^ down)) }
{
    if down <= up {
        long_quotient(of, up - down)
    } else {
        short_quotient(of, down - up)
    }
}

pub(crate) fn quotient(of: Operands) -> Result<Value, OperatorFault>
    requires left { IsSigned of.left }
    requires right { IsSigned of.right }
    requires short { IsShort of.right }
    ensures { result ≡ quotient_answer (shown of.left) (shown of.right) }
{
    if of.right.magnitude == 0 {
        return Err(OperatorFault::NoQuotient);
    }
    let fraction = Fraction {
        negative: of.left.negative != of.right.negative,
        dividend: of.left.magnitude,
        divisor: of.right.magnitude,
    };
    quotient_at(fraction, of.right.scale + 18, of.left.scale)
}
