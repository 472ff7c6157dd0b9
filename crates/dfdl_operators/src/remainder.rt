// Whole quotients and remainders.
ghost use Rattle.std.specs.Prelude.{◌≡◌, ◌*◌, ◌/◌, ◌%◌, ◌-◌, ◌^◌, ◌<◌, max};
ghost use Rattle.std.specs.Option.{SomeIff};
ghost use Rattle.dfdl_operators.specs.NumberShown.{IsSigned, shown};
ghost use Rattle.dfdl_operators.specs.Operators.{remainder_answer, whole_quotient_answer};

use super::division::{long, parted};
use super::fault::OperatorFault;
use super::held::{value_of, whole_value};
use super::number::{Number, Operands};
use super::zeros::shifted;
use dfdl_value::Value;

/// How often the divisor goes into the dividend, if that has 128 bits at most.
fn times_of(left: Number, right: Number) -> Option<u128>
    requires { 0 < right.magnitude }
    ensures { SomeIff result
        (left.magnitude * 10 ^ right.scale / (right.magnitude * 10 ^ left.scale) < 2 ^ 128)
        (left.magnitude * 10 ^ right.scale / (right.magnitude * 10 ^ left.scale)) }
{
    if left.scale <= right.scale {
        return long(left.magnitude, right.magnitude, right.scale - left.scale).number;
    }
    match shifted(right.magnitude, left.scale - right.scale) {
        Some(divisor) => Some(parted(left.magnitude, divisor).times),
        None => Some(0),
    }
}

pub(crate) fn whole_quotient(of: Operands) -> Result<Value, OperatorFault>
    requires left { IsSigned of.left }
    requires right { IsSigned of.right }
    ensures { result ≡ whole_quotient_answer (shown of.left) (shown of.right) }
{
    if of.right.magnitude == 0 {
        return Err(OperatorFault::NoQuotient);
    }
    match times_of(of.left, of.right) {
        Some(times) => whole_value(of.left.negative != of.right.negative, times).ok_or(
            OperatorFault::PastRange,
        ),
        None => Err(OperatorFault::PastRange),
    }
}

/// What is left of the dividend, at the greater scale of the two.
fn rest_of(left: Number, right: Number) -> u128
    requires { 0 < right.magnitude }
    ensures { let scale = max left.scale right.scale in result
        ≡ left.magnitude * 10 ^ (scale - left.scale)
        % (right.magnitude * 10 ^ (scale - right.scale)) }
{
    if left.scale <= right.scale {
        return long(left.magnitude, right.magnitude, right.scale - left.scale).rest;
    }
    match shifted(right.magnitude, left.scale - right.scale) {
        Some(divisor) => parted(left.magnitude, divisor).rest,
        None => left.magnitude,
    }
}

pub(crate) fn remainder(of: Operands) -> Result<Value, OperatorFault>
    requires { IsSigned of.left }
    ensures { result ≡ remainder_answer (shown of.left) (shown of.right) }
{
    if of.right.magnitude == 0 {
        return Err(OperatorFault::NoQuotient);
    }
    let rest = rest_of(of.left, of.right);
    let scale = of.left.scale.max(of.right.scale);
    value_of(of.left.negative, rest, scale).ok_or(OperatorFault::PastRange)
}
