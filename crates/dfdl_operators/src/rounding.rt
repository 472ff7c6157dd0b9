// The other sign, none, and whole numbers beside a number.
ghost use Rattle.std.specs.Prelude.{◌≡◌, neg_ℤ, pos, unsigned_abs};
ghost use Rattle.dfdl_decimal.specs.Arithmetic.{negated_of};
ghost use Rattle.dfdl_operators.specs.Numbers.{held};
ghost use Rattle.dfdl_operators.specs.NumberShown.{shown};
ghost use Rattle.dfdl_operators.specs.Operators.{floor_of};

use super::held::{value_of, whole_value};
use super::number::Number;
use super::zeros::{cut, cut_up};
use dfdl_value::Value;

pub(crate) fn opposite(number: Number) -> Option<Value>
    ensures { result ≡ held (negated_of (shown number)) }
{
    value_of(!number.negative, number.magnitude, number.scale)
}

pub(crate) fn magnitude(number: Number) -> Option<Value>
    ensures { let d = shown number in result
        ≡ held (record { mantissa = pos (unsigned_abs d.mantissa); scale = d.scale }) }
{
    value_of(false, number.magnitude, number.scale)
}

/// The greatest whole number that isn't above.
pub(crate) fn lower(number: Number) -> Option<Value>
    ensures { result ≡ held (record { mantissa = floor_of (shown number); scale = 0 }) }
{
    if number.negative {
        whole_value(true, cut_up(number.magnitude, number.scale))
    } else {
        whole_value(false, cut(number.magnitude, number.scale))
    }
}

/// The least whole number that isn't below.
pub(crate) fn upper(number: Number) -> Option<Value>
    ensures { result
        ≡ held (record { mantissa = neg_ℤ (floor_of (negated_of (shown number))); scale = 0 }) }
{
    if number.negative {
        whole_value(true, cut(number.magnitude, number.scale))
    } else {
        whole_value(false, cut_up(number.magnitude, number.scale))
    }
}
