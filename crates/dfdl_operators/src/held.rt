// The value that carries a number.
ghost use Rattle.std.specs.Prelude.{◌≡◌, ◌^◌, ◌<◌, ◌≤◌, neg_ℤ, pos};
ghost use Rattle.dfdl_decimal.specs.Decimal.{with_sign};
ghost use Rattle.dfdl_operators.specs.Numbers.{held, held_whole};

use dfdl_decimal::{Digits, shortest, without_zeros};
use dfdl_value::Value;

/// The least magnitude past the signed whole numbers that aren't negative.
const HALF: u128 = 170_141_183_460_469_231_731_687_303_715_884_105_728;

fn negated(magnitude: u128) -> i128
    requires { magnitude ≤ 2 ^ 127 }
    ensures { result ≡ neg_ℤ (pos magnitude) }
{
    if magnitude == 0 {
        0
    } else {
        -1 - (magnitude - 1) as i128
    }
}

/// The value that carries a whole number, if one does.
pub(crate) fn whole_value(negative: bool, magnitude: u128) -> Option<Value>
    ensures { result ≡ held_whole (with_sign negative magnitude) }
{
    if negative {
        if magnitude > HALF {
            return None;
        }
        return Some(Value::Int(negated(magnitude)));
    }
    if magnitude < HALF {
        return Some(Value::Int(magnitude as i128));
    }
    Some(Value::Uns(magnitude))
}

/// The value that carries a number, if one does. A whole number takes no loop over digits.
pub(crate) fn value_of(negative: bool, magnitude: u128, scale: u32) -> Option<Value>
    ensures { result ≡ held (record { mantissa = with_sign negative magnitude; scale = scale }) }
{
    if scale == 0 {
        return whole_value(negative, magnitude);
    }
    let digits = without_zeros(Digits {
        magnitude,
        scale: scale as usize,
    });
    if digits.scale == 0 {
        return whole_value(negative, digits.magnitude);
    }
    match shortest(negative, magnitude, scale) {
        Some(number) => Some(Value::Dec(number)),
        None => None,
    }
}
