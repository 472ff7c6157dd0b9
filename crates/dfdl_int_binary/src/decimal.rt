// Decimals, and the integers that stand for them at a virtual point.
ghost use Rattle.std.specs.Prelude.{◌≡◌, ◌*ℤ◌, ◌^◌, ◌<◌, ◌≤◌, ◌%◌, pos, FitsSigned, IfSome, ◌==◌, unsigned_abs, int_div, false};
ghost use Rattle.std.specs.Int.{w128};
ghost use Rattle.std.specs.Option.{SomeIff};
ghost use Rattle.dfdl_decimal.specs.Decimal.{fixed_of};
ghost use Rattle.dfdl_int_binary.specs.Integers.{scaled_of, pattern_if};

use crate::signed::pattern;
use dfdl_decimal::shortest;
use dfdl_value::Fixed;

/// The integer divided by ten to the power of `point`, if it has no more digits than a decimal can have.
pub fn divided(integer: i128, point: u8) -> Option<Fixed>
    ensures { result ≡ fixed_of (record { mantissa = integer; scale = point }) }
{
    shortest(integer < 0, integer.unsigned_abs(), u32::from(point))
}

/// The number of `bits` bits that stands for a decimal times ten to the power of `point`, if there is one.
pub fn scaled_pattern(decimal: &Fixed, point: u8, bits: u32) -> Option<u128>
    requires some { 1 ≤ bits }
    requires few { bits ≤ 128 }
    ensures pattern { result ≡ pattern_if bits (scaled_of decimal.now point) }
    ensures fits { IfSome result (λ number. number < 2 ^ bits) }
{
    if decimal.scale() > point {
        return None;
    }
    match with_zeros(decimal.mantissa(), point - decimal.scale()) {
        Some(integer) => pattern(integer, bits),
        None => None,
    }
}

// The integer times ten to the power of `places`, where 128 bits hold it.
fn with_zeros(integer: i128, places: u8) -> Option<i128>
    ensures { SomeIff result (FitsSigned w128 (integer *ℤ pos (10 ^ places))) (integer *ℤ pos (10 ^ places)) }
{
    let mut product = integer;
    for _place in 0..places {
        let Some(more) = product.checked_mul(10) else {
            return None;
        };
        product = more;
    }
    Some(product)
}
