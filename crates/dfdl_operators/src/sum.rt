// Sums and differences.
ghost use Rattle.std.specs.Prelude.{◌≡◌, ◌+◌, ◌^◌, ◌≤◌, ◌+ℤ◌, IfSome, IsNone};
ghost use Rattle.dfdl_decimal.specs.Arithmetic.{negated_of, sum_of};
ghost use Rattle.dfdl_decimal.specs.Decimal.{with_sign};
ghost use Rattle.dfdl_operators.specs.Numbers.{held};
ghost use Rattle.dfdl_operators.specs.NumberShown.{IsShort, shown};

use super::held::value_of;
use super::number::{Number, Operands};
use super::zeros::shifted;
use dfdl_value::Value;

/// The sum of two numbers with as many digits behind the point.
fn level_sum(left: Number, right: Number) -> Option<Number>
    ensures sum { IfSome result (λ s. with_sign s.negative s.magnitude
        ≡ with_sign left.negative left.magnitude +ℤ with_sign right.negative right.magnitude) }
    ensures scale { IfSome result (λ s. s.scale ≡ left.scale) }
    ensures same_signs { IsNone result → left.negative ≡ right.negative }
    ensures past { IsNone result → 2 ^ 128 ≤ left.magnitude + right.magnitude }
{
    let scale = left.scale;
    if left.negative == right.negative {
        let magnitude = left.magnitude.checked_add(right.magnitude)?;
        return Some(Number {
            negative: left.negative,
            magnitude,
            scale,
        });
    }
    if left.magnitude >= right.magnitude {
        Some(Number {
            negative: left.negative,
            magnitude: left.magnitude - right.magnitude,
            scale,
        })
    } else {
        Some(Number {
            negative: right.negative,
            magnitude: right.magnitude - left.magnitude,
            scale,
        })
    }
}

/// The sum of two numbers, of which the first has no fewer digits behind the point.
fn sum_at(long: Number, short: Number) -> Option<Value>
    requires long { IsShort long }
    requires short { IsShort short }
    requires order { short.scale ≤ long.scale }
    ensures { result ≡ held (sum_of (shown long) (shown short)) }
{
    let zeros = long.scale - short.scale;
    let magnitude = shifted(short.magnitude, zeros)?;
    let moved = Number {
        negative: short.negative,
        magnitude,
        scale: long.scale,
    };
    let total = level_sum(long, moved)?;
    value_of(total.negative, total.magnitude, total.scale)
}

pub(crate) fn sum(of: Operands) -> Option<Value>
    requires left { IsShort of.left }
    requires right { IsShort of.right }
    ensures { result ≡ held (sum_of (shown of.left) (shown of.right)) }
{
    if of.left.scale >= of.right.scale {
        sum_at(of.left, of.right)
    } else {
        sum_at(of.right, of.left)
    }
}

/// The number with the other sign.
fn turned(number: Number) -> Number
    requires { IsShort number }
    ensures number { shown result ≡ negated_of (shown number) }
    ensures short { IsShort result }
{
    Number {
        negative: !number.negative,
        magnitude: number.magnitude,
        scale: number.scale,
    }
}

pub(crate) fn difference(of: Operands) -> Option<Value>
    requires left { IsShort of.left }
    requires right { IsShort of.right }
    ensures { result ≡ held (sum_of (shown of.left) (negated_of (shown of.right))) }
{
    sum(Operands {
        left: of.left,
        right: turned(of.right),
    })
}
