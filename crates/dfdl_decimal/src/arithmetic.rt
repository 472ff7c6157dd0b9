// Exact arithmetic on decimal numbers.
ghost use Rattle.std.specs.Prelude.{◌≡◌, ◌*◌, ◌^◌, ◌<◌, ◌≤◌, ◌≢◌, ◌+◌, ◌%◌, ◌+ℤ◌, unsigned_abs, IfSome, IsNone, IfOk, IsErr, ◌↔◌, IsErrOf, IsSome, option_and_then, pos, Some, None};
ghost use Rattle.std.specs.Option.{SomeIff};
ghost use Rattle.std.specs.Ordering.{nat_cmp};
ghost use Rattle.dfdl_decimal.specs.Arithmetic.{comparison_of, division_of, negated_of, product_of, quotient_of, sum_of};
ghost use Rattle.dfdl_decimal.specs.Decimal.{fixed_of, with_sign};

use super::fixed::{DivFault, Fixed, Overflow, shortest};
use super::product::product_at;
use super::quotient::{Division, quotient_at};
use std::cmp::Ordering;

/// The magnitude with so many zeros behind it, if that has 128 bits at most.
pub(crate) fn shifted(magnitude: u128, zeros: u32) -> Option<u128>
    ensures { SomeIff result (magnitude * 10 ^ zeros < 2 ^ 128) (magnitude * 10 ^ zeros) }
{
    if magnitude == 0 {
        return Some(0);
    }
    let factor = 10u128.checked_pow(zeros)?;
    magnitude.checked_mul(factor)
}

/// How two numbers compare that have these digits and so many of them after the point.
fn order_at(left: u128, left_scale: u32, right: u128, right_scale: u32) -> Ordering
    requires left { left < 10 ^ 38 }
    requires right { right < 10 ^ 38 }
    ensures { result ≡ nat_cmp (left * 10 ^ right_scale) (right * 10 ^ left_scale) }
{
    if left_scale <= right_scale {
        match shifted(left, right_scale - left_scale) {
            Some(longer) => longer.cmp(&right),
            None => Ordering::Greater,
        }
    } else {
        match shifted(right, left_scale - right_scale) {
            Some(longer) => left.cmp(&longer),
            None => Ordering::Less,
        }
    }
}

/// How the numbers without their signs compare.
fn magnitude_order(left: &Fixed, right: &Fixed) -> Ordering
    ensures { result ≡ nat_cmp (unsigned_abs left.now.mantissa * 10 ^ right.now.scale)
        (unsigned_abs right.now.mantissa * 10 ^ left.now.scale) }
{
    order_at(
        left.magnitude(),
        u32::from(left.scale()),
        right.magnitude(),
        u32::from(right.scale()),
    )
}

/// A whole number as its sign and its magnitude.
#[derive(Clone, Copy)]
struct Signed {
    negative: bool,
    magnitude: u128,
}

fn signed_sum(left: Signed, right: Signed) -> Option<Signed>
    ensures sum { IfSome result (λ s. with_sign s.negative s.magnitude
        ≡ with_sign left.negative left.magnitude +ℤ with_sign right.negative right.magnitude) }
    ensures same_signs { IsNone result → left.negative ≡ right.negative }
    ensures past { IsNone result → 2 ^ 128 ≤ left.magnitude + right.magnitude }
{
    if left.negative == right.negative {
        let magnitude = left.magnitude.checked_add(right.magnitude)?;
        return Some(Signed {
            negative: left.negative,
            magnitude,
        });
    }
    if left.magnitude >= right.magnitude {
        Some(Signed {
            negative: left.negative,
            magnitude: left.magnitude - right.magnitude,
        })
    } else {
        Some(Signed {
            negative: right.negative,
            magnitude: right.magnitude - left.magnitude,
        })
    }
}

/// The sum of two numbers: one has `scale` digits after its point, the other `zeros` fewer.
fn sum_at(long: Signed, short: Signed, zeros: u32, scale: u32) -> Option<Fixed>
    requires long { long.magnitude < 10 ^ 38 }
    requires short { short.magnitude < 10 ^ 38 }
    requires within { zeros ≤ scale }
    requires last { 0 < scale → long.magnitude % 10 ≢ 0 }
    ensures { result ≡ fixed_of (record {
      mantissa = with_sign long.negative long.magnitude
          +ℤ with_sign short.negative (short.magnitude * 10 ^ zeros);
      scale = scale;
    }) }
{
    let magnitude = shifted(short.magnitude, zeros)?;
    let moved = Signed {
        negative: short.negative,
        magnitude,
    };
    let total = signed_sum(long, moved)?;
    shortest(total.negative, total.magnitude, scale)
}

/// The sum of two numbers, of which the first has no fewer digits after its point.
fn sum(long: &Fixed, short: &Fixed) -> Option<Fixed>
    requires { short.now.scale ≤ long.now.scale }
    ensures { result ≡ fixed_of (sum_of long.now short.now) }
{
    let scale = u32::from(long.scale());
    let zeros = scale - u32::from(short.scale());
    let _mantissa = long.mantissa();
    let left = Signed {
        negative: long.is_negative(),
        magnitude: long.magnitude(),
    };
    let right = Signed {
        negative: short.is_negative(),
        magnitude: short.magnitude(),
    };
    sum_at(left, right, zeros, scale)
}

fn product(left: &Fixed, right: &Fixed) -> Option<Fixed>
    ensures { result ≡ fixed_of (product_of left.now right.now) }
{
    product_at(
        left.is_negative() != right.is_negative(),
        left.magnitude(),
        right.magnitude(),
        u32::from(left.scale()) + u32::from(right.scale()),
    )
}

fn quotient(left: &Fixed, right: &Fixed) -> Result<Fixed, DivFault>
    ensures { result ≡ division_of left.now right.now }
{
    if right.magnitude() == 0 {
        return Err(DivFault::Zero);
    }
    let of = Division {
        negative: left.is_negative() != right.is_negative(),
        dividend: left.magnitude(),
        divisor: right.magnitude(),
    };
    quotient_at(of, u32::from(right.scale()) + 18, u32::from(left.scale()))
}

impl Fixed {
    pub fn add(&self, other: &Fixed) -> Result<Fixed, Overflow>
        ensures value { IfOk result (λ f. fixed_of (sum_of self.now other.now) ≡ Some f) }
        ensures overflow { IsErr result ↔ (fixed_of (sum_of self.now other.now) ≡ None) }
    {
        if self.scale() >= other.scale() {
            sum(self, other).ok_or(Overflow)
        } else {
            sum(other, self).ok_or(Overflow)
        }
    }

    pub fn negated(&self) -> Fixed
        ensures { result ≡ negated_of self.now }
    {
        Fixed::new(-self.mantissa(), self.scale())
    }

    pub fn sub(&self, other: &Fixed) -> Result<Fixed, Overflow>
        ensures value { IfOk result (λ f. fixed_of (sum_of self.now (negated_of other.now))
            ≡ Some f) }
        ensures overflow { IsErr result
            ↔ (fixed_of (sum_of self.now (negated_of other.now)) ≡ None) }
    {
        self.add(&other.negated())
    }

    pub fn mul(&self, other: &Fixed) -> Result<Fixed, Overflow>
        ensures value { IfOk result (λ f. fixed_of (product_of self.now other.now) ≡ Some f) }
        ensures overflow { IsErr result ↔ (fixed_of (product_of self.now other.now) ≡ None) }
    {
        product(self, other).ok_or(Overflow)
    }

    pub fn div(&self, other: &Fixed) -> Result<Fixed, DivFault>
        ensures answer { result ≡ division_of self.now other.now }
        ensures value { IfOk result (λ f. option_and_then fixed_of (quotient_of self.now other.now)
            ≡ Some f) }
        ensures zero { IsErrOf result DivFault.Zero ↔ (other.now.mantissa ≡ pos 0) }
        ensures inexact { IsErrOf result DivFault.Inexact
            ↔ ((other.now.mantissa ≢ pos 0) × (quotient_of self.now other.now ≡ None)) }
        ensures overflow { IsErrOf result DivFault.Overflow
            ↔ ((other.now.mantissa ≢ pos 0) × IsSome (quotient_of self.now other.now)
            × (option_and_then fixed_of (quotient_of self.now other.now) ≡ None)) }
    {
        quotient(self, other)
    }

    /// How the numbers compare.
    pub fn cmp(&self, other: &Fixed) -> Ordering
        ensures { result ≡ comparison_of self.now other.now }
    {
        match (self.is_negative(), other.is_negative()) {
            (false, false) => magnitude_order(self, other),
            (false, true) => Ordering::Greater,
            (true, false) => Ordering::Less,
            (true, true) => magnitude_order(other, self),
        }
    }
}
