// Products.
ghost use Rattle.std.specs.Prelude.{◌≡◌, ◌≢◌, ◌*◌, ◌%◌, ◌<◌, IfSome, IsNone, Bool};
ghost use Rattle.dfdl_decimal.specs.Arithmetic.{product_of};
ghost use Rattle.dfdl_decimal.specs.Decimal.{shortest_from, with_sign};
ghost use Rattle.dfdl_operators.specs.Numbers.{held};
ghost use Rattle.dfdl_operators.specs.NumberShown.{IsShort, shown};

use super::held::value_of;
use super::number::Operands;
use dfdl_value::Value;

/// A product that isn't multiplied out, with so many digits after its point.
#[derive(Clone, Copy)]
struct Factors {
    left: u128,
    right: u128,
    scale: u32,
}

/// The factors of a tenth of the product, if ten divides it.
fn tenth(left: u128, right: u128) -> Option<(u128, u128)>
    ensures tenth { IfSome result (λ f. f.0 * f.1 * 10 ≡ left * right) }
    ensures none { IsNone result → left * right % 10 ≢ 0 }
{
    if left % 10 == 0 {
        Some((left / 10, right))
    } else if right % 10 == 0 {
        Some((left, right / 10))
    } else if left % 2 == 0 && right % 5 == 0 {
        Some((left / 2, right / 5))
    } else if left % 5 == 0 && right % 2 == 0 {
        Some((left / 5, right / 2))
    } else {
        None
    }
}

/// The product without the zeros at the end of its digits after the point.
fn reduced(product: Factors) -> Factors
    ensures same { (b : Bool)
        → shortest_from result.scale (with_sign b (result.left * result.right))
        ≡ shortest_from product.scale (with_sign b (product.left * product.right)) }
    ensures last { 0 < result.scale → result.left * result.right % 10 ≢ 0 }
{
    let mut left = product.left;
    let mut right = product.right;
    let mut scale = product.scale;
    while scale > 0 {
        let Some(factors) = tenth(left, right) else {
            return Factors { left, right, scale };
        };
        left = factors.0;
        right = factors.1;
        scale -= 1;
    }
    Factors { left, right, scale }
}

pub(crate) fn product(of: Operands) -> Option<Value>
    requires left { IsShort of.left }
    requires right { IsShort of.right }
    ensures { result ≡ held (product_of (shown of.left) (shown of.right)) }
{
    let product = reduced(Factors {
        left: of.left.magnitude,
        right: of.right.magnitude,
        scale: of.left.scale + of.right.scale,
    });
    let magnitude = product.left.checked_mul(product.right)?;
    value_of(
        of.left.negative != of.right.negative,
        magnitude,
        product.scale,
    )
}
