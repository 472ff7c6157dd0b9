// Exact products of decimal numbers.
ghost use Rattle.std.specs.Prelude.{◌≡◌, ◌≢◌, ◌+◌, ◌*◌, ◌%◌, ◌^◌, ◌<◌, IfSome, IsNone, Bool};
ghost use Rattle.dfdl_decimal.specs.Decimal.{fixed_of, shortest_from, with_sign};

use super::fixed::{Fixed, shortest};

/// A product that isn't multiplied out, with so many digits after its point.
#[derive(Clone, Copy)]
struct Product {
    left: u128,
    right: u128,
    scale: u32,
}

/// The factors of a tenth of the product, if ten divides it.
fn tenth(left: u128, right: u128) -> Option<(u128, u128)>
    ensures tenth { IfSome result (λ f. f.0 * f.1 * 10 ≡ left * right) }
    ensures none { IsNone result → left * right % 10 ≢ 0 }
{
    if left % 10 == 0 {
        Some((left / 10, right))
    } else if right % 10 == 0 {
        Some((left, right / 10))
    } else if left % 2 == 0 && right % 5 == 0 {
        Some((left / 2, right / 5))
    } else if left % 5 == 0 && right % 2 == 0 {
        Some((left / 5, right / 2))
    } else {
        None
    }
}

/// The product without the zeros at the end of its digits after the point.
fn reduced(product: Product) -> Product
    ensures same { (b : Bool)
        → shortest_from result.scale (with_sign b (result.left * result.right))
        ≡ shortest_from product.scale (with_sign b (product.left * product.right)) }
    ensures last { 0 < result.scale → result.left * result.right % 10 ≢ 0 }
{
    let mut left = product.left;
    let mut right = product.right;
    let mut scale = product.scale;
    while scale > 0 {
        let Some(factors) = tenth(left, right) else {
            return Product { left, right, scale };
        };
        left = factors.0;
        right = factors.1;
        scale -= 1;
    }
    Product { left, right, scale }
}

/// The form that `Fixed` has for a product, if it has one.
pub(crate) fn product_at(negative: bool, left: u128, right: u128, scale: u32) -> Option<Fixed>
    ensures { result
        ≡ fixed_of (record { mantissa = with_sign negative (left * right); scale = scale }) }
{
    let product = reduced(Product { left, right, scale });
    let magnitude = product.left.checked_mul(product.right)?;
    shortest(negative, magnitude, product.scale)
}
