// The value of a type that a sign, a size and a virtual point stand for.
ghost use Rattle.std.specs.Prelude.{◌≡◌, ℕ, ◌*◌, ◌^◌};
ghost use Rattle.dfdl_forms.specs.Types.{form_of};
ghost use Rattle.dfdl_packed.specs.Sizes.{IsHeld, Shows};
ghost use Rattle.dfdl_packed.specs.Typed.{of_value as of_value_is, value_in};

use crate::fault::PackedFault;
use crate::size::{Size, with_zeros};
use dfdl_value::{NoValue, Simple, Value, value_of_number};

/// The value of a type that a number with a virtual point is.
pub fn value_of(kind: Simple, point: u8, negative: bool, size: Size) -> Result<Value, PackedFault>
    ensures { (n : ℕ) → Shows size n → result ≡ value_in (form_of kind) point negative n }
{
    let point = u64::from(point);
    let magnitude = held_with_zeros(size.mantissa, size.zeros.saturating_sub(point));
    let scale = point.saturating_sub(size.zeros) as usize;
    of_value(value_of_number(kind, negative, magnitude, scale))
}

// The number times ten to the power of `zeros`.
fn held_with_zeros(number: Option<u128>, zeros: u64) -> Option<u128>
    ensures { (n : ℕ) → IsHeld number n → IsHeld result (n * 10 ^ zeros) }
{
    match number {
        Some(number) => with_zeros(number, zeros),
        None => None,
    }
}

fn of_value(value: Result<Value, NoValue>) -> Result<Value, PackedFault>
    ensures { result ≡ of_value_is value }
{
    match value {
        Ok(value) => Ok(value),
        Err(NoValue::NotAValue) => Err(PackedFault::BadNibble),
        Err(NoValue::PastType) => Err(PackedFault::PastType),
    }
}
