// A law of the definitions that the contracts cite. The call does nothing.
ghost use Rattle.std.specs.Prelude.{◌≡◌, ◌↔◌, Some};
ghost use Rattle.dfdl_decimal.specs.Decimal.{DecimalNumber, SameNumber, fixed_of};

use super::fixed::Fixed;

/// The form that `Fixed` has for a number is the one that writes the same number.
pub fn form_writes_the_number(form: &Fixed)
    ensures { (d : DecimalNumber) → (fixed_of d ≡ Some form.now) ↔ SameNumber form.now d }
{
    let _mantissa = form.mantissa();
}
