// Zoned numbers.
ghost use Rattle.std.specs.Prelude.{◌≡◌, ◌≤◌, ◌↔◌, Some, None, length, take, drop, IsErr, IfOk, OnErr};
ghost use Rattle.dfdl_forms.specs.Packed.{IsZonedForm};
ghost use Rattle.dfdl_packed.specs.Zoned.{zoned_reading, zoned_writing};

use crate::fault::PackedFault;
use crate::scaled::integer_of;
use crate::typed::value_of;
use crate::zoned_reading::number_of;
use crate::zoned_writing::put_signed;
use dfdl_forms::{NoFit, ZonedForm};
use dfdl_value::Value;

/// Reads digits of which one carries the sign.
pub fn read_zoned(digits: &[char], form: &ZonedForm) -> Result<Value, PackedFault>
    ensures { result ≡ zoned_reading form.now digits.now }
{
    match number_of(digits, form) {
        Some(number) => value_of(form.kind, form.point, number.negative, number.size),
        None => Err(PackedFault::BadNibble),
    }
}

/// Writes a value as at least as many digits as the form's width, and answers how many characters these are. A value
/// that is not of the form's type doesn't fit, nor does one that has digits behind the virtual point.
pub fn write_zoned(value: &Value, form: &ZonedForm, into: &mut [char]) -> Result<usize, NoFit>
    requires form { IsZonedForm form.now }
    requires width { form.now.width ≤ length into.old }
    requires room { 80 ≤ length into.old }
    ensures no_fit { IsErr result ↔ (zoned_writing form.now value.now ≡ None) }
    ensures inside { IfOk result (λ count. count ≤ length into.old) }
    ensures chars { IfOk result (λ count. zoned_writing form.now value.now ≡ Some (take count into.new)) }
    ensures rest { IfOk result (λ count. drop count into.new ≡ drop count into.old) }
    ensures err { OnErr result (into.new ≡ into.old) }
{
    match integer_of(value, form.kind, form.point) {
        Some(number) => Ok(put_signed(number, form, into)),
        None => Err(NoFit),
    }
}
