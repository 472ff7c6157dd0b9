// Packed decimal, BCD and IBM 4690 packed numbers.
ghost use Rattle.std.specs.Prelude.{◌≡◌, ◌+◌, ◌*◌, ◌≤◌, ◌↔◌, Some, None, length, IsErr, OnOk, OnErr};
ghost use Rattle.dfdl_forms.specs.BinaryNumbers.{IsPackedForm};
ghost use Rattle.dfdl_bits.specs.Bits.{KeepsOutside};
ghost use Rattle.dfdl_packed.specs.Packed.{nibbles_in, packed_reading, packed_writing};

use crate::fault::PackedFault;
use crate::nibbles::{nibbles_at, put_nibbles};
use crate::reading::number_of;
use crate::typed::value_of;
use crate::writing::nibbles_for;
use dfdl_forms::{NoFit, PackedForm};
use dfdl_value::Value;

/// Reads the field that begins at bit `bit`.
pub fn read(bytes: &[u8], bit: u64, form: &PackedForm) -> Result<Value, PackedFault>
    requires form { IsPackedForm form.now }
    requires inside { bit + 4 * form.now.nibbles ≤ 8 * length bytes.now }
    ensures { result ≡ packed_reading form.now (nibbles_in form.now bytes.now bit) }
{
    let nibbles = nibbles_at(bytes, bit, form.nibbles, form.bits_by);
    match number_of(&nibbles[..form.nibbles as usize], form) {
        Some(number) => value_of(form.kind, form.point, number.negative, number.size),
        None => Err(PackedFault::BadNibble),
    }
}

/// Writes a value into the field that begins at bit `bit`. A value that is not of the field's type doesn't fit.
pub fn write(value: &Value, form: &PackedForm, bytes: &mut [u8], bit: u64) -> Result<(), NoFit>
    requires form { IsPackedForm form.now }
    requires inside { bit + 4 * form.now.nibbles ≤ 8 * length bytes.old }
    ensures no_fit { IsErr result ↔ (packed_writing form.now value.now ≡ None) }
    ensures nibbles { OnOk result (packed_writing form.now value.now ≡ Some (nibbles_in form.now bytes.new bit)) }
    ensures kept { OnOk result (KeepsOutside form.now.bits_by bytes.old bytes.new bit (4 * form.now.nibbles)) }
    ensures err { OnErr result (bytes.new ≡ bytes.old) }
{
    match nibbles_for(value, form) {
        Some(nibbles) => {
            put_nibbles(bytes, bit, &nibbles[..form.nibbles as usize], form.bits_by);
            Ok(())
        }
        None => Err(NoFit),
    }
}
