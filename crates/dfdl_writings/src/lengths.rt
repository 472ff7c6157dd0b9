// How many bits a binary value has that no box bounds.
ghost use Rattle.std.specs.Prelude.{◌≡◌, ◌*◌, ◌+◌, ◌≤◌, is_some, IfSome, Some, None};
ghost use Rattle.dfdl_forms.specs.Binary.{most_bits};
ghost use Rattle.dfdl_forms.specs.BinaryNumbers.{IsPackedForm};
ghost use Rattle.dfdl_forms.specs.Types.{form_of};
ghost use Rattle.dfdl_packed.specs.Packed.{packed_writing};
ghost use Rattle.dfdl_writings.specs.Lengths.{first_count, fits_bytes, packed_bits, truth_bits};

use crate::fault::Unwritten;
use dfdl_forms::{PackedForm, Simple};
use dfdl_value::{Form, Value};

/// How many bits a binary integer or decimal has without a box: those of its type, and 128 for a decimal; 0 for any other type.
pub(crate) fn number_bits(kind: Simple) -> u64
    ensures { result ≡ most_bits (form_of kind) }
{
    match kind.form() {
        Form::Signed { bits } | Form::Unsigned { bits } => u64::from(bits),
        Form::Fixed => 128,
        _ => 0,
    }
}

/// How many bits a binary boolean has without a box.
pub(crate) fn truth_bits() -> u64
    ensures { result ≡ truth_bits }
{
    32
}

// A number in so many bytes.
fn in_bytes(form: &PackedForm, count: u32) -> PackedForm
    requires { count ≤ 19 }
    ensures { result ≡ record form.now { nibbles = 2 * count } }
{
    let codes = form.codes;
    PackedForm {
        nibbles: 2 * count,
        rep: form.rep,
        codes,
        strict: form.strict,
        point: form.point,
        kind: form.kind,
        bytes_by: form.bytes_by,
        bits_by: form.bits_by,
    }
}

fn fits(form: &PackedForm, value: &Value) -> bool
    requires form { IsPackedForm form.now }
    requires few { form.now.nibbles ≤ 38 }
    ensures { result ≡ is_some (packed_writing form.now value.now) }
{
    let mut bytes = [0; 19];
    dfdl_packed::write(value, form, &mut bytes, 0).is_ok()
}

fn fits_bytes(form: &PackedForm, value: &Value, count: u32) -> bool
    requires form { IsPackedForm form.now }
    requires some { 1 ≤ count }
    requires few { count ≤ 19 }
    ensures { result ≡ fits_bytes form.now value.now count }
{
    fits(&in_bytes(form, count), value)
}

// The first of so many counts of bytes, from one on, that holds a number.
fn first_count(form: &PackedForm, value: &Value, most: u32) -> Option<u32>
    requires form { IsPackedForm form.now }
    requires few { most ≤ 19 }
    ensures value { result ≡ first_count form.now value.now most 1 }
    ensures few { IfSome result (λ count. count ≤ 19) }
{
    for more in 0..most {
        let count = more + 1;
        if fits_bytes(form, value, count) {
            return Some(count);
        }
    }
    None
}

/// How many bits a packed, BCD or IBM 4690 packed number has without a box: those of the fewest whole bytes that hold it.
pub(crate) fn packed_bits(form: &PackedForm, value: &Value) -> Result<u64, Unwritten>
    requires { IsPackedForm form.now }
    ensures { result ≡ packed_bits form.now value.now }
{
    match first_count(form, value, 19) {
        Some(count) => Ok(8 * u64::from(count)),
        None => Err(Unwritten::PackedForm),
    }
}
