// The bits of binary numbers and booleans.
ghost use Rattle.std.specs.Prelude.{◌≡◌, ℕ, ◌+◌, ◌*◌, ◌/◌, ◌≤◌, ◌<◌, IfOk, slice_index, length, replicate, [], None, Some, IsErr, OnOk, ◌↔◌};
ghost use Rattle.dfdl_bits.specs.Bits.{data_bit, KeepsOutside};
ghost use Rattle.dfdl_forms.specs.BinaryNumbers.{IsIntForm, IsPackedForm, IsTruthForm};
ghost use Rattle.dfdl_forms.specs.declared.order.BitOrder.{BitOrder};
ghost use Rattle.dfdl_int_binary.specs.Truths.{truth_field_of};
ghost use Rattle.dfdl_writings.specs.Bits.{field};
ghost use Rattle.dfdl_writings.specs.Fields.{integer, packed, truth, truth_number};

use crate::fault::Unwritten;
use crate::form::Written;
use dfdl_forms::{BitTruthForm, IntForm, NoFit, PackedForm};
use dfdl_int_binary::write_truth;
use dfdl_value::{ByteValue, Value};
use std::alloc::{AllocError, Global};

// As many bytes of zeros as hold so many bits.
fn zeros(alloc: Global, bits: u32) -> Result<Vec<u8>, AllocError>
    requires { bits ≤ 256 }
    ensures { IfOk result (λ v. v.items ≡ replicate ((bits + 7) / 8) 0) }
{
    let mut bytes = Vec::new(alloc);
    bytes.resize(((bits + 7) / 8) as usize, 0)?;
    Ok(bytes)
}

// Each byte is below 256. The call does nothing.
fn bytes_are_small(bytes: &[u8])
    ensures { (k : ℕ) → slice_index bytes.now k < 256 }
{
    let _bytes = bytes;
}

// A field of so many bits that was written over zeros.
fn field(bytes: Vec<u8>, bits: u32) -> Written
    ensures { (order : BitOrder) (bit : ℕ → ℕ) → length bytes.items ≡ (bits + 7) / 8
        → KeepsOutside order (replicate ((bits + 7) / 8) 0) bytes.items 0 bits
        → ((i : ℕ) → i < bits → data_bit order bytes.items i ≡ bit i) → result ≡ field order bits bit }
{
    bytes_are_small(&bytes);
    Written {
        bytes: ByteValue::from_vec(bytes),
        bits: u64::from(bits),
        fill: 0,
    }
}

/// The bits of a binary integer or decimal.
pub(crate) fn integer(
    alloc: Global,
    form: &IntForm,
    value: &Value,
) -> Result<Result<Written, Unwritten>, AllocError>
    requires { IsIntForm form.now }
    ensures { IfOk result (λ told. told ≡ integer form.now value.now) }
{
    let mut bytes = zeros(alloc, form.bits)?;
    match dfdl_int_binary::write(value, form, bytes.as_mut_slice(), 0) {
        Ok(()) => Ok(Ok(field(bytes, form.bits))),
        Err(_) => Ok(Err(Unwritten::BinaryForm)),
    }
}

/// The bits of a packed, BCD or IBM 4690 packed number.
pub(crate) fn packed(
    alloc: Global,
    form: &PackedForm,
    value: &Value,
) -> Result<Result<Written, Unwritten>, AllocError>
    requires { IsPackedForm form.now }
    ensures { IfOk result (λ told. told ≡ packed form.now value.now) }
{
    let bits = 4 * form.nibbles;
    let mut bytes = zeros(alloc, bits)?;
    match dfdl_packed::write(value, form, bytes.as_mut_slice(), 0) {
        Ok(()) => Ok(Ok(field(bytes, bits))),
        Err(_) => Ok(Err(Unwritten::PackedForm)),
    }
}

// Writes a boolean; another value doesn't fit.
fn put_truth(value: &Value, form: &BitTruthForm, bytes: &mut [u8]) -> Result<(), NoFit>
    requires form { IsTruthForm form.now }
    requires inside { form.now.bits ≤ 8 * length bytes.old }
    ensures no_fit { IsErr result ↔ (truth_number form.now value.now ≡ None) }
    ensures number { OnOk result (truth_number form.now value.now ≡ Some (truth_field_of form.now bytes.new 0)) }
    ensures kept { OnOk result (KeepsOutside form.now.bits_by bytes.old bytes.new 0 form.now.bits) }
{
    match value {
        Value::Truth(truth) => write_truth(*truth, form, bytes, 0),
        _ => Err(NoFit),
    }
}

/// The bits of a binary boolean.
pub(crate) fn truth(
    alloc: Global,
    form: &BitTruthForm,
    value: &Value,
) -> Result<Result<Written, Unwritten>, AllocError>
    requires { IsTruthForm form.now }
    ensures { IfOk result (λ told. told ≡ truth form.now value.now) }
{
    let mut bytes = zeros(alloc, form.bits)?;
    match put_truth(value, form, bytes.as_mut_slice()) {
        Ok(()) => Ok(Ok(field(bytes, form.bits))),
        Err(_) => Ok(Err(Unwritten::Boolean)),
    }
}
