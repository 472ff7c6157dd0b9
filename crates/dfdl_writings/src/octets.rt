// The bits of a hexBinary in a box.
ghost use Rattle.std.specs.Prelude.{◌≡◌, ◌*◌, ◌≤◌, ◌-◌, ◌^◌, IfOk, length};
ghost use Rattle.dfdl_terms.specs.Rows.{most_length};
ghost use Rattle.dfdl_writings.specs.Fields.{octets, octets_in};
ghost use Rattle.dfdl_writings.specs.Lengths.{octet_bits};

use crate::fault::Unwritten;
use crate::form::Written;
use dfdl_terms::OctetForm;
use dfdl_value::{ByteValue, Value};
use std::alloc::{AllocError, Global};

// The most bytes that the crate counts in bits; more of them are told as want of memory.
pub(crate) const MOST_BYTES: usize = 1 << 60;

// How many bits bytes have.
pub(crate) fn bits_in(bytes: &[u8]) -> Result<u64, AllocError>
    ensures { IfOk result (λ bits. bits ≡ 8 * length bytes.now) }
{
    if bytes.len() > MOST_BYTES {
        return Err(AllocError);
    }
    Ok(8 * bytes.len() as u64)
}

// Bytes in a box of so many bits.
fn boxed(
    alloc: Global,
    bits: u64,
    bytes: &ByteValue,
) -> Result<Result<Written, Unwritten>, AllocError>
    ensures { IfOk result (λ told. told ≡ octets_in bits bytes.now) }
{
    let size = bits_in(bytes.as_slice())?;
    if size > bits {
        return Ok(Err(Unwritten::TooLong));
    }
    Ok(Ok(Written {
        bytes: bytes.copy(alloc)?,
        bits: size,
        fill: bits - size,
    }))
}

/// The bytes of a hexBinary in its box.
pub(crate) fn octets(
    alloc: Global,
    form: &OctetForm,
    value: &Value,
) -> Result<Result<Written, Unwritten>, AllocError>
    ensures { IfOk result (λ told. told ≡ octets form.now value.now) }
{
    match value {
        Value::Bytes(bytes) => boxed(alloc, form.bits, bytes),
        _ => Ok(Err(Unwritten::BinaryForm)),
    }
}

/// How many bits a hexBinary has.
pub(crate) fn octet_bits(value: &Value) -> Result<Result<u64, Unwritten>, AllocError>
    ensures { IfOk result (λ told. told ≡ octet_bits value.now) }
{
    match value {
        Value::Bytes(bytes) => Ok(Ok(bits_in(bytes.as_slice())?)),
        _ => Ok(Err(Unwritten::BinaryForm)),
    }
}
