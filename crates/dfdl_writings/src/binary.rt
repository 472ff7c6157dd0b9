// What a value is written as in bits, by the primitive of its row.
ghost use Rattle.std.specs.Prelude.{◌≡◌, IfOk};
ghost use Rattle.dfdl_terms.specs.Rows.{IsPrimitive};
ghost use Rattle.dfdl_writings.specs.Binary.{binary, binary_bits};

use crate::fault::Unwritten;
use crate::fields::{integer, packed, truth};
use crate::form::Written;
use crate::lengths::{number_bits, packed_bits, truth_bits};
use crate::octets::{octet_bits, octets};
use dfdl_terms::Primitive;
use dfdl_value::Value;
use std::alloc::{AllocError, Global};

/// The bits of a value.
pub(crate) fn binary(
    alloc: Global,
    primitive: &Primitive,
    value: &Value,
) -> Result<Result<Written, Unwritten>, AllocError>
    requires { IsPrimitive primitive.now }
    ensures { IfOk result (λ told. told ≡ binary primitive.now value.now) }
{
    match primitive {
        Primitive::Integer(form) => integer(alloc, form, value),
        Primitive::Packed(form) => packed(alloc, form, value),
        Primitive::Truth(form) => truth(alloc, form, value),
        Primitive::Octets(form) => octets(alloc, form, value),
        Primitive::Text(_) => Ok(Err(Unwritten::BinaryForm)),
        Primitive::NilOctets(_) => Ok(Err(Unwritten::BinaryForm)),
        Primitive::Default(_) => Ok(Err(Unwritten::BinaryForm)),
        Primitive::NilValues(_) => Ok(Err(Unwritten::BinaryForm)),
        Primitive::Pattern(_) => Ok(Err(Unwritten::BinaryForm)),
    }
}

/// How many bits a value has that no box bounds.
pub(crate) fn binary_bits(
    primitive: &Primitive,
    value: &Value,
) -> Result<Result<u64, Unwritten>, AllocError>
    requires { IsPrimitive primitive.now }
    ensures { IfOk result (λ told. told ≡ binary_bits primitive.now value.now) }
{
    match primitive {
        Primitive::Integer(form) => Ok(Ok(number_bits(form.kind))),
        Primitive::Packed(form) => Ok(packed_bits(form, value)),
        Primitive::Truth(_) => Ok(Ok(truth_bits())),
        Primitive::Octets(_) => octet_bits(value),
        Primitive::Text(_) => Ok(Err(Unwritten::BinaryForm)),
        Primitive::NilOctets(_) => Ok(Err(Unwritten::BinaryForm)),
        Primitive::Default(_) => Ok(Err(Unwritten::BinaryForm)),
        Primitive::NilValues(_) => Ok(Err(Unwritten::BinaryForm)),
        Primitive::Pattern(_) => Ok(Err(Unwritten::BinaryForm)),
    }
}
