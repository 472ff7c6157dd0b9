// What a length prefix is written as.
ghost use Rattle.std.specs.Prelude.{◌≡◌, ◌+◌, ◌-◌, ◌^◌, ◌<◌, ◌≤◌, pos, Some, IfOk};
ghost use Rattle.std.specs.Option.{SomeIff};
ghost use Rattle.dfdl_forms.specs.Types.{form_of};
ghost use Rattle.dfdl_value.specs.declared.value.Value.TheVariants.{Int, Uns};
ghost use Rattle.dfdl_terms.specs.Rows.{IsPrimitive, IsTextForm};
ghost use Rattle.dfdl_writings.specs.Contents.{content};
ghost use Rattle.dfdl_writings.specs.Prefixes.{in_prefix, number, prefix, prefix_value, told_by, told_in, told_in_text, units_in, units_of};

use crate::contents::unended;
use crate::fault::Unwritten;
use crate::fields::{integer, packed};
use crate::form::Written;
use dfdl_forms::Simple;
use dfdl_terms::{LengthUnit, Prefix, Primitive, TextContent, WritingForm};
use dfdl_value::{Form, Value};
use std::alloc::{AllocError, Global};

// How many units a content has.
fn units_in(unit: LengthUnit, bits: u64, characters: u64) -> Option<u64>
    ensures { result ≡ units_in unit bits characters }
{
    match unit {
        LengthUnit::Bits => Some(bits),
        LengthUnit::Bytes if bits % 8 == 0 => Some(bits / 8),
        LengthUnit::Bytes => None,
        LengthUnit::Characters => Some(characters),
    }
}

/// The length that a prefix tells of a content of so many bits and characters, in its units, if the bits are a whole number of them:
/// those of the content, and its own where it counts itself.
pub fn units_of(prefix: Prefix, bits: u64, characters: u64) -> Option<u128>
    ensures { result ≡ units_of prefix bits characters }
{
    match units_in(prefix.unit, bits, characters) {
        Some(units) => Some(u128::from(units) + u128::from(prefix.own)),
        None => None,
    }
}

// Half of the numbers that so many bits hold.
fn half_of(bits: u32) -> u128
    requires some { 1 ≤ bits }
    requires few { bits ≤ 128 }
    ensures value { result ≡ 2 ^ (bits - 1) }
    ensures few { result ≤ 2 ^ 127 }
{
    1 << (bits - 1)
}

// So many units as a value of a signed type of so many bits.
fn signed(bits: u32, units: u128) -> Option<Value>
    requires some { 1 ≤ bits }
    requires few { bits ≤ 128 }
    ensures { SomeIff result (units < 2 ^ (bits - 1)) (Int (pos units)) }
{
    let half = half_of(bits);
    if units < half {
        Some(Value::Int(units as i128))
    } else {
        None
    }
}

// So many units as a value of an unsigned type of so many bits.
fn unsigned(bits: u32, units: u128) -> Option<Value>
    requires { bits ≤ 128 }
    ensures { SomeIff result (units < 2 ^ bits) (Uns units) }
{
    if bits == 128 || units < 1 << bits {
        Some(Value::Uns(units))
    } else {
        None
    }
}

// So many units as a value of a type.
fn told_in(kind: Simple, units: u128) -> Option<Value>
    ensures { result ≡ told_in (form_of kind) units }
{
    match kind.form() {
        Form::Signed { bits } => signed(bits, units),
        Form::Unsigned { bits } => unsigned(bits, units),
        _ => None,
    }
}

// The value that a text tells so many units by.
fn told_in_text(content: &TextContent, units: u128) -> Option<Value>
    ensures { result ≡ told_in_text content.now units }
{
    match content {
        TextContent::Number { kind, .. } => told_in(*kind, units),
        TextContent::Zoned(form) => told_in(form.kind, units),
        _ => None,
    }
}

// The value that a primitive tells so many units by.
fn told_by(primitive: &Primitive, units: u128) -> Option<Value>
    ensures { result ≡ told_by primitive.now units }
{
    match primitive {
        Primitive::Integer(form) => told_in(form.kind, units),
        Primitive::Packed(form) => told_in(form.kind, units),
        Primitive::Text(form) => told_in_text(&form.content, units),
        Primitive::Truth(_) => None,
        Primitive::Octets(_) => None,
        Primitive::NilOctets(_) => None,
        Primitive::Default(_) => None,
        Primitive::NilValues(_) => None,
        Primitive::Pattern(_) => None,
    }
}

// What a number is written as by a primitive.
fn number(
    alloc: Global,
    writing: &WritingForm,
    primitive: &Primitive,
    value: &Value,
) -> Result<Result<Written, Unwritten>, AllocError>
    requires { IsPrimitive primitive.now }
    ensures { IfOk result (λ told. told ≡ number writing.now primitive.now value.now) }
{
    match primitive {
        Primitive::Integer(form) => integer(alloc, form, value),
        Primitive::Packed(form) => packed(alloc, form, value),
        Primitive::Text(form) => unended(alloc, writing, form, value),
        Primitive::Truth(_) => Ok(Err(Unwritten::Prefix)),
        Primitive::Octets(_) => Ok(Err(Unwritten::Prefix)),
        Primitive::NilOctets(_) => Ok(Err(Unwritten::Prefix)),
        Primitive::Default(_) => Ok(Err(Unwritten::Prefix)),
        Primitive::NilValues(_) => Ok(Err(Unwritten::Prefix)),
        Primitive::Pattern(_) => Ok(Err(Unwritten::Prefix)),
    }
}

// The writing of a prefix, which has no other cause than its own.
fn in_prefix(told: Result<Written, Unwritten>) -> Result<Written, Unwritten>
    ensures { result ≡ in_prefix told }
{
    match told {
        Ok(written) => Ok(written),
        Err(_) => Err(Unwritten::Prefix),
    }
}

/// What a prefix is written as that tells so many units, if they are a whole number.
pub(crate) fn prefix(
    alloc: Global,
    writing: &WritingForm,
    primitive: &Primitive,
    units: Option<u128>,
) -> Result<Result<Written, Unwritten>, AllocError>
    requires { IsPrimitive primitive.now }
    ensures { IfOk result (λ told. told ≡ prefix writing.now primitive.now units) }
{
    let Some(units) = units else {
        return Ok(Err(Unwritten::Prefix));
    };
    match told_by(primitive, units) {
        Some(value) => Ok(in_prefix(number(alloc, writing, primitive, &value)?)),
        None => Ok(Err(Unwritten::Prefix)),
    }
}
