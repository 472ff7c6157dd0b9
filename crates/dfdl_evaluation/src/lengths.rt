// How many bits the values of simple elements have.
ghost use Rattle.std.specs.Prelude.{◌≡◌, IfOk, IfSome, option_copied};
ghost use Rattle.dfdl_cells.specs.Asking.{told_shown};
ghost use Rattle.dfdl_cells.specs.Lengths as lengths;
ghost use Rattle.dfdl_evaluation.specs.Forms.{HasBounds, form_shown};
ghost use Rattle.dfdl_terms.specs.Rows.{IsPrimitive, IsTextSize, most_length};
ghost use Rattle.dfdl_writings.specs.Rooms.{IsRoom};

use crate::form::Form;
use crate::writings::{binary, binary_bits, nil_bits, value_bits};
use dfdl_cells::Told;
use dfdl_rows::LeafLength;
use dfdl_terms::{Primitive, TextContent, TextSize, WritingForm};
use dfdl_value::Value;
use dfdl_writings::{Room, Unwritten, Written, room_of};
use std::alloc::{AllocError, Global};

/// The room of a text: that of its size, where its length is its own, and else none that bounds it.
pub(crate) fn room_in(length: LeafLength, size: TextSize) -> Room
    ensures room { result ≡ lengths.room_in length size }
    ensures bounded { IsTextSize size → IsRoom result }
{
    match length {
        LeafLength::Own => room_of(size),
        LeafLength::Prefixed(_) => Room::Open,
        LeafLength::Measured(_) => Room::Open,
    }
}

// The room of bytes that stand for nil: that of their box, where the length is their own.
fn octet_room(length: LeafLength, bits: u64) -> Room
    ensures { result ≡ lengths.octet_room length bits }
{
    match length {
        LeafLength::Own => Room::Bits(bits),
        LeafLength::Prefixed(_) => Room::Open,
        LeafLength::Measured(_) => Room::Open,
    }
}

/// How many bits a writing has without its fill.
pub(crate) fn bits_in(told: &Result<Written, Unwritten>) -> Result<u64, Unwritten>
    ensures { result ≡ lengths.bits_in told.now }
{
    match told {
        Ok(written) => Ok(written.bits),
        Err(cause) => Err(*cause),
    }
}

// How many bits a binary value has in its box.
fn boxed_bits(
    alloc: Global,
    prim: &Primitive,
    value: &Value,
) -> Result<Result<u64, Unwritten>, AllocError>
    requires { IsPrimitive prim.now }
    ensures { IfOk result (λ told. told ≡ lengths.binary_length LeafLength.Own prim.now value.now) }
{
    let told = binary(alloc, prim, value)?;
    Ok(bits_in(&told))
}

// How many bits a binary value has: those in its box, or, behind a prefix, those that it has without one.
fn binary_length(
    alloc: Global,
    length: LeafLength,
    prim: &Primitive,
    value: &Value,
) -> Result<Result<u64, Unwritten>, AllocError>
    requires { IsPrimitive prim.now }
    ensures { IfOk result (λ told. told ≡ lengths.binary_length length prim.now value.now) }
{
    match length {
        LeafLength::Own => boxed_bits(alloc, prim, value),
        LeafLength::Prefixed(_) => binary_bits(prim, value),
        LeafLength::Measured(_) => binary_bits(prim, value),
    }
}

// How many bits a value has before it is escaped, cut and padded.
fn value_length(
    alloc: Global,
    length: LeafLength,
    prim: &Primitive,
    value: &Value,
) -> Result<Result<u64, Unwritten>, AllocError>
    requires { IsPrimitive prim.now }
    ensures { IfOk result (λ told. told ≡ lengths.value_length length prim.now value.now) }
{
    match prim {
        Primitive::Integer(_) => binary_length(alloc, length, prim, value),
        Primitive::Packed(_) => binary_length(alloc, length, prim, value),
        Primitive::Truth(_) => binary_length(alloc, length, prim, value),
        Primitive::Octets(_) => binary_length(alloc, length, prim, value),
        Primitive::Text(form) => value_bits(alloc, form, room_in(length, form.size), value),
        Primitive::NilOctets(_) => Ok(Err(Unwritten::BinaryForm)),
        Primitive::Default(_) => Ok(Err(Unwritten::BinaryForm)),
        Primitive::NilValues(_) => Ok(Err(Unwritten::BinaryForm)),
        Primitive::Pattern(_) => Ok(Err(Unwritten::BinaryForm)),
    }
}

// The same of nil that a text stands for, in its content.
fn text_nil_length(
    alloc: Global,
    writing: &WritingForm,
    room: Room,
    content: &TextContent,
) -> Result<Result<u64, Unwritten>, AllocError>
    ensures { IfOk result (λ told. told ≡ lengths.text_nil_length writing.now room content.now) }
{
    match content {
        TextContent::Nil(nil) => nil_bits(alloc, writing, nil, room),
        TextContent::Plain => Ok(Err(Unwritten::BinaryForm)),
        TextContent::Octets => Ok(Err(Unwritten::BinaryForm)),
        TextContent::Number { .. } => Ok(Err(Unwritten::BinaryForm)),
        TextContent::Zoned(_) => Ok(Err(Unwritten::BinaryForm)),
        TextContent::Truth(_) => Ok(Err(Unwritten::BinaryForm)),
    }
}

/// The first one of values.
pub(crate) fn first_value(values: &[Value]) -> Option<&Value>
    ensures { option_copied result ≡ lengths.first_value values.now }
{
    match values {
        [] => None,
        [value, ..] => Some(value),
    }
}

// How many bits a value has that may not be there.
fn value_length_if(
    alloc: Global,
    length: LeafLength,
    prim: &Primitive,
    value: Option<&Value>,
) -> Result<Result<u64, Unwritten>, AllocError>
    requires { IsPrimitive prim.now }
    ensures { IfOk result (λ told. told ≡ lengths.value_length_if length prim.now (option_copied value.entry)) }
{
    match value {
        Some(value) => value_length(alloc, length, prim, value),
        None => Ok(Err(Unwritten::BinaryForm)),
    }
}

// How many bits nil has by its primitive, of an element that has this primitive of its own.
fn nil_length(
    alloc: Global,
    writing: &WritingForm,
    length: LeafLength,
    prim: &Primitive,
    nil: &Primitive,
) -> Result<Result<u64, Unwritten>, AllocError>
    requires { IsPrimitive prim.now }
    ensures { IfOk result (λ told. told ≡ lengths.nil_length writing.now length prim.now nil.now) }
{
    match nil {
        Primitive::Text(form) => {
            text_nil_length(alloc, writing, room_in(length, form.size), &form.content)
        }
        Primitive::NilOctets(form) => {
            nil_bits(
                alloc,
                writing,
                &form.nil,
                octet_room(length, form.octets.bits),
            )
        }
        Primitive::NilValues(form) => {
            value_length_if(alloc, length, prim, first_value(form.values.as_slice()))
        }
        Primitive::Integer(_) => Ok(Err(Unwritten::BinaryForm)),
        Primitive::Packed(_) => Ok(Err(Unwritten::BinaryForm)),
        Primitive::Truth(_) => Ok(Err(Unwritten::BinaryForm)),
        Primitive::Octets(_) => Ok(Err(Unwritten::BinaryForm)),
        Primitive::Default(_) => Ok(Err(Unwritten::BinaryForm)),
        Primitive::Pattern(_) => Ok(Err(Unwritten::BinaryForm)),
    }
}

// The same of an element that may have no primitive of nil.
fn nil_length_if(
    alloc: Global,
    writing: &WritingForm,
    form: &Form<'_>,
) -> Result<Result<u64, Unwritten>, AllocError>
    requires { HasBounds (form_shown form.now) }
    ensures { IfOk result (λ told. told ≡ lengths.nil_length_if writing.now (form_shown form.now) (option_copied form.now.nil)) }
{
    match form.nil {
        Some(nil) => nil_length(alloc, writing, form.length, form.prim, nil),
        None => Ok(Err(Unwritten::BinaryForm)),
    }
}

/// How many bits a simple element has by what it is, before padding, escapes and cuts (valueLength).
pub(crate) fn told_length(
    alloc: Global,
    writing: &WritingForm,
    form: &Form<'_>,
    told: Told<'_>,
) -> Result<Result<u64, Unwritten>, AllocError>
    requires { HasBounds (form_shown form.now) }
    ensures { IfOk result (λ bits. bits ≡ lengths.told_length writing.now (form_shown form.now) (told_shown told.entry)) }
{
    match told {
        Told::Nil => nil_length_if(alloc, writing, form),
        Told::Is(value) => value_length(alloc, form.length, form.prim, value),
    }
}

// How many bits the box of a text has, where it is in bits.
fn text_box(size: TextSize) -> Option<u64>
    ensures { result ≡ lengths.text_box size }
{
    match size {
        TextSize::Bits(bits) => Some(bits),
        TextSize::Characters(_) => None,
        TextSize::Delimited(_) => None,
    }
}

// How many bits the box of a primitive has, where it has one in bits.
fn box_of(prim: &Primitive) -> Option<u64>
    requires { IsPrimitive prim.now }
    ensures { result ≡ lengths.box_of prim.now }
{
    match prim {
        Primitive::Integer(form) => Some(u64::from(form.bits)),
        Primitive::Packed(form) => Some(4 * u64::from(form.nibbles)),
        Primitive::Truth(form) => Some(u64::from(form.bits)),
        Primitive::Octets(form) => Some(form.bits),
        Primitive::Text(form) => text_box(form.size),
        Primitive::NilOctets(form) => Some(form.octets.bits),
        Primitive::Default(_) => None,
        Primitive::NilValues(_) => None,
        Primitive::Pattern(_) => None,
    }
}

/// How many bits a content has whatever its value is, where that is known.
pub(crate) fn constant_length(length: LeafLength, prim: &Primitive) -> Option<u64>
    requires { IsPrimitive prim.now }
    ensures { result ≡ lengths.constant_length length prim.now }
{
    match length {
        LeafLength::Own => box_of(prim),
        LeafLength::Prefixed(_) => None,
        LeafLength::Measured(_) => None,
    }
}
