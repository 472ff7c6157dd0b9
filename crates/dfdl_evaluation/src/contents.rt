// What simple elements are written as.
ghost use Rattle.std.specs.Prelude.{◌≡◌, ◌/◌, ◌≤◌, IfOk, Ok, option_copied};
ghost use Rattle.dfdl_cells.specs.Asking.{told_shown};
ghost use Rattle.dfdl_cells.specs.Lengths as lengths;
ghost use Rattle.dfdl_cells.specs.Pieces as pieces;
ghost use Rattle.dfdl_cells.specs.Plans.{form_of as form_in, writing_of};
ghost use Rattle.dfdl_cells.specs.Sound.{AreLists, IsSound};
ghost use Rattle.dfdl_forms.specs.Binary.{most_bits};
ghost use Rattle.dfdl_forms.specs.BinaryNumbers.{IsIntForm, IsPackedForm};
ghost use Rattle.dfdl_forms.specs.Types.{form_of};
ghost use Rattle.dfdl_evaluation.specs.Forms.{HasBounds, form_shown};
ghost use Rattle.dfdl_grammar.specs.Delimiters.{lists_of};
ghost use Rattle.dfdl_terms.specs.Rows.{IsPrimitive, IsTextForm, most_length};
ghost use Rattle.dfdl_writings.specs.Binary.{binary, binary_bits};
ghost use Rattle.dfdl_writings.specs.Nils.{no_pad};
ghost use Rattle.dfdl_writings.specs.Rooms.{IsRoom};

use crate::form::Form;
use crate::lengths::{first_value, room_in};
use crate::plan::Plan;
use crate::writings::{
    binary, binary_bits, content, integer, nil_content, nil_octets, octets, packed, truth,
};
use dfdl_cells::{Book, Told};
use dfdl_forms::{BitTruthForm, IntForm, Justify, PackedForm, PadForm};
use dfdl_rows::LeafLength;
use dfdl_terms::{NilOctets, OctetForm, Primitive, TextContent, TextForm, WritingForm};
use dfdl_value::Value;
use dfdl_writings::{Room, Unwritten, Written};
use std::alloc::{AllocError, Global};

// A box of so many bits for an integer, whose type has so many.
fn integer_in(form: &IntForm, bits: u64) -> IntForm
    requires { bits ≤ 128 }
    ensures { result ≡ record form.now { bits = bits } }
{
    IntForm {
        bits: bits as u32,
        bytes_by: form.bytes_by,
        bits_by: form.bits_by,
        point: form.point,
        kind: form.kind,
    }
}

// A value in a box of as many bits as the type of its number has.
fn integer_by(
    alloc: Global,
    form: &IntForm,
    bits: u64,
    value: &Value,
) -> Result<Result<Written, Unwritten>, AllocError>
    requires form { IsIntForm form.now }
    requires bits { bits ≡ most_bits (form_of form.now.kind) }
    ensures { IfOk result (λ told. told ≡ binary (lengths.in_box (Primitive.Integer form.now) bits) value.now) }
{
    integer(alloc, &integer_in(form, bits), value)
}

// A box of so many bits for a packed number.
fn packed_in(form: &PackedForm, bits: u64) -> PackedForm
    requires { bits ≤ 152 }
    ensures { result ≡ record form.now { nibbles = bits / 4 } }
{
    let codes = form.codes;
    PackedForm {
        nibbles: (bits / 4) as u32,
        rep: form.rep,
        codes,
        strict: form.strict,
        point: form.point,
        kind: form.kind,
        bytes_by: form.bytes_by,
        bits_by: form.bits_by,
    }
}

// A packed number in a box of as few bytes as hold it.
fn packed_by(
    alloc: Global,
    form: &PackedForm,
    bits: u64,
    value: &Value,
) -> Result<Result<Written, Unwritten>, AllocError>
    requires form { IsPackedForm form.now }
    requires some { 8 ≤ bits }
    requires few { bits ≤ 152 }
    ensures { IfOk result (λ told. told ≡ binary (lengths.in_box (Primitive.Packed form.now) bits) value.now) }
{
    packed(alloc, &packed_in(form, bits), value)
}

// A boolean in a box of 32 bits.
fn truth_by(
    alloc: Global,
    form: &BitTruthForm,
    value: &Value,
) -> Result<Result<Written, Unwritten>, AllocError>
    ensures { IfOk result (λ told. told ≡ binary (lengths.in_box (Primitive.Truth form.now) 32) value.now) }
{
    let form = BitTruthForm {
        bits: 32,
        bytes_by: form.bytes_by,
        bits_by: form.bits_by,
        truth: form.truth,
        falsity: form.falsity,
    };
    truth(alloc, &form, value)
}

// Bytes in a box of so many bits.
fn octets_by(
    alloc: Global,
    form: &OctetForm,
    bits: u64,
    value: &Value,
) -> Result<Result<Written, Unwritten>, AllocError>
    ensures { IfOk result (λ told. told ≡ binary (lengths.in_box (Primitive.Octets form.now) bits) value.now) }
{
    let form = OctetForm {
        bits,
        bits_by: form.bits_by,
    };
    octets(alloc, &form, value)
}

// What a value is written as in a box of as many bits as it has without one.
fn binary_in(
    alloc: Global,
    prim: &Primitive,
    bits: u64,
    value: &Value,
) -> Result<Result<Written, Unwritten>, AllocError>
    requires prim { IsPrimitive prim.now }
    requires bits { binary_bits prim.now value.now ≡ Ok bits }
    ensures { IfOk result (λ told. told ≡ binary (lengths.in_box prim.now bits) value.now) }
{
    match prim {
        Primitive::Integer(form) => integer_by(alloc, form, bits, value),
        Primitive::Packed(form) => packed_by(alloc, form, bits, value),
        Primitive::Truth(form) => truth_by(alloc, form, value),
        Primitive::Octets(form) => octets_by(alloc, form, bits, value),
        Primitive::Text(_) => Ok(Err(Unwritten::BinaryForm)),
        Primitive::NilOctets(_) => Ok(Err(Unwritten::BinaryForm)),
        Primitive::Default(_) => Ok(Err(Unwritten::BinaryForm)),
        Primitive::NilValues(_) => Ok(Err(Unwritten::BinaryForm)),
        Primitive::Pattern(_) => Ok(Err(Unwritten::BinaryForm)),
    }
}

// What a binary value is written as in as many bits as it has without a box.
fn unboxed(
    alloc: Global,
    prim: &Primitive,
    value: &Value,
) -> Result<Result<Written, Unwritten>, AllocError>
    requires { IsPrimitive prim.now }
    ensures { IfOk result (λ told. told ≡ lengths.binary_in prim.now (binary_bits prim.now value.now) value.now) }
{
    match binary_bits(prim, value)? {
        Ok(bits) => binary_in(alloc, prim, bits, value),
        Err(cause) => Ok(Err(cause)),
    }
}

// What a binary value is written as: in its box, or, behind a prefix, in as many bits as it has without one.
fn binary_by(
    alloc: Global,
    length: LeafLength,
    prim: &Primitive,
    value: &Value,
) -> Result<Result<Written, Unwritten>, AllocError>
    requires { IsPrimitive prim.now }
    ensures { IfOk result (λ told. told ≡ lengths.binary_by length prim.now value.now) }
{
    match length {
        LeafLength::Own => binary(alloc, prim, value),
        LeafLength::Prefixed(_) => unboxed(alloc, prim, value),
        LeafLength::Measured(_) => unboxed(alloc, prim, value),
    }
}

// What a value is written as in text.
fn text_value(
    alloc: Global,
    plan: &Plan<'_>,
    writing: &WritingForm,
    numbers: &[u32],
    length: LeafLength,
    form: &TextForm,
    value: &Value,
) -> Result<Result<Written, Unwritten>, AllocError>
    requires form { IsTextForm form.now }
    requires lists { AreLists plan.now numbers.now }
    ensures { IfOk result (λ told. told ≡ lengths.written_value writing.now (lists_of plan.now.table.delimiters numbers.now) length (Primitive.Text form.now) value.now) }
{
    let room = room_in(length, form.size);
    content(alloc, plan, writing, form, room, numbers, value)
}

// What a value is written as, where the lists of these numbers are the terminating markup.
fn written_value(
    alloc: Global,
    plan: &Plan<'_>,
    writing: &WritingForm,
    numbers: &[u32],
    length: LeafLength,
    prim: &Primitive,
    value: &Value,
) -> Result<Result<Written, Unwritten>, AllocError>
    requires prim { IsPrimitive prim.now }
    requires lists { AreLists plan.now numbers.now }
    ensures { IfOk result (λ told. told ≡ lengths.written_value writing.now (lists_of plan.now.table.delimiters numbers.now) length prim.now value.now) }
{
    match prim {
        Primitive::Integer(_) => binary_by(alloc, length, prim, value),
        Primitive::Packed(_) => binary_by(alloc, length, prim, value),
        Primitive::Truth(_) => binary_by(alloc, length, prim, value),
        Primitive::Octets(_) => binary_by(alloc, length, prim, value),
        Primitive::Text(form) => { text_value(alloc, plan, writing, numbers, length, form, value) }
        Primitive::NilOctets(_) => Ok(Err(Unwritten::BinaryForm)),
        Primitive::Default(_) => Ok(Err(Unwritten::BinaryForm)),
        Primitive::NilValues(_) => Ok(Err(Unwritten::BinaryForm)),
        Primitive::Pattern(_) => Ok(Err(Unwritten::BinaryForm)),
    }
}

// What nil is written as that a text stands for.
fn text_nil(
    alloc: Global,
    writing: &WritingForm,
    form: &TextForm,
    room: Room,
) -> Result<Result<Written, Unwritten>, AllocError>
    requires { IsRoom room }
    ensures { IfOk result (λ told. told ≡ lengths.written_text_nil writing.now form.now room form.now.content) }
{
    match &form.content {
        TextContent::Nil(nil) => nil_content(alloc, writing, nil, &form.pad, room),
        TextContent::Plain => Ok(Err(Unwritten::BinaryForm)),
        TextContent::Octets => Ok(Err(Unwritten::BinaryForm)),
        TextContent::Number { .. } => Ok(Err(Unwritten::BinaryForm)),
        TextContent::Zoned(_) => Ok(Err(Unwritten::BinaryForm)),
        TextContent::Truth(_) => Ok(Err(Unwritten::BinaryForm)),
    }
}

// What is read as nil in a box of bytes is no text, and has no pad characters.
fn no_pad() -> PadForm
    ensures { result ≡ no_pad }
{
    PadForm {
        justify: Justify::Left,
        pad: None,
        trim: None,
        truncate: false,
        keeps_zero: false,
    }
}

// What nil is written as that bytes stand for: in their box, or, behind a prefix, as it is without one.
fn octets_nil(
    alloc: Global,
    writing: &WritingForm,
    length: LeafLength,
    form: &NilOctets,
) -> Result<Result<Written, Unwritten>, AllocError>
    requires { form.now.octets.bits ≤ most_length }
    ensures { IfOk result (λ told. told ≡ lengths.written_octets writing.now length form.now) }
{
    match length {
        LeafLength::Own => nil_octets(alloc, writing, form),
        LeafLength::Prefixed(_) => nil_content(alloc, writing, &form.nil, &no_pad(), Room::Open),
        LeafLength::Measured(_) => nil_content(alloc, writing, &form.nil, &no_pad(), Room::Open),
    }
}

// What a value is written as that may not be there.
fn written_if(
    alloc: Global,
    plan: &Plan<'_>,
    writing: &WritingForm,
    numbers: &[u32],
    length: LeafLength,
    prim: &Primitive,
    value: Option<&Value>,
) -> Result<Result<Written, Unwritten>, AllocError>
    requires prim { IsPrimitive prim.now }
    requires lists { AreLists plan.now numbers.now }
    ensures { IfOk result (λ told. told ≡ lengths.written_if writing.now (lists_of plan.now.table.delimiters numbers.now) length prim.now (option_copied value.entry)) }
{
    match value {
        Some(value) => written_value(alloc, plan, writing, numbers, length, prim, value),
        None => Ok(Err(Unwritten::BinaryForm)),
    }
}

// What nil is written as by its primitive, of an element that has this primitive of its own.
fn written_nil(
    alloc: Global,
    plan: &Plan<'_>,
    writing: &WritingForm,
    numbers: &[u32],
    length: LeafLength,
    prim: &Primitive,
    nil: &Primitive,
) -> Result<Result<Written, Unwritten>, AllocError>
    requires prim { IsPrimitive prim.now }
    requires nil { IsPrimitive nil.now }
    requires lists { AreLists plan.now numbers.now }
    ensures { IfOk result (λ told. told ≡ lengths.written_nil writing.now (lists_of plan.now.table.delimiters numbers.now) length prim.now nil.now) }
{
    match nil {
        Primitive::Text(form) => text_nil(alloc, writing, form, room_in(length, form.size)),
        Primitive::NilOctets(form) => octets_nil(alloc, writing, length, form),
        Primitive::NilValues(form) => {
            let value = first_value(form.values.as_slice());
            written_if(alloc, plan, writing, numbers, length, prim, value)
        }
        Primitive::Integer(_) => Ok(Err(Unwritten::BinaryForm)),
        Primitive::Packed(_) => Ok(Err(Unwritten::BinaryForm)),
        Primitive::Truth(_) => Ok(Err(Unwritten::BinaryForm)),
        Primitive::Octets(_) => Ok(Err(Unwritten::BinaryForm)),
        Primitive::Default(_) => Ok(Err(Unwritten::BinaryForm)),
        Primitive::Pattern(_) => Ok(Err(Unwritten::BinaryForm)),
    }
}

// The same of an element that may have no primitive of nil.
fn written_nil_if(
    alloc: Global,
    plan: &Plan<'_>,
    writing: &WritingForm,
    numbers: &[u32],
    form: &Form<'_>,
) -> Result<Result<Written, Unwritten>, AllocError>
    requires form { HasBounds (form_shown form.now) }
    requires lists { AreLists plan.now numbers.now }
    ensures { IfOk result (λ told. told ≡ lengths.written_nil_if writing.now (lists_of plan.now.table.delimiters numbers.now) (form_shown form.now) (option_copied form.now.nil)) }
{
    match form.nil {
        Some(nil) => written_nil(alloc, plan, writing, numbers, form.length, form.prim, nil),
        None => Ok(Err(Unwritten::BinaryForm)),
    }
}

// What a simple element is written as by what it is, where the lists of these numbers are the terminating markup.
fn written(
    alloc: Global,
    plan: &Plan<'_>,
    writing: &WritingForm,
    numbers: &[u32],
    form: &Form<'_>,
    told: Told<'_>,
) -> Result<Result<Written, Unwritten>, AllocError>
    requires form { HasBounds (form_shown form.now) }
    requires lists { AreLists plan.now numbers.now }
    ensures { IfOk result (λ one. one ≡ lengths.written writing.now (lists_of plan.now.table.delimiters numbers.now) (form_shown form.now) (told_shown told.entry)) }
{
    match told {
        Told::Nil => written_nil_if(alloc, plan, writing, numbers, form),
        Told::Is(value) => {
            written_value(alloc, plan, writing, numbers, form.length, form.prim, value)
        }
    }
}

// The same by how a component is written and its form, if it has both.
fn written_by(
    alloc: Global,
    plan: &Plan<'_>,
    component: u32,
    numbers: &[u32],
    told: Told<'_>,
) -> Result<Result<Written, Unwritten>, AllocError>
    requires { AreLists plan.now numbers.now }
    ensures { IfOk result (λ one. one ≡ pieces.written_by (writing_of plan.now component) (form_in plan.now component) (lists_of plan.now.table.delimiters numbers.now) (told_shown told.entry)) }
{
    let Some(writing) = plan.writing(component) else {
        return Ok(Err(Unwritten::BinaryForm));
    };
    match plan.form(component) {
        Some(form) => written(alloc, plan, &writing.text, numbers, &form, told),
        None => Ok(Err(Unwritten::BinaryForm)),
    }
}

/// What the simple element of a component is written as that is this, where these lists of markup of the book are open.
pub(crate) fn written_at(
    alloc: Global,
    plan: &Plan<'_>,
    book: &Book,
    component: u32,
    markup: u32,
    told: Told<'_>,
) -> Result<Result<Written, Unwritten>, AllocError>
    requires { IsSound plan.now book.now }
    ensures { IfOk result (λ one. one ≡ pieces.written_at plan.now book.now component markup (told_shown told.entry)) }
{
    written_by(alloc, plan, component, book.markup(markup), told)
}
