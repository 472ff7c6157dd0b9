// The writings that other crates ask for.
ghost use Rattle.std.specs.Prelude.{◌≡◌, ◌≤◌, List};
ghost use Rattle.dfdl_delims.specs.Lists.{Opened};
ghost use Rattle.dfdl_delims.specs.Opening.{Opens};
ghost use Rattle.dfdl_forms.specs.BinaryNumbers.{IsIntForm, IsPackedForm, IsTruthForm};
ghost use Rattle.dfdl_terms.specs.Rows.{IsPrimitive, IsTextContent, IsTextForm, most_length};
ghost use Rattle.dfdl_writings.specs.Binary.{binary, binary_bits};
ghost use Rattle.dfdl_writings.specs.Characters.{characters};
ghost use Rattle.dfdl_writings.specs.Contents.{content, value_bits};
ghost use Rattle.dfdl_writings.specs.Delimiters.{delimiter};
ghost use Rattle.dfdl_writings.specs.Fields.{integer, octets, packed, truth};
ghost use Rattle.dfdl_writings.specs.Nils.{nil_bits, nil_content, nil_octets};
ghost use Rattle.dfdl_writings.specs.Prefixes.{prefix};
ghost use Rattle.dfdl_writings.specs.Rooms.{IsRoom};
ghost use Rattle.dfdl_writings.specs.Told.{IfTold};

use crate::fault::WritingFault;
use crate::form::{Room, Written};
use crate::{binary, characters, contents, delimiter, fields, nils, octets, prefixes};
use dfdl_delims::OpenLists;
use dfdl_forms::{BitTruthForm, CharList, Encoding, IntForm, PackedForm, PadForm};
use dfdl_terms::{
    Delimiters, NilForm, NilOctets, OctetForm, Primitive, TextContent, TextForm, WritingForm,
};
use dfdl_value::Value;
use std::alloc::Global;

/// The characters of a value, before they are escaped, cut and padded. A value that isn't of the content's type has none: it is told
/// as one that doesn't fit.
pub fn characters_of(
    alloc: Global,
    encoding: Encoding,
    room: Room,
    content: &TextContent,
    value: &Value,
) -> Result<CharList, WritingFault>
    requires { IsTextContent content.now }
    ensures { IfTold result (λ told. told ≡ characters encoding room content.now value.now) }
{
    match characters::characters_of(alloc, encoding, room, content, value) {
        Ok(Ok(written)) => Ok(written),
        Ok(Err(cause)) => Err(WritingFault::Unwritten(cause)),
        Err(_) => Err(WritingFault::OutOfMemory),
    }
}

/// What a value is written as in text. The lists are the terminating markup, of which delimited text is escaped.
pub fn content_of(
    alloc: Global,
    writing: &WritingForm,
    form: &TextForm,
    room: Room,
    lists: OpenLists<'_>,
    value: &Value,
) -> Result<Written, WritingFault>
    requires room { IsRoom room }
    requires form { IsTextForm form.now }
    ensures { IfTold result (λ told. (opened : List Opened) → Opens lists.entry opened
        → told ≡ content writing.now form.now room opened value.now) }
{
    match contents::content(alloc, writing, form, room, lists, value) {
        Ok(Ok(written)) => Ok(written),
        Ok(Err(cause)) => Err(WritingFault::Unwritten(cause)),
        Err(_) => Err(WritingFault::OutOfMemory),
    }
}

/// The length of a value in text: how many bits its characters have before they are escaped, cut and padded.
pub fn value_bits(
    alloc: Global,
    form: &TextForm,
    room: Room,
    value: &Value,
) -> Result<u64, WritingFault>
    requires { IsTextForm form.now }
    ensures { IfTold result (λ told. told ≡ value_bits form.now room value.now) }
{
    match contents::value_bits(alloc, form, room, value) {
        Ok(Ok(bits)) => Ok(bits),
        Ok(Err(cause)) => Err(WritingFault::Unwritten(cause)),
        Err(_) => Err(WritingFault::OutOfMemory),
    }
}

/// What nil is written as in text: the first literal of its list, or its character as often as the room holds it.
pub fn nil_of(
    alloc: Global,
    writing: &WritingForm,
    nil: &NilForm,
    pad: &PadForm,
    room: Room,
) -> Result<Written, WritingFault>
    requires { IsRoom room }
    ensures { IfTold result (λ told. told ≡ nil_content writing.now nil.now pad.now room) }
{
    match nils::nil_content(alloc, nil, pad, writing, room) {
        Ok(Ok(written)) => Ok(written),
        Ok(Err(cause)) => Err(WritingFault::Unwritten(cause)),
        Err(_) => Err(WritingFault::OutOfMemory),
    }
}

/// What nil is written as in a box of bytes, where it has no pad characters.
pub fn nil_octets_of(
    alloc: Global,
    writing: &WritingForm,
    form: &NilOctets,
) -> Result<Written, WritingFault>
    requires { form.now.octets.bits ≤ most_length }
    ensures { IfTold result (λ told. told ≡ nil_octets writing.now form.now) }
{
    match nils::nil_octets(alloc, form, writing) {
        Ok(Ok(written)) => Ok(written),
        Ok(Err(cause)) => Err(WritingFault::Unwritten(cause)),
        Err(_) => Err(WritingFault::OutOfMemory),
    }
}

/// The length of nil: how many bits it has without pad characters.
pub fn nil_bits(
    alloc: Global,
    writing: &WritingForm,
    nil: &NilForm,
    room: Room,
) -> Result<u64, WritingFault>
    ensures { IfTold result (λ told. told ≡ nil_bits writing.now nil.now room) }
{
    match nils::nil_bits(alloc, nil, writing, room) {
        Ok(Ok(bits)) => Ok(bits),
        Ok(Err(cause)) => Err(WritingFault::Unwritten(cause)),
        Err(_) => Err(WritingFault::OutOfMemory),
    }
}

/// The bits of a binary integer or decimal.
pub fn integer_of(alloc: Global, form: &IntForm, value: &Value) -> Result<Written, WritingFault>
    requires { IsIntForm form.now }
    ensures { IfTold result (λ told. told ≡ integer form.now value.now) }
{
    match fields::integer(alloc, form, value) {
        Ok(Ok(written)) => Ok(written),
        Ok(Err(cause)) => Err(WritingFault::Unwritten(cause)),
        Err(_) => Err(WritingFault::OutOfMemory),
    }
}

/// The bits of a packed, BCD or IBM 4690 packed number.
pub fn packed_of(alloc: Global, form: &PackedForm, value: &Value) -> Result<Written, WritingFault>
    requires { IsPackedForm form.now }
    ensures { IfTold result (λ told. told ≡ packed form.now value.now) }
{
    match fields::packed(alloc, form, value) {
        Ok(Ok(written)) => Ok(written),
        Ok(Err(cause)) => Err(WritingFault::Unwritten(cause)),
        Err(_) => Err(WritingFault::OutOfMemory),
    }
}

/// The bits of a binary boolean.
pub fn truth_of(alloc: Global, form: &BitTruthForm, value: &Value) -> Result<Written, WritingFault>
    requires { IsTruthForm form.now }
    ensures { IfTold result (λ told. told ≡ truth form.now value.now) }
{
    match fields::truth(alloc, form, value) {
        Ok(Ok(written)) => Ok(written),
        Ok(Err(cause)) => Err(WritingFault::Unwritten(cause)),
        Err(_) => Err(WritingFault::OutOfMemory),
    }
}

/// The bytes of a hexBinary in its box.
pub fn octets_of(alloc: Global, form: &OctetForm, value: &Value) -> Result<Written, WritingFault>
    ensures { IfTold result (λ told. told ≡ octets form.now value.now) }
{
    match octets::octets(alloc, form, value) {
        Ok(Ok(written)) => Ok(written),
        Ok(Err(cause)) => Err(WritingFault::Unwritten(cause)),
        Err(_) => Err(WritingFault::OutOfMemory),
    }
}

/// The bits of a value by the primitive of its row, in a box of the size that the primitive has. A primitive of another kind writes
/// none.
pub fn binary_of(
    alloc: Global,
    primitive: &Primitive,
    value: &Value,
) -> Result<Written, WritingFault>
    requires { IsPrimitive primitive.now }
    ensures { IfTold result (λ told. told ≡ binary primitive.now value.now) }
{
    match binary::binary(alloc, primitive, value) {
        Ok(Ok(written)) => Ok(written),
        Ok(Err(cause)) => Err(WritingFault::Unwritten(cause)),
        Err(_) => Err(WritingFault::OutOfMemory),
    }
}

/// How many bits a value has where no box bounds them, and a prefix tells their number.
pub fn binary_bits(primitive: &Primitive, value: &Value) -> Result<u64, WritingFault>
    requires { IsPrimitive primitive.now }
    ensures { IfTold result (λ told. told ≡ binary_bits primitive.now value.now) }
{
    match binary::binary_bits(primitive, value) {
        Ok(Ok(bits)) => Ok(bits),
        Ok(Err(cause)) => Err(WritingFault::Unwritten(cause)),
        Err(_) => Err(WritingFault::OutOfMemory),
    }
}

/// What an initiator, terminator or separator is written as: the first literal of its list, with this line break for `%NL;`. A list
/// without a literal is written as nothing.
pub fn delimiter_of(
    alloc: Global,
    new_line: &CharList,
    delimiters: &Delimiters,
) -> Result<Written, WritingFault>
    ensures { IfTold result (λ told. told ≡ delimiter new_line.now delimiters.now) }
{
    match delimiter::delimiter(alloc, new_line.as_slice(), delimiters) {
        Ok(Ok(written)) => Ok(written),
        Ok(Err(cause)) => Err(WritingFault::Unwritten(cause)),
        Err(_) => Err(WritingFault::OutOfMemory),
    }
}

/// What a length prefix is written as by its primitive, in the box of that: it tells so many units, as `units_of` counts them. Where they
/// are no whole number, where the type of the prefix has no such value, and where its primitive can't write that, the prefix is the cause.
pub fn prefix_of(
    alloc: Global,
    writing: &WritingForm,
    primitive: &Primitive,
    units: Option<u128>,
) -> Result<Written, WritingFault>
    requires { IsPrimitive primitive.now }
    ensures { IfTold result (λ told. told ≡ prefix writing.now primitive.now units) }
{
    match prefixes::prefix(alloc, writing, primitive, units) {
        Ok(Ok(written)) => Ok(written),
        Ok(Err(cause)) => Err(WritingFault::Unwritten(cause)),
        Err(_) => Err(WritingFault::OutOfMemory),
    }
}
