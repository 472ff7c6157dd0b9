// The writings of contents, where want of memory is told apart from what has none.
ghost use Rattle.std.specs.Prelude.{◌≡◌, ◌≤◌, IfOk};
ghost use Rattle.dfdl_cells.specs.Sound.{AreLists};
ghost use Rattle.dfdl_forms.specs.BinaryNumbers.{IsIntForm, IsPackedForm, IsTruthForm};
ghost use Rattle.dfdl_grammar.specs.Delimiters.{lists_of};
ghost use Rattle.dfdl_terms.specs.Rows.{IsPrimitive, IsTextForm, most_length};
ghost use Rattle.dfdl_writings.specs.Binary.{binary, binary_bits};
ghost use Rattle.dfdl_writings.specs.Contents as contents;
ghost use Rattle.dfdl_writings.specs.Delimiters.{delimiter};
ghost use Rattle.dfdl_writings.specs.Fields.{integer, octets, packed, truth};
ghost use Rattle.dfdl_writings.specs.Nils as nils;
ghost use Rattle.dfdl_writings.specs.Prefixes.{prefix};
ghost use Rattle.dfdl_writings.specs.Rooms.{IsRoom};

use crate::plan::Plan;
use dfdl_forms::{BitTruthForm, CharList, IntForm, PackedForm, PadForm};
use dfdl_terms::{Delimiters, NilForm, NilOctets, OctetForm, Primitive, TextForm, WritingForm};
use dfdl_value::Value;
use dfdl_writings::{Room, Unwritten, WritingFault, Written};
use std::alloc::{AllocError, Global};

// What a value is written as in text, where the lists of these numbers are the terminating markup.
pub(crate) fn content(
    alloc: Global,
    plan: &Plan<'_>,
    writing: &WritingForm,
    form: &TextForm,
    room: Room,
    numbers: &[u32],
    value: &Value,
) -> Result<Result<Written, Unwritten>, AllocError>
    requires room { IsRoom room }
    requires form { IsTextForm form.now }
    requires lists { AreLists plan.now numbers.now }
    ensures { IfOk result (λ told. told ≡ contents.content writing.now form.now room (lists_of plan.now.table.delimiters numbers.now) value.now) }
{
    let lists = plan.open_lists(numbers);
    match dfdl_writings::content_of(alloc, writing, form, room, lists, value) {
        Ok(written) => Ok(Ok(written)),
        Err(WritingFault::Unwritten(cause)) => Ok(Err(cause)),
        Err(WritingFault::OutOfMemory) => Err(AllocError),
    }
}

// How many bits a value has in text.
pub(crate) fn value_bits(
    alloc: Global,
    form: &TextForm,
    room: Room,
    value: &Value,
) -> Result<Result<u64, Unwritten>, AllocError>
    requires { IsTextForm form.now }
    ensures { IfOk result (λ told. told ≡ contents.value_bits form.now room value.now) }
{
    match dfdl_writings::value_bits(alloc, form, room, value) {
        Ok(bits) => Ok(Ok(bits)),
        Err(WritingFault::Unwritten(cause)) => Ok(Err(cause)),
        Err(WritingFault::OutOfMemory) => Err(AllocError),
    }
}

// What nil is written as in text.
pub(crate) fn nil_content(
    alloc: Global,
    writing: &WritingForm,
    nil: &NilForm,
    pad: &PadForm,
    room: Room,
) -> Result<Result<Written, Unwritten>, AllocError>
    requires { IsRoom room }
    ensures { IfOk result (λ told. told ≡ nils.nil_content writing.now nil.now pad.now room) }
{
    match dfdl_writings::nil_of(alloc, writing, nil, pad, room) {
        Ok(written) => Ok(Ok(written)),
        Err(WritingFault::Unwritten(cause)) => Ok(Err(cause)),
        Err(WritingFault::OutOfMemory) => Err(AllocError),
    }
}

// What nil is written as in a box of bytes.
pub(crate) fn nil_octets(
    alloc: Global,
    writing: &WritingForm,
    form: &NilOctets,
) -> Result<Result<Written, Unwritten>, AllocError>
    requires { form.now.octets.bits ≤ most_length }
    ensures { IfOk result (λ told. told ≡ nils.nil_octets writing.now form.now) }
{
    match dfdl_writings::nil_octets_of(alloc, writing, form) {
        Ok(written) => Ok(Ok(written)),
        Err(WritingFault::Unwritten(cause)) => Ok(Err(cause)),
        Err(WritingFault::OutOfMemory) => Err(AllocError),
    }
}

// How many bits nil has.
pub(crate) fn nil_bits(
    alloc: Global,
    writing: &WritingForm,
    nil: &NilForm,
    room: Room,
) -> Result<Result<u64, Unwritten>, AllocError>
    ensures { IfOk result (λ told. told ≡ nils.nil_bits writing.now nil.now room) }
{
    match dfdl_writings::nil_bits(alloc, writing, nil, room) {
        Ok(bits) => Ok(Ok(bits)),
        Err(WritingFault::Unwritten(cause)) => Ok(Err(cause)),
        Err(WritingFault::OutOfMemory) => Err(AllocError),
    }
}

// The bits of a binary integer or decimal.
pub(crate) fn integer(
    alloc: Global,
    form: &IntForm,
    value: &Value,
) -> Result<Result<Written, Unwritten>, AllocError>
    requires { IsIntForm form.now }
    ensures { IfOk result (λ told. told ≡ integer form.now value.now) }
{
    match dfdl_writings::integer_of(alloc, form, value) {
        Ok(written) => Ok(Ok(written)),
        Err(WritingFault::Unwritten(cause)) => Ok(Err(cause)),
        Err(WritingFault::OutOfMemory) => Err(AllocError),
    }
}

// The bits of a packed number.
pub(crate) fn packed(
    alloc: Global,
    form: &PackedForm,
    value: &Value,
) -> Result<Result<Written, Unwritten>, AllocError>
    requires { IsPackedForm form.now }
    ensures { IfOk result (λ told. told ≡ packed form.now value.now) }
{
    match dfdl_writings::packed_of(alloc, form, value) {
        Ok(written) => Ok(Ok(written)),
        Err(WritingFault::Unwritten(cause)) => Ok(Err(cause)),
        Err(WritingFault::OutOfMemory) => Err(AllocError),
    }
}

// The bits of a binary boolean.
pub(crate) fn truth(
    alloc: Global,
    form: &BitTruthForm,
    value: &Value,
) -> Result<Result<Written, Unwritten>, AllocError>
    requires { IsTruthForm form.now }
    ensures { IfOk result (λ told. told ≡ truth form.now value.now) }
{
    match dfdl_writings::truth_of(alloc, form, value) {
        Ok(written) => Ok(Ok(written)),
        Err(WritingFault::Unwritten(cause)) => Ok(Err(cause)),
        Err(WritingFault::OutOfMemory) => Err(AllocError),
    }
}

// The bytes of a hexBinary.
pub(crate) fn octets(
    alloc: Global,
    form: &OctetForm,
    value: &Value,
) -> Result<Result<Written, Unwritten>, AllocError>
    ensures { IfOk result (λ told. told ≡ octets form.now value.now) }
{
    match dfdl_writings::octets_of(alloc, form, value) {
        Ok(written) => Ok(Ok(written)),
        Err(WritingFault::Unwritten(cause)) => Ok(Err(cause)),
        Err(WritingFault::OutOfMemory) => Err(AllocError),
    }
}

// The bits of a value by its primitive, in a box.
pub(crate) fn binary(
    alloc: Global,
    primitive: &Primitive,
    value: &Value,
) -> Result<Result<Written, Unwritten>, AllocError>
    requires { IsPrimitive primitive.now }
    ensures { IfOk result (λ told. told ≡ binary primitive.now value.now) }
{
    match dfdl_writings::binary_of(alloc, primitive, value) {
        Ok(written) => Ok(Ok(written)),
        Err(WritingFault::Unwritten(cause)) => Ok(Err(cause)),
        Err(WritingFault::OutOfMemory) => Err(AllocError),
    }
}

// How many bits a value has without a box.
pub(crate) fn binary_bits(
    primitive: &Primitive,
    value: &Value,
) -> Result<Result<u64, Unwritten>, AllocError>
    requires { IsPrimitive primitive.now }
    ensures { IfOk result (λ told. told ≡ binary_bits primitive.now value.now) }
{
    match dfdl_writings::binary_bits(primitive, value) {
        Ok(bits) => Ok(Ok(bits)),
        Err(WritingFault::Unwritten(cause)) => Ok(Err(cause)),
        Err(WritingFault::OutOfMemory) => Err(AllocError),
    }
}

// What a delimiter is written as.
pub(crate) fn delimiter(
    alloc: Global,
    new_line: &CharList,
    list: &Delimiters,
) -> Result<Result<Written, Unwritten>, AllocError>
    ensures { IfOk result (λ told. told ≡ delimiter new_line.now list.now) }
{
    match dfdl_writings::delimiter_of(alloc, new_line, list) {
        Ok(written) => Ok(Ok(written)),
        Err(WritingFault::Unwritten(cause)) => Ok(Err(cause)),
        Err(WritingFault::OutOfMemory) => Err(AllocError),
    }
}

// What a length prefix is written as that tells so many units.
pub(crate) fn prefix(
    alloc: Global,
    writing: &WritingForm,
    primitive: &Primitive,
    units: Option<u128>,
) -> Result<Result<Written, Unwritten>, AllocError>
    requires { IsPrimitive primitive.now }
    ensures { IfOk result (λ told. told ≡ prefix writing.now primitive.now units) }
{
    match dfdl_writings::prefix_of(alloc, writing, primitive, units) {
        Ok(written) => Ok(Ok(written)),
        Err(WritingFault::Unwritten(cause)) => Ok(Err(cause)),
        Err(WritingFault::OutOfMemory) => Err(AllocError),
    }
}
