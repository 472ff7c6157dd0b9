// What a leaf is read by, and the box that it has.
ghost use Rattle.std.specs.Prelude.{◌≡◌, ◌*◌, ◌^◌, ◌≤◌, Some, None, IfSome, IfNone};
ghost use Rattle.dfdl_forms.specs.BinaryNumbers.{IsIntForm, IsPackedForm, IsTruthForm};
ghost use Rattle.dfdl_terms.specs.declared.row.Primitive.TheVariants.{Integer, Packed, Truth, Octets, NilOctets as PlacedNil};
ghost use Rattle.dfdl_terms.specs.Rows.{IsPrimitive};
ghost use Rattle.dfdl_grammar.specs.Leaves.{bits_of, content_begins, content_ends, default_begins, empty_begins, has_room, text_begins, text_ends};
ghost use Rattle.dfdl_grammar.specs.Prefixes.{resized};
ghost use Rattle.dfdl_leaves.specs.Readings.{IsNumber};
ghost use Rattle.dfdl_leaves.specs.Views.{IsSound, primitive_of};

use crate::framing::aligned;
use dfdl_forms::{BitTruthForm, IntForm, PackedForm};
use dfdl_terms::{
    DefaultForm, NilOctets, NilValues, OctetForm, PatternForm, Primitive, TextContent, TextForm,
    TextSize,
};
use dfdl_value::Value;

/// A primitive with the size that its box has, which may be another than its own.
#[derive(Clone, Copy)]
pub enum Leaf<'p> {
    Integer(IntForm),
    Packed(PackedForm),
    Truth(BitTruthForm),
    Octets(OctetForm),
    Text {
        form: &'p TextForm,
        size: TextSize,
    },
    NilOctets {
        form: &'p NilOctets,
        bits: u64,
    },
    Default {
        form: &'p DefaultForm,
        size: TextSize,
    },
    NilValues(&'p NilValues),
    Pattern(&'p PatternForm),
}

/// Which values of a leaf are wanted.
#[derive(Clone, Copy)]
pub enum Wanted<'p> {
    /// Any value.
    Any,
    /// One of these, which are nil.
    OneOf(&'p [Value]),
}

impl<'p> Leaf<'p> {
    /// A primitive with its own size.
    pub fn of(primitive: &'p Primitive) -> Leaf<'p>
        ensures primitive { primitive_of result ≡ primitive.now }
        ensures sound { IsPrimitive primitive.now → IsSound (primitive_of result) }
    {
        match primitive {
            Primitive::Integer(form) => Leaf::Integer(*form),
            Primitive::Packed(form) => Leaf::Packed(*form),
            Primitive::Truth(form) => Leaf::Truth(*form),
            Primitive::Octets(form) => Leaf::Octets(*form),
            Primitive::Text(form) => Leaf::Text {
                form,
                size: form.size,
            },
            Primitive::NilOctets(form) => Leaf::NilOctets {
                form,
                bits: form.octets.bits,
            },
            Primitive::Default(form) => Leaf::Default {
                form,
                size: form.size,
            },
            Primitive::NilValues(form) => Leaf::NilValues(form),
            Primitive::Pattern(form) => Leaf::Pattern(form),
        }
    }

    /// A primitive with another size, if it can have that.
    pub fn in_box(primitive: &'p Primitive, size: TextSize) -> Option<Leaf<'p>>
        ensures some { IfSome result (λ leaf. resized size primitive.now ≡ Some (primitive_of leaf)) }
        ensures none { IfNone result (resized size primitive.now ≡ None) }
        ensures sound { IsPrimitive primitive.now → IfSome result (λ leaf. IsSound (primitive_of leaf)) }
    {
        match primitive {
            Primitive::Text(form) => Some(Leaf::Text { form, size }),
            Primitive::Integer(form) => integer_in_box(*form, size),
            Primitive::Packed(form) => packed_in_box(*form, size),
            Primitive::Truth(form) => truth_in_box(*form, size),
            Primitive::Octets(form) => octets_in_box(*form, size),
            Primitive::NilOctets(form) => nil_in_box(form, size),
            Primitive::Default(form) => Some(Leaf::Default { form, size }),
            Primitive::NilValues(_) => None,
            Primitive::Pattern(_) => None,
        }
    }
}

/// Whether the box of a leaf that begins at a bit ends in the box around it, which ends at another bit, and its content
/// begins in it. 'Lengths'.
pub fn has_room(leaf: Leaf<'_>, bit: u64, stop: u64) -> bool
    requires bound { bit ≤ 2 ^ 63 }
    requires sound { IsSound (primitive_of leaf) }
    ensures { result ≡ has_room (primitive_of leaf.entry) bit stop }
{
    match content_ends(leaf, bit, stop) {
        Some(end) => end <= stop && content_begins(leaf, bit) <= end,
        None => false,
    }
}

/// The bit at which the content of a leaf begins whose box begins at this one. 'Framing' (alignment).
pub fn content_begins(leaf: Leaf<'_>, bit: u64) -> u64
    requires { bit ≤ 2 ^ 63 }
    ensures { result ≡ content_begins (primitive_of leaf.entry) bit }
{
    match leaf {
        Leaf::Integer(_) => bit,
        Leaf::Packed(_) => bit,
        Leaf::Truth(_) => bit,
        Leaf::Octets(_) => bit,
        Leaf::Text { form, size } => text_begins(&form.content, size, bit),
        Leaf::NilOctets { .. } => bit,
        Leaf::Default { size, .. } => default_begins(size, bit),
        Leaf::NilValues(_) => bit,
        Leaf::Pattern(_) => bit,
    }
}

/// The bit at which a text begins whose box begins at this one: the next whole byte, where the box has any bit.
pub(crate) fn text_begins(content: &TextContent, size: TextSize, bit: u64) -> u64
    requires { bit ≤ 2 ^ 63 }
    ensures begin { result ≡ text_begins content.now size bit }
{
    match size {
        TextSize::Bits(0) => empty_begins(content, bit),
        TextSize::Bits(_) => aligned(8, bit),
        TextSize::Characters(_) => aligned(8, bit),
        TextSize::Delimited(_) => aligned(8, bit),
    }
}

// The bit at which an empty representation begins whose box begins at this one.
fn default_begins(size: TextSize, bit: u64) -> u64
    requires { bit ≤ 2 ^ 63 }
    ensures begin { result ≡ default_begins size bit }
{
    match size {
        TextSize::Bits(_) => bit,
        TextSize::Characters(_) => bit,
        TextSize::Delimited(_) => aligned(8, bit),
    }
}

// The bit at which a text without bits begins whose box begins at this one: a string there, and else the next whole byte.
fn empty_begins(content: &TextContent, bit: u64) -> u64
    requires { bit ≤ 2 ^ 63 }
    ensures begin { result ≡ empty_begins content.now bit }
{
    match content {
        TextContent::Plain => bit,
        TextContent::Octets => aligned(8, bit),
        TextContent::Number { .. } => aligned(8, bit),
        TextContent::Zoned(_) => aligned(8, bit),
        TextContent::Truth(_) => aligned(8, bit),
        TextContent::Nil(_) => aligned(8, bit),
    }
}

// The bit at which the box of a leaf ends that begins at a bit, if 64 bits count it.
fn content_ends(leaf: Leaf<'_>, bit: u64, stop: u64) -> Option<u64>
    requires sound { IsSound (primitive_of leaf) }
    ensures some { IfSome result (λ end. end ≡ content_ends (primitive_of leaf.entry) bit stop) }
    ensures none { IfNone result (2 ^ 64 ≤ content_ends (primitive_of leaf.entry) bit stop) }
{
    match leaf {
        Leaf::Integer(form) => bit.checked_add(u64::from(form.bits)),
        Leaf::Packed(form) => bit.checked_add(4 * u64::from(form.nibbles)),
        Leaf::Truth(form) => bit.checked_add(u64::from(form.bits)),
        Leaf::Octets(form) => bit.checked_add(form.bits),
        Leaf::Text { size, .. } => text_ends(size, bit, stop),
        Leaf::NilOctets { bits, .. } => bit.checked_add(bits),
        Leaf::Default { size, .. } => text_ends(size, bit, stop),
        Leaf::NilValues(_) => Some(bit),
        Leaf::Pattern(_) => Some(stop),
    }
}

// The bit at which the box of a text ends that begins at a bit, if 64 bits count it.
fn text_ends(size: TextSize, bit: u64, stop: u64) -> Option<u64>
    ensures some { IfSome result (λ end. end ≡ text_ends size bit stop) }
    ensures none { IfNone result (2 ^ 64 ≤ text_ends size bit stop) }
{
    match size {
        TextSize::Bits(bits) => bit.checked_add(bits),
        TextSize::Characters(_) => Some(stop),
        TextSize::Delimited(_) => Some(stop),
    }
}

/// How many bits the box of a number or boolean has.
pub(crate) fn number_bits(leaf: Leaf<'_>) -> u64
    requires sound { IsSound (primitive_of leaf) }
    requires number { IsNumber (primitive_of leaf) }
    ensures bits { result ≡ bits_of (primitive_of leaf.entry) }
    ensures some { 1 ≤ result }
    ensures few { result ≤ 2 ^ 33 }
{
    match leaf {
        Leaf::Integer(form) => u64::from(form.bits),
        Leaf::Packed(form) => 4 * u64::from(form.nibbles),
        Leaf::Truth(form) => u64::from(form.bits),
        Leaf::Octets(_) => unreachable!(),
        Leaf::Text { .. } => unreachable!(),
        Leaf::NilOctets { .. } => unreachable!(),
        Leaf::Default { .. } => unreachable!(),
        Leaf::NilValues(_) => unreachable!(),
        Leaf::Pattern(_) => unreachable!(),
    }
}

// A binary number with another size.
fn integer_in_box<'p>(form: IntForm, size: TextSize) -> Option<Leaf<'p>>
    ensures some { IfSome result (λ leaf. resized size (Integer form) ≡ Some (primitive_of leaf)) }
    ensures none { IfNone result (resized size (Integer form) ≡ None) }
    ensures sound { IsIntForm form → IfSome result (λ leaf. IsSound (primitive_of leaf)) }
{
    match size {
        TextSize::Bits(bits) => match form.with_bits(bits) {
            Some(sized) => Some(Leaf::Integer(sized)),
            None => None,
        },
        TextSize::Characters(_) => None,
        TextSize::Delimited(_) => None,
    }
}

// A packed number with another size.
fn packed_in_box<'p>(form: PackedForm, size: TextSize) -> Option<Leaf<'p>>
    ensures some { IfSome result (λ leaf. resized size (Packed form) ≡ Some (primitive_of leaf)) }
    ensures none { IfNone result (resized size (Packed form) ≡ None) }
    ensures sound { IsPackedForm form → IfSome result (λ leaf. IsSound (primitive_of leaf)) }
{
    match size {
        TextSize::Bits(bits) => match form.with_bits(bits) {
            Some(sized) => Some(Leaf::Packed(sized)),
            None => None,
        },
        TextSize::Characters(_) => None,
        TextSize::Delimited(_) => None,
    }
}

// A binary boolean with another size.
fn truth_in_box<'p>(form: BitTruthForm, size: TextSize) -> Option<Leaf<'p>>
    ensures some { IfSome result (λ leaf. resized size (Truth form) ≡ Some (primitive_of leaf)) }
    ensures none { IfNone result (resized size (Truth form) ≡ None) }
    ensures sound { IfSome result (λ leaf. IsSound (primitive_of leaf)) }
{
    match size {
        TextSize::Bits(bits) => match form.with_bits(bits) {
            Some(sized) => Some(Leaf::Truth(sized)),
            None => None,
        },
        TextSize::Characters(_) => None,
        TextSize::Delimited(_) => None,
    }
}

// A hexBinary with another size.
fn octets_in_box<'p>(form: OctetForm, size: TextSize) -> Option<Leaf<'p>>
    ensures some { IfSome result (λ leaf. resized size (Octets form) ≡ Some (primitive_of leaf)) }
    ensures none { IfNone result (resized size (Octets form) ≡ None) }
    ensures sound { IfSome result (λ leaf. IsSound (primitive_of leaf)) }
{
    match size {
        TextSize::Bits(bits) => Some(Leaf::Octets(OctetForm {
            bits,
            bits_by: form.bits_by,
        })),
        TextSize::Characters(_) => None,
        TextSize::Delimited(_) => None,
    }
}

// The bytes of nil with another size.
fn nil_in_box<'p>(form: &'p NilOctets, size: TextSize) -> Option<Leaf<'p>>
    ensures some { IfSome result (λ leaf. resized size (PlacedNil form.now) ≡ Some (primitive_of leaf)) }
    ensures none { IfNone result (resized size (PlacedNil form.now) ≡ None) }
    ensures sound { IfSome result (λ leaf. IsSound (primitive_of leaf)) }
{
    match size {
        TextSize::Bits(bits) => Some(Leaf::NilOctets { form, bits }),
        TextSize::Characters(_) => None,
        TextSize::Delimited(_) => None,
    }
}
