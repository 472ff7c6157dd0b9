// How many bits boxes have.
ghost use Rattle.std.specs.Prelude.{◌≡◌, option_copied};
ghost use Rattle.dfdl_planning.specs.Sizes as spec;

use crate::source::Source;
use dfdl_forms::Encoding;
use dfdl_rows::{ContentBox, LeafLength};
use dfdl_terms::{Framing, LengthUnit, Measure, Prefix, Primitive, TextForm, TextSize};

// How many bits the smallest unit of an encoding has.
fn unit_bits(encoding: Encoding) -> u64
    ensures { result ≡ spec.unit_bits encoding }
{
    match encoding {
        Encoding::Utf8 | Encoding::UsAscii | Encoding::Iso88591 => 8,
        Encoding::Utf16Be | Encoding::Utf16Le => 16,
    }
}

// How many bits the box of a text has.
fn text_bits(form: &TextForm) -> u64
    ensures { result ≡ spec.text_bits form.now }
{
    match form.size {
        TextSize::Bits(bits) => bits,
        TextSize::Characters(count) => count.saturating_mul(unit_bits(form.encoding)),
        TextSize::Delimited(_) => 0,
    }
}

/// How many bits the box of a primitive has; one without a box has none.
pub(crate) fn prim_bits(prim: &Primitive) -> u64
    ensures { result ≡ spec.prim_bits prim.now }
{
    match prim {
        Primitive::Integer(form) => u64::from(form.bits),
        Primitive::Packed(form) => 4 * u64::from(form.nibbles),
        Primitive::Truth(form) => u64::from(form.bits),
        Primitive::Octets(form) => form.bits,
        Primitive::Text(form) => text_bits(form),
        Primitive::NilOctets(form) => form.octets.bits,
        Primitive::Default(_) => 0,
        Primitive::NilValues(_) => 0,
        Primitive::Pattern(_) => 0,
    }
}

/// How many bits the box of a length prefix has.
pub(crate) fn prefix_bits(source: &Source<'_>, prefix: Prefix) -> u64
    ensures { result ≡ spec.prefix_bits source.now prefix }
{
    match source.primitive(prefix.prim) {
        Some(prim) => prim_bits(prim),
        None => 0,
    }
}

// A pattern tells the length, and takes no bits.
fn is_pattern_prim(prim: Option<&Primitive>) -> bool
    ensures { result ≡ spec.is_pattern_prim (option_copied prim.entry) }
{
    matches!(prim, Some(Primitive::Pattern(_)))
}

/// What a prefix stands for is a pattern, which takes no bits.
pub(crate) fn is_pattern(source: &Source<'_>, prefix: Prefix) -> bool
    ensures { result ≡ spec.is_pattern source.now prefix }
{
    is_pattern_prim(source.primitive(prefix.prim))
}

// So many bits are whole bytes.
fn are_whole(bits: u64) -> bool
    ensures { result ≡ spec.are_whole bits }
{
    bits % 8 == 0
}

// A text's box of bits is one of whole bytes; any other has none of bits.
fn is_whole_text(size: TextSize) -> bool
    ensures { result ≡ spec.is_whole_text size }
{
    match size {
        TextSize::Bits(bits) => are_whole(bits),
        TextSize::Characters(_) => true,
        TextSize::Delimited(_) => true,
    }
}

// The box of a primitive is one of whole bytes.
fn is_whole_prim(prim: Option<&Primitive>) -> bool
    ensures { result ≡ spec.is_whole_prim (option_copied prim.entry) }
{
    match prim {
        Some(Primitive::Text(form)) => is_whole_text(form.size),
        Some(prim) => are_whole(prim_bits(prim)),
        None => true,
    }
}

// A length that such a unit counts is one of whole bytes.
fn is_whole_unit(unit: LengthUnit) -> bool
    ensures { result ≡ spec.is_whole_unit unit }
{
    !matches!(unit, LengthUnit::Bits)
}

// A prefix and what it tells are of whole bytes.
fn is_whole_prefix(source: &Source<'_>, prefix: Prefix) -> bool
    ensures { result ≡ spec.is_whole_prefix source.now prefix }
{
    is_whole_unit(prefix.unit) && are_whole(prefix_bits(source, prefix))
}

// What an expression gives is a length of whole bytes.
fn is_whole_measure(measure: Measure) -> bool
    ensures { result ≡ spec.is_whole_unit measure.unit }
{
    is_whole_unit(measure.unit)
}

/// The length of a simple content is one of whole bytes.
pub(crate) fn is_whole_leaf(source: &Source<'_>, prim: u32, length: LeafLength) -> bool
    ensures { result ≡ spec.is_whole_leaf source.now prim length }
{
    match length {
        LeafLength::Own => is_whole_prim(source.primitive(prim)),
        LeafLength::Prefixed(prefix) => is_whole_prefix(source, prefix),
        LeafLength::Measured(measure) => is_whole_measure(measure),
    }
}

/// The box of a content with parts is one of whole bytes.
pub(crate) fn is_whole_box(source: &Source<'_>, content_box: ContentBox) -> bool
    ensures { result ≡ spec.is_whole_box source.now content_box }
{
    match content_box {
        ContentBox::Unbounded => true,
        ContentBox::Sized(bits) => are_whole(bits),
        ContentBox::Prefixed(prefix) => is_whole_prefix(source, prefix),
        ContentBox::Measured(measure) => is_whole_measure(measure),
    }
}

// An alignment leaves what is on whole bytes there.
fn is_whole_alignment(alignment: u32) -> bool
    ensures { result ≡ spec.is_whole_alignment alignment }
{
    alignment % 8 == 0 || alignment == 1 || alignment == 2 || alignment == 4
}

/// What stands around a content is of whole bytes.
pub(crate) fn is_whole_framing(framing: &Framing) -> bool
    ensures { result ≡ spec.is_whole_framing framing.now }
{
    framing.leading_skip % 8 == 0
        && framing.trailing_skip % 8 == 0
        && is_whole_alignment(framing.alignment)
}
