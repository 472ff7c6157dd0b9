// The representations of a simple element besides its normal one.
ghost use Rattle.std.specs.Prelude.{◌≡◌, IfOk, option_and_then, option_copied, option_map};
ghost use Rattle.std.specs.Option.{option_map_or};
ghost use Rattle.dfdl_checks.specs.JudgedShown.{judged_of};
ghost use Rattle.dfdl_checks.specs.Nils.{nil_form_of};
ghost use Rattle.dfdl_checks.specs.NilValues.{nil_values};
ghost use Rattle.dfdl_checks.specs.Numbers.{primitive_of};
ghost use Rattle.dfdl_checks.specs.Representations as tried;
ghost use Rattle.dfdl_terms.specs.Rows.{IsPrimitive};

use crate::defaults::empty_value;
use crate::delimiters::is_empty_delimited;
use crate::kinds::is_string_or_bytes;
use crate::nil_values::nil_values;
use crate::nils::{is_nil_by_value, nil_form_of};
use crate::prefixes::{bounded_primitive, size_of};
use crate::purpose::Purpose;
use crate::representations::{is_nillable, is_sized_by_data};
use crate::subject::{Kind, Subject};
use dfdl_forms::{BitOrder, PadForm, Simple};
use dfdl_terms::{
    DefaultForm, NilForm, NilOctets, NilTexts, NilValues, OctetForm, Primitive, TextContent,
    TextForm, TextSize, ValueList,
};
use dfdl_value::{TextValue, Value};
use std::alloc::{AllocError, Global};

/// The empty representation of an element's occurrences that take a default or that take none ('DFDL Data Syntax Grammar').
#[derive(Debug, Drop)]
pub struct EmptyRepresentation {
    /// How its content is read as empty, where no bits stand for a value or a delimiter shows that it is empty.
    pub empty: Option<Primitive>,
    /// The occurrence is refused where its empty representation is found: no bits stand for no value.
    pub refuses_empty: bool,
    /// More than one representation can be tried.
    pub are_several: bool,
}

/// The representations of an element besides its normal one ('DFDL Data Syntax Grammar').
#[derive(Debug, Drop)]
pub struct OtherRepresentations {
    /// How its content is read as nil, where it may be nil.
    pub nil: Option<Primitive>,
    /// The empty representation of an occurrence that is required, which takes the element's default.
    pub required: EmptyRepresentation,
    /// The same of an occurrence that is tried, which takes no default.
    pub where_tried: EmptyRepresentation,
}

/// Which representations of a simple element besides its normal one are tried; a component that breaks a rule on its normal
/// one has no other.
pub fn other_representations(
    alloc: Global,
    subject: &Subject<'_, '_, '_>,
) -> Result<OtherRepresentations, AllocError>
    ensures { IfOk result (λ others. others ≡ tried.representations_of (judged_of subject.now)) }
{
    match subject.purpose {
        Purpose::Parsing => of_kind(alloc, subject.kind, subject),
        Purpose::Unparsing => Ok(no_representations()),
    }
}

/// No empty representation.
fn no_empty() -> EmptyRepresentation
    ensures { result ≡ tried.no_empty }
{
    EmptyRepresentation {
        empty: None,
        refuses_empty: false,
        are_several: false,
    }
}

/// No representation besides the normal one.
fn no_representations() -> OtherRepresentations
    ensures { result ≡ tried.no_representations }
{
    OtherRepresentations {
        nil: None,
        required: no_empty(),
        where_tried: no_empty(),
    }
}

/// The representations of a component of a kind, for parsing.
fn of_kind(
    alloc: Global,
    kind: Kind,
    subject: &Subject<'_, '_, '_>,
) -> Result<OtherRepresentations, AllocError>
    ensures { IfOk result (λ others. others
        ≡ tried.representations_by (judged_of subject.now) kind (primitive_of (judged_of subject.now))) }
{
    match kind {
        Kind::SimpleElement(simple) => of_type(alloc, simple, subject),
        _ => Ok(no_representations()),
    }
}

/// The same of an element of a type.
fn of_type(
    alloc: Global,
    simple: Simple,
    subject: &Subject<'_, '_, '_>,
) -> Result<OtherRepresentations, AllocError>
    ensures { IfOk result (λ others. others
        ≡ tried.representations_by (judged_of subject.now) (Kind.SimpleElement simple) (primitive_of (judged_of subject.now))) }
{
    match bounded_primitive(alloc, subject)? {
        Some(primitive) => of_primitive(alloc, simple, subject, &primitive),
        None => Ok(no_representations()),
    }
}

/// The same of one with this primitive.
fn of_primitive(
    alloc: Global,
    simple: Simple,
    subject: &Subject<'_, '_, '_>,
    primitive: &Primitive,
) -> Result<OtherRepresentations, AllocError>
    requires { IsPrimitive primitive.now }
    ensures { IfOk result (λ others. others ≡ tried.representations_with (judged_of subject.now) simple primitive.now) }
{
    let size = size_of(primitive);
    let nil = nil_of(alloc, simple, subject, primitive)?;
    let required = empty_with(alloc, simple, subject, size, subject.facts.default)?;
    let where_tried = empty_with(alloc, simple, subject, size, None)?;
    Ok(OtherRepresentations {
        nil,
        required,
        where_tried,
    })
}

/// The empty representation of an occurrence with this size and this default.
fn empty_with(
    alloc: Global,
    simple: Simple,
    subject: &Subject<'_, '_, '_>,
    size: TextSize,
    default: Option<&str>,
) -> Result<EmptyRepresentation, AllocError>
    ensures { IfOk result (λ empty. empty ≡ tried.empty_with (judged_of subject.now) simple size (option_copied default.entry)) }
{
    let empty = empty_of(alloc, simple, subject, size, default)?;
    let refuses_empty = refuses_empty(alloc, simple, subject, size, default)?;
    Ok(EmptyRepresentation {
        empty,
        refuses_empty,
        are_several: are_several(subject, default),
    })
}

/// Whether more than one representation can be tried of an occurrence with this default, though it may always give way.
fn are_several(subject: &Subject<'_, '_, '_>, default: Option<&str>) -> bool
    ensures { result ≡ tried.are_several (judged_of subject.now) (option_copied default.entry) }
{
    is_nillable(subject)
        || is_string_or_bytes(subject.kind)
        || default.is_some()
        || is_empty_delimited(subject)
}

/// The nil representation of an element of a type with this primitive, where it may be nil.
fn nil_of(
    alloc: Global,
    simple: Simple,
    subject: &Subject<'_, '_, '_>,
    primitive: &Primitive,
) -> Result<Option<Primitive>, AllocError>
    ensures { IfOk result (λ nil. nil ≡ tried.nil_of (judged_of subject.now) simple primitive.now) }
{
    if is_nil_by_value(subject) {
        nil_of_values(alloc, simple, subject)
    } else {
        nil_of_texts(alloc, subject, primitive)
    }
}

/// Nil in place of the values of a type that stand for it.
fn nil_of_values(
    alloc: Global,
    simple: Simple,
    subject: &Subject<'_, '_, '_>,
) -> Result<Option<Primitive>, AllocError>
    ensures { IfOk result (λ nil. nil ≡ option_map tried.nil_in (nil_values (judged_of subject.now) simple)) }
{
    match nil_values(alloc, simple, subject)? {
        Some(values) => Ok(Some(Primitive::NilValues(NilValues {
            values: ValueList::from_vec(values),
        }))),
        None => Ok(None),
    }
}

/// Nil in the box of a primitive, by the texts that stand for it.
fn nil_of_texts(
    alloc: Global,
    subject: &Subject<'_, '_, '_>,
    primitive: &Primitive,
) -> Result<Option<Primitive>, AllocError>
    ensures { IfOk result (λ nil. nil ≡ option_and_then (tried.nil_by primitive.now) (nil_form_of (judged_of subject.now))) }
{
    match nil_form_of(alloc, subject)? {
        Some(nil) => Ok(nil_by(primitive, nil)),
        None => Ok(None),
    }
}

/// Nil in the box of a primitive; a primitive that is no component's own has none.
fn nil_by(primitive: &Primitive, nil: NilForm) -> Option<Primitive>
    ensures { result ≡ tried.nil_by primitive.now nil }
{
    match primitive {
        Primitive::Integer(form) => Some(nil_octets(nil, u64::from(form.bits), form.bits_by)),
        Primitive::Packed(form) => {
            Some(nil_octets(nil, 4 * u64::from(form.nibbles), form.bits_by))
        }
        Primitive::Truth(form) => Some(nil_octets(nil, u64::from(form.bits), form.bits_by)),
        Primitive::Octets(form) => Some(nil_octets(nil, form.bits, form.bits_by)),
        Primitive::Text(form) => Some(Primitive::Text(nil_text(nil, form))),
        Primitive::NilOctets(_)
        | Primitive::Default(_)
        | Primitive::NilValues(_)
        | Primitive::Pattern(_) => None,
    }
}

/// Nil in a box of so many bits, in this order.
fn nil_octets(nil: NilForm, bits: u64, bits_by: BitOrder) -> Primitive
    ensures { result ≡ tried.nil_octets nil bits bits_by }
{
    Primitive::NilOctets(NilOctets {
        octets: OctetForm { bits, bits_by },
        nil,
    })
}

/// Nil in place of what a text is read as.
fn nil_text(nil: NilForm, form: &TextForm) -> TextForm
    ensures { result ≡ tried.nil_text nil form.now }
{
    TextForm {
        encoding: form.encoding,
        replaces: form.replaces,
        size: form.size,
        pad: nil_pad(&nil.texts, form.pad),
        content: TextContent::Nil(nil),
    }
}

/// What is trimmed before a text is compared with those of nil.
fn nil_pad(texts: &NilTexts, pad: PadForm) -> PadForm
    ensures { result ≡ tried.nil_pad texts.now pad }
{
    match texts {
        NilTexts::Literals(_) => pad,
        NilTexts::Character(_) | NilTexts::Byte(_) => PadForm { trim: None, ..pad },
    }
}

/// Whether a box of a size has nothing in it.
fn is_nothing(size: TextSize) -> bool
    ensures { result ≡ tried.is_nothing size }
{
    match size {
        TextSize::Bits(count) | TextSize::Characters(count) => count == 0,
        TextSize::Delimited(_) => false,
    }
}

/// Whether a box of a size can be empty.
fn can_be_empty(subject: &Subject<'_, '_, '_>, size: TextSize) -> bool
    ensures { result ≡ tried.can_be_empty (judged_of subject.now) size }
{
    is_sized_by_data(subject) || is_nothing(size)
}

/// No text, which means nothing, where a delimiter shows that the element is empty.
fn no_text(alloc: Global, is_delimited: bool) -> Result<Option<Value>, AllocError>
    ensures { IfOk result (λ value. value ≡ tried.no_text is_delimited) }
{
    if !is_delimited {
        return Ok(None);
    }
    let text = TextValue::from_str(alloc, "")?;
    Ok(Some(Value::Text(text)))
}

/// What is told of no bits at an occurrence of a type with this default, if anything is.
fn told_of_nothing(
    alloc: Global,
    simple: Simple,
    subject: &Subject<'_, '_, '_>,
    default: Option<&str>,
) -> Result<Option<Value>, AllocError>
    ensures { IfOk result (λ value. value ≡ tried.told_of_nothing (judged_of subject.now) simple (option_copied default.entry)) }
{
    match empty_value(alloc, simple, default)? {
        Some(value) => Ok(Some(value)),
        None => no_text(alloc, is_empty_delimited(subject)),
    }
}

/// Whether an occurrence with this size and this default is refused where its empty representation is found.
fn refuses_empty(
    alloc: Global,
    simple: Simple,
    subject: &Subject<'_, '_, '_>,
    size: TextSize,
    default: Option<&str>,
) -> Result<bool, AllocError>
    ensures { IfOk result (λ refuses. refuses ≡ tried.refuses_empty (judged_of subject.now) simple size (option_copied default.entry)) }
{
    if !can_be_empty(subject, size) || !is_empty_delimited(subject) {
        return Ok(false);
    }
    let value = empty_value(alloc, simple, default)?;
    Ok(value.is_none())
}

/// The empty representation of an occurrence with this size and this default, where anything is told of no bits.
fn empty_of(
    alloc: Global,
    simple: Simple,
    subject: &Subject<'_, '_, '_>,
    size: TextSize,
    default: Option<&str>,
) -> Result<Option<Primitive>, AllocError>
    ensures { IfOk result (λ empty. empty ≡ tried.empty_of (judged_of subject.now) simple size (option_copied default.entry)) }
{
    if !can_be_empty(subject, size) {
        return Ok(None);
    }
    let value = told_of_nothing(alloc, simple, subject, default)?;
    Ok(default_in(size, value))
}

/// No bits in a box of a size, or up to what delimits them, which stand for a value, if there is one.
fn default_in(size: TextSize, value: Option<Value>) -> Option<Primitive>
    ensures { result ≡ option_map (tried.default_in size) value }
{
    match value {
        Some(value) => Some(Primitive::Default(DefaultForm { size, value })),
        None => None,
    }
}
