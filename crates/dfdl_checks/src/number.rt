// How the values of a simple element lie in the data.
ghost use Rattle.std.specs.Prelude.{◌≡◌, None, IfOk, IsTrue, IsSome};
ghost use Rattle.dfdl_checks.specs.JudgedShown.{judged_of};
ghost use Rattle.dfdl_checks.specs.Numbers as numbers;
ghost use Rattle.dfdl_checks.specs.Rules.{first_breach, rules};
ghost use Rattle.dfdl_checks.specs.Subjects.{is_simple};
ghost use Rattle.dfdl_scope.specs.Told.{told_by};

use crate::booleans::{falsity_told, truth_told};
use crate::kinds::{has_point, is_octets, is_truths, most_bits};
use crate::laws::sound_elements_have_primitives;
use crate::lengths::constant_size;
use crate::orders::{Orders, orders_of};
use crate::packed::{codes_for, constant_nibbles, is_strict, rep_of};
use crate::purpose::Purpose;
use crate::representations::{is_explicit, is_sized_by_data, is_text};
use crate::rules::is_built_type;
use crate::subject::{Kind, Subject};
use crate::text::{octets_of, text_of};
use crate::values::is_within;
use dfdl_forms::{BitTruthForm, IntForm, PackedForm, PackedRep, Simple};
use dfdl_scope::{Asked, literal, property};
use dfdl_terms::Primitive;
use std::alloc::{AllocError, Global};

/// How the values of a component lie in the data, where they are of a type and of a size that are built:
/// each simple element without a breach has one, and so has the type of a prefix.
pub fn primitive(
    alloc: Global,
    subject: &Subject<'_, '_, '_>,
) -> Result<Option<Primitive>, AllocError>
    ensures form { IfOk result (λ primitive. primitive ≡ numbers.primitive_of (judged_of subject.now)) }
    ensures sound { IfOk result (λ primitive. first_breach rules (judged_of subject.now) ≡ None
        → IsTrue (is_simple subject.now.kind) → IsSome primitive) }
{
    sound_elements_have_primitives();
    of_kind(alloc, subject.kind, subject)
}

/// The same, for a component of a kind.
fn of_kind(
    alloc: Global,
    kind: Kind,
    subject: &Subject<'_, '_, '_>,
) -> Result<Option<Primitive>, AllocError>
    ensures { IfOk result (λ primitive. primitive ≡ numbers.primitive_of_kind (judged_of subject.now) kind) }
{
    match kind {
        Kind::SimpleElement(simple) | Kind::PrefixNumber(simple) => of_type(alloc, simple, subject),
        _ => Ok(None),
    }
}

/// The values of a component as those of the type, where it is built.
fn of_type(
    alloc: Global,
    simple: Simple,
    subject: &Subject<'_, '_, '_>,
) -> Result<Option<Primitive>, AllocError>
    ensures { IfOk result (λ primitive. primitive ≡ numbers.primitive_of_type (judged_of subject.now) simple) }
{
    if !is_built_type(subject.purpose, simple) {
        return Ok(None);
    }
    match subject.purpose {
        Purpose::Parsing => for_parsing(alloc, simple, subject),
        Purpose::Unparsing => Ok(number_of_type(simple, subject)),
    }
}

/// The values of a component as those of the type, as they are built for parsing.
fn for_parsing(
    alloc: Global,
    simple: Simple,
    subject: &Subject<'_, '_, '_>,
) -> Result<Option<Primitive>, AllocError>
    ensures { IfOk result (λ primitive. primitive ≡ numbers.primitive_parsed (judged_of subject.now) simple) }
{
    if is_text(subject) {
        return text_of(alloc, subject, simple);
    }
    if is_octets(simple) {
        return Ok(octets_of(subject));
    }
    Ok(binary_of_type(simple, subject))
}

/// The values of a component as those of the type, in binary.
fn binary_of_type(simple: Simple, subject: &Subject<'_, '_, '_>) -> Option<Primitive>
    ensures { result ≡ numbers.binary_of_type (judged_of subject.now) simple }
{
    if is_truths(simple) {
        return truth_of(subject);
    }
    match rep_of(subject) {
        Some(rep) => packed_of_type(simple, rep, subject),
        None => number_of_type(simple, subject),
    }
}

/// The values of a component as binary integers or decimals of the type.
fn number_of_type(simple: Simple, subject: &Subject<'_, '_, '_>) -> Option<Primitive>
    ensures { result ≡ numbers.number_of_type (judged_of subject.now) simple }
{
    number_by(
        simple,
        orders_of(subject),
        field_bits(subject, most_bits(simple)),
        places_of(simple, property(subject.chain, "binaryDecimalVirtualPoint")),
    )
}

/// A number of the type, in these orders, with so many bits and so many digits behind its point.
fn number_by(
    simple: Simple,
    orders: Orders,
    bits: Option<u32>,
    places: Option<u8>,
) -> Option<Primitive>
    ensures { result ≡ numbers.number_by simple orders bits places }
{
    match (bits, places) {
        (Some(bits), Some(point)) => Some(Primitive::Integer(IntForm {
            bits,
            bytes_by: orders.bytes_by,
            bits_by: orders.bits_by,
            point,
            kind: simple,
        })),
        _ => None,
    }
}

/// The values of a component as packed numbers of the type.
fn packed_of_type(
    simple: Simple,
    rep: PackedRep,
    subject: &Subject<'_, '_, '_>,
) -> Option<Primitive>
    ensures { result ≡ numbers.packed_of_type (judged_of subject.now) simple rep }
{
    packed_by(
        simple,
        rep,
        orders_of(subject),
        is_strict(rep, subject.chain),
        field_nibbles(rep, subject),
        codes_for(rep, property(subject.chain, "binaryPackedSignCodes")),
        places_of(simple, property(subject.chain, "binaryDecimalVirtualPoint")),
    )
}

/// A packed number, in these orders, with so many nibbles, these sign codes and so many digits behind its point.
fn packed_by(
    simple: Simple,
    rep: PackedRep,
    orders: Orders,
    strict: bool,
    nibbles: Option<u32>,
    codes: Option<[u8; 4]>,
    places: Option<u8>,
) -> Option<Primitive>
    ensures { result ≡ numbers.packed_by simple rep orders strict nibbles codes places }
{
    match (nibbles, codes, places) {
        (Some(nibbles), Some(codes), Some(point)) => Some(Primitive::Packed(PackedForm {
            nibbles,
            rep,
            codes,
            strict,
            point,
            kind: simple,
            bytes_by: orders.bytes_by,
            bits_by: orders.bits_by,
        })),
        _ => None,
    }
}

/// How many nibbles the field of a packed number has; one where the data tell them.
fn field_nibbles(rep: PackedRep, subject: &Subject<'_, '_, '_>) -> Option<u32>
    ensures { result ≡ numbers.field_nibbles (judged_of subject.now) rep }
{
    if is_sized_by_data(subject) {
        return Some(1);
    }
    if is_explicit(subject) {
        return constant_nibbles(rep, subject.chain);
    }
    None
}

/// The values of a component as booleans.
fn truth_of(subject: &Subject<'_, '_, '_>) -> Option<Primitive>
    ensures { result ≡ numbers.truth_of (judged_of subject.now) }
{
    truth_by(
        orders_of(subject),
        field_bits(subject, 32),
        truth_told(property(subject.chain, "binaryBooleanTrueRep")),
        falsity_told(property(subject.chain, "binaryBooleanFalseRep")),
    )
}

/// A boolean in these orders, with so many bits, a number of true, if there is one, and a number of false.
fn truth_by(
    orders: Orders,
    bits: Option<u32>,
    truth: Option<Option<u32>>,
    falsity: Option<u32>,
) -> Option<Primitive>
    ensures { result ≡ numbers.truth_by orders bits truth falsity }
{
    match (bits, truth, falsity) {
        (Some(bits), Some(truth), Some(falsity)) => Some(Primitive::Truth(BitTruthForm {
            bits,
            bytes_by: orders.bytes_by,
            bits_by: orders.bits_by,
            truth,
            falsity,
        })),
        _ => None,
    }
}

/// How many bits the field of a component has, whose type has at most so many.
fn field_bits(subject: &Subject<'_, '_, '_>, most: u32) -> Option<u32>
    ensures { result ≡ numbers.field_bits (judged_of subject.now) most }
{
    if is_sized_by_data(subject) {
        return Some(most);
    }
    if !is_explicit(subject) {
        return Some(most);
    }
    match subject.purpose {
        Purpose::Parsing => constant_size(most, subject.chain),
        Purpose::Unparsing => None,
    }
}

/// How many digits stand behind the virtual point of a number of the type.
fn places_of(simple: Simple, told: Asked<'_>) -> Option<u8>
    ensures { result ≡ numbers.places_of simple (told_by told.entry) }
{
    if has_point(simple) {
        places_told(told)
    } else {
        Some(0)
    }
}

/// How many digits stand behind a virtual point of which this is told, if a decimal can have so many.
fn places_told(told: Asked<'_>) -> Option<u8>
    ensures { result ≡ numbers.places_told (told_by told.entry) }
{
    match told {
        Asked::Given(written) => places_of_digits(literal(written)),
        Asked::Absent => Some(0),
        Asked::Twice { .. } => None,
    }
}

/// The number that digits stand for, if a decimal can have so many digits behind its point.
fn places_of_digits(text: &str) -> Option<u8>
    ensures { result ≡ numbers.places_of_digits text.now }
{
    if !is_within(0, 38, text) {
        return None;
    }
    match text.parse::<u8>() {
        Ok(places) => Some(places),
        Err(_) => None,
    }
}
