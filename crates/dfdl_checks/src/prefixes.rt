// How the length prefix of a component lies in the data.
ghost use Rattle.std.specs.Prelude.{◌≡◌, ◌≤◌, ℕ, IfOk, IfSome, Some, None, false, option_map, option_and_then, codes};
ghost use Rattle.std.specs.Option.{option_map_or};
ghost use Rattle.dfdl_forms.specs.Types.{form_of};
ghost use Rattle.dfdl_checks.specs.JudgedShown.{judged_of, prefix_judged_of};
ghost use Rattle.dfdl_checks.specs.Numbers.{primitive_of};
ghost use Rattle.dfdl_checks.specs.Prefixes as prefixes;
ghost use Rattle.dfdl_scope.specs.Scoping.{told};
ghost use Rattle.dfdl_scope.specs.Shown.{chain_of};
ghost use Rattle.dfdl_scope.specs.Told.{told_by};
ghost use Rattle.dfdl_terms.specs.Rows.{IsPrimitive, most_length};

use crate::encodings::encoding_told;
use crate::laws::primitives_are_bounded;
use crate::number::primitive;
use crate::occurring::Bounds;
use crate::purpose::Purpose;
use crate::representations::{is_prefixed, is_word};
use crate::subject::{Facts, Kind, PrefixType, Standing, Subject};
use dfdl_forms::{Encoding, Form, Simple};
use dfdl_scope::{Asked, Component, is_expression, property};
use dfdl_terms::{LengthUnit, Primitive, TextSize};
use std::alloc::{AllocError, Global};

/// How a length prefix lies in the data ('Lengths', on lengthKind prefixed).
#[derive(Debug, Drop)]
pub struct PrefixForm {
    pub primitive: Primitive,
    /// What it counts.
    pub unit: LengthUnit,
    /// So many of the units that it counts are its own.
    pub own: u64,
}

/// What the type of a prefix states: nothing.
const NO_FACTS: Facts<'static> = Facts {
    bounds: Bounds {
        least: 1,
        most: Some(1),
    },
    is_nillable: false,
    default: None,
    opens_instances: false,
    is_local: false,
    is_empty: false,
    min_length: None,
    max_length: None,
};

/// The type of a prefix stands in no group.
const NOWHERE: Standing = Standing {
    is_initiated: false,
    needs_bound: false,
    needs_key: false,
    repeats_key: false,
    resolves: false,
};

/// How the prefix of an element lies in the data, and how many units of its own it counts; nothing for every other
/// component, and for unparsing.
pub fn prefix(
    alloc: Global,
    subject: &Subject<'_, '_, '_>,
) -> Result<Option<PrefixForm>, AllocError>
    ensures { IfOk result (λ form. form ≡ prefixes.prefix_of (judged_of subject.now)) }
{
    match subject.purpose {
        Purpose::Parsing => parsed_prefix(alloc, subject),
        Purpose::Unparsing => Ok(None),
    }
}

/// The same for parsing.
fn parsed_prefix(
    alloc: Global,
    subject: &Subject<'_, '_, '_>,
) -> Result<Option<PrefixForm>, AllocError>
    ensures { IfOk result (λ form. form ≡ prefixes.prefix_for Purpose.Parsing (judged_of subject.now)) }
{
    match prefix_subject(subject) {
        Some(prefix) => form_of_type(alloc, subject, &prefix),
        None => Ok(None),
    }
}

/// Whether it is an integer type.
fn is_integer_type(simple: Option<Simple>) -> bool
    ensures { result ≡ prefixes.is_integer_type simple }
{
    match simple {
        Some(simple) => is_integer(simple),
        None => false,
    }
}

/// Whether values of a type are integers.
fn is_integer(simple: Simple) -> bool
    ensures { result ≡ prefixes.is_integer (form_of simple) }
{
    match simple.form() {
        Form::Signed { .. } | Form::Unsigned { .. } => true,
        _ => false,
    }
}

/// The type of a component's prefix, where it has one of an integer type.
pub(crate) fn prefix_subject<'s, 'e, 'c>(
    subject: &Subject<'s, 'e, 'c>,
) -> Option<Subject<'s, 'e, 'c>>
    ensures { option_map judged_of result ≡ prefixes.prefix_subject (judged_of subject.now) }
{
    if !is_prefixed(subject) {
        return None;
    }
    match subject.prefix {
        Some(prefix) => judged_integer(subject, prefix),
        None => None,
    }
}

/// A prefix of this type, where it is an integer type.
fn judged_integer<'s, 'e, 'c>(
    subject: &Subject<'s, 'e, 'c>,
    prefix: PrefixType<'s, 'e, 'c>,
) -> Option<Subject<'s, 'e, 'c>>
    ensures { option_map judged_of result
        ≡ option_and_then (prefixes.judged_integer (judged_of subject.now)) (prefix_judged_of (Some prefix.entry)) }
{
    match prefix.simple {
        Some(simple) if is_integer(simple) => Some(Subject {
            purpose: subject.purpose,
            kind: Kind::PrefixNumber(simple),
            place: prefix.place,
            chain: prefix.chain,
            facts: NO_FACTS,
            root_bits_by: subject.root_bits_by,
            prefix: None,
            scheme: prefix.scheme,
            pattern_is_refused: false,
            tests: &[],
            sets_variables: false,
            standing: NOWHERE,
            group_is_unknown: false,
        }),
        _ => None,
    }
}

/// Whether a name is told.
pub(crate) fn is_name_told(told: Asked<'_>) -> bool
    ensures { result ≡ prefixes.is_name_told (told_by told.entry) }
{
    match told {
        Asked::Given(written) => !is_expression(written),
        Asked::Absent => false,
        Asked::Twice { .. } => false,
    }
}

/// Whether a length that is told isn't by an expression.
fn is_constant_told(told: Asked<'_>) -> bool
    ensures { result ≡ prefixes.is_constant_told (told_by told.entry) }
{
    match told {
        Asked::Given(written) => !is_expression(written),
        Asked::Absent => true,
        Asked::Twice { .. } => true,
    }
}

/// Whether the length of a prefix is its own, by a number, or that of its type.
fn has_constant_length(prefix: PrefixType<'_, '_, '_>) -> bool
    ensures { result ≡ option_map_or prefixes.has_constant_length (prefix_judged_of (Some prefix.entry)) false }
{
    is_word(prefix.chain, "lengthKind", "implicit")
        || (is_word(prefix.chain, "lengthKind", "explicit")
            && is_constant_told(property(prefix.chain, "length")))
}

/// Whether a type can't be that of a prefix.
pub(crate) fn is_no_prefix_type(prefix: Option<PrefixType<'_, '_, '_>>) -> bool
    ensures { result ≡ prefixes.is_no_prefix_type (prefix_judged_of prefix.entry) }
{
    match prefix {
        Some(prefix) => !(is_integer_type(prefix.simple) && has_constant_length(prefix)),
        None => false,
    }
}

/// What the length counts that a chain gives: bytes where it gives nothing.
pub(crate) fn unit_told(chain: &Component<'_, '_>) -> LengthUnit
    ensures { result ≡ prefixes.unit_told (told (chain_of chain.now) (codes "lengthUnits")) }
{
    if is_word(chain, "lengthUnits", "bits") {
        return LengthUnit::Bits;
    }
    if is_word(chain, "lengthUnits", "characters") {
        return LengthUnit::Characters;
    }
    LengthUnit::Bytes
}

/// Whether a component's length counts the prefix itself.
fn counts_prefix(subject: &Subject<'_, '_, '_>) -> bool
    ensures { result ≡ prefixes.counts_prefix (judged_of subject.now) }
{
    is_word(subject.chain, "prefixIncludesPrefixLength", "yes")
}

/// How long the fields of a primitive are; what is no component's own may have none.
pub(crate) fn size_of(primitive: &Primitive) -> TextSize
    requires { IsPrimitive primitive.now }
    ensures size { result ≡ prefixes.size_of primitive.now }
    ensures few { (n : ℕ) → result ≡ TextSize.Characters n → n ≤ most_length }
{
    match primitive {
        Primitive::Integer(form) => TextSize::Bits(u64::from(form.bits)),
        Primitive::Packed(form) => TextSize::Bits(4 * u64::from(form.nibbles)),
        Primitive::Truth(form) => TextSize::Bits(u64::from(form.bits)),
        Primitive::Octets(form) => TextSize::Bits(form.bits),
        Primitive::Text(form) => form.size,
        Primitive::NilOctets(form) => TextSize::Bits(form.octets.bits),
        Primitive::Default(form) => form.size,
        Primitive::NilValues(_) | Primitive::Pattern(_) => TextSize::Bits(0),
    }
}

/// Whether each character of an encoding is one byte.
fn is_of_bytes(encoding: Option<Encoding>) -> bool
    ensures { result ≡ prefixes.is_of_bytes encoding }
{
    match encoding {
        Some(Encoding::UsAscii | Encoding::Iso88591) => true,
        _ => false,
    }
}

/// The bytes of so many bits, where they are whole.
fn whole_bytes(bits: u64) -> Option<u64>
    ensures { result ≡ prefixes.units_in LengthUnit.Bytes None (TextSize.Bits bits) }
{
    if bits % 8 == 0 { Some(bits / 8) } else { None }
}

/// How many units a size is, where it is a whole number of them.
fn units_in(unit: LengthUnit, encoding: Option<Encoding>, size: TextSize) -> Option<u64>
    requires { (n : ℕ) → size ≡ TextSize.Characters n → n ≤ most_length }
    ensures { result ≡ prefixes.units_in unit encoding size }
{
    match (unit, size) {
        (LengthUnit::Bits, TextSize::Bits(bits)) => Some(bits),
        (LengthUnit::Bytes, TextSize::Bits(bits)) => whole_bytes(bits),
        (LengthUnit::Characters, TextSize::Bits(_)) => None,
        (LengthUnit::Bits, TextSize::Characters(count)) => {
            if is_of_bytes(encoding) {
                Some(8 * count)
            } else {
                None
            }
        }
        (LengthUnit::Bytes, TextSize::Characters(count)) => {
            if is_of_bytes(encoding) {
                Some(count)
            } else {
                None
            }
        }
        (LengthUnit::Characters, TextSize::Characters(count)) => Some(count),
        (_, TextSize::Delimited(_)) => None,
    }
}

/// How many of the units that a component's length counts are the prefix's own, where it lies so in the data.
fn own_units(
    subject: &Subject<'_, '_, '_>,
    prefix: &Subject<'_, '_, '_>,
    primitive: &Primitive,
) -> Option<u64>
    requires { IsPrimitive primitive.now }
    ensures { result ≡ prefixes.own_units (judged_of subject.now) (judged_of prefix.now) primitive.now }
{
    if !counts_prefix(subject) {
        return Some(0);
    }
    units_in(
        unit_told(subject.chain),
        encoding_told(property(prefix.chain, "encoding")),
        size_of(primitive),
    )
}

/// How the values of a component lie in the data, by a primitive that keeps the bounds of its type.
pub(crate) fn bounded_primitive(
    alloc: Global,
    subject: &Subject<'_, '_, '_>,
) -> Result<Option<Primitive>, AllocError>
    ensures form { IfOk result (λ primitive. primitive ≡ primitive_of (judged_of subject.now)) }
    ensures bounded { IfOk result (λ primitive. IfSome primitive IsPrimitive) }
{
    primitives_are_bounded();
    primitive(alloc, subject)
}

/// Whether the own units of a prefix of this type are no whole number.
pub(crate) fn is_not_whole(
    alloc: Global,
    subject: &Subject<'_, '_, '_>,
    prefix: &Subject<'_, '_, '_>,
) -> Result<bool, AllocError>
    ensures { IfOk result (λ is. is ≡ prefixes.is_not_whole (judged_of subject.now) (judged_of prefix.now)) }
{
    match bounded_primitive(alloc, prefix)? {
        Some(primitive) => Ok(own_units(subject, prefix, &primitive).is_none()),
        None => Ok(false),
    }
}

/// The prefix of this type.
fn form_of_type(
    alloc: Global,
    subject: &Subject<'_, '_, '_>,
    prefix: &Subject<'_, '_, '_>,
) -> Result<Option<PrefixForm>, AllocError>
    ensures { IfOk result (λ form. form ≡ prefixes.form_of_type (judged_of subject.now) (judged_of prefix.now)) }
{
    match bounded_primitive(alloc, prefix)? {
        Some(primitive) => Ok(form_by(subject, prefix, primitive)),
        None => Ok(None),
    }
}

/// The prefix of this type, by how it lies in the data.
fn form_by(
    subject: &Subject<'_, '_, '_>,
    prefix: &Subject<'_, '_, '_>,
    primitive: Primitive,
) -> Option<PrefixForm>
    requires { IsPrimitive primitive }
    ensures { result ≡ prefixes.form_by (judged_of subject.now) (judged_of prefix.now) primitive }
{
    match own_units(subject, prefix, &primitive) {
        Some(own) => Some(PrefixForm {
            primitive,
            unit: unit_told(subject.chain),
            own,
        }),
        None => None,
    }
}
