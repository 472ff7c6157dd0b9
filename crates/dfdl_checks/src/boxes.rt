// The boxes of texts, of elements of type hexBinary and of complex elements.
ghost use Rattle.std.specs.Prelude.{◌≡◌, ◌≤◌, ◌*◌, Some, IfSome, is_some, codes};
ghost use Rattle.dfdl_terms.specs.Rows.{most_length};
ghost use Rattle.dfdl_checks.specs.Boxes as boxes;
ghost use Rattle.dfdl_checks.specs.JudgedShown.{judged_of};
ghost use Rattle.dfdl_checks.specs.Lengths as lengths;
ghost use Rattle.dfdl_scope.specs.Told.{told_by};

use crate::encodings::{character_bits, encoding_told};
use crate::kinds::{is_complex, is_string, is_string_or_bytes};
use crate::lengths::unit_bits;
use crate::purpose::Purpose;
use crate::representations::{
    is_boxed, is_by_expression, is_explicit, is_sized_by_data, is_text, is_word,
};
use crate::subject::Subject;
use crate::values::is_number;
use dfdl_scope::{Asked, literal, property};

/// The greatest constant length, in bits.
const MOST_LENGTH: u128 = 8589934592;

/// How many bits the box has around the content of a complex element with a constant length of its own, at most
/// 2^33; nothing for every other component, for a box that is longer, and for unparsing ('Lengths').
/// Takes no memory.
pub fn size_of_box(subject: &Subject<'_, '_, '_>) -> Option<u64>
    ensures { result ≡ boxes.size_of_box (judged_of subject.now) }
{
    match subject.purpose {
        Purpose::Parsing => parsed_size(subject),
        Purpose::Unparsing => None,
    }
}

/// The same for parsing.
fn parsed_size(subject: &Subject<'_, '_, '_>) -> Option<u64>
    ensures { result ≡ boxes.size_for Purpose.Parsing (judged_of subject.now) }
{
    if is_explicit_complex(subject) {
        box_bits(subject)
    } else {
        None
    }
}

/// Whether it is a complex element with a length of its own that is constant.
fn is_explicit_complex(subject: &Subject<'_, '_, '_>) -> bool
    ensures { result ≡ boxes.is_explicit_complex (judged_of subject.now) }
{
    is_complex(subject.kind) && is_explicit(subject) && !is_by_expression(subject)
}

/// Whether it is an element with a box and a length of its own.
pub(crate) fn is_explicit_box(subject: &Subject<'_, '_, '_>) -> bool
    ensures { result ≡ boxes.is_explicit_box (judged_of subject.now) }
{
    is_boxed(subject) && is_explicit(subject)
}

/// Whether it is a string, or an element of type hexBinary, with the length of its type.
pub(crate) fn is_implicit_box(subject: &Subject<'_, '_, '_>) -> bool
    ensures { result ≡ boxes.is_implicit_box (judged_of subject.now) }
{
    is_string_or_bytes(subject.kind) && is_word(subject.chain, "lengthKind", "implicit")
}

/// Whether it is a string with the length of its type.
pub(crate) fn is_implicit_string(subject: &Subject<'_, '_, '_>) -> bool
    ensures { result ≡ boxes.is_implicit_string (judged_of subject.now) }
{
    is_string(subject.kind) && is_word(subject.chain, "lengthKind", "implicit")
}

/// Whether the length of a box is counted in characters.
pub(crate) fn is_in_characters(subject: &Subject<'_, '_, '_>) -> bool
    ensures { result ≡ boxes.is_in_characters (judged_of subject.now) }
{
    is_text(subject) && is_word(subject.chain, "lengthUnits", "characters")
}

/// Whether a component has a box by a length of its own or that of its type, and the box is past the
/// greatest length.
pub(crate) fn is_box_too_long(subject: &Subject<'_, '_, '_>) -> bool
    ensures { result ≡ boxes.is_box_too_long (judged_of subject.now) }
{
    (is_explicit_box(subject) || is_implicit_box(subject)) && is_past_most(subject)
}

/// Whether a number of units is told, and they are past the greatest length.
fn is_past_most(subject: &Subject<'_, '_, '_>) -> bool
    ensures { result ≡ boxes.is_past_most (judged_of subject.now) }
{
    has_number(subject) && box_units(subject).is_none()
}

/// Whether a number of units is told, or the data tell one.
fn has_number(subject: &Subject<'_, '_, '_>) -> bool
    ensures { result ≡ is_some (boxes.box_number (judged_of subject.now)) }
{
    if is_sized_by_data(subject) {
        return true;
    }
    if is_explicit(subject) {
        return is_number_told(property(subject.chain, "length"));
    }
    subject.facts.max_length.is_some()
}

/// Whether a number is told.
fn is_number_told(told: Asked<'_>) -> bool
    ensures { result ≡ is_some (lengths.number_told (told_by told.entry)) }
{
    match told {
        Asked::Given(written) => is_number(literal(written)),
        Asked::Absent => false,
        Asked::Twice { .. } => false,
    }
}

/// How many bits a box has, where they aren't past the greatest length.
pub(crate) fn box_bits(subject: &Subject<'_, '_, '_>) -> Option<u64>
    ensures { result ≡ boxes.box_bits (judged_of subject.now) }
{
    match box_units(subject) {
        Some(units) => Some(units * u64::from(box_unit(subject))),
        None => None,
    }
}

/// How many units a box has, where they aren't past the greatest length.
pub(crate) fn box_units(subject: &Subject<'_, '_, '_>) -> Option<u64>
    ensures units { result ≡ boxes.box_units (judged_of subject.now) }
    ensures few { IfSome result (λ n. n * boxes.box_unit (judged_of subject.now) ≤ most_length) }
{
    let unit = box_unit(subject);
    if is_sized_by_data(subject) {
        return units_within(unit, 0);
    }
    if is_explicit(subject) {
        return units_told(unit, property(subject.chain, "length"));
    }
    match subject.facts.max_length {
        Some(number) => units_within(unit, number),
        None => None,
    }
}

/// How many bits a unit of a box has.
pub(crate) fn box_unit(subject: &Subject<'_, '_, '_>) -> u32
    ensures unit { result ≡ boxes.box_unit (judged_of subject.now) }
    ensures some { 1 ≤ result }
    ensures few { result ≤ 16 }
{
    if counts_units(subject) {
        told_unit(subject)
    } else {
        8
    }
}

/// Whether the length of a box is told in the units of the component.
fn counts_units(subject: &Subject<'_, '_, '_>) -> bool
    ensures { result ≡ boxes.counts_units (judged_of subject.now) }
{
    is_text(subject) || is_explicit(subject)
}

/// How many bits a unit of the units has that are told.
fn told_unit(subject: &Subject<'_, '_, '_>) -> u32
    ensures unit { result ≡ boxes.told_unit (judged_of subject.now) }
    ensures some { 1 ≤ result }
    ensures few { result ≤ 16 }
{
    if is_in_characters(subject) {
        character_bits(encoding_told(property(subject.chain, "encoding")))
    } else {
        unit_bits(subject.chain)
    }
}

/// The number of units that is told, where they aren't past the greatest length.
fn units_told(unit: u32, told: Asked<'_>) -> Option<u64>
    requires some { 1 ≤ unit }
    requires few { unit ≤ 16 }
    ensures units { result ≡ boxes.units_within unit (lengths.number_told (told_by told.entry)) }
    ensures few { IfSome result (λ n. n * unit ≤ most_length) }
{
    match told {
        Asked::Given(written) => units_of_digits(unit, literal(written)),
        Asked::Absent => None,
        Asked::Twice { .. } => None,
    }
}

/// The number of units that digits stand for, where they aren't past the greatest length.
fn units_of_digits(unit: u32, text: &str) -> Option<u64>
    requires some { 1 ≤ unit }
    requires few { unit ≤ 16 }
    ensures units { result ≡ boxes.units_within unit (lengths.number_of_digits text.now) }
    ensures few { IfSome result (λ n. n * unit ≤ most_length) }
{
    if !is_number(text) {
        return None;
    }
    match text.parse::<u64>() {
        Ok(number) => units_within(unit, number),
        Err(_) => None,
    }
}

/// A number of units, where they aren't past the greatest length.
fn units_within(unit: u32, number: u64) -> Option<u64>
    requires some { 1 ≤ unit }
    requires few { unit ≤ 16 }
    ensures units { result ≡ boxes.units_within unit (Some number) }
    ensures few { IfSome result (λ n. n * unit ≤ most_length) }
{
    if u128::from(number) * u128::from(unit) <= MOST_LENGTH {
        Some(number)
    } else {
        None
    }
}
