// The rules on lengths.
ghost use Rattle.std.specs.Prelude.{◌≡◌, IfOk};
ghost use Rattle.dfdl_checks.specs.JudgedShown.{judged_of};
ghost use Rattle.dfdl_checks.specs.Rules as spec;

use crate::boxes::{is_box_too_long, is_implicit_box};
use crate::kinds::value_bits;
use crate::lengths::{constant_size, has_constant_length};
use crate::packed::{constant_nibbles, rep_of};
use crate::prefixes::{is_name_told, is_no_prefix_type, is_not_whole, prefix_subject};
use crate::representations::{
    is_binary, is_binary_boolean, is_binary_number, is_boxed, is_explicit, is_explicit_binary,
    is_prefixed, is_text, is_text_boolean, is_text_number, is_word,
};
use crate::subject::{Kind, Subject};
use dfdl_forms::Simple;
use dfdl_scope::property;
use std::alloc::{AllocError, Global};

/// Whether it is a string, or an element of type hexBinary, with the length of its type, which has no
/// greatest length.
pub(crate) fn is_max_length_missing(subject: &Subject<'_, '_, '_>) -> bool
    ensures { result ≡ spec.is_max_length_missing (judged_of subject.now) }
{
    is_implicit_box(subject) && subject.facts.max_length.is_none()
}

/// Whether it is a number or boolean with a kind of length that it can't have.
pub(crate) fn is_length_kind_not_allowed(subject: &Subject<'_, '_, '_>) -> bool
    ensures { result ≡ spec.is_length_kind_not_allowed (judged_of subject.now) }
{
    is_number_length_not_allowed(subject)
        || is_delimited_boolean(subject)
        || is_text_without_size(subject)
}

/// Whether it is a text number or boolean with the length of its type.
fn is_text_without_size(subject: &Subject<'_, '_, '_>) -> bool
    ensures { result ≡ spec.is_text_without_size (judged_of subject.now) }
{
    (is_text_number(subject) || is_text_boolean(subject))
        && is_word(subject.chain, "lengthKind", "implicit")
}

/// Whether it is a binary number of delimited length, with a length by a pattern, or with the length
/// of a type that has none.
fn is_number_length_not_allowed(subject: &Subject<'_, '_, '_>) -> bool
    ensures { result ≡ spec.is_number_length_not_allowed (judged_of subject.now) }
{
    is_binary_number(subject) && (is_length_by_content(subject) || is_length_without_size(subject))
}

/// Whether it is a binary boolean of delimited length.
fn is_delimited_boolean(subject: &Subject<'_, '_, '_>) -> bool
    ensures { result ≡ spec.is_delimited_boolean (judged_of subject.now) }
{
    is_binary_boolean(subject) && is_word(subject.chain, "lengthKind", "delimited")
}

/// Whether the length is delimited or by a pattern.
fn is_length_by_content(subject: &Subject<'_, '_, '_>) -> bool
    ensures { result ≡ spec.is_length_by_content (judged_of subject.now) }
{
    is_word(subject.chain, "lengthKind", "delimited")
        || is_word(subject.chain, "lengthKind", "pattern")
}

/// Whether the length is that of the type, and the type has none or the number is packed.
fn is_length_without_size(subject: &Subject<'_, '_, '_>) -> bool
    ensures { result ≡ spec.is_length_without_size (judged_of subject.now) }
{
    (is_unsized(subject.kind) || rep_of(subject).is_some())
        && is_word(subject.chain, "lengthKind", "implicit")
}

/// Whether numbers of an element's type have no size of their own.
fn is_unsized(kind: Kind) -> bool
    ensures { result ≡ spec.is_unsized kind }
{
    match kind {
        Kind::SimpleElement(Simple::Integer | Simple::NonNegativeInteger | Simple::Decimal) => true,
        Kind::PrefixNumber(Simple::Integer | Simple::NonNegativeInteger) => true,
        _ => false,
    }
}

/// Whether it has a length of its own or a length prefix.
fn is_length_told(subject: &Subject<'_, '_, '_>) -> bool
    ensures { result ≡ spec.is_length_told (judged_of subject.now) }
{
    is_explicit(subject) || is_prefixed(subject)
}

/// Whether it has such a length and no characters.
fn is_without_characters(subject: &Subject<'_, '_, '_>) -> bool
    ensures { result ≡ spec.is_without_characters (judged_of subject.now) }
{
    is_length_told(subject) && (is_binary(subject) || (is_boxed(subject) && !is_text(subject)))
}

/// Whether what is no text has a length that is counted in characters.
pub(crate) fn is_length_in_characters(subject: &Subject<'_, '_, '_>) -> bool
    ensures { result ≡ spec.is_length_in_characters (judged_of subject.now) }
{
    is_without_characters(subject) && is_word(subject.chain, "lengthUnits", "characters")
}

/// Whether a constant length is one that the field of a component can't have, or its box.
pub(crate) fn is_length_out_of_range(subject: &Subject<'_, '_, '_>) -> bool
    ensures { result ≡ spec.is_length_out_of_range (judged_of subject.now) }
{
    is_field_out_of_range(subject) || is_box_too_long(subject)
}

/// Whether it is a binary number or boolean with a constant length that its field can't have.
fn is_field_out_of_range(subject: &Subject<'_, '_, '_>) -> bool
    ensures { result ≡ spec.is_field_out_of_range (judged_of subject.now) }
{
    is_explicit_binary(subject) && is_no_size(subject)
}

/// Whether the length is constant, and the component's field can't have it.
fn is_no_size(subject: &Subject<'_, '_, '_>) -> bool
    ensures { result ≡ spec.is_no_size (judged_of subject.now) }
{
    has_constant_length(subject.chain) && !has_size(subject)
}

/// Whether the length is constant, and the component's field can have it.
fn has_size(subject: &Subject<'_, '_, '_>) -> bool
    ensures { result ≡ spec.has_size (judged_of subject.now) }
{
    match rep_of(subject) {
        Some(rep) => constant_nibbles(rep, subject.chain).is_some(),
        None => constant_size(value_bits(subject.kind), subject.chain).is_some(),
    }
}

/// Whether it has a length prefix whose type is named by nothing's name.
pub(crate) fn is_prefix_type_missing(subject: &Subject<'_, '_, '_>) -> bool
    ensures { result ≡ spec.is_prefix_type_missing (judged_of subject.now) }
{
    is_prefixed(subject)
        && is_name_told(property(subject.chain, "prefixLengthType"))
        && subject.prefix.is_none()
}

/// Whether it has a length prefix whose type is no integer type, or has a length that is neither constant nor of its
/// type.
pub(crate) fn is_prefix_type_not_allowed(subject: &Subject<'_, '_, '_>) -> bool
    ensures { result ≡ spec.is_prefix_type_not_allowed (judged_of subject.now) }
{
    is_prefixed(subject) && is_no_prefix_type(subject.prefix)
}

/// Whether its length prefix counts itself, and is no whole number of the units that it counts.
pub(crate) fn is_prefix_not_whole(
    alloc: Global,
    subject: &Subject<'_, '_, '_>,
) -> Result<bool, AllocError>
    ensures { IfOk result (λ broken. broken ≡ spec.is_prefix_not_whole (judged_of subject.now)) }
{
    match prefix_subject(subject) {
        Some(prefix) => is_not_whole(alloc, subject, &prefix),
        None => Ok(false),
    }
}
