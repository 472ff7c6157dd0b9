// The rules on texts: on their pad characters, their patterns and separators, and their texts of true and false.
ghost use Rattle.std.specs.Prelude.{◌≡◌, ◌&&◌, IfOk, Some, is_some, not};
ghost use Rattle.dfdl_checks.specs.JudgedShown.{judged_of};
ghost use Rattle.dfdl_checks.specs.NumberTexts.{pattern_of, pattern_text};
ghost use Rattle.dfdl_checks.specs.Rules as spec;
ghost use Rattle.dfdl_forms.specs.NumberForms.{are_plain};
ghost use Rattle.dfdl_scope.specs.Told.{told_by};

use crate::boolean_texts::{
    are_truth_texts_outside, false_texts, is_list_malformed, is_list_other, true_texts,
};
use crate::delimiters::{is_delimiter_malformed, is_delimiter_not_encoded};
use crate::encodings::{encoding_told, is_other_encoding};
use crate::fill_bytes::is_fill_malformed;
use crate::keys::is_key_malformed;
use crate::kinds::is_decimal;
use crate::nils::{is_nil_malformed, is_nil_not_encoded};
use crate::number_texts::{
    base_of, decimal_at, grouping_at, is_pattern_told, pattern_in, pattern_told,
};
use crate::pads::{
    is_malformed, is_other, is_other_told, is_outside, is_pad_outside, is_padded_text, pad_at,
    single,
};
use crate::representations::{is_delimited_bytes, is_standard, is_text_boolean, is_zoned};
use crate::subject::{Kind, Subject};
use crate::zoned_texts::zoned_form_of;
use dfdl_forms::{NumberForm, NumberPattern, Rounding, Simple};
use dfdl_scope::{Asked, property};
use std::alloc::{AllocError, Global};

/// Whether a separator of a text number is no single character.
pub(crate) fn is_separator_other(subject: &Subject<'_, '_, '_>) -> bool
    ensures { result ≡ spec.is_separator_other (judged_of subject.now) }
{
    is_standard(subject)
        && (is_other_told(property(subject.chain, "textStandardDecimalSeparator"))
            || is_other_told(property(subject.chain, "textStandardGroupingSeparator")))
}

/// Whether the separators of a text number that its pattern uses are a digit, or the same.
pub(crate) fn are_separators_unfit(
    alloc: Global,
    subject: &Subject<'_, '_, '_>,
) -> Result<bool, AllocError>
    ensures { IfOk result (λ unfit. unfit ≡ spec.are_separators_unfit (judged_of subject.now)) }
{
    if !is_standard(subject) {
        return Ok(false);
    }
    let pattern = pattern_in(alloc, base_of(subject), subject)?;
    Ok(are_unfit(
        pattern,
        single(decimal_at(subject)),
        single(grouping_at(subject)),
    ))
}

/// Whether separators don't go with a pattern, where all are told.
fn are_unfit(pattern: Option<NumberPattern>, decimal: Option<char>, grouping: Option<char>) -> bool
    ensures { result ≡ spec.are_unfit pattern decimal grouping }
{
    match (pattern, decimal, grouping) {
        (Some(pattern), Some(decimal), Some(grouping)) => { !is_form(pattern, decimal, grouping) }
        _ => false,
    }
}

/// Whether a pattern and separators are those of some form in base ten.
fn is_form(pattern: NumberPattern, decimal: char, grouping: char) -> bool
    ensures { result ≡ are_plain (Some pattern) decimal grouping }
{
    let form = NumberForm::new(10, Some(pattern), decimal, grouping, Rounding::HalfEven);
    form.is_some()
}

/// Whether it is a text number of type decimal in another base than ten.
pub(crate) fn is_base_unfit(subject: &Subject<'_, '_, '_>) -> bool
    ensures { result ≡ spec.is_base_unfit (judged_of subject.now) }
{
    is_standard(subject) && is_decimal(subject.kind) && base_of(subject) != 10
}

/// Whether it is a text that is padded or trimmed, whose pad character's text is no string literal and no
/// list of them.
fn is_pad_malformed(subject: &Subject<'_, '_, '_>) -> bool
    ensures { result ≡ spec.is_pad_malformed (judged_of subject.now) }
{
    is_padded_text(subject) && is_malformed(pad_at(subject))
}

/// Whether it is a text number with such a separator.
fn is_separator_malformed(subject: &Subject<'_, '_, '_>) -> bool
    ensures { result ≡ spec.is_separator_malformed (judged_of subject.now) }
{
    is_standard(subject)
        && (is_malformed(decimal_at(subject)) || is_malformed(grouping_at(subject)))
}

/// Whether it is a text boolean whose texts are no list of string literals.
fn are_truth_texts_malformed(
    alloc: Global,
    subject: &Subject<'_, '_, '_>,
) -> Result<bool, AllocError>
    ensures { IfOk result (λ malformed. malformed ≡ spec.are_truth_texts_malformed (judged_of subject.now)) }
{
    if !is_text_boolean(subject) {
        return Ok(false);
    }
    let truths = true_texts(alloc, subject)?;
    let falses = false_texts(alloc, subject)?;
    Ok(is_list_malformed(&truths) || is_list_malformed(&falses))
}

/// Whether a string literal of a component is none.
pub(crate) fn is_literal_malformed(
    alloc: Global,
    subject: &Subject<'_, '_, '_>,
) -> Result<bool, AllocError>
    ensures { IfOk result (λ malformed. malformed ≡ spec.is_literal_malformed (judged_of subject.now)) }
{
    if is_pad_malformed(subject) || is_separator_malformed(subject) || is_fill_malformed(subject) {
        return Ok(true);
    }
    if are_truth_texts_malformed(alloc, subject)? {
        return Ok(true);
    }
    if is_nil_malformed(alloc, subject)? {
        return Ok(true);
    }
    if is_delimiter_malformed(alloc, subject)? {
        return Ok(true);
    }
    is_key_malformed(alloc, subject)
}

/// Whether it is a text that is padded or trimmed, whose encoding lacks its pad character.
fn is_pad_not_encoded(subject: &Subject<'_, '_, '_>) -> bool
    ensures { result ≡ spec.is_pad_not_encoded (judged_of subject.now) }
{
    is_padded_text(subject) && is_pad_outside(subject)
}

/// Whether it is a text number whose encoding lacks a separator.
fn is_separator_not_encoded(subject: &Subject<'_, '_, '_>) -> bool
    ensures { result ≡ spec.is_separator_not_encoded (judged_of subject.now) }
{
    is_standard(subject)
        && (is_outside(subject, decimal_at(subject)) || is_outside(subject, grouping_at(subject)))
}

/// Whether it is a text boolean whose encoding lacks a character of its texts.
fn are_truth_texts_not_encoded(
    alloc: Global,
    subject: &Subject<'_, '_, '_>,
) -> Result<bool, AllocError>
    ensures { IfOk result (λ outside. outside ≡ spec.are_truth_texts_not_encoded (judged_of subject.now)) }
{
    if !is_text_boolean(subject) {
        return Ok(false);
    }
    are_truth_texts_outside(alloc, subject)
}

/// Whether the encoding of a component lacks a character of its literals, or is none of its bytes.
pub(crate) fn is_character_not_encoded(
    alloc: Global,
    subject: &Subject<'_, '_, '_>,
) -> Result<bool, AllocError>
    ensures { IfOk result (λ outside. outside ≡ spec.is_character_not_encoded (judged_of subject.now)) }
{
    if is_pad_not_encoded(subject) || is_separator_not_encoded(subject) {
        return Ok(true);
    }
    if are_truth_texts_not_encoded(alloc, subject)? {
        return Ok(true);
    }
    if is_nil_not_encoded(alloc, subject)? {
        return Ok(true);
    }
    if is_delimiter_not_encoded(alloc, subject)? {
        return Ok(true);
    }
    Ok(is_bytes_encoding_other(subject))
}

/// Whether it is an element of type hexBinary of delimited length, of whose encoding another than ISO-8859-1 is told.
fn is_bytes_encoding_other(subject: &Subject<'_, '_, '_>) -> bool
    ensures { result ≡ spec.is_bytes_encoding_other (judged_of subject.now) }
{
    is_delimited_bytes(subject)
        && is_other_encoding(encoding_told(property(subject.chain, "encoding")))
}

/// Whether it is a text number in base ten whose pattern, where it is told, is none.
fn is_standard_pattern_malformed(
    alloc: Global,
    subject: &Subject<'_, '_, '_>,
) -> Result<bool, AllocError>
    ensures { IfOk result (λ malformed. malformed ≡ spec.is_standard_pattern_malformed (judged_of subject.now)) }
{
    if !is_standard(subject) || base_of(subject) != 10 {
        return Ok(false);
    }
    is_told_malformed(alloc, property(subject.chain, "textNumberPattern"))
}

/// Whether a text is told that spells no pattern.
fn is_told_malformed(alloc: Global, told: Asked<'_>) -> Result<bool, AllocError>
    ensures { IfOk result (λ malformed. malformed ≡ (is_some (pattern_text (told_by told.entry))
        && not (is_some (pattern_of (pattern_text (told_by told.entry)))))) }
{
    if !is_pattern_told(told) {
        return Ok(false);
    }
    let pattern = pattern_told(alloc, told)?;
    Ok(pattern.is_none())
}

/// Whether it is a zoned number of the type whose pattern, where it is told, is none of zoned numbers.
fn is_zoned_pattern_malformed(
    alloc: Global,
    subject: &Subject<'_, '_, '_>,
    simple: Simple,
) -> Result<bool, AllocError>
    ensures { IfOk result (λ malformed. malformed
        ≡ spec.is_zoned_pattern_malformed (judged_of subject.now) (Kind.SimpleElement simple)) }
{
    if !is_zoned(subject) || !is_pattern_told(property(subject.chain, "textNumberPattern")) {
        return Ok(false);
    }
    let form = zoned_form_of(alloc, subject, simple)?;
    Ok(form.is_none())
}

/// The same of a component of a kind.
fn is_zoned_malformed(
    alloc: Global,
    subject: &Subject<'_, '_, '_>,
    kind: Kind,
) -> Result<bool, AllocError>
    ensures { IfOk result (λ malformed. malformed ≡ spec.is_zoned_pattern_malformed (judged_of subject.now) kind) }
{
    match kind {
        Kind::SimpleElement(simple) | Kind::PrefixNumber(simple) => {
            is_zoned_pattern_malformed(alloc, subject, simple)
        }
        _ => Ok(false),
    }
}

/// Whether it is a text number whose pattern is none.
pub(crate) fn is_pattern_malformed(
    alloc: Global,
    subject: &Subject<'_, '_, '_>,
) -> Result<bool, AllocError>
    ensures { IfOk result (λ malformed. malformed ≡ spec.is_pattern_malformed (judged_of subject.now)) }
{
    if is_standard_pattern_malformed(alloc, subject)? {
        return Ok(true);
    }
    is_zoned_malformed(alloc, subject, subject.kind)
}

/// Whether it is a text boolean of whose texts there are none, or some that are more than characters.
pub(crate) fn are_truth_texts_other(
    alloc: Global,
    subject: &Subject<'_, '_, '_>,
) -> Result<bool, AllocError>
    ensures { IfOk result (λ other. other ≡ spec.are_truth_texts_other (judged_of subject.now)) }
{
    if !is_text_boolean(subject) {
        return Ok(false);
    }
    let truths = true_texts(alloc, subject)?;
    let falses = false_texts(alloc, subject)?;
    Ok(is_list_other(&truths) || is_list_other(&falses))
}

/// Whether it is a text that is padded or trimmed, whose pad character is no single character.
pub(crate) fn is_pad_no_character(subject: &Subject<'_, '_, '_>) -> bool
    ensures { result ≡ spec.is_pad_no_character (judged_of subject.now) }
{
    is_padded_text(subject) && is_other(pad_at(subject))
}
