// How zoned numbers are read.
ghost use Rattle.std.specs.Prelude.{◌≡◌, IfOk, codes};
ghost use Rattle.std.specs.List.{list_all};
ghost use Rattle.dfdl_checks.specs.JudgedShown.{judged_of};
ghost use Rattle.dfdl_checks.specs.NumberTexts as numbers;
ghost use Rattle.dfdl_forms.specs.NumberForms.{IsNumberPattern, HasPattern};
ghost use Rattle.dfdl_scope.specs.Scoping.{told, Value};
ghost use Rattle.dfdl_scope.specs.Shown.{chain_of};
ghost use Rattle.dfdl_scope.specs.Told.{told_by};

use crate::number_texts::pattern_spelled;
use crate::representations::is_word;
use crate::subject::Subject;
use dfdl_forms::{NumberPattern, Simple, ZonedForm, ZonedStyle};
use dfdl_scope::{Asked, Component, is_expression, literal, property};
use std::alloc::{AllocError, Global};

/// Which characters carry the sign of a zoned number, by what a chain gives.
fn style_told(chain: &Component<'_, '_>) -> ZonedStyle
    ensures { result ≡ numbers.style_told (told (chain_of chain.now) (codes "textZonedSignStyle")) }
{
    if is_word(chain, "textZonedSignStyle", "asciiTranslatedEBCDIC") {
        ZonedStyle::TranslatedEbcdic
    } else {
        ZonedStyle::AsciiStandard
    }
}

/// Whether it is a character of the pattern of a zoned number.
fn is_zoned_sign(c: u8) -> bool
    ensures { result ≡ numbers.is_zoned_sign c }
{
    c == b'0' || c == b'#' || c == b'V' || c == b'+'
}

/// Whether a text has those characters alone.
fn are_zoned_signs(text: &[u8]) -> bool
    ensures { result ≡ list_all numbers.is_zoned_sign text.now }
{
    text.iter().all(|c| is_zoned_sign(*c))
}

/// Whether the first digit carries the sign, by what stands before and behind the digits of a pattern.
fn is_sign_first(before: &[char], behind: &[char]) -> Option<bool>
    ensures { result ≡ numbers.is_sign_first before.now behind.now }
{
    match (before, behind) {
        ([], []) => Some(false),
        ([], [_]) => Some(false),
        ([_], []) => Some(true),
        _ => None,
    }
}

/// A zoned number of these parts.
fn zoned_with(style: ZonedStyle, simple: Simple, pattern: &NumberPattern, first: bool) -> ZonedForm
    requires { IsNumberPattern pattern.now }
    ensures { result ≡ numbers.zoned_with style simple pattern.now first }
{
    ZonedForm {
        style,
        first,
        width: u32::from(pattern.least_integer) + u32::from(pattern.implied),
        point: pattern.implied as u8,
        kind: simple,
    }
}

/// A zoned number by a pattern.
fn zoned_by(style: ZonedStyle, simple: Simple, pattern: &Option<NumberPattern>) -> Option<ZonedForm>
    requires { HasPattern pattern.now }
    ensures { result ≡ numbers.zoned_by style simple pattern.now }
{
    match pattern {
        Some(pattern) => zoned_of(style, simple, pattern),
        None => None,
    }
}

/// The same by a pattern that is there.
fn zoned_of(style: ZonedStyle, simple: Simple, pattern: &NumberPattern) -> Option<ZonedForm>
    requires { IsNumberPattern pattern.now }
    ensures { result ≡ numbers.zoned_by style simple (Some pattern.now) }
{
    match is_sign_first(pattern.prefix.as_slice(), pattern.suffix.as_slice()) {
        Some(first) => Some(zoned_with(style, simple, pattern, first)),
        None => None,
    }
}

/// A zoned number by the text of a pattern.
fn zoned_spelled(
    alloc: Global,
    style: ZonedStyle,
    simple: Simple,
    text: &str,
) -> Result<Option<ZonedForm>, AllocError>
    ensures { IfOk result (λ form. form ≡ numbers.zoned_spelled style simple (Some text.now)) }
{
    if !are_zoned_signs(text.as_bytes()) {
        return Ok(None);
    }
    let pattern = pattern_spelled(alloc, text)?;
    Ok(zoned_by(style, simple, &pattern))
}

/// A zoned number by a pattern that is written, by no expression.
fn zoned_written(
    alloc: Global,
    style: ZonedStyle,
    simple: Simple,
    written: &str,
) -> Result<Option<ZonedForm>, AllocError>
    ensures { IfOk result (λ form. form ≡ numbers.zoned_spelled style simple (numbers.pattern_text (Value written.now))) }
{
    if is_expression(written) {
        return Ok(None);
    }
    zoned_spelled(alloc, style, simple, literal(written))
}

/// A zoned number by the pattern that is told.
fn zoned_told(
    alloc: Global,
    style: ZonedStyle,
    simple: Simple,
    told: Asked<'_>,
) -> Result<Option<ZonedForm>, AllocError>
    ensures { IfOk result (λ form. form ≡ numbers.zoned_spelled style simple (numbers.pattern_text (told_by told.entry))) }
{
    match told {
        Asked::Given(written) => zoned_written(alloc, style, simple, written),
        Asked::Absent => Ok(None),
        Asked::Twice { .. } => Ok(None),
    }
}

/// The form of a component's zoned numbers.
pub(crate) fn zoned_form_of(
    alloc: Global,
    subject: &Subject<'_, '_, '_>,
    simple: Simple,
) -> Result<Option<ZonedForm>, AllocError>
    ensures { IfOk result (λ form. form ≡ numbers.zoned_form_of (judged_of subject.now) simple) }
{
    zoned_told(
        alloc,
        style_told(subject.chain),
        simple,
        property(subject.chain, "textNumberPattern"),
    )
}
