// How text numbers are read.
ghost use Rattle.std.specs.Prelude.{◌≡◌, IfOk, is_some, codes};
ghost use Rattle.dfdl_checks.specs.JudgedShown.{judged_of};
ghost use Rattle.dfdl_checks.specs.NumberTexts as numbers;
ghost use Rattle.dfdl_forms.specs.NumberForms.{HasPattern};
ghost use Rattle.dfdl_number_pattern.specs.Read.{pattern_read};
ghost use Rattle.dfdl_scope.specs.Scoping.{told, Value};
ghost use Rattle.dfdl_scope.specs.Shown.{chain_of};
ghost use Rattle.dfdl_scope.specs.Told.{told_by};

use crate::pads::{character_told, single};
use crate::representations::is_word;
use crate::subject::Subject;
use dfdl_forms::{NumberForm, NumberPattern, Rounding};
use dfdl_literals::PadCharacter;
use dfdl_number_pattern::{PatternFault, read_pattern};
use dfdl_scope::{Asked, Component, is_expression, literal, property};
use std::alloc::{AllocError, Global};

/// The base of a component's digits.
pub(crate) fn base_of(subject: &Subject<'_, '_, '_>) -> u8
    ensures { result ≡ numbers.base_of (judged_of subject.now) }
{
    base_told(subject.chain)
}

/// The base that a chain gives, ten where it gives none.
fn base_told(chain: &Component<'_, '_>) -> u8
    ensures { result ≡ numbers.base_told (told (chain_of chain.now) (codes "textStandardBase")) }
{
    if is_word(chain, "textStandardBase", "2") {
        return 2;
    }
    if is_word(chain, "textStandardBase", "8") {
        return 8;
    }
    if is_word(chain, "textStandardBase", "16") {
        return 16;
    }
    10
}

/// The decimal separator of a component, a point where none is told.
pub(crate) fn decimal_at(subject: &Subject<'_, '_, '_>) -> PadCharacter
    ensures { result ≡ numbers.decimal_at (judged_of subject.now) }
{
    character_told('.', property(subject.chain, "textStandardDecimalSeparator"))
}

/// The grouping separator of a component, a comma where none is told.
pub(crate) fn grouping_at(subject: &Subject<'_, '_, '_>) -> PadCharacter
    ensures { result ≡ numbers.grouping_at (judged_of subject.now) }
{
    character_told(
        ',',
        property(subject.chain, "textStandardGroupingSeparator"),
    )
}

/// The rounding mode that a chain gives, to the even neighbour where it gives none.
fn mode_told(chain: &Component<'_, '_>) -> Rounding
    ensures { result ≡ numbers.mode_told (told (chain_of chain.now) (codes "textNumberRoundingMode")) }
{
    let name = "textNumberRoundingMode";
    if is_word(chain, name, "roundCeiling") {
        return Rounding::Ceiling;
    }
    if is_word(chain, name, "roundFloor") {
        return Rounding::Floor;
    }
    if is_word(chain, name, "roundDown") {
        return Rounding::Down;
    }
    if is_word(chain, name, "roundUp") {
        return Rounding::Up;
    }
    if is_word(chain, name, "roundHalfDown") {
        return Rounding::HalfDown;
    }
    if is_word(chain, name, "roundHalfUp") {
        return Rounding::HalfUp;
    }
    if is_word(chain, name, "roundUnnecessary") {
        return Rounding::Unnecessary;
    }
    Rounding::HalfEven
}

/// How a component's numbers are rounded: by its mode where that is asked for.
fn rounding_of(subject: &Subject<'_, '_, '_>) -> Rounding
    ensures { result ≡ numbers.rounding_of (judged_of subject.now) }
{
    if is_word(subject.chain, "textNumberRounding", "explicit") {
        mode_told(subject.chain)
    } else {
        Rounding::HalfEven
    }
}

/// Whether a pattern is told, by no expression.
pub(crate) fn is_pattern_told(told: Asked<'_>) -> bool
    ensures { result ≡ is_some (numbers.pattern_text (told_by told.entry)) }
{
    match told {
        Asked::Given(written) => !is_expression(written),
        Asked::Absent => false,
        Asked::Twice { .. } => false,
    }
}

/// The pattern that a text spells, if it spells one.
pub(crate) fn pattern_spelled(
    alloc: Global,
    text: &str,
) -> Result<Option<NumberPattern>, AllocError>
    ensures pattern { IfOk result (λ pattern. pattern ≡ pattern_read text.now) }
    ensures bounded { IfOk result HasPattern }
{
    match read_pattern(alloc, text) {
        Ok(pattern) => Ok(Some(pattern)),
        Err(PatternFault::Malformed { .. }) => Ok(None),
        Err(PatternFault::OutOfMemory) => Err(AllocError),
    }
}

/// The pattern that is told, if the text spells one.
pub(crate) fn pattern_told(
    alloc: Global,
    told: Asked<'_>,
) -> Result<Option<NumberPattern>, AllocError>
    ensures { IfOk result (λ pattern. pattern ≡ numbers.pattern_of (numbers.pattern_text (told_by told.entry))) }
{
    match told {
        Asked::Given(written) => pattern_written(alloc, written),
        Asked::Absent => Ok(None),
        Asked::Twice { .. } => Ok(None),
    }
}

/// The pattern that is written, by no expression.
fn pattern_written(alloc: Global, written: &str) -> Result<Option<NumberPattern>, AllocError>
    ensures { IfOk result (λ pattern. pattern ≡ numbers.pattern_of (numbers.pattern_text (Value written.now))) }
{
    if is_expression(written) {
        return Ok(None);
    }
    pattern_spelled(alloc, literal(written))
}

/// The pattern of a component's numbers in a base: only digits in base ten have one.
pub(crate) fn pattern_in(
    alloc: Global,
    base: u8,
    subject: &Subject<'_, '_, '_>,
) -> Result<Option<NumberPattern>, AllocError>
    ensures { IfOk result (λ pattern. pattern ≡ numbers.pattern_in base (judged_of subject.now)) }
{
    if base != 10 {
        return Ok(None);
    }
    pattern_told(alloc, property(subject.chain, "textNumberPattern"))
}

/// A form with these parts, if they go together.
fn form_by(
    base: u8,
    pattern: Option<NumberPattern>,
    decimal: Option<char>,
    grouping: Option<char>,
    rounding: Rounding,
) -> Option<NumberForm>
    ensures { result ≡ numbers.form_by base pattern decimal grouping rounding }
{
    match (decimal, grouping) {
        (Some(decimal), Some(grouping)) => {
            NumberForm::new(base, pattern, decimal, grouping, rounding)
        }
        _ => None,
    }
}

/// The form of a component's numbers.
pub(crate) fn number_form_of(
    alloc: Global,
    subject: &Subject<'_, '_, '_>,
) -> Result<Option<NumberForm>, AllocError>
    ensures { IfOk result (λ form. form ≡ numbers.number_form_of (judged_of subject.now)) }
{
    let base = base_of(subject);
    let pattern = pattern_in(alloc, base, subject)?;
    Ok(form_by(
        base,
        pattern,
        single(decimal_at(subject)),
        single(grouping_at(subject)),
        rounding_of(subject),
    ))
}
