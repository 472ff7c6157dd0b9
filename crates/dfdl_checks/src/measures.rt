// The expressions that tell how long the content of an element is, and how often it occurs.
ghost use Rattle.std.specs.Prelude.{◌≡◌, IfOk, option_copied};
ghost use Rattle.dfdl_checks.specs.JudgedShown.{judged_of};
ghost use Rattle.dfdl_checks.specs.Measures as spec;

use crate::calculations::written_told;
use crate::expression_tests::message_of;
use crate::kinds::is_element;
use crate::occurring::is_counted_by_expression;
use crate::prefixes::unit_told;
use crate::purpose::Purpose;
use crate::representations::is_by_expression;
use crate::subject::Subject;
use dfdl_scope::property;
use dfdl_terms::LengthUnit;
use dfdl_value::TextValue;
use std::alloc::{AllocError, Global};

/// How long a content is by an expression, of which the text alone is known ('Lengths', on lengthKind explicit).
#[derive(Debug, Drop)]
pub struct MeasureForm {
    /// The expression as it is written.
    pub text: TextValue,
    /// What it counts.
    pub unit: LengthUnit,
}

/// The expression that tells how long the content of an element is, as it is written, and what it counts, where lengthKind is explicit
/// and `length` an expression; for unparsing there is none.
pub fn measure(
    alloc: Global,
    subject: &Subject<'_, '_, '_>,
) -> Result<Option<MeasureForm>, AllocError>
    ensures { IfOk result (λ measure. measure ≡ spec.measure_of (judged_of subject.now)) }
{
    match length_expression(subject) {
        Some(text) => Ok(Some(MeasureForm {
            text: TextValue::from_str(alloc, text)?,
            unit: unit_told(subject.chain),
        })),
        None => Ok(None),
    }
}

/// The expression that tells how often an element occurs, as it is written, where it occurs by one; for unparsing there is none.
pub fn count(alloc: Global, subject: &Subject<'_, '_, '_>) -> Result<Option<TextValue>, AllocError>
    ensures { IfOk result (λ count. count ≡ spec.count_expression (judged_of subject.now)) }
{
    message_of(alloc, count_expression(subject))
}

// The expression that tells how long the content of an element is, as it is written.
fn length_expression<'c>(subject: &Subject<'_, '_, 'c>) -> Option<&'c str>
    ensures { option_copied result ≡ spec.length_expression (judged_of subject.now) }
{
    match subject.purpose {
        Purpose::Parsing => parsed_length(subject),
        Purpose::Unparsing => None,
    }
}

// The same for parsing.
fn parsed_length<'c>(subject: &Subject<'_, '_, 'c>) -> Option<&'c str>
    ensures { option_copied result ≡ spec.length_expression_for Purpose.Parsing (judged_of subject.now) }
{
    if !is_measured_element(subject) {
        return None;
    }
    written_told(property(subject.chain, "length"))
}

// Whether it is an element whose length is its own, by an expression.
fn is_measured_element(subject: &Subject<'_, '_, '_>) -> bool
    ensures { result ≡ spec.is_measured_element (judged_of subject.now) }
{
    is_element(subject.kind) && is_by_expression(subject)
}

// The expression that tells how often an element occurs, as it is written.
fn count_expression<'c>(subject: &Subject<'_, '_, 'c>) -> Option<&'c str>
    ensures { option_copied result ≡ spec.count_expression (judged_of subject.now) }
{
    match subject.purpose {
        Purpose::Parsing => parsed_count(subject),
        Purpose::Unparsing => None,
    }
}

// The same for parsing.
fn parsed_count<'c>(subject: &Subject<'_, '_, 'c>) -> Option<&'c str>
    ensures { option_copied result ≡ spec.count_expression_for Purpose.Parsing (judged_of subject.now) }
{
    if !is_counted_by_expression(subject) {
        return None;
    }
    written_told(property(subject.chain, "occursCount"))
}
