// What gives the length of a content and how often an element occurs.
ghost use Rattle.std.specs.Prelude.{◌≡◌, option_map};
ghost use Rattle.dfdl_compile.specs.Components as spec;

use dfdl_checks::MeasureForm;
use dfdl_rows::{ContentBox, Counted, LeafLength};
use dfdl_terms::{Measure, Prefix};
use dfdl_value::TextValue;

/// The length by an expression of an element, whose question has this number.
pub(crate) fn measure_by(number: u32, measure: &Option<MeasureForm>) -> Option<Measure>
    ensures { result ≡ option_map (spec.measure_by number) measure.now }
{
    match measure {
        Some(form) => Some(Measure {
            question: number,
            unit: form.unit,
        }),
        None => None,
    }
}

/// The box around the content of a complex element, of so many bits, with this prefix or by this question.
pub(crate) fn box_by(
    size: Option<u64>,
    prefix: Option<Prefix>,
    measure: Option<Measure>,
) -> ContentBox
    ensures { result ≡ spec.box_by size prefix measure }
{
    if let Some(bits) = size {
        return ContentBox::Sized(bits);
    }
    if let Some(prefix) = prefix {
        return ContentBox::Prefixed(prefix);
    }
    match measure {
        Some(measure) => ContentBox::Measured(measure),
        None => ContentBox::Unbounded,
    }
}

/// What gives the length of the content of a simple element, with this prefix or by this question.
pub(crate) fn leaf_length_by(prefix: Option<Prefix>, measure: Option<Measure>) -> LeafLength
    ensures { result ≡ spec.leaf_length_by prefix measure }
{
    if let Some(prefix) = prefix {
        return LeafLength::Prefixed(prefix);
    }
    match measure {
        Some(measure) => LeafLength::Measured(measure),
        None => LeafLength::Own,
    }
}

/// The number of a question, where there is one.
pub(crate) fn question_if(number: u32, text: &Option<TextValue>) -> Option<u32>
    ensures { result ≡ spec.number_if number text.now }
{
    match text {
        Some(_) => Some(number),
        None => None,
    }
}

/// What gives how often an element occurs, by kind parsed or by this question.
pub(crate) fn counted_by(is_parsed: bool, question: Option<u32>) -> Counted
    ensures { result ≡ spec.counted_by is_parsed question }
{
    match question {
        Some(question) => Counted::Told(question),
        None if is_parsed => Counted::Parsed,
        None => Counted::ByBounds,
    }
}
