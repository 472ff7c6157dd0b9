// How often a part occurs in the group that it stands in.
ghost use Rattle.std.specs.Prelude.{◌≡◌};
ghost use Rattle.dfdl_rows.specs.Times as spec;

use crate::Counted;
use dfdl_terms::Occurs;

/// How often a part occurs in the group that it stands in.
#[derive(Debug, Clone, Copy, PartialEq, Eq)]
pub(crate) struct Times {
    /// How many occurrences are required. These are not tried.
    pub(crate) least: u32,
    /// How many more there are at most, each of which is tried.
    pub(crate) further: u64,
    /// Each is an item of an array.
    pub(crate) is_item: bool,
    /// Those that are tried are of occursCountKind parsed.
    pub(crate) is_parsed: bool,
    /// The number in the tables of the question that tells how many there are, where one does. None is required or tried then.
    pub(crate) question: Option<u32>,
}

/// So many times, each of which is required.
pub(crate) fn required_times(count: u32) -> Times
    ensures { result ≡ spec.required_times count }
{
    Times {
        least: count,
        further: 0,
        is_item: count > 1,
        is_parsed: false,
        question: None,
    }
}

// As often as the bounds of an element say, of occursCountKind parsed or not.
fn bounded_times(occurs: Occurs, is_parsed: bool) -> Times
    ensures { result ≡ spec.bounded_times occurs is_parsed }
{
    Times {
        least: occurs.least,
        further: occurs.further,
        is_item: occurs.is_item,
        is_parsed,
        question: None,
    }
}

// As often as a question tells.
fn told_times(question: u32) -> Times
    ensures { result ≡ spec.told_times question }
{
    Times {
        least: 0,
        further: 0,
        is_item: true,
        is_parsed: false,
        question: Some(question),
    }
}

/// As often as an element occurs.
pub(crate) fn times_of(occurs: Occurs, counted: Counted) -> Times
    ensures { result ≡ spec.times_of occurs counted }
{
    match counted {
        Counted::ByBounds => bounded_times(occurs, false),
        Counted::Parsed => bounded_times(occurs, true),
        Counted::Told(question) => told_times(question),
    }
}

/// Whether some of the occurrences of some part are tried.
pub(crate) fn have_tried(slots: &[Times]) -> bool
    ensures { result ≡ spec.have_tried slots.now }
{
    slots.iter().any(|times| times.further > 0)
}

/// Whether a question tells how often some part occurs.
pub(crate) fn have_told(slots: &[Times]) -> bool
    ensures { result ≡ spec.have_told slots.now }
{
    slots.iter().any(|times| times.question.is_some())
}

/// Whether a part has no slot: none of its occurrences is required or tried, and no question tells how many there are.
pub(crate) fn is_slotless(times: Times) -> bool
    ensures { result ≡ spec.is_slotless times }
{
    !(times.least > 0 || times.further > 0 || times.question.is_some())
}
