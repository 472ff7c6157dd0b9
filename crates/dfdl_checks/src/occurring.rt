// How often elements occur.
ghost use Rattle.std.specs.Prelude.{◌≡◌};
ghost use Rattle.dfdl_checks.specs.JudgedShown.{judged_of};
ghost use Rattle.dfdl_checks.specs.Occurrences as spec;
ghost use Rattle.dfdl_terms.specs.Occurs as terms;

use crate::kinds::is_element;
use crate::purpose::Purpose;
use crate::representations::is_word;
use crate::subject::Subject;
use dfdl_terms::Occurs;

/// The bounds of how often an element occurs; a number past 64 bits is the greatest of these.
#[derive(Debug, Clone, Copy, PartialEq, Eq)]
pub struct Bounds {
    /// minOccurs.
    pub least: u64,
    /// maxOccurs; nothing where it is unbounded.
    pub most: Option<u64>,
}

/// How often an element occurs where it stands ('Arrays and Optional Elements'). Both bounds 1: once. Else by `occursCountKind`: fixed
/// as often as both bounds say, implicit at least `minOccurs` times and up to `maxOccurs`, parsed any number of times, expression as
/// often as `occursCount` tells, so that none is required by bounds and none is tried. A required number past 32 bits is the greatest
/// of these, an unbounded one is 2^64 - 1 tried occurrences, and for unparsing each element occurs once. Takes no memory.
pub fn occurrences(subject: &Subject<'_, '_, '_>) -> Occurs
    ensures { result ≡ spec.occurrences_of (judged_of subject.now) }
{
    match subject.purpose {
        Purpose::Parsing => parsed_occurrences(subject),
        Purpose::Unparsing => required_times(1),
    }
}

/// How often an element occurs, for parsing.
fn parsed_occurrences(subject: &Subject<'_, '_, '_>) -> Occurs
    ensures { result ≡ spec.occurrences_for Purpose.Parsing (judged_of subject.now) }
{
    if is_once(subject.facts.bounds) {
        required_times(1)
    } else {
        occurrences_by_kind(subject)
    }
}

/// How often an element occurs whose bounds aren't both 1.
fn occurrences_by_kind(subject: &Subject<'_, '_, '_>) -> Occurs
    ensures { result ≡ spec.occurrences_by_kind (judged_of subject.now) }
{
    let bounds = subject.facts.bounds;
    if is_fixed(subject) {
        required_times(count_of(bounds.most))
    } else if is_parsed(subject) {
        occurs_any()
    } else if is_count_asked(subject) {
        occurs_told()
    } else {
        occurs_within(bounds)
    }
}

/// So many times, each of which is required.
fn required_times(count: u32) -> Occurs
    ensures { result ≡ terms.required_times count }
{
    Occurs {
        least: count,
        further: 0,
        is_item: count > 1,
    }
}

/// As often as the bounds say, where those up to the least number are required.
fn occurs_within(bounds: Bounds) -> Occurs
    ensures { result ≡ spec.occurs_within bounds }
{
    Occurs {
        least: within_word(bounds.least),
        further: further_than(bounds.least, bounds.most),
        is_item: !is_most(bounds.most, 1),
    }
}

/// Any number of times, none of which is required.
fn occurs_any() -> Occurs
    ensures { result ≡ spec.occurs_any }
{
    Occurs {
        least: 0,
        further: u64::MAX,
        is_item: true,
    }
}

/// As often as an expression tells.
fn occurs_told() -> Occurs
    ensures { result ≡ spec.occurs_told }
{
    Occurs {
        least: 0,
        further: 0,
        is_item: true,
    }
}

/// How many more occurrences there are at most than the least number.
fn further_than(least: u64, most: Option<u64>) -> u64
    ensures { result ≡ spec.further_than least most }
{
    match most {
        Some(most) => most.saturating_sub(least),
        None => u64::MAX,
    }
}

/// So many occurrences, where they are bounded, else one.
fn count_of(most: Option<u64>) -> u32
    ensures { result ≡ spec.count_of most }
{
    match most {
        Some(most) => within_word(most),
        None => 1,
    }
}

/// So many required occurrences, and no more than 32 bits hold.
fn within_word(count: u64) -> u32
    ensures { result ≡ spec.within_word count }
{
    count.min(u64::from(u32::MAX)) as u32
}

/// Whether those of a component's occurrences that are tried are of occursCountKind parsed. Takes no memory.
pub fn is_count_parsed(subject: &Subject<'_, '_, '_>) -> bool
    ensures { result ≡ spec.is_count_parsed (judged_of subject.now) }
{
    match subject.purpose {
        Purpose::Parsing => !is_once(subject.facts.bounds) && is_parsed(subject),
        Purpose::Unparsing => false,
    }
}

/// Whether the greatest number of occurrences is this one.
fn is_most(most: Option<u64>, number: u64) -> bool
    ensures { result ≡ spec.is_most most number }
{
    match most {
        Some(most) => most == number,
        None => false,
    }
}

/// Whether both bounds are 1.
pub(crate) fn is_once(bounds: Bounds) -> bool
    ensures { result ≡ spec.is_once bounds }
{
    bounds.least == 1 && is_most(bounds.most, 1)
}

/// Whether both bounds are one number.
fn are_same(bounds: Bounds) -> bool
    ensures { result ≡ spec.are_same bounds }
{
    is_most(bounds.most, bounds.least)
}

/// Whether it is an element with other bounds than 1 and 1.
pub(crate) fn is_counted(subject: &Subject<'_, '_, '_>) -> bool
    ensures { result ≡ spec.is_counted (judged_of subject.now) }
{
    is_element(subject.kind) && !is_once(subject.facts.bounds)
}

/// Whether it is an element that occurs a fixed number of times.
pub(crate) fn is_fixed(subject: &Subject<'_, '_, '_>) -> bool
    ensures { result ≡ spec.is_fixed (judged_of subject.now) }
{
    is_word(subject.chain, "occursCountKind", "fixed")
}

/// Whether the data tell how often it occurs.
pub(crate) fn is_parsed(subject: &Subject<'_, '_, '_>) -> bool
    ensures { result ≡ spec.is_parsed (judged_of subject.now) }
{
    is_word(subject.chain, "occursCountKind", "parsed")
}

/// Whether an expression tells how often it occurs.
pub(crate) fn is_count_asked(subject: &Subject<'_, '_, '_>) -> bool
    ensures { result ≡ spec.is_count_asked (judged_of subject.now) }
{
    is_word(subject.chain, "occursCountKind", "expression")
}

/// Whether it is an element with other bounds than 1 and 1 that occurs as often as an expression tells.
pub(crate) fn is_counted_by_expression(subject: &Subject<'_, '_, '_>) -> bool
    ensures { result ≡ spec.is_counted_by_expression (judged_of subject.now) }
{
    is_counted(subject) && is_count_asked(subject)
}

/// Whether it is an element that never occurs, or one that occurs a fixed number of times and whose bounds differ.
pub(crate) fn are_bounds_unfit(subject: &Subject<'_, '_, '_>) -> bool
    ensures { result ≡ spec.are_bounds_unfit (judged_of subject.now) }
{
    is_element(subject.kind)
        && (is_most(subject.facts.bounds.most, 0)
            || (is_fixed(subject) && !are_same(subject.facts.bounds)))
}
