// What is asked of components where they stand.
ghost use Rattle.std.specs.Prelude.{◌≡◌};
ghost use Rattle.dfdl_checks.specs.JudgedShown.{judged_of};
ghost use Rattle.dfdl_checks.specs.Standings as spec;

use crate::delimiters::has_delimiter;
use crate::kinds::{is_calculated, is_element, is_plain_group};
use crate::occurring::{is_count_asked, is_fixed, is_parsed};
use crate::purpose::Purpose;
use crate::representations::is_word;
use crate::subject::Subject;

/// Whether the content of a component is initiated: for unparsing it isn't built ('Sequence Groups', on initiatedContent). Takes no
/// memory.
pub fn initiates(subject: &Subject<'_, '_, '_>) -> bool
    ensures { result ≡ spec.initiates (judged_of subject.now) }
{
    match subject.purpose {
        Purpose::Parsing => {
            is_plain_group(subject.kind) && is_word(subject.chain, "initiatedContent", "yes")
        }
        Purpose::Unparsing => false,
    }
}

/// Whether it stands in a group with initiated content, and has no initiator; an element whose value is calculated needs none.
pub(crate) fn is_initiator_missing(subject: &Subject<'_, '_, '_>) -> bool
    ensures { result ≡ spec.is_initiator_missing (judged_of subject.now) }
{
    !is_calculated(subject.kind) && lacks_initiator(subject)
}

/// Whether it stands in a group with initiated content, and has no initiator.
fn lacks_initiator(subject: &Subject<'_, '_, '_>) -> bool
    ensures { result ≡ spec.lacks_initiator (judged_of subject.now) }
{
    subject.standing.is_initiated && !has_delimiter(subject, "initiator")
}

/// Whether there is no greatest number of occurrences.
fn is_endless(most: Option<u64>) -> bool
    ensures { result ≡ spec.is_endless most }
{
    most.is_none()
}

/// Whether it is an unbounded element of kind implicit among slots none of which may be unbounded.
pub(crate) fn is_unbounded_not_allowed(subject: &Subject<'_, '_, '_>) -> bool
    ensures { result ≡ spec.is_unbounded_not_allowed (judged_of subject.now) }
{
    subject.standing.needs_bound
        && is_element(subject.kind)
        && is_endless(subject.facts.bounds.most)
        && !is_fixed(subject)
        && !is_parsed(subject)
        && !is_count_asked(subject)
}
