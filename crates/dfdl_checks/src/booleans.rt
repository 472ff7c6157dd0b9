// The numbers of binary booleans.
ghost use Rattle.std.specs.Prelude.{◌≡◌};
ghost use Rattle.dfdl_checks.specs.Booleans as booleans;
ghost use Rattle.dfdl_scope.specs.Told.{told_by};

use crate::values::number_within;
use dfdl_scope::{Asked, literal};

/// A number of no more than 32 bits.
fn word_of(text: &str) -> Option<u32>
    ensures { result ≡ booleans.word_of text.now }
{
    number_within(0, 4294967295, text)
}

/// The number of true, if there is one, by a text that may be empty.
fn truth_of_text(text: &str) -> Option<Option<u32>>
    ensures { result ≡ booleans.truth_of_text text.now }
{
    if text.is_empty() {
        return Some(None);
    }
    match word_of(text) {
        Some(number) => Some(Some(number)),
        None => None,
    }
}

/// The number of true, if there is one, that is told.
pub(crate) fn truth_told(told: Asked<'_>) -> Option<Option<u32>>
    ensures { result ≡ booleans.truth_told (told_by told.entry) }
{
    match told {
        Asked::Given(written) => truth_of_text(literal(written)),
        Asked::Absent => Some(None),
        Asked::Twice { .. } => None,
    }
}

/// The number of false that is told.
pub(crate) fn falsity_told(told: Asked<'_>) -> Option<u32>
    ensures { result ≡ booleans.falsity_told (told_by told.entry) }
{
    match told {
        Asked::Given(written) => word_of(literal(written)),
        Asked::Absent => Some(0),
        Asked::Twice { .. } => None,
    }
}
