// The pattern that tells the length of a component.
ghost use Rattle.std.specs.Prelude.{◌≡◌, option_copied};
ghost use Rattle.dfdl_checks.specs.JudgedShown.{judged_of};
ghost use Rattle.dfdl_checks.specs.Patterns as patterns;
ghost use Rattle.dfdl_scope.specs.Told.{told_by};

use crate::encodings::encoding_told;
use crate::kinds::is_element;
use crate::purpose::Purpose;
use crate::representations::{is_binary_number, is_by_pattern};
use crate::subject::Subject;
use dfdl_forms::Encoding;
use dfdl_scope::{Asked, is_expression, literal, property};

/// The text of the pattern that tells how long an element is, in bytes: of one with lengthKind pattern, simple but no binary
/// number, or complex; nothing for unparsing ('Lengths'). The subject's `pattern_is_refused` isn't looked at. Takes no memory.
pub fn length_pattern<'c>(subject: &Subject<'_, '_, 'c>) -> Option<&'c str>
    ensures { option_copied result ≡ patterns.length_pattern (judged_of subject.now) }
{
    match subject.purpose {
        Purpose::Parsing => parsed_pattern(subject),
        Purpose::Unparsing => None,
    }
}

/// The encoding in which the data are read for that pattern, where it is told ('Simple Types', on encoding). Takes no memory.
pub fn pattern_encoding(subject: &Subject<'_, '_, '_>) -> Option<Encoding>
    ensures { result ≡ patterns.pattern_encoding (judged_of subject.now) }
{
    encoding_told(property(subject.chain, "encoding"))
}

/// The pattern of a component for parsing.
fn parsed_pattern<'c>(subject: &Subject<'_, '_, 'c>) -> Option<&'c str>
    ensures { option_copied result ≡ patterns.pattern_for Purpose.Parsing (judged_of subject.now) }
{
    if is_measured(subject) {
        pattern_told(property(subject.chain, "lengthPattern"))
    } else {
        None
    }
}

/// Whether it is an element whose length a pattern can tell, and does.
fn is_measured(subject: &Subject<'_, '_, '_>) -> bool
    ensures { result ≡ patterns.is_measured (judged_of subject.now) }
{
    is_element(subject.kind) && is_by_pattern(subject) && !is_binary_number(subject)
}

/// The text of a pattern that is told, where it is no expression.
fn pattern_told<'c>(told: Asked<'c>) -> Option<&'c str>
    ensures { option_copied result ≡ patterns.pattern_told (told_by told.entry) }
{
    match told {
        Asked::Given(written) if is_expression(written) => None,
        Asked::Given(written) => Some(literal(written)),
        Asked::Absent => None,
        Asked::Twice { .. } => None,
    }
}
