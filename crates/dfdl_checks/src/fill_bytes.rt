// The bytes of fill.
ghost use Rattle.std.specs.Prelude.{◌≡◌};
ghost use Rattle.dfdl_checks.specs.FillBytes as fills;
ghost use Rattle.dfdl_checks.specs.JudgedShown.{judged_of};
ghost use Rattle.dfdl_scope.specs.Told.{told_by};

use crate::kinds::is_unframed;
use crate::subject::Subject;
use dfdl_literals::{FillByte, fill_byte};
use dfdl_scope::{Asked, is_expression, literal, property};

/// Whether the text is no string literal and no list of them.
fn is_malformed_byte(fill: FillByte) -> bool
    ensures { result ≡ fills.is_malformed_byte fill }
{
    matches!(fill, FillByte::Malformed)
}

/// Whether the text is made of literals that are no single byte.
fn is_other_byte(fill: FillByte) -> bool
    ensures { result ≡ fills.is_other_byte fill }
{
    matches!(fill, FillByte::Other)
}

/// Whether a byte is told by a text that is no expression, and that is no string literal and no list of them.
fn is_malformed_told(told: Asked<'_>) -> bool
    ensures { result ≡ fills.is_malformed_told (told_by told.entry) }
{
    match told {
        Asked::Given(written) => !is_expression(written)
            && is_malformed_byte(fill_byte(literal(written))),
        Asked::Absent => false,
        Asked::Twice { .. } => false,
    }
}

/// Whether a byte is told by a text that is no expression, and whose literals are no single byte.
fn is_other_told(told: Asked<'_>) -> bool
    ensures { result ≡ fills.is_other_byte_told (told_by told.entry) }
{
    match told {
        Asked::Given(written) => !is_expression(written)
            && is_other_byte(fill_byte(literal(written))),
        Asked::Absent => false,
        Asked::Twice { .. } => false,
    }
}

/// Whether it is a component with fill, whose byte is told by a text that is no string literal and no list of them.
pub(crate) fn is_fill_malformed(subject: &Subject<'_, '_, '_>) -> bool
    ensures { result ≡ fills.is_fill_malformed (judged_of subject.now) }
{
    !is_unframed(subject.kind) && is_malformed_told(property(subject.chain, "fillByte"))
}

/// Whether it is a component with fill, whose byte is told as no single one.
pub(crate) fn is_fill_other(subject: &Subject<'_, '_, '_>) -> bool
    ensures { result ≡ fills.is_fill_other (judged_of subject.now) }
{
    !is_unframed(subject.kind) && is_other_told(property(subject.chain, "fillByte"))
}
