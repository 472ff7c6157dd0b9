// What is written for line breaks in delimiters.
ghost use Rattle.std.specs.Prelude.{◌≡◌, IfOk};
ghost use Rattle.std.specs.List.{list_any};
ghost use Rattle.dfdl_checks.specs.JudgedShown.{judged_of};
ghost use Rattle.dfdl_checks.specs.NewLines as lines;
ghost use Rattle.dfdl_scope.specs.Told.{told_by};

use crate::delimiters::{DelimiterText, delimiter_at, separator_at};
use crate::subject::Subject;
use dfdl_forms::{Literals, Piece};
use dfdl_scope::{Asked, is_expression, literal, property};
use std::alloc::{AllocError, Global};

/// Whether a piece is a line break.
fn is_line_break(piece: Piece) -> bool
    ensures { result ≡ lines.is_line_break piece }
{
    matches!(piece, Piece::NewLine)
}

/// Whether a literal has a line break.
fn has_line_break(pieces: &[Piece]) -> bool
    ensures { result ≡ list_any lines.is_line_break pieces.now }
{
    pieces.iter().any(|piece| is_line_break(*piece))
}

/// Whether one of some literals has a line break.
fn have_line_break(literals: &Literals) -> bool
    ensures { result ≡ lines.have_line_break literals.now }
{
    for at in 0..literals.len() {
        if has_line_break(literals.pieces(at)) {
            return true;
        }
    }
    false
}

/// Whether a literal of a delimiter has a line break.
fn breaks_line(text: &DelimiterText) -> bool
    ensures { result ≡ lines.breaks_line text.now }
{
    match text {
        DelimiterText::Literals(literals) => have_line_break(literals),
        _ => false,
    }
}

/// Whether a delimiter of a component has a line break.
fn is_line_breaking(alloc: Global, subject: &Subject<'_, '_, '_>) -> Result<bool, AllocError>
    ensures { IfOk result (λ breaks. breaks ≡ lines.is_line_breaking (judged_of subject.now)) }
{
    let initiator = delimiter_at(alloc, subject, "initiator")?;
    let terminator = delimiter_at(alloc, subject, "terminator")?;
    let separator = separator_at(alloc, subject)?;
    Ok(breaks_line(&initiator) || breaks_line(&terminator) || breaks_line(&separator))
}

/// Whether a text is that of a line break, by the names of its characters.
fn is_new_line(text: &str) -> bool
    ensures { result ≡ lines.is_new_line text.now }
{
    text == "%CR;%LF;" || text == "%LF;" || text == "%CR;" || text == "%NEL;" || text == "%LS;"
}

/// Whether a text is told that is no expression and none of a line break.
fn is_other_line_told(told: Asked<'_>) -> bool
    ensures { result ≡ lines.is_other_line_told (told_by told.entry) }
{
    match told {
        Asked::Given(written) => !is_expression(written) && !is_new_line(literal(written)),
        Asked::Absent => false,
        Asked::Twice { .. } => false,
    }
}

/// Whether an expression is told.
fn is_expression_told(told: Asked<'_>) -> bool
    ensures { result ≡ lines.is_expression_told (told_by told.entry) }
{
    match told {
        Asked::Given(written) => is_expression(written),
        Asked::Absent => false,
        Asked::Twice { .. } => false,
    }
}

/// Whether it is a component with a line break in a delimiter, for which another text is to be written.
pub(crate) fn is_new_line_other(
    alloc: Global,
    subject: &Subject<'_, '_, '_>,
) -> Result<bool, AllocError>
    ensures { IfOk result (λ other. other ≡ lines.is_new_line_other (judged_of subject.now)) }
{
    if !is_other_line_told(property(subject.chain, "outputNewLine")) {
        return Ok(false);
    }
    is_line_breaking(alloc, subject)
}

/// Whether it is one, for which an expression is to tell what is written.
pub(crate) fn is_new_line_expression(
    alloc: Global,
    subject: &Subject<'_, '_, '_>,
) -> Result<bool, AllocError>
    ensures { IfOk result (λ told. told ≡ lines.is_new_line_expression (judged_of subject.now)) }
{
    if !is_expression_told(property(subject.chain, "outputNewLine")) {
        return Ok(false);
    }
    is_line_breaking(alloc, subject)
}
