// The values that stand for nil.
ghost use Rattle.std.specs.Prelude.{◌≡◌, [], IfOk, not, is_some, option_map, string_bytes};
ghost use Rattle.dfdl_checks.specs.JudgedShown.{judged_of};
ghost use Rattle.dfdl_checks.specs.NilValues as values;

use crate::defaults::value_of;
use crate::kinds::is_complex;
use crate::nils::{is_nil_by_value, is_nil_unfit, nil_literals};
use crate::subject::{Kind, Subject};
use dfdl_forms::{Literals, Piece, Simple};
use dfdl_value::Value;
use std::alloc::{AllocError, Global};

/// A text with a piece behind it, where that is a character or nothing.
fn with_piece(text: String, piece: Piece) -> Result<Option<String>, AllocError>
    ensures { IfOk result (λ more. option_map string_bytes more ≡ values.with_piece (string_bytes text) piece) }
{
    match piece {
        Piece::Char(c) => with_character(text, c),
        Piece::Nothing => Ok(Some(text)),
        _ => Ok(None),
    }
}

/// A text with a character behind it.
fn with_character(text: String, c: char) -> Result<Option<String>, AllocError>
    ensures { IfOk result (λ more. option_map string_bytes more ≡ values.with_piece (string_bytes text) (Piece.Char c)) }
{
    let mut text = text;
    text.push(c)?;
    Ok(Some(text))
}

/// The text of a literal of characters.
fn literal_text(alloc: Global, pieces: &[Piece]) -> Result<Option<String>, AllocError>
    ensures { IfOk result (λ text. option_map string_bytes text ≡ values.with_pieces [] pieces.now) }
{
    let mut text = String::new(alloc);
    for piece in pieces {
        match with_piece(text, *piece)? {
            Some(more) => text = more,
            None => return Ok(None),
        }
    }
    Ok(Some(text))
}

/// The value of a type that a literal of characters says.
fn literal_value(
    alloc: Global,
    simple: Simple,
    pieces: &[Piece],
) -> Result<Option<Value>, AllocError>
    ensures { IfOk result (λ value. value ≡ values.literal_value simple pieces.now) }
{
    match literal_text(alloc, pieces)? {
        Some(text) => value_of(alloc, simple, text.as_str()),
        None => Ok(None),
    }
}

/// The values of a type that literals say, where each says one.
fn values_in(
    alloc: Global,
    simple: Simple,
    literals: &Literals,
) -> Result<Option<Vec<Value>>, AllocError>
    ensures { IfOk result (λ list. option_map (λ v. v.items) list ≡ values.values_in simple literals.now) }
{
    let mut list = Vec::new(alloc);
    for at in 0..literals.len() {
        match literal_value(alloc, simple, literals.pieces(at))? {
            Some(value) => list.push(value)?,
            None => return Ok(None),
        }
    }
    Ok(Some(list))
}

/// The values of a type that stand for nil at a component.
pub(crate) fn nil_values(
    alloc: Global,
    simple: Simple,
    subject: &Subject<'_, '_, '_>,
) -> Result<Option<Vec<Value>>, AllocError>
    ensures { IfOk result (λ list. option_map (λ v. v.items) list ≡ values.nil_values (judged_of subject.now) simple) }
{
    match nil_literals(alloc, subject)? {
        Some(literals) => values_in(alloc, simple, &literals),
        None => Ok(None),
    }
}

/// Whether a literal of nil at a component says no value of a type.
fn is_no_value_of(
    alloc: Global,
    simple: Simple,
    subject: &Subject<'_, '_, '_>,
) -> Result<bool, AllocError>
    ensures { IfOk result (λ none. none ≡ values.is_no_value (judged_of subject.now) (Kind.SimpleElement simple)) }
{
    match nil_literals(alloc, subject)? {
        Some(literals) => lacks_value(alloc, simple, &literals),
        None => Ok(false),
    }
}

/// Whether a literal says no value of a type.
fn lacks_value(alloc: Global, simple: Simple, literals: &Literals) -> Result<bool, AllocError>
    ensures { IfOk result (λ none. none ≡ not (is_some (values.values_in simple literals.now))) }
{
    let list = values_in(alloc, simple, literals)?;
    Ok(list.is_none())
}

/// Whether a literal of nil at a component says no value of the type of the kind.
fn is_no_value(alloc: Global, kind: Kind, subject: &Subject<'_, '_, '_>) -> Result<bool, AllocError>
    ensures { IfOk result (λ none. none ≡ values.is_no_value (judged_of subject.now) kind) }
{
    match kind {
        Kind::SimpleElement(simple) => is_no_value_of(alloc, simple, subject),
        _ => Ok(false),
    }
}

/// Whether nil is by a literal that says no value of the element's type.
fn is_nil_no_value(alloc: Global, subject: &Subject<'_, '_, '_>) -> Result<bool, AllocError>
    ensures { IfOk result (λ refused. refused ≡ values.is_nil_no_value (judged_of subject.now)) }
{
    if !is_nil_by_value(subject) {
        return Ok(false);
    }
    is_no_value(alloc, subject.kind, subject)
}

/// Whether it is a complex element that may be nil, or nil is by what can't stand for it.
pub(crate) fn is_nil_not_allowed(
    alloc: Global,
    subject: &Subject<'_, '_, '_>,
) -> Result<bool, AllocError>
    ensures { IfOk result (λ refused. refused ≡ values.is_nil_not_allowed (judged_of subject.now)) }
{
    if (is_complex(subject.kind) && subject.facts.is_nillable) || is_nil_unfit(subject) {
        return Ok(true);
    }
    is_nil_no_value(alloc, subject)
}
