// What stands for nil in the data of an element.
ghost use Rattle.std.specs.Prelude.{◌≡◌, IfOk, true, false, not, is_some, option_map};
ghost use Rattle.std.specs.List.{list_any};
ghost use Rattle.std.specs.Option.{option_map_or};
ghost use Rattle.std.specs.Str.{chars};
ghost use Rattle.dfdl_checks.specs.JudgedShown.{judged_of};
ghost use Rattle.dfdl_checks.specs.Nils as nils;
ghost use Rattle.dfdl_literals.specs.Readings.{literals_reading};
ghost use Rattle.dfdl_scope.specs.Told.{told_by};

use crate::encodings::encoding_told;
use crate::pads::{is_malformed, is_other, is_outside, lacks_character, single};
use crate::representations::{is_explicit, is_nillable, is_text, is_word};
use crate::subject::Subject;
use dfdl_forms::{Encoding, Literals, Piece};
use dfdl_literals::{
    FillByte, LiteralFault, PadCharacter, fill_byte, pad_character, read_literals,
};
use dfdl_scope::{Asked, is_expression, literal, property};
use dfdl_terms::{NilForm, NilTexts};
use std::alloc::{AllocError, Global};

/// Whether nil is one of some literals.
fn is_nil_by_literals(subject: &Subject<'_, '_, '_>) -> bool
    ensures { result ≡ nils.is_nil_by_literals (judged_of subject.now) }
{
    is_nillable(subject) && is_word(subject.chain, "nilKind", "literalValue")
}

/// Whether nil is one or more of a character, or of a byte.
fn is_nil_by_character(subject: &Subject<'_, '_, '_>) -> bool
    ensures { result ≡ nils.is_nil_by_character (judged_of subject.now) }
{
    is_nillable(subject) && is_word(subject.chain, "nilKind", "literalCharacter")
}

/// Whether nil is the value of some literals.
pub(crate) fn is_nil_by_value(subject: &Subject<'_, '_, '_>) -> bool
    ensures { result ≡ nils.is_nil_by_value (judged_of subject.now) }
{
    is_nillable(subject) && is_word(subject.chain, "nilKind", "logicalValue")
}

/// The literals that a text is, if it is some; `%ES;` may be one.
fn literals_in(alloc: Global, text: &str) -> Result<Option<Literals>, AllocError>
    ensures { IfOk result (λ list. list ≡ literals_reading true (chars text.now)) }
{
    match read_literals(alloc, text, true) {
        Ok(list) => Ok(Some(list)),
        Err(LiteralFault::Malformed { .. }) => Ok(None),
        Err(_) => Err(AllocError),
    }
}

/// The literals of nil that are told, where they are some.
fn literals_told(alloc: Global, told: Asked<'_>) -> Result<Option<Literals>, AllocError>
    ensures { IfOk result (λ list. list ≡ nils.literals_told (told_by told.entry)) }
{
    match told {
        Asked::Given(written) => literals_in(alloc, literal(written)),
        Asked::Absent => Ok(None),
        Asked::Twice { .. } => Ok(None),
    }
}

/// The literals of nil at a component.
pub(crate) fn nil_literals(
    alloc: Global,
    subject: &Subject<'_, '_, '_>,
) -> Result<Option<Literals>, AllocError>
    ensures { IfOk result (λ list. list ≡ nils.nil_literals (judged_of subject.now)) }
{
    literals_told(alloc, property(subject.chain, "nilValue"))
}

/// Whether literals of nil are told by a text that is no expression, and that is no list of literals.
fn are_literals_malformed(alloc: Global, told: Asked<'_>) -> Result<bool, AllocError>
    ensures { IfOk result (λ malformed. malformed ≡ nils.are_literals_malformed (told_by told.entry)) }
{
    match told {
        Asked::Given(written) if is_expression(written) => Ok(false),
        Asked::Given(written) => is_no_list(alloc, literal(written)),
        Asked::Absent => Ok(false),
        Asked::Twice { .. } => Ok(false),
    }
}

/// Whether a text is no list of literals.
fn is_no_list(alloc: Global, text: &str) -> Result<bool, AllocError>
    ensures { IfOk result (λ none. none ≡ not (is_some (literals_reading true (chars text.now)))) }
{
    let list = literals_in(alloc, text)?;
    Ok(list.is_none())
}

/// What the text of the character of nil stands for; an expression, and nothing, stand for none.
fn nil_character_told(told: Asked<'_>) -> PadCharacter
    ensures { result ≡ nils.nil_character_told (told_by told.entry) }
{
    match told {
        Asked::Given(written) if is_expression(written) => PadCharacter::Other,
        Asked::Given(written) => pad_character(literal(written)),
        Asked::Absent => PadCharacter::Other,
        Asked::Twice { .. } => PadCharacter::Other,
    }
}

/// The character of nil at a component.
fn nil_character(subject: &Subject<'_, '_, '_>) -> PadCharacter
    ensures { result ≡ nils.nil_character (judged_of subject.now) }
{
    nil_character_told(property(subject.chain, "nilValue"))
}

/// The byte that a text stands for, if it is one.
fn byte_in(byte: FillByte) -> Option<u8>
    ensures { result ≡ nils.byte_in byte }
{
    match byte {
        FillByte::Byte(byte) => Some(byte),
        FillByte::Malformed | FillByte::Other => None,
    }
}

/// The raw byte that a text is, by the character and by the byte that it stands for: a raw byte is no character.
fn raw_byte(character: PadCharacter, byte: FillByte) -> Option<u8>
    ensures { result ≡ nils.raw_byte character byte }
{
    match character {
        PadCharacter::Character(_) | PadCharacter::Malformed => None,
        PadCharacter::Other => byte_in(byte),
    }
}

/// The raw byte that the text of the character of nil is, if it is one.
fn nil_byte_told(told: Asked<'_>) -> Option<u8>
    ensures { result ≡ nils.nil_byte_told (told_by told.entry) }
{
    match told {
        Asked::Given(written) if is_expression(written) => None,
        Asked::Given(written) => {
            raw_byte(pad_character(literal(written)), fill_byte(literal(written)))
        }
        Asked::Absent => None,
        Asked::Twice { .. } => None,
    }
}

/// The raw byte of nil at a component; a text has none.
fn nil_byte(subject: &Subject<'_, '_, '_>) -> Option<u8>
    ensures { result ≡ nils.nil_byte (judged_of subject.now) }
{
    if is_text(subject) {
        return None;
    }
    nil_byte_told(property(subject.chain, "nilValue"))
}

/// Whether it is an element that may be nil, whose texts of nil are no list of literals.
pub(crate) fn is_nil_malformed(
    alloc: Global,
    subject: &Subject<'_, '_, '_>,
) -> Result<bool, AllocError>
    ensures { IfOk result (λ malformed. malformed ≡ nils.is_nil_malformed (judged_of subject.now)) }
{
    if is_nil_by_character(subject) && is_malformed(nil_character(subject)) {
        return Ok(true);
    }
    if !(is_nil_by_literals(subject) || is_nil_by_value(subject)) {
        return Ok(false);
    }
    are_literals_malformed(alloc, property(subject.chain, "nilValue"))
}

/// Whether an encoding lacks a piece that is a character.
fn lacks_piece(encoding: Option<Encoding>, piece: Piece) -> bool
    ensures { result ≡ nils.lacks_piece encoding piece }
{
    match piece {
        Piece::Char(c) => lacks_character(encoding, Some(c)),
        _ => false,
    }
}

/// Whether an encoding lacks a character of a literal.
fn lacks_pieces(encoding: Option<Encoding>, pieces: &[Piece]) -> bool
    ensures { result ≡ list_any (nils.lacks_piece encoding) pieces.now }
{
    for piece in pieces {
        if lacks_piece(encoding, *piece) {
            return true;
        }
    }
    false
}

/// Whether an encoding lacks a character of some literals.
pub(crate) fn lacks_literals(encoding: Option<Encoding>, literals: &Literals) -> bool
    ensures { result ≡ nils.lacks_literals encoding literals.now }
{
    for at in 0..literals.len() {
        if lacks_pieces(encoding, literals.pieces(at)) {
            return true;
        }
    }
    false
}

/// The same of literals that may not be told.
fn lacks_told(encoding: Option<Encoding>, literals: Option<Literals>) -> bool
    ensures { result ≡ option_map_or (nils.lacks_literals encoding) literals false }
{
    match literals {
        Some(literals) => lacks_literals(encoding, &literals),
        None => false,
    }
}

/// Whether the encoding of a component lacks a character of its literals of nil.
fn are_literals_outside(alloc: Global, subject: &Subject<'_, '_, '_>) -> Result<bool, AllocError>
    ensures { IfOk result (λ outside. outside ≡ nils.are_literals_outside (judged_of subject.now)) }
{
    let literals = nil_literals(alloc, subject)?;
    Ok(lacks_told(encoding_told(property(subject.chain, "encoding")), literals))
}

/// Whether it is an element that may be nil, whose encoding lacks a character of its texts of nil.
pub(crate) fn is_nil_not_encoded(
    alloc: Global,
    subject: &Subject<'_, '_, '_>,
) -> Result<bool, AllocError>
    ensures { IfOk result (λ outside. outside ≡ nils.is_nil_not_encoded (judged_of subject.now)) }
{
    if is_nil_by_character(subject) && is_outside(subject, nil_character(subject)) {
        return Ok(true);
    }
    if !is_nil_by_literals(subject) {
        return Ok(false);
    }
    are_literals_outside(alloc, subject)
}

/// Whether the length is the component's own or that of its type.
fn is_length_fixed(subject: &Subject<'_, '_, '_>) -> bool
    ensures { result ≡ nils.is_length_fixed (judged_of subject.now) }
{
    is_explicit(subject) || is_word(subject.chain, "lengthKind", "implicit")
}

/// Whether nil is told by what is no single character, and no raw byte where the content is no text.
fn is_nil_other(subject: &Subject<'_, '_, '_>) -> bool
    ensures { result ≡ nils.is_nil_other (judged_of subject.now) }
{
    is_other(nil_character(subject)) && nil_byte(subject).is_none()
}

/// Whether nil is by such, or by a character or a byte where the length is neither the element's own nor that of its type.
pub(crate) fn is_nil_unfit(subject: &Subject<'_, '_, '_>) -> bool
    ensures { result ≡ nils.is_nil_unfit (judged_of subject.now) }
{
    is_nil_by_character(subject) && (is_nil_other(subject) || !is_length_fixed(subject))
}

/// The texts of nil by literals at a component.
fn literal_texts(
    alloc: Global,
    subject: &Subject<'_, '_, '_>,
) -> Result<Option<NilTexts>, AllocError>
    ensures { IfOk result (λ texts. texts ≡ option_map NilTexts.Literals (nils.nil_literals (judged_of subject.now))) }
{
    match nil_literals(alloc, subject)? {
        Some(literals) => Ok(Some(NilTexts::Literals(literals))),
        None => Ok(None),
    }
}

/// Nil by a byte.
fn byte_texts(byte: Option<u8>) -> Option<NilTexts>
    ensures { result ≡ option_map NilTexts.Byte byte }
{
    match byte {
        Some(byte) => Some(NilTexts::Byte(byte)),
        None => None,
    }
}

/// Nil by a character, else by a byte.
fn texts_by(character: Option<char>, byte: Option<u8>) -> Option<NilTexts>
    ensures { result ≡ nils.texts_by character byte }
{
    match character {
        Some(c) => Some(NilTexts::Character(c)),
        None => byte_texts(byte),
    }
}

/// The texts of nil at a component.
fn nil_texts(alloc: Global, subject: &Subject<'_, '_, '_>) -> Result<Option<NilTexts>, AllocError>
    ensures { IfOk result (λ texts. texts ≡ nils.nil_texts (judged_of subject.now)) }
{
    if is_nil_by_literals(subject) {
        return literal_texts(alloc, subject);
    }
    if is_nil_by_character(subject) {
        return Ok(texts_by(single(nil_character(subject)), nil_byte(subject)));
    }
    Ok(None)
}

/// Nil by these texts in an encoding, where both are told.
fn nil_form_by(texts: Option<NilTexts>, encoding: Option<Encoding>, fold: bool) -> Option<NilForm>
    ensures { result ≡ nils.nil_form_by texts encoding fold }
{
    match (texts, encoding) {
        (Some(texts), Some(encoding)) => Some(NilForm {
            texts,
            encoding,
            fold,
        }),
        _ => None,
    }
}

/// How nil lies in the data of an element that may be nil.
pub(crate) fn nil_form_of(
    alloc: Global,
    subject: &Subject<'_, '_, '_>,
) -> Result<Option<NilForm>, AllocError>
    ensures { IfOk result (λ form. form ≡ nils.nil_form_of (judged_of subject.now)) }
{
    let texts = nil_texts(alloc, subject)?;
    Ok(nil_form_by(
        texts,
        encoding_told(property(subject.chain, "encoding")),
        is_word(subject.chain, "ignoreCase", "yes"),
    ))
}
