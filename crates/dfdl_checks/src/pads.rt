// The pad characters of texts, and other characters that literals stand for.
ghost use Rattle.std.specs.Prelude.{◌≡◌};
ghost use Rattle.dfdl_checks.specs.JudgedShown.{judged_of};
ghost use Rattle.dfdl_checks.specs.Pads as pads;
ghost use Rattle.dfdl_scope.specs.Told.{told_by};

use crate::encodings::encoding_told;
use crate::kinds::{is_boolean, is_string};
use crate::representations::{is_text, is_word};
use crate::subject::{Kind, Subject};
use dfdl_forms::Encoding;
use dfdl_literals::{PadCharacter, pad_character};
use dfdl_scope::{Asked, is_expression, literal, property};

/// Whether pad characters are taken off.
pub(crate) fn is_trimmed(subject: &Subject<'_, '_, '_>) -> bool
    ensures { result ≡ pads.is_trimmed (judged_of subject.now) }
{
    is_word(subject.chain, "textTrimKind", "padChar")
}

/// Whether pad characters are put on.
pub(crate) fn is_padded(subject: &Subject<'_, '_, '_>) -> bool
    ensures { result ≡ pads.is_padded (judged_of subject.now) }
{
    is_word(subject.chain, "textPadKind", "padChar")
}

/// Whether it is a text of which pad characters are taken off, or to which they are put.
pub(crate) fn is_padded_text(subject: &Subject<'_, '_, '_>) -> bool
    ensures { result ≡ pads.is_padded_text (judged_of subject.now) }
{
    is_text(subject) && (is_trimmed(subject) || is_padded(subject))
}

/// One of three names, of a property of strings, of booleans and of numbers.
pub(crate) fn name_by(
    kind: Kind,
    of_strings: &'static str,
    of_booleans: &'static str,
    of_numbers: &'static str,
) -> &'static str
    ensures { result.now ≡ pads.name_by kind of_strings.now of_booleans.now of_numbers.now }
{
    if is_string(kind) {
        return of_strings;
    }
    if is_boolean(kind) {
        return of_booleans;
    }
    of_numbers
}

/// The property that gives the pad character of texts of a kind.
fn pad_name(kind: Kind) -> &'static str
    ensures { result.now ≡ pads.pad_name kind }
{
    name_by(
        kind,
        "textStringPadCharacter",
        "textBooleanPadCharacter",
        "textNumberPadCharacter",
    )
}

/// What the text of a character that is told stands for; this character where none is told.
pub(crate) fn character_told(otherwise: char, told: Asked<'_>) -> PadCharacter
    ensures { result ≡ pads.character_told otherwise (told_by told.entry) }
{
    match told {
        Asked::Given(written) if is_expression(written) => PadCharacter::Other,
        Asked::Given(written) => pad_character(literal(written)),
        Asked::Absent => PadCharacter::Character(otherwise),
        Asked::Twice { .. } => PadCharacter::Other,
    }
}

/// The pad character of a component, a space where none is told.
pub(crate) fn pad_at(subject: &Subject<'_, '_, '_>) -> PadCharacter
    ensures { result ≡ pads.pad_at (judged_of subject.now) }
{
    character_told(' ', property(subject.chain, pad_name(subject.kind)))
}

/// The character, where the text stands for one.
pub(crate) fn single(pad: PadCharacter) -> Option<char>
    ensures { result ≡ pads.single pad }
{
    match pad {
        PadCharacter::Character(c) => Some(c),
        PadCharacter::Malformed | PadCharacter::Other => None,
    }
}

/// The character, where it is used.
pub(crate) fn used_where(is_used: bool, pad: PadCharacter) -> Option<char>
    ensures { result ≡ pads.used_where is_used pad }
{
    if is_used { single(pad) } else { None }
}

/// Whether the text is no string literal and no list of them.
pub(crate) fn is_malformed(pad: PadCharacter) -> bool
    ensures { result ≡ pads.is_malformed pad }
{
    matches!(pad, PadCharacter::Malformed)
}

/// Whether the text is made of literals that are no single character.
pub(crate) fn is_other(pad: PadCharacter) -> bool
    ensures { result ≡ pads.is_other pad }
{
    matches!(pad, PadCharacter::Other)
}

/// Whether a character is told by a text that is no expression, and whose literals are no single character.
pub(crate) fn is_other_told(told: Asked<'_>) -> bool
    ensures { result ≡ pads.is_other_told (told_by told.entry) }
{
    match told {
        Asked::Given(written) => !is_expression(written)
            && is_other(pad_character(literal(written))),
        Asked::Absent => false,
        Asked::Twice { .. } => false,
    }
}

/// Whether an encoding has the character.
fn has_character(encoding: Encoding, c: char) -> bool
    ensures { result ≡ pads.has_character encoding c }
{
    match encoding {
        Encoding::UsAscii => u32::from(c) < 128,
        Encoding::Iso88591 => u32::from(c) < 256,
        Encoding::Utf8 | Encoding::Utf16Be | Encoding::Utf16Le => true,
    }
}

/// Whether an encoding lacks a character, where both are told.
pub(crate) fn lacks_character(encoding: Option<Encoding>, character: Option<char>) -> bool
    ensures { result ≡ pads.lacks_character encoding character }
{
    match (encoding, character) {
        (Some(encoding), Some(c)) => !has_character(encoding, c),
        _ => false,
    }
}

/// Whether the encoding of a component lacks a character.
pub(crate) fn is_outside(subject: &Subject<'_, '_, '_>, character: PadCharacter) -> bool
    ensures { result ≡ pads.is_outside (judged_of subject.now) character }
{
    lacks_character(
        encoding_told(property(subject.chain, "encoding")),
        single(character),
    )
}

/// Whether the encoding of a component lacks its pad character.
pub(crate) fn is_pad_outside(subject: &Subject<'_, '_, '_>) -> bool
    ensures { result ≡ pads.is_pad_outside (judged_of subject.now) }
{
    is_outside(subject, pad_at(subject))
}
