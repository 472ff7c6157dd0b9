// An escape scheme by its properties.
ghost use Rattle.std.specs.Prelude.{◌≡◌, IfOk, option_and_then, option_copied, true};
ghost use Rattle.std.specs.Str.{chars};
ghost use Rattle.dfdl_literals.specs.Readings.{literals_reading};
ghost use Rattle.dfdl_escape_schemes.specs.Schemes as spec;
ghost use Rattle.dfdl_escape_schemes.specs.Shown.{told_of};

use dfdl_forms::{CharList, EscapeKind, EscapeScheme, Literals, Piece};
use dfdl_literals::{LiteralFault, PadCharacter, pad_character, read_literals};
use dfdl_scope::{is_expression, literal};
use std::alloc::{AllocError, Global};

/// The properties of an escape scheme, as they are written.
#[derive(Debug, Clone, Copy)]
pub struct SchemeProperties<'s> {
    /// escapeKind: `escapeCharacter` or `escapeBlock`.
    pub kind: Option<&'s str>,
    /// escapeCharacter: one character.
    pub escape: Option<&'s str>,
    /// escapeEscapeCharacter: one character.
    pub escape_escape: Option<&'s str>,
    /// escapeBlockStart: one character.
    pub start: Option<&'s str>,
    /// escapeBlockEnd: one character.
    pub end: Option<&'s str>,
    /// extraEscapedCharacters: single characters, divided by white space.
    pub extra: Option<&'s str>,
    /// generateEscapeBlock: `always` or `whenNeeded`.
    pub generation: Option<&'s str>,
}

// The kind that a word stands for.
fn kind_by(word: &str) -> Option<EscapeKind>
    ensures { result ≡ spec.kind_by word.now }
{
    match word {
        "escapeCharacter" => Some(EscapeKind::Character),
        "escapeBlock" => Some(EscapeKind::Block),
        _ => None,
    }
}

// The kind that is told, if it is one.
fn kind_told(kind: Option<&str>) -> Option<EscapeKind>
    ensures { result ≡ spec.kind_told (option_copied kind.entry) }
{
    match kind {
        Some(word) => kind_by(word),
        None => None,
    }
}

// The character that a text is read as, if it is one.
fn character_by(read: PadCharacter) -> Option<char>
    ensures { result ≡ spec.character_by read }
{
    match read {
        PadCharacter::Character(c) => Some(c),
        PadCharacter::Malformed | PadCharacter::Other => None,
    }
}

// The character that a text stands for, if it stands for one.
fn character_in(text: &str) -> Option<char>
    ensures { result ≡ spec.character_in text.now }
{
    if is_expression(text) {
        return None;
    }
    character_by(pad_character(literal(text)))
}

// The character that is told, if one is.
fn character_told(text: Option<&str>) -> Option<char>
    ensures { result ≡ spec.character_told (option_copied text.entry) }
{
    match text {
        Some(text) => character_in(text),
        None => None,
    }
}

// Whether what is told, if anything is, is one character.
fn is_character_or_none(text: Option<&str>) -> bool
    ensures { result ≡ spec.is_character_or_none (option_copied text.entry) }
{
    match text {
        Some(text) => character_in(text).is_some(),
        None => true,
    }
}

// The character that a literal is, if it is one.
fn single(pieces: &[Piece]) -> Option<char>
    ensures { result ≡ spec.single pieces.now }
{
    match pieces {
        [Piece::Char(c)] => Some(*c),
        _ => None,
    }
}

// The characters that literals are, if each of them is one.
fn singles(alloc: Global, literals: &Literals) -> Result<Option<CharList>, AllocError>
    ensures { IfOk result (λ list. list ≡ spec.singles literals.now) }
{
    let mut characters = Vec::new(alloc);
    for at in 0..literals.len() {
        let Some(c) = single(literals.pieces(at)) else {
            return Ok(None);
        };
        characters.push(c)?;
    }
    Ok(Some(CharList::new(characters)))
}

// The characters that a text lists, if it is literals of one character each.
fn characters_by(alloc: Global, text: &str) -> Result<Option<CharList>, AllocError>
    ensures { IfOk result (λ list. list ≡ option_and_then spec.singles (literals_reading true (chars text.now))) }
{
    match read_literals(alloc, text, true) {
        Ok(literals) => singles(alloc, &literals),
        Err(LiteralFault::Malformed { .. }) => Ok(None),
        Err(_) => Err(AllocError),
    }
}

// The characters that a text lists, if it is such a list.
fn characters_in(alloc: Global, text: &str) -> Result<Option<CharList>, AllocError>
    ensures { IfOk result (λ list. list ≡ spec.characters_in text.now) }
{
    if is_expression(text) {
        return Ok(None);
    }
    characters_by(alloc, literal(text))
}

// The characters that are told, if what is told is such a list.
fn characters_told(alloc: Global, text: Option<&str>) -> Result<Option<CharList>, AllocError>
    ensures { IfOk result (λ list. list ≡ spec.characters_told (option_copied text.entry)) }
{
    match text {
        Some(text) => characters_in(alloc, text),
        None => Ok(Some(CharList::new(Vec::new(alloc)))),
    }
}

// Whether what is told, if anything is, says when a block is written.
fn is_generation_or_none(text: Option<&str>) -> bool
    ensures { result ≡ spec.is_generation_or_none (option_copied text.entry) }
{
    match text {
        Some(text) => text == "always" || text == "whenNeeded",
        None => true,
    }
}

// Whether a block is written also where none is needed.
fn is_always(text: Option<&str>) -> bool
    ensures { result ≡ spec.is_always (option_copied text.entry) }
{
    match text {
        Some(text) => text == "always",
        None => false,
    }
}

// Whether each property besides the list of characters that is told has a value that it can have.
fn are_values(properties: &SchemeProperties<'_>) -> bool
    ensures { result ≡ spec.are_values (told_of properties.now) }
{
    is_character_or_none(properties.escape)
        && is_character_or_none(properties.escape_escape)
        && is_character_or_none(properties.start)
        && is_character_or_none(properties.end)
        && is_generation_or_none(properties.generation)
}

// A scheme of this kind with the characters that are told, and with these that are escaped too.
fn scheme_with(properties: &SchemeProperties<'_>, kind: EscapeKind, extra: CharList) -> EscapeScheme
    ensures { result ≡ spec.scheme_with (told_of properties.now) kind extra }
{
    EscapeScheme {
        kind,
        escape: character_told(properties.escape),
        escape_escape: character_told(properties.escape_escape),
        start: character_told(properties.start),
        end: character_told(properties.end),
        extra,
        always: is_always(properties.generation),
    }
}

// Whether the characters that a kind needs are there.
fn has_needed(kind: EscapeKind, properties: &SchemeProperties<'_>) -> bool
    ensures { result ≡ spec.has_needed kind (told_of properties.now) }
{
    match kind {
        EscapeKind::Absent => true,
        EscapeKind::Character => character_told(properties.escape).is_some(),
        EscapeKind::Block => {
            character_told(properties.start).is_some() && character_told(properties.end).is_some()
        }
    }
}

// A scheme of this kind, with these characters that are escaped too, if the other properties make one.
fn scheme_by(
    properties: &SchemeProperties<'_>,
    kind: EscapeKind,
    extra: CharList,
) -> Option<EscapeScheme>
    ensures { result ≡ spec.scheme_by (told_of properties.now) kind extra }
{
    if are_values(properties) && has_needed(kind, properties) {
        Some(scheme_with(properties, kind, extra))
    } else {
        None
    }
}

// A scheme of this kind, if its properties make one.
fn scheme_of_kind(
    alloc: Global,
    properties: &SchemeProperties<'_>,
    kind: EscapeKind,
) -> Result<Option<EscapeScheme>, AllocError>
    ensures { IfOk result (λ scheme. scheme ≡ spec.scheme_of_kind (told_of properties.now) kind) }
{
    match characters_told(alloc, properties.extra)? {
        Some(extra) => Ok(scheme_by(properties, kind, extra)),
        None => Ok(None),
    }
}

/// An escape scheme by its properties; nothing where the kind or a character that the kind needs isn't told, or a property has a
/// value that it can't have ('Simple Types', on escape schemes).
#[tactic(auto, unfolding(crate::specs::Schemes::scheme_of))]
pub fn escape_scheme(
    alloc: Global,
    properties: &SchemeProperties<'_>,
) -> Result<Option<EscapeScheme>, AllocError>
    ensures { IfOk result (λ scheme. scheme ≡ spec.scheme_of (told_of properties.now)) }
{
    match kind_told(properties.kind) {
        Some(kind) => scheme_of_kind(alloc, properties, kind),
        None => Ok(None),
    }
}
