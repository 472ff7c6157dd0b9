// How components are written, beside what their rows say.
ghost use Rattle.std.specs.Prelude.{◌≡◌, IfOk, codes, option_copied};
ghost use Rattle.dfdl_checks.specs.JudgedShown.{judged_of};
ghost use Rattle.dfdl_checks.specs.Writings as spec;
ghost use Rattle.dfdl_scope.specs.Scoping.{told};
ghost use Rattle.dfdl_scope.specs.Shown.{chain_of};
ghost use Rattle.dfdl_scope.specs.Told.{told_by};

use crate::defaults::default_value;
use crate::kinds::{is_string, is_unframed};
use crate::pads::is_padded;
use crate::representations::{has_delimited_length, is_by_pattern, is_prefixed, is_text};
use crate::subject::{Kind, Subject};
use crate::values::is_number;
use dfdl_escape_schemes::NamedScheme;
use dfdl_forms::{CharList, EscapeScheme};
use dfdl_literals::{FillByte, fill_byte};
use dfdl_scope::{Asked, Component, is_expression, literal, property};
use dfdl_terms::{Writing, WritingForm};
use dfdl_value::Value;
use std::alloc::{AllocError, Global};

/// How a component is written, beside what its rows say: the byte of its fill, 0 where it has no framing of its own ('Framing'); how
/// its text is written, with the escape scheme of a text alone and the least number of characters of one that is padded and has no box
/// ('Simple Types'); and its default, where it is an element of a simple type ('DFDL Data Syntax Grammar'). What it is made for plays
/// no part.
pub fn writing(alloc: Global, subject: &Subject<'_, '_, '_>) -> Result<Writing, AllocError>
    ensures { IfOk result (λ writing. writing ≡ spec.writing_of (judged_of subject.now)) }
{
    let text = text_at(alloc, subject)?;
    let default = default_of(alloc, subject.kind, subject.facts.default)?;
    Ok(Writing {
        fill: fill_at(subject),
        text,
        default,
    })
}

// The byte that a text of fill stands for, else 0.
fn byte_of(fill: FillByte) -> u8
    ensures { result ≡ spec.byte_of fill }
{
    match fill {
        FillByte::Byte(byte) => byte,
        FillByte::Malformed | FillByte::Other => 0,
    }
}

// The byte of fill that is told; 0 where none is.
fn fill_told(told: Asked<'_>) -> u8
    ensures { result ≡ spec.fill_told (told_by told.entry) }
{
    match told {
        Asked::Given(written) if is_expression(written) => 0,
        Asked::Given(written) => byte_of(fill_byte(literal(written))),
        Asked::Absent => 0,
        Asked::Twice { .. } => 0,
    }
}

// The byte of a component's fill.
fn fill_at(subject: &Subject<'_, '_, '_>) -> u8
    ensures { result ≡ spec.fill_at (judged_of subject.now) }
{
    if is_unframed(subject.kind) {
        0
    } else {
        fill_told(property(subject.chain, "fillByte"))
    }
}

// The characters of a line break by the text that names them; LF where it names none.
fn line_of(alloc: Global, text: &str) -> Result<CharList, AllocError>
    ensures { IfOk result (λ line. line ≡ spec.line_of text.now) }
{
    let mut characters = Vec::new(alloc);
    match text {
        "%CR;%LF;" => {
            characters.push('\r')?;
            characters.push('\n')?;
        }
        "%CR;" => characters.push('\r')?,
        "%NEL;" => characters.push('\u{85}')?,
        "%LS;" => characters.push('\u{2028}')?,
        _ => characters.push('\n')?,
    }
    Ok(CharList::new(characters))
}

// The characters that are told of a line break; LF where none is.
fn line_told(alloc: Global, told: Asked<'_>) -> Result<CharList, AllocError>
    ensures { IfOk result (λ line. line ≡ spec.line_told (told_by told.entry)) }
{
    match told {
        Asked::Given(written) => line_of(alloc, literal(written)),
        Asked::Absent => line_of(alloc, ""),
        Asked::Twice { .. } => line_of(alloc, ""),
    }
}

// The number that digits stand for, at most 2^64 - 1; 0 where there are none.
#[tactic(auto, unfolding(crate::specs::Writings::least_of))]
fn least_of(text: &str) -> u64
    ensures { result ≡ spec.least_of text.now }
{
    if !is_number(text) {
        return 0;
    }
    match text.parse::<u64>() {
        Ok(number) => number,
        Err(_) => u64::MAX,
    }
}

// The least length that is told of texts that are no strings; 0 where none is.
fn least_told(told: Asked<'_>) -> u64
    ensures { result ≡ spec.least_told (told_by told.entry) }
{
    match told {
        Asked::Given(written) => least_of(literal(written)),
        Asked::Absent => 0,
        Asked::Twice { .. } => 0,
    }
}

// The least length that a chain tells of texts that are no strings.
fn least_by(chain: &Component<'_, '_>) -> u64
    ensures { result ≡ spec.least_told (told (chain_of chain.now) (codes "textOutputMinLength")) }
{
    least_told(property(chain, "textOutputMinLength"))
}

// The least length of a component's text.
fn length_at(subject: &Subject<'_, '_, '_>) -> u64
    ensures { result ≡ spec.length_at (judged_of subject.now) }
{
    if is_string(subject.kind) {
        subject.facts.min_length.unwrap_or(0)
    } else {
        least_by(subject.chain)
    }
}

// Whether it is a text without a box of its own.
fn is_open(subject: &Subject<'_, '_, '_>) -> bool
    ensures { result ≡ spec.is_open (judged_of subject.now) }
{
    is_text(subject)
        && (has_delimited_length(subject) || is_prefixed(subject) || is_by_pattern(subject))
}

// How many characters a component's text has at least.
fn least_at(subject: &Subject<'_, '_, '_>) -> u64
    ensures { result ≡ spec.least_at (judged_of subject.now) }
{
    if is_open(subject) && is_padded(subject) {
        length_at(subject)
    } else {
        0
    }
}

// The escape scheme of a component, where it is a text.
fn scheme_at(alloc: Global, subject: &Subject<'_, '_, '_>) -> Result<EscapeScheme, AllocError>
    ensures { IfOk result (λ scheme. scheme ≡ spec.scheme_at (judged_of subject.now)) }
{
    if is_text(subject) {
        subject.scheme.scheme(alloc)
    } else {
        NamedScheme::NoName.scheme(alloc)
    }
}

// How a component's text is written.
fn text_at(alloc: Global, subject: &Subject<'_, '_, '_>) -> Result<WritingForm, AllocError>
    ensures { IfOk result (λ text. text ≡ spec.text_at (judged_of subject.now)) }
{
    let new_line = line_told(alloc, property(subject.chain, "outputNewLine"))?;
    let scheme = scheme_at(alloc, subject)?;
    Ok(WritingForm {
        least: least_at(subject),
        new_line,
        scheme,
    })
}

// The value that a default of this text is at a component of a kind.
fn default_of(alloc: Global, kind: Kind, default: Option<&str>) -> Result<Option<Value>, AllocError>
    ensures { IfOk result (λ value. value ≡ spec.default_of kind (option_copied default.entry)) }
{
    match kind {
        Kind::SimpleElement(simple) => default_value(alloc, simple, default),
        _ => Ok(None),
    }
}
