// How the values of texts and of elements of type hexBinary lie in the data.
ghost use Rattle.std.specs.Prelude.{◌≡◌, ◌≤◌, ◌*◌, IfOk, option_map, codes};
ghost use Rattle.dfdl_terms.specs.Rows.{most_length};
ghost use Rattle.dfdl_checks.specs.BooleanTexts.{truth_form_of};
ghost use Rattle.dfdl_checks.specs.Boxes.{box_bits};
ghost use Rattle.dfdl_checks.specs.JudgedShown.{judged_of};
ghost use Rattle.dfdl_checks.specs.NumberTexts.{number_form_of, zoned_form_of};
ghost use Rattle.dfdl_checks.specs.Orders.{field_order};
ghost use Rattle.dfdl_checks.specs.Texts as texts;
ghost use Rattle.dfdl_scope.specs.Scoping.{told};
ghost use Rattle.dfdl_scope.specs.Shown.{chain_of};

use crate::boolean_texts::truth_form_of;
use crate::boxes::{box_bits, box_unit, box_units, is_in_characters};
use crate::encodings::encoding_told;
use crate::kinds::{is_characters, is_string, is_truths};
use crate::number_texts::number_form_of;
use crate::orders::field_order;
use crate::pads::{is_padded, is_trimmed, name_by, pad_at, used_where};
use crate::representations::{has_delimited_length, is_text_number, is_word};
use crate::subject::{Kind, Subject};
use crate::zoned_texts::zoned_form_of;
use dfdl_escape_schemes::EscapeMarks;
use dfdl_forms::{Encoding, Justify, PadForm, Simple};
use dfdl_scope::{Component, property};
use dfdl_terms::{OctetForm, Primitive, ScanForm, TextContent, TextForm, TextSize};
use std::alloc::{AllocError, Global};

// No pad character is put on or taken off.
const NO_PAD: PadForm = PadForm {
    justify: Justify::Left,
    pad: None,
    trim: None,
    truncate: false,
    keeps_zero: false,
};

/// The values of a component as texts of the type.
pub(crate) fn text_of(
    alloc: Global,
    subject: &Subject<'_, '_, '_>,
    simple: Simple,
) -> Result<Option<Primitive>, AllocError>
    ensures { IfOk result (λ primitive. primitive ≡ texts.text_of (judged_of subject.now) simple) }
{
    match encoding_told(property(subject.chain, "encoding")) {
        Some(encoding) => text_in(alloc, subject, simple, encoding),
        None => Ok(None),
    }
}

/// The same in an encoding.
fn text_in(
    alloc: Global,
    subject: &Subject<'_, '_, '_>,
    simple: Simple,
    encoding: Encoding,
) -> Result<Option<Primitive>, AllocError>
    ensures { IfOk result (λ primitive. primitive ≡ texts.text_in (judged_of subject.now) simple encoding) }
{
    let content = content_of(alloc, subject, simple)?;
    Ok(text_by(
        encoding,
        is_replaced(subject.chain),
        text_size(subject, encoding),
        pad_of(subject),
        content,
    ))
}

/// A text in an encoding, of a size, which is read as this.
fn text_by(
    encoding: Encoding,
    replaces: bool,
    size: Option<TextSize>,
    pad: PadForm,
    content: Option<TextContent>,
) -> Option<Primitive>
    ensures { result ≡ texts.text_by encoding replaces size pad content }
{
    match (size, content) {
        (Some(size), Some(content)) => Some(Primitive::Text(TextForm {
            encoding,
            replaces,
            size,
            pad,
            content,
        })),
        _ => None,
    }
}

/// What a component's characters are read as, as values of the type.
fn content_of(
    alloc: Global,
    subject: &Subject<'_, '_, '_>,
    simple: Simple,
) -> Result<Option<TextContent>, AllocError>
    ensures { IfOk result (λ content. content ≡ texts.content_of (judged_of subject.now) simple) }
{
    if is_characters(simple) {
        return Ok(Some(TextContent::Plain));
    }
    if is_truths(simple) {
        return truth_text(alloc, subject);
    }
    if is_word(subject.chain, "textNumberRep", "zoned") {
        return zoned_text(alloc, subject, simple);
    }
    number_text(alloc, subject, simple)
}

/// A boolean by the component's texts of true and false.
fn truth_text(
    alloc: Global,
    subject: &Subject<'_, '_, '_>,
) -> Result<Option<TextContent>, AllocError>
    ensures { IfOk result (λ content. content ≡ option_map TextContent.Truth (truth_form_of (judged_of subject.now))) }
{
    match truth_form_of(alloc, subject)? {
        Some(form) => Ok(Some(TextContent::Truth(form))),
        None => Ok(None),
    }
}

/// A zoned number of the type.
fn zoned_text(
    alloc: Global,
    subject: &Subject<'_, '_, '_>,
    simple: Simple,
) -> Result<Option<TextContent>, AllocError>
    ensures { IfOk result (λ content. content ≡ option_map TextContent.Zoned (zoned_form_of (judged_of subject.now) simple)) }
{
    match zoned_form_of(alloc, subject, simple)? {
        Some(form) => Ok(Some(TextContent::Zoned(form))),
        None => Ok(None),
    }
}

/// A number of the type by a pattern, or by the digits of a base.
fn number_text(
    alloc: Global,
    subject: &Subject<'_, '_, '_>,
    simple: Simple,
) -> Result<Option<TextContent>, AllocError>
    ensures { IfOk result (λ content. content ≡ option_map (texts.number_text simple) (number_form_of (judged_of subject.now))) }
{
    match number_form_of(alloc, subject)? {
        Some(form) => Ok(Some(TextContent::Number { form, kind: simple })),
        None => Ok(None),
    }
}

/// Whether a place is replaced at which no character can be decoded.
fn is_replaced(chain: &Component<'_, '_>) -> bool
    ensures { result ≡ texts.is_replaced (told (chain_of chain.now) (codes "encodingErrorPolicy")) }
{
    !is_word(chain, "encodingErrorPolicy", "error")
}

/// How long the text of a component is in an encoding: as far as it is scanned, or as its box is.
fn text_size(subject: &Subject<'_, '_, '_>, encoding: Encoding) -> Option<TextSize>
    ensures { result ≡ texts.text_size (judged_of subject.now) encoding }
{
    if has_delimited_length(subject) {
        return Some(TextSize::Delimited(scan_of(subject, encoding)));
    }
    boxed_size(subject)
}

/// How the text of a component of delimited length is scanned, by its escape scheme.
fn scan_of(subject: &Subject<'_, '_, '_>, encoding: Encoding) -> ScanForm
    ensures { result ≡ texts.scan_of (judged_of subject.now) encoding }
{
    let pad = pad_of(subject);
    let lead = lead_by(pad.justify, pad.trim);
    scan_by(
        subject.scheme.marks(),
        lead,
        encoding,
        is_replaced(subject.chain),
    )
}

/// How a content of delimited length is scanned.
fn scan_by(marks: EscapeMarks, lead: Option<char>, encoding: Encoding, replaces: bool) -> ScanForm
    ensures { result ≡ texts.scan_by marks lead encoding replaces }
{
    ScanForm {
        kind: marks.kind,
        escape: marks.escape,
        escape_escape: marks.escape_escape,
        start: marks.start,
        end: marks.end,
        lead,
        encoding,
        replaces,
    }
}

/// The pad character that trimming takes off at the left.
fn lead_by(justify: Justify, trim: Option<char>) -> Option<char>
    ensures { result ≡ texts.lead_by justify trim }
{
    match justify {
        Justify::Left => None,
        Justify::Right | Justify::Center => trim,
    }
}

/// How long the text of a component is in its box, where that isn't past the greatest length.
fn boxed_size(subject: &Subject<'_, '_, '_>) -> Option<TextSize>
    ensures { result ≡ texts.boxed_size (judged_of subject.now) }
{
    match box_units(subject) {
        Some(units) => Some(size_in(is_in_characters(subject), box_unit(subject), units)),
        None => None,
    }
}

/// So many units of a text, which are characters or have so many bits.
fn size_in(are_characters: bool, unit: u32, units: u64) -> TextSize
    requires { units * unit ≤ most_length }
    ensures { result ≡ texts.size_in are_characters unit units }
{
    if are_characters {
        TextSize::Characters(units)
    } else {
        TextSize::Bits(units * u64::from(unit))
    }
}

/// How the text of a component stands in its box.
fn pad_of(subject: &Subject<'_, '_, '_>) -> PadForm
    ensures { result ≡ texts.pad_of (judged_of subject.now) }
{
    let pad = pad_at(subject);
    let is_number = is_text_number(subject);
    PadForm {
        justify: justify_told(is_number, subject.chain, justify_name(subject.kind)),
        pad: used_where(is_padded(subject), pad),
        trim: used_where(is_trimmed(subject), pad),
        truncate: is_cut(subject),
        keeps_zero: is_number,
    }
}

/// Whether it is a string that is cut where it is too long.
fn is_cut(subject: &Subject<'_, '_, '_>) -> bool
    ensures { result ≡ (texts.pad_of (judged_of subject.now)).truncate }
{
    is_string(subject.kind) && is_word(subject.chain, "truncateSpecifiedLengthString", "yes")
}

/// The property that gives the side at which texts of a kind stand.
fn justify_name(kind: Kind) -> &'static str
    ensures { result.now ≡ texts.justify_name kind }
{
    name_by(
        kind,
        "textStringJustification",
        "textBooleanJustification",
        "textNumberJustification",
    )
}

/// The side that a chain gives by a property; left where it gives none, and right of a number.
fn justify_told(is_number: bool, chain: &Component<'_, '_>, name: &str) -> Justify
    ensures { result ≡ texts.justify_told is_number (told (chain_of chain.now) name.now) }
{
    if is_word(chain, name, "right") {
        return Justify::Right;
    }
    if is_word(chain, name, "center") {
        return Justify::Center;
    }
    if is_word(chain, name, "left") {
        return Justify::Left;
    }
    if is_number {
        Justify::Right
    } else {
        Justify::Left
    }
}

/// The values of a component as bytes.
pub(crate) fn octets_of(subject: &Subject<'_, '_, '_>) -> Option<Primitive>
    ensures { result ≡ texts.octets_of (judged_of subject.now) }
{
    if has_delimited_length(subject) {
        return Some(delimited_octets());
    }
    boxed_octets(subject)
}

/// Bytes of delimited length.
fn delimited_octets() -> Primitive
    ensures { result ≡ texts.delimited_octets }
{
    Primitive::Text(TextForm {
        encoding: Encoding::Iso88591,
        replaces: false,
        size: TextSize::Delimited(scan_by(EscapeMarks::none(), None, Encoding::Iso88591, false)),
        pad: NO_PAD,
        content: TextContent::Octets,
    })
}

/// The values of a component as the bytes of its box.
fn boxed_octets(subject: &Subject<'_, '_, '_>) -> Option<Primitive>
    ensures { result ≡ option_map (texts.octets_by (field_order (judged_of subject.now))) (box_bits (judged_of subject.now)) }
{
    match box_bits(subject) {
        Some(bits) => Some(Primitive::Octets(OctetForm {
            bits,
            bits_by: field_order(subject),
        })),
        None => None,
    }
}
