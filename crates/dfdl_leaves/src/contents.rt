// What the characters of a text are read as.
ghost use Rattle.std.specs.Prelude.{◌≡◌, ◌-◌, ◌≤◌, IfOk, take, drop, length};
ghost use Rattle.std.specs.Result.{result_ok};
ghost use Rattle.dfdl_terms.specs.Rows.{IsTextContent};
ghost use Rattle.dfdl_chars.specs.Encodings.{encoded_text};
ghost use Rattle.dfdl_forms.specs.declared.encoding.Encoding.TheVariants.{Iso88591};
ghost use Rattle.dfdl_grammar.specs.Leaves.{content_find, kept_find, nil_find, number_find, octets_find, truth_find};
ghost use Rattle.dfdl_grammar.specs.Nils.{is_nil};
ghost use Rattle.dfdl_looks.specs.Asks.{Told};
ghost use Rattle.dfdl_leaves.specs.declared.leaf.Scratch.{Scratch as AnyScratch};
ghost use Rattle.dfdl_leaves.specs.Readings.{HasPiece, IsPlain, found_shown};

use crate::leaf::{Found, Scratch, found_of, packed_found};
use crate::nils::{is_nil, nil_found, put_encoded};
use crate::spans::{kept_to, text_value};
use dfdl_forms::Encoding;
use dfdl_grammar::Span;
use dfdl_number_text::NumberFault;
use dfdl_packed::read_zoned;
use dfdl_region::Content;
use dfdl_report::ParseCause;
use dfdl_terms::{NilForm, TextContent, TextForm};
use dfdl_text_string::{NoTruth, read_truth};
use dfdl_value::Value;
use std::alloc::AllocError;

/// What the characters of the scratch from one on and before another are found as that trimming keeps of a text, in a box that ends at a
/// bit.
pub(crate) fn kept_found(
    form: &TextForm,
    scratch: &mut Scratch,
    from: usize,
    to: usize,
    end: u64,
) -> Result<Found, AllocError>
    requires piece { (from ≤ to) × (to ≤ length scratch.old.characters.items) }
    requires content { IsTextContent form.now.content }
    ensures shown { IfOk result (λ found. found_shown scratch.new found
        ≡ Told (kept_find form.now end (take (to - from) (drop from scratch.old.characters.items)))) }
    ensures piece { IfOk result (λ found. HasPiece found scratch.new) }
{
    let characters = &scratch.characters[from..to];
    if let TextContent::Plain = &form.content {
        let value = text_value(form.encoding, characters);
        return Ok(Found::Text {
            from,
            to,
            end,
            value,
        });
    }
    let span = kept_to(end, form.encoding, characters);
    let found = content_found(&form.content, scratch, from, to, span)?;
    Ok(found)
}

// What the characters of the scratch from one on and before another are found as, which have this span.
fn content_found(
    content: &TextContent,
    scratch: &mut Scratch,
    from: usize,
    to: usize,
    span: Span,
) -> Result<Found, AllocError>
    requires piece { (from ≤ to) × (to ≤ length scratch.old.characters.items) }
    requires content { IsTextContent content.now }
    ensures shown { IfOk result (λ found. found_shown scratch.new found
        ≡ Told (content_find content.now (take (to - from) (drop from scratch.old.characters.items)) span)) }
    ensures piece { IfOk result (λ found. HasPiece found scratch.new) }
{
    match content {
        TextContent::Plain => Ok(Found::Text {
            from,
            to,
            end: span.end,
            value: Some(span.value),
        }),
        TextContent::Octets => {
            let found = octets_found(scratch, from, to, span)?;
            Ok(found)
        }
        TextContent::Number { form, kind } => {
            let characters = &scratch.characters[from..to];
            let read = dfdl_number_text::read(form, *kind, characters);
            Ok(number_found(&read, span))
        }
        TextContent::Zoned(form) => {
            let characters = &scratch.characters[from..to];
            Ok(packed_found(&read_zoned(characters, form), span))
        }
        TextContent::Truth(form) => {
            let characters = &scratch.characters[from..to];
            Ok(truth_found(read_truth(form, characters), span))
        }
        TextContent::Nil(form) => {
            let found = nil_content(form, scratch, from, to, span)?;
            Ok(found)
        }
    }
}

// What the characters of the scratch from one on and before another are found as that are the bytes of a hexBinary, each by
// ISO-8859-1.
fn octets_found(
    scratch: &mut Scratch,
    from: usize,
    to: usize,
    span: Span,
) -> Result<Found, AllocError>
    requires piece { (from ≤ to) × (to ≤ length scratch.old.characters.items) }
    ensures shown { IfOk result (λ found. found_shown scratch.new found
        ≡ Told (octets_find span (encoded_text Iso88591 (take (to - from) (drop from scratch.old.characters.items))))) }
    ensures piece { IfOk result (λ found. (after : AnyScratch) → HasPiece found after) }
{
    let characters = &scratch.characters[from..to];
    let has_bytes = put_encoded(Encoding::Iso88591, characters, &mut scratch.octets)?;
    if has_bytes {
        Ok(Found::Octets { span })
    } else {
        Ok(Found::Fails(ParseCause::BadCharacter))
    }
}

// What the characters of the scratch from one on and before another are found as that have to be nil.
fn nil_content(
    form: &NilForm,
    scratch: &mut Scratch,
    from: usize,
    to: usize,
    span: Span,
) -> Result<Found, AllocError>
    requires piece { (from ≤ to) × (to ≤ length scratch.old.characters.items) }
    ensures found { IfOk result (λ found. (after : AnyScratch)
        → found_shown after found ≡ Told (nil_find span (is_nil form.now (take (to - from) (drop from scratch.old.characters.items))))) }
    ensures plain { IfOk result (λ found. IsPlain found span.end) }
{
    let characters = &scratch.characters[from..to];
    let is_nil = is_nil(form, characters, &mut scratch.octets, &mut scratch.places)?;
    Ok(nil_found(is_nil, span))
}

// What the reading of a text number is found as.
fn number_found(read: &Result<Value, NumberFault>, span: Span) -> Found
    ensures found { (scratch : AnyScratch) → found_shown scratch result ≡ Told (number_find span read.now) }
    ensures plain { IsPlain result span.end }
{
    match read {
        Ok(value) => found_of(value, span),
        Err(NumberFault::NotANumber) => Found::Fails(ParseCause::NotANumber),
        Err(NumberFault::PastType) => Found::Fails(ParseCause::PastType),
    }
}

// What the reading of a boolean is found as.
fn truth_found(read: Result<bool, NoTruth>, span: Span) -> Found
    ensures found { (scratch : AnyScratch) → found_shown scratch result ≡ Told (truth_find span (result_ok read)) }
    ensures plain { IsPlain result span.end }
{
    match read {
        Ok(truth) => Found::Reads {
            content: Content::Truth(truth),
            span,
        },
        Err(NoTruth) => Found::Fails(ParseCause::UnknownBoolean),
    }
}
