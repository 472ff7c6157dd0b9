// What stands for nil in the data.
ghost use Rattle.std.specs.Prelude.{◌≡◌, ℕ, ◌+◌, ◌-◌, ◌*◌, ◌/◌, ◌^◌, ◌<◌, ◌≤◌, Some, None, IfOk, nat_eq, if◌then◌else◌};
ghost use Rattle.std.specs.List.{list_all};
ghost use Rattle.dfdl_bits.specs.Window.{end_of, seen_at};
ghost use Rattle.dfdl_chars.specs.Encodings.{encoded_text};
ghost use Rattle.dfdl_grammar.specs.Leaves.{nil_find, nil_octets};
ghost use Rattle.dfdl_grammar.specs.Nils.{are_nil, are_repeated, is_nil};
ghost use Rattle.dfdl_looks.specs.Asks.{Told, ask};
ghost use Rattle.dfdl_looks.specs.Tallies.{nothing};
ghost use Rattle.dfdl_leaves.specs.declared.leaf.Scratch.{Scratch as AnyScratch};
ghost use Rattle.dfdl_leaves.specs.Nils.{nil_reached};
ghost use Rattle.dfdl_leaves.specs.Readings.{Answers, HasPiece, IsPlain, IsWithin, found_shown};
ghost use Rattle.dfdl_leaves.specs.Views.{nil_of};

use crate::leaf::{Found, Glance, Scratch};
use crate::octets::read_octets;
use dfdl_bits::{Steps, Window};
use dfdl_chars::encode;
use dfdl_forms::Encoding;
use dfdl_grammar::Span;
use dfdl_literal_texts::{is_repeated, is_text_of_any};
use dfdl_region::Content;
use dfdl_report::ParseCause;
use dfdl_terms::{NilForm, NilOctets, NilTexts, OctetForm};
use std::alloc::AllocError;
use std::sync::ledger::Ledger;

/// Reads the bytes of a box of so many bits that begins at a bit, and which have to be nil. The bytes stand in the scratch
/// then.
pub(crate) fn read_nil_octets<L: Ledger>(
    form: &NilOctets,
    bits: u64,
    bit: u64,
    sight: &Window,
    scratch: &mut Scratch,
    steps: &mut Steps<L>,
) -> Result<Glance, AllocError>
    requires base { sight.now.base ≤ bit / 8 }
    requires at { bit ≤ 8 * end_of sight.now }
    requires bound { end_of sight.now ≤ 2 ^ 60 }
    requires inside { bit + bits < 2 ^ 64 }
    ensures answers { IfOk result (λ g. Answers (ask (seen_at sight.now) (nil_octets (nil_of form.now bits) bit) nothing) scratch.new g (steps.new - steps.old)) }
    ensures steps { steps.old ≤ steps.new }
    ensures within { IfOk result (λ g. IsWithin g.found (end_of sight.now)) }
    ensures pieces { IfOk result (λ g. HasPiece g.found scratch.new) }
{
    let octets = OctetForm {
        bits,
        bits_by: form.octets.bits_by,
    };
    let glance = read_octets(octets, bit, sight, scratch, steps)?;
    let found = nil_octets_found(&form.nil, glance.found, scratch)?;
    Ok(Glance {
        found,
        far: glance.far,
    })
}

// What the bytes of the scratch are found as that have to be nil, by what they are found as.
fn nil_octets_found(
    form: &NilForm,
    octets: Found,
    scratch: &mut Scratch,
) -> Result<Found, AllocError>
    ensures found { IfOk result (λ found. (after : AnyScratch)
        → found_shown after found ≡ nil_reached form.now (found_shown scratch.old octets)) }
    ensures within { IfOk result (λ found. (last : ℕ) → IsWithin octets last → IsWithin found last) }
    ensures piece { IfOk result (λ found. (after : AnyScratch) → HasPiece found after) }
{
    match octets {
        Found::Octets { span } => {
            let is_nil = are_nil(form, scratch.octets.as_slice(), &mut scratch.places)?;
            Ok(nil_found(is_nil, span))
        }
        Found::Fails(cause) => Ok(Found::Fails(cause)),
        Found::Past => Ok(Found::Past),
        Found::NotYet => Ok(Found::NotYet),
        Found::Reads { .. } => Ok(Found::Fails(ParseCause::RequiredEmpty)),
        Found::Utf8 { .. } => Ok(Found::Fails(ParseCause::RequiredEmpty)),
        Found::Text { .. } => Ok(Found::Fails(ParseCause::RequiredEmpty)),
    }
}

/// What bytes or characters of this span are found as that have to be nil.
pub(crate) fn nil_found(is_nil: bool, span: Span) -> Found
    ensures found { (scratch : AnyScratch) → found_shown scratch result ≡ Told (nil_find span is_nil) }
    ensures plain { IsPlain result span.end }
{
    if is_nil {
        Found::Reads {
            content: Content::Nil,
            span,
        }
    } else {
        Found::Fails(ParseCause::RequiredEmpty)
    }
}

/// Whether the bytes of characters stand for nil. They stand in `octets` then.
pub(crate) fn is_nil(
    form: &NilForm,
    characters: &[char],
    octets: &mut Vec<u8>,
    places: &mut Vec<bool>,
) -> Result<bool, AllocError>
    ensures { IfOk result (λ is. is ≡ is_nil form.now characters.now) }
{
    let has_bytes = put_encoded(form.encoding, characters, octets)?;
    if !has_bytes {
        return Ok(false);
    }
    let is_nil = are_nil(form, octets.as_slice(), places)?;
    Ok(is_nil)
}

// Whether all bytes are this one.
fn are_all(b: u8, bytes: &[u8]) -> bool
    ensures { result ≡ list_all (nat_eq b) bytes.now }
{
    bytes.iter().all(|byte| b == *byte)
}

// Whether there are bytes, and all are this one.
fn are_repeated(b: u8, bytes: &[u8]) -> bool
    ensures { result ≡ are_repeated b bytes.now }
{
    !bytes.is_empty() && are_all(b, bytes)
}

// Whether bytes stand for nil.
fn are_nil(form: &NilForm, bytes: &[u8], places: &mut Vec<bool>) -> Result<bool, AllocError>
    ensures { IfOk result (λ are. are ≡ are_nil form.now bytes.now) }
{
    match &form.texts {
        NilTexts::Literals(literals) => {
            let are = is_text_of_any(form.encoding, form.fold, literals, bytes, places)?;
            Ok(are)
        }
        NilTexts::Character(c) => Ok(is_repeated(form.encoding, form.fold, *c, bytes)),
        NilTexts::Byte(b) => Ok(are_repeated(*b, bytes)),
    }
}

/// Puts the bytes of characters into a list, in place of what it has, where the encoding has each of them, and answers
/// whether it has.
pub(crate) fn put_encoded(
    encoding: Encoding,
    characters: &[char],
    into: &mut Vec<u8>,
) -> Result<bool, AllocError>
    ensures { IfOk result (λ has. encoded_text encoding characters.now ≡ (if has then Some into.new.items else None)) }
{
    into.clear();
    for c in characters {
        let mut bytes = [0; 4];
        let count = match encode(encoding, *c, &mut bytes) {
            Ok(count) => count,
            Err(_) => return Ok(false),
        };
        into.extend_from_slice(&bytes[..count])?;
    }
    Ok(true)
}
