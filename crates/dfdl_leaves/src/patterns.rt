// The number of bytes that a pattern matches.
ghost use Rattle.std.specs.Prelude.{◌≡◌, ℕ, ◌+◌, ◌-◌, ◌*◌, ◌/◌, ◌^◌, ◌≤◌, ◌&&◌, nat_le, nat_lt, IfOk, OnOk, if◌then◌else◌, option_map, string_bytes};
ghost use Rattle.dfdl_bits.specs.Window.{end_of, seen_at};
ghost use Rattle.dfdl_chars.specs.Encodings.{width_in};
ghost use Rattle.dfdl_grammar.specs.Framing.{aligned};
ghost use Rattle.dfdl_grammar.specs.Leaves.{matched_from, sought, text_sought};
ghost use Rattle.dfdl_grammar.specs.Patterns.{matched_width, width_between, width_of_match};
ghost use Rattle.dfdl_looks.specs.Asks.{ask};
ghost use Rattle.dfdl_looks.specs.Tallies.{nothing};
ghost use Rattle.dfdl_region.specs.Bytes.{utf8_of};
ghost use Rattle.dfdl_texts.specs.Readings.{Answers as TextAnswers, found_shown as text_shown};
ghost use Rattle.dfdl_leaves.specs.declared.leaf.Scratch.{Scratch as AnyScratch};
ghost use Rattle.dfdl_leaves.specs.Patterned.{pattern_reached};
ghost use Rattle.dfdl_leaves.specs.Readings.{Answers, HasPiece, IsWithin, found_shown};

use crate::framing::aligned;
use crate::leaf::{Found, Glance, Scratch};
use crate::spans::vacant;
use dfdl_bits::{Steps, Window};
use dfdl_chars::width_in;
use dfdl_forms::Encoding;
use dfdl_length_patterns::PatternMatch;
use dfdl_region::Content;
use dfdl_report::ParseCause;
use dfdl_terms::PatternForm;
use dfdl_texts::{Extent, Found as TextFound, Glance as TextGlance, read_text};
use std::alloc::AllocError;
use std::sync::ledger::Ledger;

// A pattern is sought in at most so many bits of the data.
const MOST_SOUGHT: u64 = 524_288;

/// Seeks the pattern of a content that begins at a bit from the next whole byte on, in a box that ends at bit `stop`, up to the
/// first bad unit. The characters stand in the scratch then. 'Lengths' (lengthKind pattern).
pub(crate) fn read_pattern<L: Ledger>(
    form: &PatternForm,
    bit: u64,
    stop: u64,
    sight: &Window,
    scratch: &mut Scratch,
    steps: &mut Steps<L>,
) -> Result<Glance, AllocError>
    requires base { sight.now.base ≤ bit / 8 }
    requires at { bit ≤ 8 * end_of sight.now }
    requires bound { end_of sight.now ≤ 2 ^ 60 }
    ensures answers { IfOk result (λ g. Answers (ask (seen_at sight.now) (sought form.now bit stop) nothing) scratch.new g (steps.new - steps.old)) }
    ensures steps { steps.old ≤ steps.new }
    ensures within { IfOk result (λ g. IsWithin g.found (end_of sight.now)) }
    ensures pieces { IfOk result (λ g. HasPiece g.found scratch.new) }
{
    let text = read_sought(form, bit, stop, sight, scratch, steps)?;
    let found = pattern_found(form, bit, text.found, scratch)?;
    Ok(Glance {
        found,
        far: text.far,
    })
}

/// Reads the text in which a pattern is sought from the next whole byte behind a bit on, in a box that ends at bit `stop`, up to the first
/// bad unit. The characters stand in the scratch then. 'Lengths' (lengthKind pattern).
pub fn read_sought<L: Ledger>(
    form: &PatternForm,
    bit: u64,
    stop: u64,
    sight: &Window,
    scratch: &mut Scratch,
    steps: &mut Steps<L>,
) -> Result<TextGlance, AllocError>
    requires base { sight.now.base ≤ bit / 8 }
    requires at { bit ≤ 8 * end_of sight.now }
    requires bound { end_of sight.now ≤ 2 ^ 60 }
    ensures answers { IfOk result (λ g. TextAnswers (ask (seen_at sight.now) (text_sought form.now (aligned 8 bit) stop) nothing)
        scratch.new.characters.items g (steps.new - steps.old)) }
    ensures steps { steps.old ≤ steps.new }
{
    let first = aligned(8, bit);
    let last = stop.min(first + MOST_SOUGHT);
    let text = read_text(
        form.encoding,
        false,
        Extent::Front,
        sight,
        first / 8,
        last,
        &mut scratch.characters,
        steps,
    )?;
    Ok(text)
}

// What the pattern of a content that begins at a bit is found as, in a text of these characters.
fn pattern_found(
    form: &PatternForm,
    bit: u64,
    text: TextFound,
    scratch: &mut Scratch,
) -> Result<Found, AllocError>
    requires { bit ≤ 2 ^ 63 }
    ensures shown { IfOk result (λ found. (after : AnyScratch) → found_shown after found
        ≡ pattern_reached form.now bit (text_shown scratch.old.characters.items text)) }
    ensures within { IfOk result (λ found. (last : ℕ) → bit ≤ 8 * last → IsWithin found last) }
    ensures piece { IfOk result (λ found. (after : AnyScratch) → HasPiece found after) }
{
    match text {
        TextFound::Reads { .. } => {
            let width = matched_width(form, scratch)?;
            Ok(Found::Reads {
                content: Content::Unsigned(width),
                span: vacant(matched_from(bit, width)),
            })
        }
        TextFound::HasBad => Ok(Found::Fails(ParseCause::BadCharacter)),
        TextFound::IsCut => Ok(Found::Fails(ParseCause::DataEnds)),
        TextFound::IsBoxed => Ok(Found::Fails(ParseCause::LengthOutOfRange)),
        TextFound::TooFar => Ok(Found::Past),
        TextFound::NotYet => Ok(Found::NotYet),
    }
}

// The bit at which a content begins of which a pattern matches so many bytes.
fn matched_from(bit: u64, width: u128) -> u64
    requires { bit ≤ 2 ^ 63 }
    ensures from { result ≡ matched_from bit width }
    ensures within { (last : ℕ) → bit ≤ 8 * last → result ≤ 8 * last }
{
    if width == 0 { bit } else { aligned(8, bit) }
}

// How many bytes of the data the pattern matches, of which the scratch has the characters.
fn matched_width(form: &PatternForm, scratch: &mut Scratch) -> Result<u128, AllocError>
    ensures { IfOk result (λ width. width ≡ matched_width form.now scratch.old.characters.items) }
{
    put_text(scratch.characters.as_slice(), &mut scratch.text)?;
    let found = form.pattern.find(scratch.alloc, scratch.text.as_str())?;
    Ok(width_of_match(form.encoding, scratch.characters.as_slice(), found))
}

/// Puts characters into a text, in place of what it has.
pub fn put_text(characters: &[char], into: &mut String) -> Result<(), AllocError>
    ensures { OnOk result (string_bytes into.new ≡ utf8_of characters.now) }
{
    into.clear();
    for c in characters {
        into.push(*c)?;
    }
    Ok(())
}

// How many bytes a match in the text of characters has.
fn width_of_match(encoding: Encoding, characters: &[char], found: Option<PatternMatch>) -> u128
    ensures { result ≡ width_of_match encoding characters.now (option_map (λ m. (m.begin, m.end)) found) }
{
    match found {
        None => 0,
        Some(found) => width_between(encoding, characters, found.begin, found.end),
    }
}

// How many bytes those of the characters have that begin from one byte of their text on and before another.
fn width_between(encoding: Encoding, characters: &[char], from: usize, to: usize) -> u128
    ensures { result ≡ width_between encoding characters.now 0 from to }
{
    let mut at = 0;
    let mut width = 0;
    for c in characters {
        width += width_counted(encoding, *c, at, from, to);
        at += c.len_utf8() as u128;
    }
    width
}

// How many bytes a character has that begins at a byte of its text, if that is one from a byte on and before another.
fn width_counted(encoding: Encoding, c: char, at: u128, from: usize, to: usize) -> u128
    ensures width { result ≡ (if nat_le from at && nat_lt at to then width_in encoding c else 0) }
    ensures few { result ≤ 4 }
{
    if from as u128 <= at && at < to as u128 {
        width_in(encoding, c) as u128
    } else {
        0
    }
}
