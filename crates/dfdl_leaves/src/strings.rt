// The characters of a text.
ghost use Rattle.std.specs.Prelude.{◌≡◌, ℕ, ◌+◌, ◌-◌, ◌*◌, ◌/◌, ◌^◌, ◌<◌, ◌≤◌, IfOk, List, true};
ghost use Rattle.dfdl_bits.specs.Window.{end_of, seen_at};
ghost use Rattle.dfdl_delims.specs.Lists.{Opened};
ghost use Rattle.dfdl_delims.specs.Opening.{Opens};
ghost use Rattle.dfdl_terms.specs.declared.row.Primitive.TheVariants.{Text};
ghost use Rattle.dfdl_terms.specs.Rows.{IsTextContent};
ghost use Rattle.dfdl_grammar.specs.Leaves.{bits_of_text, has_room, text_behind, text_find, text_of_size};
ghost use Rattle.dfdl_looks.specs.Asks.{Answer, and_then, ask};
ghost use Rattle.dfdl_looks.specs.Tallies.{nothing};
ghost use Rattle.dfdl_texts.specs.Texts.{text_at};
ghost use Rattle.dfdl_texts.specs.Readings.{found_shown as text_shown};
ghost use Rattle.dfdl_leaves.specs.Readings.{Answers, HasPiece, IsWithin, found_shown};
ghost use Rattle.dfdl_leaves.specs.Strings.{EndsBefore, text_reached};
ghost use Rattle.dfdl_leaves.specs.Views.{text_of};

use crate::contents::kept_found;
use crate::delimited::read_delimited;
use crate::framing::aligned;
use crate::leaf::{Found, Glance, Scratch};
use crate::view::text_begins;
use dfdl_bits::{Steps, Window};
use dfdl_delims::{Candidates, OpenLists};
use dfdl_report::ParseCause;
use dfdl_terms::{TextForm, TextSize};
use dfdl_text_string::trim;
use dfdl_texts::{Extent, Found as TextFound, read_text};
use std::alloc::AllocError;
use std::sync::ledger::Ledger;

/// Reads a text of a size whose box begins at a bit, inside of a box that ends at another bit; the texts of the open lists are
/// terminating markup. Its characters stand in the scratch then.
pub(crate) fn read_string<L: Ledger>(
    form: &TextForm,
    size: TextSize,
    lists: OpenLists<'_>,
    bit: u64,
    stop: u64,
    sight: &Window,
    scratch: &mut Scratch,
    candidates: &mut Candidates,
    steps: &mut Steps<L>,
) -> Result<Glance, AllocError>
    requires base { sight.now.base ≤ bit / 8 }
    requires at { bit ≤ 8 * end_of sight.now }
    requires bound { end_of sight.now ≤ 2 ^ 60 }
    requires content { IsTextContent form.now.content }
    requires room { has_room (Text (text_of form.now size)) bit stop ≡ true }
    ensures answers { IfOk result (λ g. (opened : List Opened) → Opens lists.entry opened
        → Answers (ask (seen_at sight.now) (text_of_size (text_of form.now size) size opened bit stop) nothing) scratch.new g (steps.new - steps.old)) }
    ensures steps { steps.old ≤ steps.new }
    ensures within { IfOk result (λ g. IsWithin g.found (end_of sight.now)) }
    ensures pieces { IfOk result (λ g. HasPiece g.found scratch.new) }
{
    let first = text_begins(&form.content, size, bit);
    match size {
        TextSize::Bits(bits) => {
            let end = bit + bits;
            if (end - first) % 8 != 0 {
                return Ok(Glance {
                    found: Found::Fails(ParseCause::NotFilled),
                    far: 0,
                });
            }
            let glance = read_characters(
                form,
                size,
                Extent::Box,
                bit,
                first / 8,
                end,
                sight,
                scratch,
                steps,
            )?;
            Ok(glance)
        }
        TextSize::Characters(count) => {
            let extent = Extent::Characters(count);
            let glance = read_characters(
                form,
                size,
                extent,
                bit,
                first / 8,
                stop,
                sight,
                scratch,
                steps,
            )?;
            Ok(glance)
        }
        TextSize::Delimited(scan) => {
            let glance = read_delimited(
                form, scan, lists, bit, stop, sight, scratch, candidates, steps,
            )?;
            Ok(glance)
        }
    }
}

// Reads the characters of an extent from a byte on, in a box that ends at bit `stop`, for a text whose box begins at bit `bit`.
fn read_characters<L: Ledger>(
    form: &TextForm,
    size: TextSize,
    extent: Extent,
    bit: u64,
    byte: u64,
    stop: u64,
    sight: &Window,
    scratch: &mut Scratch,
    steps: &mut Steps<L>,
) -> Result<Glance, AllocError>
    requires base { sight.now.base ≤ byte }
    requires byte { byte ≤ 2 ^ 60 }
    requires bit { bit ≤ 2 ^ 63 }
    requires bound { end_of sight.now ≤ 2 ^ 60 }
    requires content { IsTextContent form.now.content }
    requires size { bit + bits_of_text size < 2 ^ 64 }
    ensures answers { IfOk result (λ g. Answers (ask (seen_at sight.now) (and_then (text_at form.now.encoding form.now.replaces extent stop byte) (λ text. Answer (text_find (text_of form.now size) bit text))) nothing) scratch.new g (steps.new - steps.old)) }
    ensures steps { steps.old ≤ steps.new }
    ensures pieces { IfOk result (λ g. HasPiece g.found scratch.new) }
{
    let text = read_text(
        form.encoding,
        form.replaces,
        extent,
        sight,
        byte,
        stop,
        &mut scratch.characters,
        steps,
    )?;
    let found = text_found(form, size, bit, text.found, scratch)?;
    Ok(Glance {
        found,
        far: text.far,
    })
}

// What a text of these characters is found as whose box has a size and begins at a bit.
fn text_found(
    form: &TextForm,
    size: TextSize,
    bit: u64,
    text: TextFound,
    scratch: &mut Scratch,
) -> Result<Found, AllocError>
    requires bit { bit ≤ 2 ^ 63 }
    requires content { IsTextContent form.now.content }
    requires size { bit + bits_of_text size < 2 ^ 64 }
    requires end { EndsBefore text (2 ^ 60) }
    ensures shown { IfOk result (λ found. found_shown scratch.new found
        ≡ text_reached (text_of form.now size) bit (text_shown scratch.old.characters.items text)) }
    ensures piece { IfOk result (λ found. HasPiece found scratch.new) }
{
    match text {
        TextFound::Reads { end } => {
            let (from, to) = trim(&form.pad, scratch.characters.as_slice());
            let behind = text_behind(size, bit, end);
            let found = kept_found(form, scratch, from, to, behind)?;
            Ok(found)
        }
        TextFound::HasBad => Ok(Found::Fails(ParseCause::BadCharacter)),
        TextFound::IsCut => Ok(Found::Fails(ParseCause::DataEnds)),
        TextFound::IsBoxed => Ok(Found::Fails(ParseCause::LengthOutOfRange)),
        TextFound::TooFar => Ok(Found::Past),
        TextFound::NotYet => Ok(Found::NotYet),
    }
}

// The bit behind the box of a text that begins at a bit, where its characters end before a byte.
fn text_behind(size: TextSize, bit: u64, end: u64) -> u64
    requires size { bit + bits_of_text size < 2 ^ 64 }
    requires end { end ≤ 2 ^ 60 }
    ensures { result ≡ text_behind size bit end }
{
    match size {
        TextSize::Bits(bits) => bit + bits,
        TextSize::Characters(_) => 8 * end,
        TextSize::Delimited(_) => 8 * end,
    }
}
