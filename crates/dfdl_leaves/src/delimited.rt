// Contents that terminating markup ends.
ghost use Rattle.std.specs.Prelude.{◌≡◌, ℕ, ◌+◌, ◌-◌, ◌*◌, ◌/◌, ◌^◌, ◌≤◌, IfOk, OnOk, List};
ghost use Rattle.dfdl_bits.specs.Window.{end_of, seen_at};
ghost use Rattle.dfdl_delims.specs.Lists.{Opened};
ghost use Rattle.dfdl_delims.specs.Opening.{Opens};
ghost use Rattle.dfdl_escapes.specs.declared.form.Stand.{Stand as AnyStand};
ghost use Rattle.dfdl_escapes.specs.Readings.{step_shown};
ghost use Rattle.dfdl_escapes.specs.Reads.{ending_shown};
ghost use Rattle.dfdl_escapes.specs.Trims.{trimmed_content};
ghost use Rattle.dfdl_grammar.specs.Delimited.{first_step, plain, scanned, scanned_as, scanned_from};
ghost use Rattle.dfdl_grammar.specs.Framing.{aligned};
ghost use Rattle.dfdl_grammar.specs.Leaves.{default_by_step, delimited_find, kept_find};
ghost use Rattle.dfdl_looks.specs.Asks.{Answer, Told, and_then, ask};
ghost use Rattle.dfdl_looks.specs.Tallies.{nothing};
ghost use Rattle.dfdl_terms.specs.Rows.{IsTextContent};
ghost use Rattle.dfdl_leaves.specs.Readings.{Answers, HasPiece, IsWithin, found_shown};
ghost use Rattle.dfdl_leaves.specs.Strings.{made_of};

use crate::contents::kept_found;
use crate::defaults::default_found;
use crate::framing::aligned;
use crate::leaf::{Found, Glance, Scratch};
use dfdl_bits::{Steps, Window};
use dfdl_delims::{Candidates, OpenLists};
use dfdl_escapes::{
    Character, Ending, Form, Scan, Scanned, Stand, first_mode, read_content, trim_content,
};
use dfdl_report::ParseCause;
use dfdl_terms::{ScanForm, TextForm};
use dfdl_value::Value;
use std::alloc::AllocError;
use std::sync::ledger::Ledger;

/// Reads a text whose box begins at a bit, from the next whole byte up to a text of the open lists, inside of a box that ends at
/// another bit. Its characters stand in the scratch then, after they are trimmed.
pub(crate) fn read_delimited<L: Ledger>(
    form: &TextForm,
    scan: ScanForm,
    lists: OpenLists<'_>,
    bit: u64,
    stop: u64,
    sight: &Window,
    scratch: &mut Scratch,
    candidates: &mut Candidates,
    steps: &mut Steps<L>,
) -> Result<Glance, AllocError>
    requires base { sight.now.base ≤ bit / 8 }
    requires at { bit ≤ 8 * end_of sight.now }
    requires bound { end_of sight.now ≤ 2 ^ 60 }
    requires content { IsTextContent form.now.content }
    ensures answers { IfOk result (λ g. (opened : List Opened) → Opens lists.entry opened
        → Answers (ask (seen_at sight.now) (and_then (scanned opened scan bit stop) (λ content. Answer (delimited_find form.now content))) nothing) scratch.new g (steps.new - steps.old)) }
    ensures steps { steps.old ≤ steps.new }
    ensures within { IfOk result (λ g. IsWithin g.found (end_of sight.now)) }
    ensures pieces { IfOk result (λ g. HasPiece g.found scratch.new) }
{
    let mut reading = scan_of(scan, bit, stop);
    scratch.content.clear();
    let read = read_content(
        &mut reading,
        lists,
        sight,
        candidates,
        steps,
        &mut scratch.content,
    )?;
    let found = ended_found(form, read.ending, reading.at.byte, scratch)?;
    Ok(Glance {
        found,
        far: read.far,
    })
}

/// Reads a box that begins at a bit and stands for a value where its content ends at the next whole byte, at a text of the open
/// lists or at the end of the box, which is at another bit. The bytes of a string or hexBinary stand in the scratch then.
pub(crate) fn read_absent<L: Ledger>(
    value: &Value,
    scan: ScanForm,
    lists: OpenLists<'_>,
    bit: u64,
    stop: u64,
    sight: &Window,
    scratch: &mut Scratch,
    candidates: &mut Candidates,
    steps: &mut Steps<L>,
) -> Result<Glance, AllocError>
    requires base { sight.now.base ≤ bit / 8 }
    requires at { bit ≤ 8 * end_of sight.now }
    requires bound { end_of sight.now ≤ 2 ^ 60 }
    ensures answers { IfOk result (λ g. (opened : List Opened) → Opens lists.entry opened
        → Answers (ask (seen_at sight.now) (and_then (first_step opened scan bit stop) (λ step. Answer (default_by_step value.now (aligned 8 bit) step))) nothing) scratch.new g (steps.new - steps.old)) }
    ensures steps { steps.old ≤ steps.new }
    ensures within { IfOk result (λ g. IsWithin g.found (end_of sight.now)) }
    ensures pieces { IfOk result (λ g. HasPiece g.found scratch.new) }
{
    let mut reading = scan_of(scan, bit, stop);
    let glance = reading.step(lists, sight, candidates, steps)?;
    let found = absent_found(value, glance.scanned, aligned(8, bit), scratch)?;
    Ok(Glance {
        found,
        far: glance.far,
    })
}

// How the content is scanned whose box begins at a bit and ends at another bit, and where that begins.
fn scan_of(scan: ScanForm, bit: u64, stop: u64) -> Scan
    requires bit { bit ≤ 2 ^ 63 }
    ensures form { result.form ≡ scanned_as scan stop }
    ensures at { result.at ≡ scanned_from scan bit }
    ensures byte { result.at.byte ≡ aligned 8 bit / 8 }
{
    Scan {
        form: Form {
            escape: scan.escape,
            escape_escape: scan.escape_escape,
            start: scan.start,
            end: scan.end,
            lead: scan.lead,
            enc: scan.encoding,
            replaces: scan.replaces,
            stop,
        },
        at: Stand {
            mode: first_mode(scan.kind),
            byte: aligned(8, bit) / 8,
        },
    }
}

// What the characters of the scratch that were read up to a byte are found as, by how their reading ends.
fn ended_found(
    form: &TextForm,
    ending: Ending,
    byte: u64,
    scratch: &mut Scratch,
) -> Result<Found, AllocError>
    requires byte { byte ≤ 2 ^ 60 }
    requires content { IsTextContent form.now.content }
    ensures shown { IfOk result (λ found. (last : AnyStand) → last.byte ≡ byte
        → found_shown scratch.new found ≡ made_of (delimited_find form.now) (ending_shown scratch.old.content.items last ending)) }
    ensures within { IfOk result (λ found. (last : ℕ) → byte ≤ last → IsWithin found last) }
    ensures piece { IfOk result (λ found. HasPiece found scratch.new) }
{
    match ending {
        Ending::Ends { .. } => {
            let found = trimmed_found(form, byte, scratch)?;
            Ok(found)
        }
        Ending::EndOfBox => {
            let found = trimmed_found(form, byte, scratch)?;
            Ok(found)
        }
        Ending::Broken(cause) => Ok(Found::Fails(cause)),
        Ending::NotYet => Ok(Found::NotYet),
        Ending::Over => Ok(Found::Past),
    }
}

// What the characters of the scratch that were read up to a byte are found as, after they are trimmed.
fn trimmed_found(form: &TextForm, byte: u64, scratch: &mut Scratch) -> Result<Found, AllocError>
    requires byte { byte ≤ 2 ^ 60 }
    requires content { IsTextContent form.now.content }
    ensures shown { IfOk result (λ found. found_shown scratch.new found
        ≡ Told (kept_find form.now (8 * byte) (plain (trimmed_content form.now.pad scratch.old.content.items)))) }
    ensures within { IfOk result (λ found. (last : ℕ) → byte ≤ last → IsWithin found last) }
    ensures piece { IfOk result (λ found. HasPiece found scratch.new) }
{
    let (from, to) = trim_content(&form.pad, scratch.content.as_slice());
    put_plain(&scratch.content[from..to], &mut scratch.characters)?;
    let count = scratch.characters.len();
    let found = kept_found(form, scratch, 0, count, 8 * byte)?;
    Ok(found)
}

// Puts characters into a list, escaped or not, in place of what it has.
fn put_plain(content: &[Character], into: &mut Vec<char>) -> Result<(), AllocError>
    ensures { OnOk result (into.new.items ≡ plain content.now) }
{
    into.clear();
    into.reserve(content.len())?;
    for character in content {
        into.push_reserved(character.c);
    }
    Ok(())
}

// What a box is found as that stands for a value at a bit where the first step of its content ends that.
fn absent_found(
    value: &Value,
    scanned: Scanned,
    bit: u64,
    scratch: &mut Scratch,
) -> Result<Found, AllocError>
    ensures shown { IfOk result (λ found. (at : AnyStand)
        → found_shown scratch.new found ≡ made_of (default_by_step value.now bit) (step_shown at scanned)) }
    ensures within { IfOk result (λ found. (last : ℕ) → bit ≤ 8 * last → IsWithin found last) }
    ensures piece { IfOk result (λ found. HasPiece found scratch.new) }
{
    match scanned {
        Scanned::Ends { .. } => {
            let found = default_found(value, bit, scratch)?;
            Ok(found)
        }
        Scanned::EndOfBox => {
            let found = default_found(value, bit, scratch)?;
            Ok(found)
        }
        Scanned::Content(_) => Ok(Found::Fails(ParseCause::RequiredEmpty)),
        Scanned::Escaped(_) => Ok(Found::Fails(ParseCause::RequiredEmpty)),
        Scanned::Skipped => Ok(Found::Fails(ParseCause::RequiredEmpty)),
        Scanned::Broken(_) => Ok(Found::Fails(ParseCause::RequiredEmpty)),
        Scanned::NotYet => Ok(Found::NotYet),
        Scanned::Over => Ok(Found::Past),
    }
}
