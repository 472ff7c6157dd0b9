// The value that a box without bits stands for.
ghost use Rattle.std.specs.Prelude.{◌≡◌, ℕ, ◌-◌, ◌*◌, ◌/◌, ◌^◌, ◌≤◌, IfOk, OnOk, List, if◌then◌else◌, nat_eq};
ghost use Rattle.dfdl_bits.specs.Window.{end_of, seen_at};
ghost use Rattle.dfdl_delims.specs.Lists.{Opened};
ghost use Rattle.dfdl_delims.specs.Opening.{Opens};
ghost use Rattle.dfdl_grammar.specs.Leaves.{Fails, default_find, default_of};
ghost use Rattle.dfdl_grammar.specs.Spans.{vacant};
ghost use Rattle.dfdl_report.specs.declared.cause.ParseCause.TheVariants.{RequiredEmpty};
ghost use Rattle.dfdl_looks.specs.Asks.{Told, ask};
ghost use Rattle.dfdl_looks.specs.Tallies.{nothing};
ghost use Rattle.dfdl_leaves.specs.Readings.{Answers, HasPiece, IsWithin, found_shown};
ghost use Rattle.dfdl_leaves.specs.Views.{default_of as sized};

use crate::delimited::read_absent;
use crate::leaf::{Found, Glance, Scratch};
use crate::spans::vacant;
use dfdl_bits::{Steps, Window};
use dfdl_delims::{Candidates, OpenLists};
use dfdl_region::Content;
use dfdl_report::ParseCause;
use dfdl_terms::{DefaultForm, TextSize};
use dfdl_value::Value;
use std::alloc::AllocError;
use std::sync::ledger::Ledger;

/// Reads a box of a size that begins at a bit, inside of a box that ends at another bit: without a content it stands for a value. The
/// bytes of a string or hexBinary stand in the scratch then.
pub(crate) fn read_default<L: Ledger>(
    form: &DefaultForm,
    size: TextSize,
    lists: OpenLists<'_>,
    bit: u64,
    stop: u64,
    sight: &Window,
    scratch: &mut Scratch,
    candidates: &mut Candidates,
    steps: &mut Steps<L>,
) -> Result<Glance, AllocError>
    requires base { sight.now.base ≤ bit / 8 }
    requires at { bit ≤ 8 * end_of sight.now }
    requires bound { end_of sight.now ≤ 2 ^ 60 }
    ensures answers { IfOk result (λ g. (opened : List Opened) → Opens lists.entry opened
        → Answers (ask (seen_at sight.now) (default_of (sized form.now size) opened bit stop) nothing) scratch.new g (steps.new - steps.old)) }
    ensures steps { steps.old ≤ steps.new }
    ensures within { IfOk result (λ g. IsWithin g.found (end_of sight.now)) }
    ensures pieces { IfOk result (λ g. HasPiece g.found scratch.new) }
{
    match size {
        TextSize::Bits(bits) => {
            let found = none_found(&form.value, bits, bit, scratch)?;
            Ok(Glance { found, far: 0 })
        }
        TextSize::Characters(count) => {
            let found = none_found(&form.value, count, bit, scratch)?;
            Ok(Glance { found, far: 0 })
        }
        TextSize::Delimited(scan) => {
            let glance = read_absent(
                &form.value,
                scan,
                lists,
                bit,
                stop,
                sight,
                scratch,
                candidates,
                steps,
            )?;
            Ok(glance)
        }
    }
}

// What a box of so many bits or characters at a bit is found as: of none of them it stands for a value.
fn none_found(
    value: &Value,
    count: u64,
    bit: u64,
    scratch: &mut Scratch,
) -> Result<Found, AllocError>
    ensures shown { IfOk result (λ found. found_shown scratch.new found ≡ Told (if nat_eq count 0 then default_find bit value.now else Fails RequiredEmpty)) }
    ensures within { IfOk result (λ found. (last : ℕ) → bit ≤ 8 * last → IsWithin found last) }
    ensures piece { IfOk result (λ found. HasPiece found scratch.new) }
{
    if count != 0 {
        return Ok(Found::Fails(ParseCause::RequiredEmpty));
    }
    let found = default_found(value, bit, scratch)?;
    Ok(found)
}

/// What a value is found as in a box without bits, at a bit.
pub(crate) fn default_found(
    value: &Value,
    bit: u64,
    scratch: &mut Scratch,
) -> Result<Found, AllocError>
    ensures shown { IfOk result (λ found. found_shown scratch.new found ≡ Told (default_find bit value.now)) }
    ensures within { IfOk result (λ found. (last : ℕ) → bit ≤ 8 * last → IsWithin found last) }
    ensures piece { IfOk result (λ found. HasPiece found scratch.new) }
{
    match value {
        Value::Int(number) => Ok(at_bit(Content::Signed(*number), bit)),
        Value::Uns(number) => Ok(at_bit(Content::Unsigned(*number), bit)),
        Value::Dec(number) => Ok(at_bit(Content::Decimal(*number), bit)),
        Value::Truth(truth) => Ok(at_bit(Content::Truth(*truth), bit)),
        Value::Text(text) => {
            put(text.as_str().as_bytes(), &mut scratch.octets)?;
            Ok(Found::Utf8 { span: vacant(bit) })
        }
        Value::Bytes(bytes) => {
            put(bytes.as_slice(), &mut scratch.octets)?;
            Ok(Found::Octets { span: vacant(bit) })
        }
    }
}

// A content in a box without bits, at a bit.
fn at_bit(content: Content, bit: u64) -> Found
    ensures { result ≡ Found.Reads content (vacant bit) }
{
    Found::Reads {
        content,
        span: vacant(bit),
    }
}

// Puts bytes into a list, in place of what it has.
fn put(bytes: &[u8], into: &mut Vec<u8>) -> Result<(), AllocError>
    ensures { OnOk result (into.new.items ≡ bytes.now) }
{
    into.clear();
    into.extend_from_slice(bytes)
}
