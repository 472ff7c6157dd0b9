// Bytes of a content that are passed at once.
ghost use Rattle.std.specs.Prelude.{◌≡◌, ℕ, ◌+◌, ◌-◌, ◌*◌, ◌/◌, ◌^◌, ◌<◌, ◌≤◌, ◌&&◌, ◌||◌, ◌++◌, Bool, List, All, IfOk, IfSome, OnOk, false, max, true};
ghost use Rattle.dfdl_bits.specs.ByteSets.{has_byte};
ghost use Rattle.dfdl_bits.specs.Window.{end_of, seen_at};
ghost use Rattle.dfdl_delims.specs.Lists.{Decides, Opened};
ghost use Rattle.dfdl_delims.specs.Opening.{Opens};
ghost use Rattle.dfdl_escapes.specs.declared.character.Character.{Character as AnyCharacter};
ghost use Rattle.dfdl_escapes.specs.declared.form.Stand.{Stand as AnyStand};
ghost use Rattle.dfdl_escapes.specs.Contents.{ArePassed};
ghost use Rattle.dfdl_escapes.specs.Reads.{left_of};
ghost use Rattle.dfdl_escapes.specs.Runs.{FirstsAre, IsPassed, far_behind, given_by, is_single, looks_of, seeks};
ghost use Rattle.dfdl_escapes.specs.Steps.{is_mark};

use crate::character::Character;
use crate::form::{Form, Mode};
use crate::scan::Scan;
use dfdl_bits::{ByteSet, Steps, Window};
use dfdl_delims::{FirstBytes, OpenLists};
use dfdl_forms::Encoding;
use std::alloc::AllocError;
use std::sync::ledger::Ledger;

/// How many bytes were passed, and how far was seen.
#[derive(Debug, Clone, Copy)]
pub(crate) struct Run {
    pub count: u64,
    pub far: u64,
}

// The bytes that alone are no character of the encoding, if others are.
fn not_single(enc: Encoding) -> Option<ByteSet>
    ensures { IfSome result (λ set. (byte : ℕ) → byte < 256 → has_byte set byte ≡ false → is_single enc byte ≡ true) }
{
    match enc {
        Encoding::Utf8 | Encoding::UsAscii => Some(ByteSet::high()),
        Encoding::Iso88591 => Some(ByteSet::none()),
        Encoding::Utf16Be | Encoding::Utf16Le => None,
    }
}

// The byte of a mark.
fn mark_byte(mark: Option<char>) -> ByteSet
    ensures { (byte : ℕ) → byte < 256 → has_byte result byte ≡ is_mark mark byte }
{
    match mark {
        Some(c) if (c as u32) < 256 => ByteSet::of(c as u8),
        _ => ByteSet::none(),
    }
}

// The bytes of two marks.
fn mark_bytes(first: Option<char>, second: Option<char>) -> ByteSet
    ensures { (byte : ℕ) → byte < 256 → has_byte result byte ≡ (is_mark first byte || is_mark second byte) }
{
    mark_byte(first).or(mark_byte(second))
}

// The bytes at which a run ends in a mode, if runs are passed in it.
fn stops_in(form: &Form, first: &FirstBytes, mode: Mode) -> Option<ByteSet>
    ensures { IfSome result (λ set. (byte : ℕ) → byte < 256 → has_byte set byte ≡ false → IsPassed form.now first.now.set mode byte) }
{
    let others = not_single(form.enc)?;
    match mode {
        Mode::Plain => Some(others.or(first.set)),
        Mode::Escaping => {
            let marks = mark_bytes(form.escape_escape, form.escape);
            Some(others.or(first.set.or(marks)))
        }
        Mode::Before => None,
        Mode::Inside => Some(others.or(mark_bytes(form.escape_escape, form.end))),
    }
}

// Whether terminating markup is sought in a mode.
fn seeks(mode: Mode) -> bool
    ensures { result ≡ seeks mode }
{
    match mode {
        Mode::Plain | Mode::Escaping | Mode::Before => true,
        Mode::Inside => false,
    }
}

// Whether each byte is looked at for terminating markup too.
fn is_sought(mode: Mode, looks: bool) -> bool
    ensures { result ≡ (seeks mode && looks) }
{
    if seeks(mode) { looks } else { false }
}

// Puts the characters that bytes give in a mode behind others.
fn put_given(bytes: &[u8], mode: Mode, into: &mut Vec<Character>) -> Result<(), AllocError>
    ensures { OnOk result (into.new.items ≡ into.old.items ++ given_by mode bytes.now) }
{
    into.reserve(bytes.len())?;
    let is_escaped = !seeks(mode);
    for byte in bytes {
        into.push_reserved(Character {
            c: *byte as char,
            is_escaped,
        });
    }
    Ok(())
}

// How far is seen behind so many bytes before byte `k`.
fn far_behind(far: u64, k: u64, count: u64) -> u64
    ensures { result ≡ far_behind far k count }
{
    if count == 0 { far } else { far.max(k) }
}

// Counts the looks for terminating markup at so many bytes.
fn count_sought<L: Ledger>(sought: bool, count: u64, steps: &mut Steps<L>)
    ensures { steps.new + count ≡ steps.old + looks_of sought count }
{
    if sought {
        steps.add(count);
    }
}

/// Passes the bytes from where a scan stands that give their characters, at most so many and as far as they are held and in the box,
/// and puts these behind others, where so far was seen.
pub(crate) fn pass_run<L: Ledger>(
    scan: &mut Scan,
    first: &FirstBytes,
    lists: OpenLists<'_>,
    window: &Window,
    most: u64,
    steps: &mut Steps<L>,
    into: &mut Vec<Character>,
    far: u64,
) -> Result<Run, AllocError>
    requires base { window.now.base ≤ scan.old.at.byte }
    requires byte { scan.old.at.byte ≤ 2 ^ 60 }
    requires bound { end_of window.now ≤ 2 ^ 60 }
    requires first { (opened : List Opened) → Opens lists opened → FirstsAre first.now opened }
    ensures turns { IfOk result (λ run. (opened : List Opened) (test : List ℕ → Bool) (more : ℕ) → Opens lists.entry opened → Decides opened test
        → left_of (seen_at window.now) test opened scan.old.form (run.count + more) into.old.items scan.old.at steps.old far
        ≡ left_of (seen_at window.now) test opened scan.old.form more into.new.items scan.new.at steps.new run.far) }
    ensures passed { IfOk result (λ run. (opened : List Opened) (test : List ℕ → Bool) (begin : AnyStand) (before : List AnyCharacter) → Opens lists.entry opened
        → Decides opened test → ArePassed (seen_at window.now) test opened scan.old.form begin before scan.old.at into.old.items
        → ArePassed (seen_at window.now) test opened scan.old.form begin before scan.new.at into.new.items) }
    ensures count { IfOk result (λ run. run.count ≤ most) }
    ensures behind { IfOk result (λ run. scan.old.at.byte ≤ scan.new.at.byte) }
    ensures come { IfOk result (λ run. scan.new.at.byte ≤ max scan.old.at.byte (end_of window.now)) }
    ensures form { scan.new.form ≡ scan.old.form }
    ensures steps { steps.old ≤ steps.new }
{
    dfdl_delims::laws::other_bytes_begin_no_text();
    let at = scan.at;
    let Some(stops) = stops_in(&scan.form, first, at.mode) else {
        return Ok(Run { count: 0, far });
    };
    let most = (scan.form.stop / 8).saturating_sub(at.byte).min(most);
    let run = window.run_outside(at.byte, most as usize, &stops, steps);
    let count = run.len() as u64;
    count_sought(is_sought(at.mode, first.looks), count, steps);
    put_given(run, at.mode, into)?;
    let byte = at.byte + count;
    scan.at.byte = byte;
    Ok(Run {
        count,
        far: far_behind(far, byte, count),
    })
}
