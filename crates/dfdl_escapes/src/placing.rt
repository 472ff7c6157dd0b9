// The characters of a text at which terminating markup matches it.
ghost use Rattle.std.specs.Prelude.{◌≡◌, ℕ, ◌+◌, ◌^◌, ◌<◌, ◌≤◌, List, [], ◌++◌, length, drop, Some, None, IfOk, OnOk, IsErrOf};
ghost use Rattle.dfdl_looks.specs.Asks.{Told};
ghost use Rattle.dfdl_chars.specs.Encodings.{encoded_of, encoded_text, joined};
ghost use Rattle.dfdl_delims.specs.Lists.{Opened};
ghost use Rattle.dfdl_delims.specs.Longest.{Longest, found_shown};
ghost use Rattle.dfdl_delims.specs.Opening.{Opens};
ghost use Rattle.dfdl_escapes.specs.declared.refusal.Refusal.TheVariants.{Impossible, NoSuchChar};
ghost use Rattle.dfdl_escapes.specs.Sought.{HoldsAll};
ghost use Rattle.dfdl_escapes.specs.Steps.{ended_by};
ghost use Rattle.dfdl_escapes.specs.Written.{begins_with_text, is_given, placed};

use crate::placed::Placed;
use crate::refusal::Refusal;
use dfdl_bits::{Steps, Window};
use dfdl_chars::{encode, width_in};
use dfdl_delims::longest::longest;
use dfdl_delims::{Candidates, Found, OpenLists};
use dfdl_forms::Encoding;
use std::alloc::{AllocError, Global};
use std::sync::ledger::{Blank, Ledger};

// Puts the bytes of a text behind others.
fn encode_all(enc: Encoding, text: &[char], into: &mut Vec<u8>) -> Result<(), Refusal>
    ensures written { OnOk result (joined (Some into.old.items) (encoded_text enc text.now) ≡ Some into.new.items) }
    ensures lacks { IsErrOf result NoSuchChar → encoded_text enc text.now ≡ None }
    ensures possible { IsErrOf result Impossible → ⊥ }
{
    for c in text {
        let mut room = [0; 4];
        let count = match encode(enc, *c, &mut room) {
            Ok(count) => count,
            Err(_) => return Err(Refusal::NoSuchChar),
        };
        into.extend_from_slice(&room[..count])?;
    }
    Ok(())
}

// A window that holds the bytes.
fn window_of(alloc: Global, bytes: &[u8]) -> Result<Window, Refusal>
    ensures holds { IfOk result (λ window. HoldsAll window bytes.now) }
    ensures small { OnOk result (length bytes.now < 2 ^ 32) }
    ensures encoded { IsErrOf result NoSuchChar → ⊥ }
    ensures possible { IsErrOf result Impossible → ⊥ }
{
    if bytes.len() > u32::MAX as usize {
        return Err(Refusal::OutOfMemory);
    }
    let mut window = Window::open(alloc, bytes.len() as u32)?;
    let _taken = window.append(bytes);
    Ok(window)
}

// Whether a text of at least one byte was found.
fn is_text(found: Found) -> bool
    ensures { (text : Longest) → found_shown found ≡ Told text → result ≡ is_given (ended_by text) }
{
    match found {
        Found::Match { bits, .. } => bits != 0,
        Found::None | Found::NotYet | Found::Over => false,
    }
}

// Whether terminating markup matches the bytes that the window holds from a place on.
fn is_matched<L: Ledger>(
    lists: OpenLists<'_>,
    window: &Window,
    bytes: &[u8],
    from: usize,
    candidates: &mut Candidates,
    steps: &mut Steps<L>,
) -> Result<bool, AllocError>
    requires holds { HoldsAll window.now bytes.now }
    requires small { length bytes.now < 2 ^ 32 }
    requires within { from ≤ length bytes.now }
    ensures { IfOk result (λ is. (opened : List Opened) → Opens lists.entry opened → is ≡ begins_with_text opened [] (drop from bytes.now)) }
{
    dfdl_delims::laws::longer_texts_are_decided();
    let bit = 8 * from as u64;
    let stop = 8 * bytes.len() as u64;
    let glance = longest(lists, window, bit, stop, candidates, steps)?;
    Ok(is_text(glance.found))
}

// Puts each character of a text behind others, and whether terminating markup matches the text from there on.
fn place_each<L: Ledger>(
    enc: Encoding,
    lists: OpenLists<'_>,
    text: &[char],
    window: &Window,
    bytes: &[u8],
    steps: &mut Steps<L>,
    alloc: Global,
    into: &mut Vec<Placed>,
) -> Result<(), AllocError>
    requires holds { HoldsAll window.now bytes.now }
    requires small { length bytes.now < 2 ^ 32 }
    requires encoded { encoded_text enc text.now ≡ Some bytes.now }
    ensures { OnOk result ((opened : List Opened) → Opens lists.entry opened → into.new.items ≡ into.old.items ++ placed enc opened text.now) }
{
    let mut candidates = Candidates::new(alloc);
    let mut from = 0;
    for c in text {
        let is_markup = is_matched(lists, window, bytes, from, &mut candidates, steps)?;
        into.push(Placed { c: *c, is_markup })?;
        from += width_in(enc, *c);
    }
    Ok(())
}

/// Puts each character of a text, and whether terminating markup matches the text from there on.
pub(crate) fn place<L: Ledger>(
    enc: Encoding,
    lists: OpenLists<'_>,
    text: &[char],
    alloc: Global,
    blank: Blank,
    into: &mut Vec<Placed>,
) -> Result<(), Refusal>
    requires name { blank.name ≡ L.name }
    requires parts { blank.parts ≡ L.parts }
    requires some { 0 < L.parts }
    ensures placed { OnOk result ((opened : List Opened) → Opens lists.entry opened → into.new.items ≡ into.old.items ++ placed enc opened text.now) }
    ensures lacks { IsErrOf result NoSuchChar → encoded_text enc text.now ≡ None }
    ensures possible { IsErrOf result Impossible → ⊥ }
{
    let mut bytes = Vec::new(alloc);
    encode_all(enc, text, &mut bytes)?;
    let window = window_of(alloc, &bytes)?;
    let mut steps = Steps::<L>::open(blank);
    place_each(enc, lists, text, &window, &bytes, &mut steps, alloc, into)?;
    Ok(())
}
