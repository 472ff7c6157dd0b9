// The longest text of the open lists at a place.
#![tactic(auto)]

ghost use Rattle.std.specs.Prelude.{◌≡◌, ℕ, ◌+◌, ◌-◌, ◌/◌, ◌^◌, ◌<◌, ◌≤◌, Bool, List, [], IfOk, OnOk};
ghost use Rattle.dfdl_bits.specs.Window.{seen_at};
ghost use Rattle.dfdl_bits.specs.declared.window.Seen.TheVariants.{Byte};
ghost use Rattle.dfdl_looks.specs.Asks.{ask};
ghost use Rattle.dfdl_looks.specs.Tallies.{nothing};
ghost use Rattle.dfdl_delims.specs.Lists.{Decides, Opened};
ghost use Rattle.dfdl_delims.specs.Longest.{Answers, NoText, longest_at, longest_from};
ghost use Rattle.dfdl_delims.specs.Opening.{Opens};
ghost use Rattle.dfdl_delims.specs.Verdicts.{ArePlain};

use crate::beginning::begin;
use crate::candidate::Candidate;
use crate::finding::find;
use crate::found::{Found, Glance};
use crate::hit::alone;
use crate::naming::{are_plain, by_byte};
use crate::open_lists::OpenLists;
use crate::step::advance;
use crate::verdict::Verdict;
use dfdl_bits::{Seen, Steps, Window};
use std::alloc::{AllocError, Global};
use std::sync::ledger::Ledger;

/// Memory of a search that is used again: the ways in which the bytes that were seen begin texts.
#[derive(Drop)]
pub struct Candidates {
    live: Vec<Candidate>,
    next: Vec<Candidate>,
}

impl Candidates {
    pub fn new(alloc: Global) -> Candidates {
        Candidates {
            live: Vec::new(alloc),
            next: Vec::new(alloc),
        }
    }
}

/// Finds the longest text of the open lists that the data at bit `bit` begins with, in a box that ends at bit `stop`. A text
/// of more than one list is one of the innermost of them; `which` is its place among the open lists, 0 the outermost. Bytes are
/// looked at one after another while a text is longer.
pub fn longest<L: Ledger>(
    lists: OpenLists<'_>,
    window: &Window,
    bit: u64,
    stop: u64,
    candidates: &mut Candidates,
    steps: &mut Steps<L>,
) -> Result<Glance, AllocError>
    requires base { window.now.base ≤ bit / 8 }
    ensures answers { IfOk result (λ glance. (opened : List Opened) (test : List ℕ → Bool) → Opens lists.entry opened → Decides opened test
        → Answers (ask (seen_at window.now) (longest_at test opened stop (bit / 8)) nothing) glance (steps.new - steps.old)) }
    ensures steps { steps.old ≤ steps.new }
{
    let first = bit / 8;
    let last = stop / 8;
    if first < last && are_plain(lists) {
        let glance = find_plain(lists, window, first, last, candidates, steps)?;
        return Ok(glance);
    }
    begin(lists, &mut candidates.live)?;
    let glance = find(
        lists.markup.pieces(),
        window,
        first,
        last,
        first,
        0,
        &mut candidates.live,
        &mut candidates.next,
        steps,
    )?;
    Ok(glance)
}

// Finds the longest text from byte `first` on, in a box that ends at byte `last` behind it, where the lists have a text with a byte
// and none without one: the first byte tells it alone, unless longer texts begin with it.
fn find_plain<L: Ledger>(
    lists: OpenLists<'_>,
    window: &Window,
    first: u64,
    last: u64,
    candidates: &mut Candidates,
    steps: &mut Steps<L>,
) -> Result<Glance, AllocError>
    requires base { window.now.base ≤ first }
    requires within { first < last }
    requires last { last < 2 ^ 61 }
    ensures answers { IfOk result (λ glance. (opened : List Opened) (test : List ℕ → Bool) → Opens lists.entry opened → ArePlain opened
        → Decides opened test
        → Answers (ask (seen_at window.now) (longest_from test opened (last - first) [] NoText first) nothing) glance (steps.new - steps.old)) }
    ensures steps { steps.old ≤ steps.new }
{
    match window.look(first, steps) {
        Seen::Byte(byte) => match by_byte(lists, byte) {
            Verdict::Alone(which) => Ok(Glance {
                found: alone(which),
                far: first + 1,
            }),
            Verdict::Longer => {
                let glance = find_behind(lists, window, first, last, byte, candidates, steps)?;
                Ok(glance)
            }
        },
        Seen::End => Ok(Glance {
            found: Found::None,
            far: first + 1,
        }),
        Seen::NotYet => Ok(Glance {
            found: Found::NotYet,
            far: 0,
        }),
        Seen::Over => Ok(Glance {
            found: Found::Over,
            far: 0,
        }),
    }
}

// The same behind a look at the first byte.
fn find_behind<L: Ledger>(
    lists: OpenLists<'_>,
    window: &Window,
    first: u64,
    last: u64,
    byte: u8,
    candidates: &mut Candidates,
    steps: &mut Steps<L>,
) -> Result<Glance, AllocError>
    requires base { window.now.base ≤ first }
    requires within { first < last }
    requires last { last < 2 ^ 61 }
    requires byte { seen_at window.now first ≡ Byte byte }
    ensures answers { IfOk result (λ glance. (opened : List Opened) (test : List ℕ → Bool) → Opens lists.entry opened → ArePlain opened
        → Decides opened test
        → Answers (ask (seen_at window.now) (longest_from test opened (last - first) [] NoText first) nothing) glance (1 + (steps.new - steps.old))) }
    ensures steps { steps.old ≤ steps.new }
{
    begin(lists, &mut candidates.live)?;
    let pieces = lists.markup.pieces();
    advance(pieces, byte, &candidates.live, &mut candidates.next)?;
    let glance = find(
        pieces,
        window,
        first,
        last,
        first + 1,
        first + 1,
        &mut candidates.next,
        &mut candidates.live,
        steps,
    )?;
    Ok(glance)
}
