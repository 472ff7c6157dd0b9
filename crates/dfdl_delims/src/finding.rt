// The longest text at a place.
#![tactic(auto)]

ghost use Rattle.std.specs.Prelude.{◌≡◌, ◌↔◌, ℕ, ◌+◌, ◌-◌, ◌^◌, ◌<◌, ◌≤◌, Bool, List, [], IfOk, OnOk, max};
ghost use Rattle.std.specs.List.{list_any};
ghost use Rattle.dfdl_bits.specs.Window.{seen_at};
ghost use Rattle.dfdl_looks.specs.Asks.{ask};
ghost use Rattle.dfdl_looks.specs.Tallies.{nothing};
ghost use Rattle.dfdl_delims.specs.Candidates.{complete, has_more};
ghost use Rattle.dfdl_delims.specs.Hits.{IsLast};
ghost use Rattle.dfdl_delims.specs.Lists.{Decides, Opened};
ghost use Rattle.dfdl_delims.specs.Longest.{Answers, NoText, longest_from};
ghost use Rattle.dfdl_delims.specs.Searching.{Going};
ghost use Rattle.dfdl_delims.specs.Standing.{StandFor};
ghost use Rattle.dfdl_delims.specs.declared.candidate.Candidate.{Candidate as AnyCandidate};

use crate::candidate::Candidate;
use crate::following::{has_more, is_whole};
use crate::found::{Found, Glance};
use crate::hit::{better, counted, found_of};
use crate::step::advance;
use dfdl_bits::{Seen, Steps, Window};
use dfdl_forms::Piece;
use std::alloc::AllocError;
use std::mem;
use std::sync::ledger::Ledger;

/// The innermost list of which the bytes that were seen are a text.
pub(crate) fn innermost(pieces: &[Piece], live: &[Candidate]) -> Option<usize>
    ensures { IsLast (λ place. complete pieces.now place live.now []) result }
{
    let mut best = None;
    for candidate in live {
        best = counted(best, candidate.list, is_whole(pieces, *candidate));
    }
    best
}

/// Whether some text has more bytes.
pub(crate) fn some_more(pieces: &[Piece], live: &[Candidate]) -> bool
    ensures { result ≡ list_any (has_more pieces.now) live.now }
{
    for candidate in live {
        if has_more(pieces, *candidate) {
            return true;
        }
    }
    false
}

/// Goes on with a search for the longest text from byte `first` on, in a box that ends at byte `last`: so far it has come to byte
/// `begun`, has seen bytes before byte `seen`, and has found nothing; `live` are the ways in which these bytes begin texts.
pub(crate) fn find<L: Ledger>(
    pieces: &[Piece],
    window: &Window,
    first: u64,
    last: u64,
    begun: u64,
    seen: u64,
    live: &mut Vec<Candidate>,
    next: &mut Vec<Candidate>,
    steps: &mut Steps<L>,
) -> Result<Glance, AllocError>
    requires base { window.now.base ≤ begun }
    requires last { last < 2 ^ 61 }
    requires begun { first ≤ begun }
    requires bound { begun ≤ max first last }
    ensures answers { IfOk result (λ glance. (starts : List AnyCandidate) (looks : ℕ) (lists : List Opened) (test : List ℕ → Bool)
        → StandFor pieces.now starts lists → Decides lists test
        → Going (seen_at window.now) pieces.now starts live.old.items first last begun seen looks NoText
        → Answers (ask (seen_at window.now) (longest_from test lists (last - first) [] NoText first) nothing) glance (looks + (steps.new - steps.old))) }
    ensures steps { steps.old ≤ steps.new }
{
    let mut hit = None;
    let mut place = begun;
    let mut far = seen;
    'bytes: loop {
        let now = better(innermost(pieces, live), 8 * (place - first), hit);
        if place >= last {
            return Ok(Glance {
                found: found_of(now),
                far,
            });
        }
        if !some_more(pieces, live) {
            return Ok(Glance {
                found: found_of(now),
                far,
            });
        }
        match window.look(place, steps) {
            Seen::Byte(byte) => {
                advance(pieces, byte, live, next)?;
                mem::swap(live, next);
                hit = now;
                place += 1;
                far = place;
            }
            Seen::End => {
                return Ok(Glance {
                    found: found_of(now),
                    far: place + 1,
                });
            }
            Seen::NotYet => {
                return Ok(Glance {
                    found: Found::NotYet,
                    far,
                });
            }
            Seen::Over => {
                return Ok(Glance {
                    found: Found::Over,
                    far,
                });
            }
        }
    }
}
