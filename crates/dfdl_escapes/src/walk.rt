// A step of a scan, one look after the other.
ghost use Rattle.std.specs.Prelude.{◌≡◌, ℕ, ◌-◌, ◌^◌, ◌≤◌, Bool, List, IfOk};
ghost use Rattle.dfdl_bits.specs.Window.{end_of, seen_at};
ghost use Rattle.dfdl_looks.specs.Asks.{ask, go_on};
ghost use Rattle.dfdl_looks.specs.Tallies.{Tally};
ghost use Rattle.dfdl_delims.specs.Lists.{Decides, Opened};
ghost use Rattle.dfdl_delims.specs.Opening.{Opens};
ghost use Rattle.dfdl_escapes.specs.Readings.{Comes, FirstWithin, GoesTo, LastWithin, end_shown, first_reading, last_reading, step_shown};
ghost use Rattle.dfdl_escapes.specs.Steps.{by_piece, is_plain, step_at, unless_closed};

use crate::end::{End, end_at};
use crate::form::{Form, Mode, Stand};
use crate::scanned::Scanned;
use crate::turn::{First, Last, Turn, by_block_pair, by_end, by_first, by_pair};
use crate::unit::unit_at;
use dfdl_bits::{Steps, Window};
use dfdl_delims::{Candidates, OpenLists};
use std::alloc::AllocError;
use std::sync::ledger::Ledger;

/// What is scanned: how, and the terminating markup and the data.
#[derive(Clone, Copy)]
pub(crate) struct Task<'s> {
    pub form: Form,
    pub lists: OpenLists<'s>,
    pub window: &'s Window,
}

// What is left of a step, and how far was seen.
fn settle<L: Ledger>(
    task: &Task<'_>,
    at: Stand,
    last: Last,
    candidates: &mut Candidates,
    steps: &mut Steps<L>,
) -> Result<(Turn, u64), AllocError>
    requires base { task.now.window.now.base ≤ at.byte }
    requires byte { at.byte ≤ 2 ^ 60 }
    ensures comes { IfOk result (λ answer. (opened : List Opened) (test : List ℕ → Bool) → Opens task.now.lists opened → Decides opened test → (t : Tally)
        → Comes t (last_reading (seen_at task.now.window.now) test opened task.now.form at last t) (step_shown answer.0.at answer.0.scanned) (steps.new - steps.old) answer.1) }
    ensures within { IfOk result (λ answer. (come : ℕ) → LastWithin at last come → GoesTo answer.0.scanned at answer.0.at come) }
    ensures steps { steps.old ≤ steps.new }
{
    match last {
        Last::Gives(turn) => Ok((turn, 0)),
        Last::Unless(rest) => {
            let (end, far) = end_at(
                &task.form,
                task.lists,
                task.window,
                at.byte,
                candidates,
                steps,
            )?;
            Ok((by_end(at, rest, end), far))
        }
    }
}

// What is left of a step behind its first unit, and how far was seen.
fn go_on<L: Ledger>(
    task: &Task<'_>,
    at: Stand,
    first: First,
    candidates: &mut Candidates,
    steps: &mut Steps<L>,
) -> Result<(Turn, u64), AllocError>
    requires base { task.now.window.now.base ≤ at.byte }
    requires byte { at.byte ≤ 2 ^ 60 }
    requires bound { end_of task.now.window.now ≤ 2 ^ 60 }
    requires within { FirstWithin at first (end_of task.now.window.now) }
    ensures comes { IfOk result (λ answer. (opened : List Opened) (test : List ℕ → Bool) → Opens task.now.lists opened → Decides opened test → (t : Tally)
        → Comes t (first_reading (seen_at task.now.window.now) test opened task.now.form at first t) (step_shown answer.0.at answer.0.scanned) (steps.new - steps.old) answer.1) }
    ensures within { IfOk result (λ answer. GoesTo answer.0.scanned at answer.0.at (end_of task.now.window.now)) }
    ensures steps { steps.old ≤ steps.new }
{
    match first {
        First::Settled(last) => settle(task, at, last, candidates, steps),
        First::Pair { c, next } => {
            let (unit, seen) = unit_at(&task.form, task.window, next, steps);
            let last = by_pair(&task.form, at, c, next, unit);
            let (turn, far) = settle(task, at, last, candidates, steps)?;
            Ok((turn, seen.max(far)))
        }
        First::BlockPair { c, next } => {
            let (unit, seen) = unit_at(&task.form, task.window, next, steps);
            Ok((by_block_pair(&task.form, at, c, next, unit), seen))
        }
    }
}

// What a step comes to by what stands where the scan does, and how far was seen.
fn by_piece<L: Ledger>(
    task: &Task<'_>,
    at: Stand,
    candidates: &mut Candidates,
    steps: &mut Steps<L>,
) -> Result<(Turn, u64), AllocError>
    requires base { task.now.window.now.base ≤ at.byte }
    requires byte { at.byte ≤ 2 ^ 60 }
    requires bound { end_of task.now.window.now ≤ 2 ^ 60 }
    ensures comes { IfOk result (λ answer. (opened : List Opened) (test : List ℕ → Bool) → Opens task.now.lists opened → Decides opened test → (t : Tally)
        → Comes t (ask (seen_at task.now.window.now) (by_piece test opened task.now.form at) t) (step_shown answer.0.at answer.0.scanned) (steps.new - steps.old) answer.1) }
    ensures within { IfOk result (λ answer. GoesTo answer.0.scanned at answer.0.at (end_of task.now.window.now)) }
    ensures steps { steps.old ≤ steps.new }
{
    let (unit, seen) = unit_at(&task.form, task.window, at.byte, steps);
    let first = by_first(&task.form, at, unit);
    let (turn, far) = go_on(task, at, first, candidates, steps)?;
    Ok((turn, seen.max(far)))
}

// The same behind what was found of terminating markup.
fn behind_end<L: Ledger>(
    task: &Task<'_>,
    at: Stand,
    end: End,
    candidates: &mut Candidates,
    steps: &mut Steps<L>,
) -> Result<(Turn, u64), AllocError>
    requires base { task.now.window.now.base ≤ at.byte }
    requires byte { at.byte ≤ 2 ^ 60 }
    requires bound { end_of task.now.window.now ≤ 2 ^ 60 }
    ensures comes { IfOk result (λ answer. (opened : List Opened) (test : List ℕ → Bool) → Opens task.now.lists opened → Decides opened test → (t : Tally)
        → Comes t (go_on (seen_at task.now.window.now) (λ found. unless_closed (by_piece test opened task.now.form at) found) (end_shown end) t)
        (step_shown answer.0.at answer.0.scanned) (steps.new - steps.old) answer.1) }
    ensures within { IfOk result (λ answer. GoesTo answer.0.scanned at answer.0.at (end_of task.now.window.now)) }
    ensures steps { steps.old ≤ steps.new }
{
    let scanned = match end {
        End::None => {
            let (turn, far) = by_piece(task, at, candidates, steps)?;
            return Ok((turn, far));
        }
        End::At { which } => Scanned::Ends { which },
        End::NotYet => Scanned::NotYet,
        End::Over => Scanned::Over,
    };
    Ok((Turn { scanned, at }, 0))
}

fn is_plain(mode: Mode) -> bool
    ensures { result ≡ is_plain mode }
{
    matches!(mode, Mode::Plain)
}

/// What a step comes to, and how far was seen.
pub(crate) fn walk<L: Ledger>(
    task: &Task<'_>,
    at: Stand,
    candidates: &mut Candidates,
    steps: &mut Steps<L>,
) -> Result<(Turn, u64), AllocError>
    requires base { task.now.window.now.base ≤ at.byte }
    requires byte { at.byte ≤ 2 ^ 60 }
    requires bound { end_of task.now.window.now ≤ 2 ^ 60 }
    ensures comes { IfOk result (λ answer. (opened : List Opened) (test : List ℕ → Bool) → Opens task.now.lists opened → Decides opened test → (t : Tally)
        → Comes t (ask (seen_at task.now.window.now) (step_at test opened task.now.form at) t) (step_shown answer.0.at answer.0.scanned) (steps.new - steps.old) answer.1) }
    ensures within { IfOk result (λ answer. GoesTo answer.0.scanned at answer.0.at (end_of task.now.window.now)) }
    ensures steps { steps.old ≤ steps.new }
{
    if !is_plain(at.mode) {
        let (turn, far) = by_piece(task, at, candidates, steps)?;
        return Ok((turn, far));
    }
    let (end, seen) = end_at(
        &task.form,
        task.lists,
        task.window,
        at.byte,
        candidates,
        steps,
    )?;
    let (turn, far) = behind_end(task, at, end, candidates, steps)?;
    Ok((turn, seen.max(far)))
}
