// Terminating markup at a byte.
ghost use Rattle.std.specs.Prelude.{◌≡◌, ℕ, ◌-◌, ◌^◌, ◌≤◌, Bool, List, IfOk};
ghost use Rattle.dfdl_bits.specs.declared.window.Seen.{Seen as AnySeen};
ghost use Rattle.dfdl_bits.specs.Window.{seen_at};
ghost use Rattle.dfdl_looks.specs.Asks.{Answer, ask, go_on};
ghost use Rattle.dfdl_looks.specs.Tallies.{Tally};
ghost use Rattle.dfdl_delims.specs.Lists.{Decides, Opened};
ghost use Rattle.dfdl_delims.specs.Longest.{found_shown};
ghost use Rattle.dfdl_delims.specs.Opening.{Opens};
ghost use Rattle.dfdl_escapes.specs.Readings.{Comes, end_shown};
ghost use Rattle.dfdl_escapes.specs.Steps.{ended_by, markup_at};

use crate::form::Form;
use dfdl_bits::{Steps, Window};
use dfdl_delims::longest::longest;
use dfdl_delims::{Candidates, Found, OpenLists};
use std::alloc::AllocError;
use std::sync::ledger::Ledger;

/// What is found of terminating markup at a byte.
#[derive(Debug, Clone, Copy)]
pub(crate) enum End {
    None,
    At { which: usize },
    NotYet,
    Over,
}

/// What is found of terminating markup at a byte, and how far was seen.
pub(crate) fn end_at<L: Ledger>(
    form: &Form,
    lists: OpenLists<'_>,
    window: &Window,
    byte: u64,
    candidates: &mut Candidates,
    steps: &mut Steps<L>,
) -> Result<(End, u64), AllocError>
    requires base { window.now.base ≤ byte }
    requires byte { byte ≤ 2 ^ 60 }
    ensures end { IfOk result (λ answer. (opened : List Opened) (test : List ℕ → Bool) → Opens lists.entry opened → Decides opened test → (t : Tally)
        → Comes t (ask (seen_at window.now) (markup_at test opened form.now.stop byte) t) (end_shown answer.0) (steps.new - steps.old) answer.1) }
    ensures steps { steps.old ≤ steps.new }
{
    let glance = longest(lists, window, 8 * byte, form.stop, candidates, steps)?;
    Ok((end_of(glance.found), glance.far))
}

// What was found, where a text of no bits ends nothing.
fn end_of(found: Found) -> End
    ensures { (look : ℕ → AnySeen) (t : Tally)
        → go_on look (λ text. Answer (ended_by text)) (found_shown found) t ≡ record { reached = end_shown result; tally = t } }
{
    match found {
        Found::Match { which, bits } => {
            if bits == 0 {
                End::None
            } else {
                End::At { which }
            }
        }
        Found::None => End::None,
        Found::NotYet => End::NotYet,
        Found::Over => End::Over,
    }
}
