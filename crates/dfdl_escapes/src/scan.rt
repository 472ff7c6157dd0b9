// A scan of delimited text.
ghost use Rattle.std.specs.Prelude.{◌≡◌, ℕ, ◌-◌, ◌/◌, ◌^◌, ◌≤◌, Bool, List, IfOk, IsErr};
ghost use Rattle.dfdl_bits.specs.Window.{end_of, seen_at};
ghost use Rattle.dfdl_looks.specs.Asks.{ask};
ghost use Rattle.dfdl_looks.specs.Tallies.{nothing};
ghost use Rattle.dfdl_delims.specs.Lists.{Decides, Opened};
ghost use Rattle.dfdl_delims.specs.Opening.{Opens};
ghost use Rattle.dfdl_escapes.specs.Readings.{Answers, GoesTo};
ghost use Rattle.dfdl_escapes.specs.Steps.{first_mode, stand, step_at};

use crate::form::{Form, Mode, Stand};
use crate::scanned::Glance;
use crate::walk::{Task, walk};
use dfdl_bits::{Steps, Window};
use dfdl_delims::{Candidates, OpenLists};
use dfdl_forms::{Encoding, EscapeKind, EscapeScheme};
use std::alloc::AllocError;
use std::sync::ledger::Ledger;

/// A scan of delimited text: how it scans, and where it stands.
#[derive(Debug, Clone, Copy, PartialEq, Eq)]
pub struct Scan {
    pub form: Form,
    pub at: Stand,
}

/// Where a content is that begins, by the kind of its escape scheme.
pub fn first_mode(kind: EscapeKind) -> Mode
    ensures { result ≡ first_mode kind }
{
    match kind {
        EscapeKind::Absent => Mode::Plain,
        EscapeKind::Character => Mode::Escaping,
        EscapeKind::Block => Mode::Before,
    }
}

impl Scan {
    /// A scan that begins at bit `bit`, a multiple of 8, in a box that ends at bit `stop`. The content is of the encoding `enc`; with
    /// `replaces` a bad unit is U+FFFD; `lead` is the pad character that trimming takes off at the left, if there is one.
    pub fn open(
        scheme: &EscapeScheme,
        enc: Encoding,
        replaces: bool,
        lead: Option<char>,
        bit: u64,
        stop: u64,
    ) -> Scan
        ensures at { result.at ≡ stand (first_mode scheme.now.kind) (bit / 8) }
        ensures form { result.form ≡ record {
          escape = scheme.now.escape;
          escape_escape = scheme.now.escape_escape;
          start = scheme.now.start;
          end = scheme.now.end;
          lead = lead;
          enc = enc;
          replaces = replaces;
          stop = stop;
        } }
    {
        Scan {
            form: Form {
                escape: scheme.escape,
                escape_escape: scheme.escape_escape,
                start: scheme.start,
                end: scheme.end,
                lead,
                enc,
                replaces,
                stop,
            },
            at: Stand {
                mode: first_mode(scheme.kind),
                byte: bit / 8,
            },
        }
    }

    /// Takes one step: a character or a mark is passed, and with any other answer the scan stands where it stood. The markup that
    /// ends the content is that of the lists, in one of which the longest text is found.
    pub fn step<L: Ledger>(
        &mut self,
        lists: OpenLists<'_>,
        window: &Window,
        candidates: &mut Candidates,
        steps: &mut Steps<L>,
    ) -> Result<Glance, AllocError>
        requires base { window.now.base ≤ self.old.at.byte }
        requires byte { self.old.at.byte ≤ 2 ^ 60 }
        requires bound { end_of window.now ≤ 2 ^ 60 }
        ensures answers { IfOk result (λ glance. (opened : List Opened) (test : List ℕ → Bool) → Opens lists.entry opened → Decides opened test
            → Answers (ask (seen_at window.now) (step_at test opened self.old.form self.old.at) nothing) self.new.at glance (steps.new - steps.old)) }
        ensures goes { IfOk result (λ glance. GoesTo glance.scanned self.old.at self.new.at (end_of window.now)) }
        ensures failed { IsErr result → self.new.at ≡ self.old.at }
        ensures form { self.new.form ≡ self.old.form }
        ensures steps { steps.old ≤ steps.new }
    {
        let task = Task {
            form: self.form,
            lists,
            window,
        };
        let (turn, far) = walk(&task, self.at, candidates, steps)?;
        self.at = turn.at;
        Ok(Glance {
            scanned: turn.scanned,
            far,
        })
    }
}
