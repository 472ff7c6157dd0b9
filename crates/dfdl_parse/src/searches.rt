// A delimiter begins, and is sought.
ghost use Rattle.std.specs.Prelude.{◌≡◌, ℕ, ◌+◌, ◌-◌, ◌*◌, ◌/◌, ◌≤◌, ◌<◌, ◌++◌, ◌∷◌, false, IfOk, OnOk, All, length};
ghost use Rattle.dfdl_bits.specs.Window.{Held, end_of, seen_at};
ghost use Rattle.dfdl_looks.specs.Asks.{Reading, ask};
ghost use Rattle.dfdl_looks.specs.Tallies.{nothing};
ghost use Rattle.dfdl_delims.specs.Longest.{Answers, Longest};
ghost use Rattle.dfdl_grammar.specs.declared.end.End.TheVariants.{Done};
ghost use Rattle.dfdl_grammar.specs.Delimiters.{numbers_of, sought_among, stands_in};
ghost use Rattle.dfdl_grammar.specs.Marks.{initiated};
ghost use Rattle.dfdl_grammar.specs.Outcomes.{ended};
ghost use Rattle.dfdl_grammar.specs.Framing.{aligned};
ghost use Rattle.dfdl_parse.specs.Opens.{IsHeld};
ghost use Rattle.dfdl_parse.specs.Registered.{IsRegistered};
ghost use Rattle.dfdl_parse.specs.Searches.{EndsWithin, among, at_outcome, cause_of, enter_delimiter, first_open, place_of, put_behind, search, search_move, sought_by};
ghost use Rattle.dfdl_parse.specs.Steps.{Moved};
ghost use Rattle.dfdl_parse.specs.Shown.{Becomes, HasSameLimits, limits_of, state_of};

use crate::frame::{Focus, Sought};
use crate::parser::Parser;
use crate::scopes::Scopes;
use dfdl_bits::{Steps, Window};
use dfdl_delims::longest::longest;
use dfdl_delims::{Found, Glance, OpenLists};
use dfdl_grammar::{End, Instead};
use dfdl_leaves::aligned;
use dfdl_report::{LimitCause, ParseCause};
use dfdl_terms::{Delimiter, Terms};
use std::alloc::AllocError;
use std::sync::ledger::Ledger;

impl Parser {
    // An initiator begins.
    pub(crate) fn begin_initiator(&mut self, delimiter: Delimiter)
        ensures moved { (held : Held) → Moved
            (enter_delimiter held delimiter (Sought.Initiator delimiter.list delimiter.resolves) self.old.stack (state_of self.old))
            false self.old.far self.new held 0 }
        ensures most { HasSameLimits self.old self.new }
        ensures at { self.new.at ≡ self.old.at }
    {
        self.begin_delimiter(
            delimiter,
            Sought::Initiator {
                list: delimiter.list,
                resolves: delimiter.resolves,
            },
        );
    }

    // A terminator begins, of a component that may have separators of this list.
    pub(crate) fn begin_terminator(&mut self, delimiter: Delimiter, separator: Option<u32>)
        ensures moved { (held : Held) → Moved
            (enter_delimiter held delimiter (Sought.Terminator delimiter.list separator) self.old.stack (state_of self.old))
            false self.old.far self.new held 0 }
        ensures most { HasSameLimits self.old self.new }
        ensures at { self.new.at ≡ self.old.at }
    {
        self.begin_delimiter(
            delimiter,
            Sought::Terminator {
                list: delimiter.list,
                separator,
            },
        );
    }

    // A delimiter begins: it is sought next, where it stands in the representation that is tried.
    fn begin_delimiter(&mut self, delimiter: Delimiter, sought: Sought)
        ensures moved { (held : Held) → Moved
            (enter_delimiter held delimiter sought self.old.stack (state_of self.old)) false self.old.far self.new held 0 }
        ensures most { HasSameLimits self.old self.new }
        ensures at { self.new.at ≡ self.old.at }
    {
        if stands_in(self.instead, delimiter) {
            self.focus = Focus::Seek { sought };
        } else {
            self.focus = Focus::Leave(End::Done);
        }
    }

    // A delimiter is sought at the next whole byte.
    pub(crate) fn seek<L: Ledger>(
        &mut self,
        terms: &Terms,
        sought: Sought,
        sight: &mut Window,
        steps: &mut Steps<L>,
    ) -> Result<bool, AllocError>
        requires focus { self.old.focus ≡ Focus.Seek sought }
        requires base { IsHeld sight.old.base (aligned 8 self.old.at) (state_of self.old) }
        requires at { self.old.at ≤ 8 * end_of sight.old }
        requires registered { IsRegistered terms.now self.old }
        ensures moved { IfOk result (λ waits. Moved
            (search (limits_of self.old sight.old) terms.now.delimiters sight.old sought self.old.stack (state_of self.old))
            waits self.old.far self.new sight.new (steps.new - steps.old)) }
        ensures steps { steps.old ≤ steps.new }
        ensures most { OnOk result (HasSameLimits self.old self.new) }
        ensures at { OnOk result (self.new.at ≤ 8 * end_of sight.new) }
    {
        let _end = sight.end();
        let bit = aligned(8, self.at);
        sight.drop_before(self.anchor_at(bit));
        let glance = self.glance_at_text(terms, sought, bit, sight, steps)?;
        Ok(self.pass_text(sought, glance, bit, sight))
    }

    // The longest text is found at a bit that is a whole byte. What it comes to isn't taken.
    pub(crate) fn glance_at_text<L: Ledger>(
        &mut self,
        terms: &Terms,
        sought: Sought,
        bit: u64,
        sight: &Window,
        steps: &mut Steps<L>,
    ) -> Result<Glance, AllocError>
        requires bit { bit ≡ aligned 8 self.old.at }
        requires base { sight.now.base ≤ bit / 8 }
        requires at { self.old.at ≤ 8 * end_of sight.now }
        requires registered { IsRegistered terms.now self.old }
        requires named { All (λ n. n < length terms.now.delimiters) (put_behind sought) }
        ensures answers { IfOk result (λ glance. Answers
            (ask (seen_at sight.now) (sought_among (among terms.now.delimiters sought (state_of self.old)) self.old.at self.old.stop) nothing)
            glance (steps.new - steps.old)) }
        ensures within { IfOk result (λ glance. EndsWithin glance.found bit (end_of sight.now)) }
        ensures steps { steps.old ≤ steps.new }
        ensures same { OnOk result (self.new ≡ record self.old { candidates = self.new.candidates }) }
    {
        let _tables = terms.tables();
        let count = self.lists.len();
        let from = self.first_open(sought);
        put_behind(&mut self.lists, sought)?;
        let lists = OpenLists {
            markup: &self.markup,
            numbers: self.lists.from(from),
        };
        let answer = longest(lists, sight, bit, self.stop, &mut self.candidates, steps);
        self.lists.close_to(count);
        let glance = answer?;
        Ok(glance)
    }

    // How many of the open lists stand before those among whose texts one is sought.
    fn first_open(&self, sought: Sought) -> usize
        ensures { result ≡ first_open sought (state_of self.now) }
    {
        let count = self.lists.len();
        match sought {
            Sought::Initiator { .. } => count,
            Sought::Terminator { .. } => self.hidden.min(count),
            Sought::Separator => self.hidden.min(count),
        }
    }

    // What a search has found at a bit that is a whole byte is taken.
    fn pass_text(&mut self, sought: Sought, glance: Glance, bit: u64, sight: &Window) -> bool
        requires within { EndsWithin glance.found bit (end_of sight.now) }
        ensures moved { (held : Held) (looks : ℕ) (reading : Reading Longest) → Answers reading glance looks → bit ≡ aligned 8 self.old.at
            → Moved (search_move sight.now.size self.old.focus sought (place_of sought (state_of self.old)) held reading
            self.old.stack (state_of self.old)) result self.old.far self.new held looks }
        ensures most { HasSameLimits self.old self.new }
        ensures at { self.old.at ≤ 8 * end_of sight.now → self.new.at ≤ 8 * end_of sight.now }
    {
        let _end = sight.end();
        let cause = cause_of(sought);
        match glance.found {
            Found::NotYet => return true,
            Found::Match { which, bits } => {
                if which == self.place_of(sought) && 0 < bits {
                    self.at = bit + bits;
                    self.take_text(sought);
                } else {
                    self.fail(cause);
                }
            }
            Found::None => self.fail(cause),
            Found::Over => self.stop_at(LimitCause::Window, sight.size() as u64),
        }
        self.far = self.far.max(glance.far);
        false
    }

    // A text that was sought is found, and an initiator resolves a point.
    fn take_text(&mut self, sought: Sought)
        ensures { Becomes self.old (at_outcome (sought_by sought (ended Done (state_of self.old))) self.old.stack) self.new }
    {
        match sought {
            Sought::Initiator { resolves, .. } => self.resolve_initiated(resolves),
            Sought::Terminator { .. } => {}
            Sought::Separator => {}
        }
        self.focus = Focus::Leave(End::Done);
    }

    // An initiator was found: it resolves the innermost point, if it is one that resolves any, and else where that is one that it can resolve.
    fn resolve_initiated(&mut self, resolves: bool)
        ensures { Becomes self.old (record { focus = self.old.focus; stack = self.old.stack; state = initiated resolves (state_of self.old) }) self.new }
    {
        let initiated = resolves || self.marks.are_initiated();
        if initiated {
            self.marks.resolve();
        }
    }

    // The place of the list that is sought among those whose texts are found.
    pub(crate) fn place_of(&self, sought: Sought) -> usize
        ensures { result ≡ place_of sought (state_of self.now) }
    {
        let open = self.lists.from(self.hidden).len();
        match sought {
            Sought::Initiator { .. } => 0,
            Sought::Terminator { .. } => open,
            Sought::Separator => open.saturating_sub(1),
        }
    }
}

// Puts the lists that are sought too behind those that are open.
fn put_behind(lists: &mut Scopes, sought: Sought) -> Result<(), AllocError>
    ensures { OnOk result (lists.new ≡ lists.old ++ put_behind sought) }
{
    match sought {
        Sought::Initiator { list, .. } => lists.push(list),
        Sought::Terminator { list, separator } => put_both(lists, list, separator),
        Sought::Separator => Ok(()),
    }
}

// Puts a list, and another one, if there is one, behind those that are open.
fn put_both(lists: &mut Scopes, list: u32, other: Option<u32>) -> Result<(), AllocError>
    ensures { OnOk result (lists.new ≡ lists.old ++ list ∷ numbers_of other) }
{
    lists.push(list)?;
    match other {
        Some(number) => lists.push(number),
        None => Ok(()),
    }
}

// Why a search fails that finds no text.
fn cause_of(sought: Sought) -> ParseCause
    ensures { result ≡ cause_of sought }
{
    match sought {
        Sought::Initiator { .. } => ParseCause::InitiatorMissing,
        Sought::Terminator { .. } => ParseCause::TerminatorMissing,
        Sought::Separator => ParseCause::SeparatorMissing,
    }
}

// Whether a delimiter stands in the representation that is tried.
fn stands_in(instead: Instead, delimiter: Delimiter) -> bool
    ensures { result ≡ stands_in instead delimiter }
{
    match instead {
        Instead::Nothing => true,
        Instead::Nil(_) => delimiter.in_nil,
        Instead::Empty(_) => delimiter.in_empty,
        Instead::Tried => true,
    }
}
