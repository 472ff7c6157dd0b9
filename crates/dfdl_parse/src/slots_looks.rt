// What is only looked at in a sequence with separators: whether a slot is empty, and whether a separator follows.
ghost use Rattle.std.specs.Prelude.{◌≡◌, ℕ, ◌+◌, ◌-◌, ◌*◌, ◌/◌, ◌^◌, ◌≤◌, Bool, false, max, IfOk, OnOk, length};
ghost use Rattle.dfdl_bits.specs.Window.{Held, end_of, from_byte, seen_at};
ghost use Rattle.dfdl_looks.specs.Asks.{Reading, ask};
ghost use Rattle.dfdl_looks.specs.Tallies.{Tally, nothing};
ghost use Rattle.dfdl_grammar.specs.Delimiters.{lists_of, markup};
ghost use Rattle.dfdl_grammar.specs.Slots.{is_empty_at, markup_follows, separator_follows};
ghost use Rattle.dfdl_grammar.specs.States.{anchor};
ghost use Rattle.dfdl_parse.specs.Opens.{IsBefore, IsHeld};
ghost use Rattle.dfdl_parse.specs.Registered.{IsRegistered};
ghost use Rattle.dfdl_parse.specs.Slots.{behind_move, in_move, look_behind, look_in, occurs, separation_at, slots_from};
ghost use Rattle.dfdl_parse.specs.SlotLooks.{Answers, any_found, found_at};
ghost use Rattle.dfdl_parse.specs.Steps.{Moved};
ghost use Rattle.dfdl_parse.specs.Shown.{Becomes, HasSameLimits, limits_of, state_of};

use crate::frame::{Focus, SlotPlace, Sought};
use crate::parser::Parser;
use crate::slots::{is_initiated, later_than, opens_before, own_of};
use crate::testing::{Told, Verdict};
use dfdl_bits::{Seen, Steps, Window};
use dfdl_delims::Found;
use dfdl_grammar::End;
use dfdl_leaves::aligned;
use dfdl_report::LimitCause;
use dfdl_terms::{Slot, Terms};
use std::alloc::AllocError;
use std::sync::ledger::Ledger;

impl Parser {
    // It is looked whether a slot is empty, and its occurrence begins.
    pub(crate) fn look_in<L: Ledger>(
        &mut self,
        terms: &Terms,
        slot: SlotPlace,
        sight: &mut Window,
        steps: &mut Steps<L>,
    ) -> Result<bool, AllocError>
        requires focus { self.old.focus ≡ Focus.LookIn slot }
        requires base { IsHeld sight.old.base self.old.at (state_of self.old) }
        requires at { self.old.at ≤ 8 * end_of sight.old }
        requires registered { IsRegistered terms.now self.old }
        ensures moved { IfOk result (λ waits. Moved
            (look_in (limits_of self.old sight.old) terms.now.delimiters sight.old (separation_at terms.now slot).initiated slot
            (slots_from terms.now slot) self.old.stack (state_of self.old))
            waits self.old.far self.new sight.new (steps.new - steps.old)) }
        ensures steps { steps.old ≤ steps.new }
        ensures most { OnOk result (HasSameLimits self.old self.new) }
        ensures at { OnOk result (self.new.at ≤ 8 * end_of sight.new) }
    {
        let initiated = is_initiated(terms, slot);
        match own_of(terms, slot) {
            None => {
                self.leave_before(slot, End::Done);
                Ok(false)
            }
            Some(own) => {
                let waits = self.see_in(terms, initiated, slot, own.body.number(), sight, steps)?;
                Ok(waits)
            }
        }
    }

    // It is looked whether a slot with this row is empty, and its occurrence begins.
    fn see_in<L: Ledger>(
        &mut self,
        terms: &Terms,
        initiated: bool,
        slot: SlotPlace,
        body: u32,
        sight: &mut Window,
        steps: &mut Steps<L>,
    ) -> Result<bool, AllocError>
        requires focus { self.old.focus ≡ Focus.LookIn slot }
        requires base { IsHeld sight.old.base self.old.at (state_of self.old) }
        requires at { self.old.at ≤ 8 * end_of sight.old }
        requires registered { IsRegistered terms.now self.old }
        ensures moved { IfOk result (λ waits. Moved
            (in_move (limits_of self.old sight.old) (from_byte sight.old (anchor (state_of self.old))) initiated slot body
            (ask (seen_at (from_byte sight.old (anchor (state_of self.old))))
            (is_empty_at (lists_of terms.now.delimiters (markup (state_of self.old))) self.old.at self.old.stop) nothing)
            self.old.stack (state_of self.old))
            waits self.old.far self.new sight.new (steps.new - steps.old)) }
        ensures steps { steps.old ≤ steps.new }
        ensures most { OnOk result (HasSameLimits self.old self.new) }
        ensures at { OnOk result (self.new.at ≤ 8 * end_of sight.new) }
    {
        let _end = sight.end();
        let told = self.ask_in(terms, sight, steps)?;
        let waits = self.take_in(initiated, slot, body, told, sight.size() as u64)?;
        Ok(waits)
    }

    // What is known of a slot whose content comes next is taken: where it is known whether it is empty, its occurrence begins.
    fn take_in(
        &mut self,
        initiated: bool,
        slot: SlotPlace,
        body: u32,
        told: Told,
        window: u64,
    ) -> Result<bool, AllocError>
        requires focus { self.old.focus ≡ Focus.LookIn slot }
        ensures moved { IfOk result (λ waits. (sight : Held) (looks : ℕ) (reading : Reading Bool) → Answers reading told looks → sight.size ≡ window
            → Moved (in_move (limits_of self.old sight) sight initiated slot body reading self.old.stack (state_of self.old))
            waits self.old.far self.new sight looks) }
        ensures most { OnOk result (HasSameLimits self.old self.new) }
        ensures at { OnOk result (self.new.at ≡ self.old.at) }
    {
        match told.verdict {
            Verdict::NotYet => Ok(true),
            Verdict::Holds(empty) => {
                self.occur(initiated, slot, body, empty)?;
                self.see(told.far);
                Ok(false)
            }
            Verdict::Past => {
                self.stop_at(LimitCause::Window, window);
                self.see(told.far);
                Ok(false)
            }
        }
    }

    // The bytes before this one were looked at.
    fn see(&mut self, far: u64)
        ensures { self.new ≡ record self.old { far = max self.old.far far } }
    {
        self.far = self.far.max(far);
    }

    // The occurrence of a slot begins, which is empty or not; its marks are opened, unless they are open.
    fn occur(
        &mut self,
        initiated: bool,
        slot: SlotPlace,
        body: u32,
        empty: bool,
    ) -> Result<(), AllocError>
        ensures becomes { (held : Held) (cost : Tally) → OnOk result (Becomes self.old
            (occurs cost held initiated slot body self.old.stack (state_of self.old) empty).machine self.new) }
        ensures at { OnOk result (self.new.at ≡ self.old.at) }
    {
        let here = slot.progress.here_of(slot.rule);
        if opens_before(here) {
            return self.enter_content(slot, body, empty);
        }
        self.open_slot(initiated, here)?;
        self.enter_content(slot, body, empty)
    }

    // It is looked whether a separator follows a slot, which is settled then.
    pub(crate) fn look_behind<L: Ledger>(
        &mut self,
        terms: &Terms,
        slot: SlotPlace,
        bit: u64,
        sight: &mut Window,
        steps: &mut Steps<L>,
    ) -> Result<bool, AllocError>
        requires focus { self.old.focus ≡ Focus.LookBehind slot bit }
        requires base { IsHeld sight.old.base self.old.at (state_of self.old) }
        requires before { IsBefore self.old.marks self.old.at }
        requires at { self.old.at ≤ 8 * end_of sight.old }
        requires registered { IsRegistered terms.now self.old }
        ensures moved { IfOk result (λ waits. Moved
            (look_behind (limits_of self.old sight.old) terms.now.delimiters sight.old (separation_at terms.now slot).initiated slot bit
            (slots_from terms.now slot) self.old.stack (state_of self.old))
            waits self.old.far self.new sight.new (steps.new - steps.old)) }
        ensures steps { steps.old ≤ steps.new }
        ensures most { OnOk result (HasSameLimits self.old self.new) }
        ensures at { OnOk result (self.new.at ≤ 8 * end_of sight.new) }
    {
        let initiated = is_initiated(terms, slot);
        match own_of(terms, slot) {
            None => {
                self.leave_content(slot, End::Done);
                Ok(false)
            }
            Some(own) => {
                let later = later_than(terms, slot);
                let waits = self.see_behind(terms, initiated, slot, bit, own, later, sight, steps)?;
                Ok(waits)
            }
        }
    }

    // It is looked whether a separator follows a slot with this row, which is settled then.
    fn see_behind<L: Ledger>(
        &mut self,
        terms: &Terms,
        initiated: bool,
        slot: SlotPlace,
        bit: u64,
        own: &Slot,
        later: &[Slot],
        sight: &mut Window,
        steps: &mut Steps<L>,
    ) -> Result<bool, AllocError>
        requires focus { self.old.focus ≡ Focus.LookBehind slot bit }
        requires few { slot.place + 1 + length later.now ≤ 2 ^ 63 }
        requires base { IsHeld sight.old.base self.old.at (state_of self.old) }
        requires before { IsBefore self.old.marks self.old.at }
        requires at { self.old.at ≤ 8 * end_of sight.old }
        requires registered { IsRegistered terms.now self.old }
        ensures moved { IfOk result (λ waits. Moved
            (behind_move (limits_of self.old sight.old) (from_byte sight.old (anchor (state_of self.old))) initiated slot bit own.now later.now
            (ask (seen_at (from_byte sight.old (anchor (state_of self.old))))
            (separator_follows (lists_of terms.now.delimiters (markup (state_of self.old))) (length (markup (state_of self.old)) - 1)
            self.old.at self.old.stop) nothing)
            self.old.stack (state_of self.old))
            waits self.old.far self.new sight.new (steps.new - steps.old)) }
        ensures steps { steps.old ≤ steps.new }
        ensures most { OnOk result (HasSameLimits self.old self.new) }
        ensures at { OnOk result (self.new.at ≤ 8 * end_of sight.new) }
    {
        let _end = sight.end();
        let told = self.ask_separator(terms, sight, steps)?;
        let waits = self.take_behind(initiated, slot, bit, own, later, told, sight.size() as u64)?;
        Ok(waits)
    }

    // What is known of what follows a slot is taken: where it is known whether a separator does, the slot is settled.
    fn take_behind(
        &mut self,
        initiated: bool,
        slot: SlotPlace,
        bit: u64,
        own: &Slot,
        later: &[Slot],
        told: Told,
        window: u64,
    ) -> Result<bool, AllocError>
        requires focus { self.old.focus ≡ Focus.LookBehind slot bit }
        requires few { slot.place + 1 + length later.now ≤ 2 ^ 63 }
        ensures moved { IfOk result (λ waits. (sight : Held) (looks : ℕ) (reading : Reading Bool) → Answers reading told looks → sight.size ≡ window
            → Moved (behind_move (limits_of self.old sight) sight initiated slot bit own.now later.now reading self.old.stack (state_of self.old))
            waits self.old.far self.new sight looks) }
        ensures most { OnOk result (HasSameLimits self.old self.new) }
        ensures at { OnOk result (IsBefore self.old.marks self.old.at → self.new.at ≤ self.old.at) }
    {
        match told.verdict {
            Verdict::NotYet => Ok(true),
            Verdict::Holds(found) => {
                self.settle_by(initiated, slot, bit, own, later, found, End::Done)?;
                self.see(told.far);
                Ok(false)
            }
            Verdict::Past => {
                self.stop_at(LimitCause::Window, window);
                self.see(told.far);
                Ok(false)
            }
        }
    }

    // The bytes before a slot are given up, and it is looked whether it is empty.
    #[tactic(auto, using(crate::proofs::Windows::end_from))]
    fn ask_in<L: Ledger>(
        &mut self,
        terms: &Terms,
        sight: &mut Window,
        steps: &mut Steps<L>,
    ) -> Result<Told, AllocError>
        requires base { IsHeld sight.old.base self.old.at (state_of self.old) }
        requires at { self.old.at ≤ 8 * end_of sight.old }
        requires registered { IsRegistered terms.now self.old }
        ensures answers { IfOk result (λ told. Answers
            (ask (seen_at sight.new) (is_empty_at (lists_of terms.now.delimiters (markup (state_of self.old))) self.old.at self.old.stop) nothing)
            told (steps.new - steps.old)) }
        ensures held { sight.new ≡ from_byte sight.old (anchor (state_of self.old)) }
        ensures end { end_of sight.new ≡ end_of sight.old }
        ensures steps { steps.old ≤ steps.new }
        ensures same { OnOk result (self.new ≡ record self.old { candidates = self.new.candidates }) }
    {
        let _end = sight.end();
        sight.drop_before(self.anchor_at(self.at));
        let told = self.told_in(terms, sight, steps)?;
        Ok(told)
    }

    // Whether a slot is empty whose content comes next.
    fn told_in<L: Ledger>(
        &mut self,
        terms: &Terms,
        sight: &Window,
        steps: &mut Steps<L>,
    ) -> Result<Told, AllocError>
        requires base { sight.now.base ≤ self.old.at / 8 }
        requires at { self.old.at ≤ 8 * end_of sight.now }
        requires registered { IsRegistered terms.now self.old }
        ensures answers { IfOk result (λ told. Answers
            (ask (seen_at sight.now) (is_empty_at (lists_of terms.now.delimiters (markup (state_of self.old))) self.old.at self.old.stop) nothing)
            told (steps.new - steps.old)) }
        ensures steps { steps.old ≤ steps.new }
        ensures same { OnOk result (self.new ≡ record self.old { candidates = self.new.candidates }) }
    {
        let _end = sight.end();
        let over = self.stop <= self.at;
        if over {
            return Ok(told(Verdict::Holds(true), 0));
        }
        let byte = self.at / 8;
        match sight.look(byte, steps) {
            Seen::Byte(_) => {
                let markup = self.told_of_markup(terms, sight, steps)?;
                Ok(seen_past(markup, byte))
            }
            Seen::End => Ok(told(Verdict::Holds(true), byte + 1)),
            Seen::Over => Ok(told(Verdict::Past, 0)),
            Seen::NotYet => Ok(told(Verdict::NotYet, 0)),
        }
    }

    // Whether terminating markup stands at the next whole byte.
    fn told_of_markup<L: Ledger>(
        &mut self,
        terms: &Terms,
        sight: &Window,
        steps: &mut Steps<L>,
    ) -> Result<Told, AllocError>
        requires base { sight.now.base ≤ self.old.at / 8 }
        requires at { self.old.at ≤ 8 * end_of sight.now }
        requires registered { IsRegistered terms.now self.old }
        ensures answers { IfOk result (λ told. Answers
            (ask (seen_at sight.now) (markup_follows (lists_of terms.now.delimiters (markup (state_of self.old))) self.old.at self.old.stop) nothing)
            told (steps.new - steps.old)) }
        ensures steps { steps.old ≤ steps.new }
        ensures same { OnOk result (self.new ≡ record self.old { candidates = self.new.candidates }) }
    {
        let _end = sight.end();
        let bit = aligned(8, self.at);
        let glance = self.glance_at_text(terms, Sought::Separator, bit, sight, steps)?;
        Ok(told(any_found(glance.found), glance.far))
    }

    // The bytes before it are given up, and it is looked whether a separator comes next.
    #[tactic(auto, using(crate::proofs::Windows::end_from))]
    fn ask_separator<L: Ledger>(
        &mut self,
        terms: &Terms,
        sight: &mut Window,
        steps: &mut Steps<L>,
    ) -> Result<Told, AllocError>
        requires base { IsHeld sight.old.base self.old.at (state_of self.old) }
        requires at { self.old.at ≤ 8 * end_of sight.old }
        requires registered { IsRegistered terms.now self.old }
        ensures answers { IfOk result (λ told. Answers
            (ask (seen_at sight.new) (separator_follows (lists_of terms.now.delimiters (markup (state_of self.old)))
            (length (markup (state_of self.old)) - 1) self.old.at self.old.stop) nothing)
            told (steps.new - steps.old)) }
        ensures held { sight.new ≡ from_byte sight.old (anchor (state_of self.old)) }
        ensures end { end_of sight.new ≡ end_of sight.old }
        ensures steps { steps.old ≤ steps.new }
        ensures same { OnOk result (self.new ≡ record self.old { candidates = self.new.candidates }) }
    {
        let _end = sight.end();
        sight.drop_before(self.anchor_at(self.at));
        let bit = aligned(8, self.at);
        let place = self.place_of(Sought::Separator);
        let glance = self.glance_at_text(terms, Sought::Separator, bit, sight, steps)?;
        Ok(told(found_at(place, glance.found), glance.far))
    }
}

// What a question comes to, with the greatest byte that was seen or missed, plus one.
fn told(verdict: Verdict, far: u64) -> Told
    ensures { result ≡ record { verdict = verdict; far = far } }
{
    Told { verdict, far }
}

// The same, where a byte was seen before.
fn seen_past(told: Told, byte: u64) -> Told
    requires { byte ≤ 2 ^ 61 }
    ensures { result ≡ record { verdict = told.verdict; far = max told.far (byte + 1) } }
{
    Told {
        verdict: told.verdict,
        far: told.far.max(byte + 1),
    }
}

// Whether any text was found.
fn any_found(found: Found) -> Verdict
    ensures { result ≡ any_found found }
{
    match found {
        Found::Match { bits, .. } => Verdict::Holds(0 < bits),
        Found::None => Verdict::Holds(false),
        Found::Over => Verdict::Past,
        Found::NotYet => Verdict::NotYet,
    }
}

// Whether a text of the list at a place was found.
fn found_at(place: usize, found: Found) -> Verdict
    ensures { result ≡ found_at place found }
{
    match found {
        Found::Match { which, bits } => Verdict::Holds(which == place && 0 < bits),
        Found::None => Verdict::Holds(false),
        Found::Over => Verdict::Past,
        Found::NotYet => Verdict::NotYet,
    }
}
