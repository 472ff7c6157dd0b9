// What waits in a slot takes the end of the row before it.
ghost use Rattle.std.specs.Prelude.{◌≡◌, ◌∷◌, ◌+◌, ◌^◌, ◌≤◌, false, true, OnOk, length, if◌then◌else◌};
ghost use Rattle.dfdl_parse.specs.declared.frame.Sought.{Sought};
ghost use Rattle.dfdl_bits.specs.Window.{Held};
ghost use Rattle.dfdl_grammar.specs.Occurrences.{as_normal};
ghost use Rattle.dfdl_grammar.specs.Slots.{closed_slot, emptied, opens_before, taken_back};
ghost use Rattle.dfdl_looks.specs.Tallies.{Tally};
ghost use Rattle.dfdl_parse.specs.Moves.{pass};
ghost use Rattle.dfdl_parse.specs.Opens.{IsBefore};
ghost use Rattle.dfdl_parse.specs.Slots.{before_done, before_failed, cause_of, closing_ended, content_ended, decide, decided, goes_on, separation_at, settle, settled, slots_from, unslotted, unsought, without_separator};
ghost use Rattle.dfdl_parse.specs.Shown.{Becomes, state_of};

use crate::frame::{Focus, Frame, SlotPlace};
use crate::parser::Parser;
use crate::slots::{cause_of, is_blank, is_initiated, later_than, opens_before, own_of};
use dfdl_grammar::{End, Instead};
use dfdl_separators::{Here, Progress, SlotMove, SlotSeen};
use dfdl_terms::{Slot, Terms};
use std::alloc::AllocError;

impl Parser {
    // The separator that a slot begins with was found.
    pub(crate) fn finish_before(&mut self, terms: &Terms, slot: SlotPlace) -> Result<(), AllocError>
        ensures becomes { (held : Held) → OnOk result (Becomes self.old
            (before_done held slot (slots_from terms.now slot) self.old.stack (state_of self.old)).machine self.new) }
        ensures at { OnOk result (self.new.at ≡ self.old.at) }
    {
        match own_of(terms, slot) {
            None => {
                self.leave_before(slot, End::Done);
                Ok(())
            }
            Some(own) => {
                let seen = SlotSeen::Separator { found: true };
                self.begin_content(
                    with_progress(slot, slot.progress.after(seen)),
                    own.body.number(),
                )
            }
        }
    }

    // The separator that a slot begins with wasn't found, and its search came to this end.
    pub(crate) fn fail_before(
        &mut self,
        terms: &Terms,
        slot: SlotPlace,
        end: End,
    ) -> Result<(), AllocError>
        ensures becomes { (held : Held) → OnOk result (Becomes self.old
            (before_failed held (separation_at terms.now slot).initiated slot (slots_from terms.now slot) end self.old.stack (state_of self.old)).machine
            self.new) }
        ensures at { OnOk result (IsBefore self.old.marks self.old.at → self.new.at ≤ self.old.at) }
    {
        let initiated = is_initiated(terms, slot);
        match own_of(terms, slot) {
            None => {
                self.leave_before(slot, end);
                Ok(())
            }
            Some(own) => {
                let seen = SlotSeen::Separator { found: false };
                let after = slot.progress.after(seen);
                let to = slot.progress.move_at(seen);
                let later = later_than(terms, slot);
                self.leave_out(initiated, slot, own, later, after, to, end)
            }
        }
    }

    // A slot is left out, or the sequence fails, by its move.
    fn leave_out(
        &mut self,
        initiated: bool,
        slot: SlotPlace,
        own: &Slot,
        later: &[Slot],
        after: Progress,
        to: SlotMove,
        end: End,
    ) -> Result<(), AllocError>
        requires few { slot.place + 1 + length later.now ≤ 2 ^ 63 }
        ensures becomes { (held : Held) → OnOk result (Becomes self.old
            (without_separator held initiated slot own.now later.now after to end self.old.stack (state_of self.old)).machine self.new) }
        ensures at { OnOk result (IsBefore self.old.marks self.old.at → self.new.at ≤ self.old.at) }
    {
        let here = slot.progress.here_of(slot.rule);
        match to {
            SlotMove::EndArray => {
                self.skip_slot(initiated, here, without_more(slot, after), own, later)
            }
            SlotMove::TakeSeparator => self.leave_slot(end),
            SlotMove::LookForSeparator => self.leave_slot(end),
            SlotMove::Parse => self.leave_slot(end),
            SlotMove::Keep => self.leave_slot(end),
            SlotMove::Drop => self.leave_slot(end),
            SlotMove::EndGroup => self.leave_slot(end),
            SlotMove::Fail(_) => self.leave_slot(end),
        }
    }

    // A slot without the separator that it begins with isn't there, and ends those of its row.
    fn skip_slot(
        &mut self,
        initiated: bool,
        here: Here,
        slot: SlotPlace,
        own: &Slot,
        later: &[Slot],
    ) -> Result<(), AllocError>
        requires few { slot.place + 1 + length later.now ≤ 2 ^ 63 }
        ensures becomes { (held : Held) (cost : Tally) → OnOk result (Becomes self.old
            (goes_on cost held initiated slot own.now later.now self.old.stack
            (if opens_before here then taken_back here (state_of self.old) else state_of self.old)).machine self.new) }
        ensures at { OnOk result (IsBefore self.old.marks self.old.at → self.new.at ≤ self.old.at) }
    {
        if opens_before(here) {
            return self.end_array(initiated, here, slot, own, later);
        }
        self.follow_slot(initiated, slot, own, later)
    }

    // The sequence ends as its slot did.
    fn leave_slot(&mut self, end: End) -> Result<(), AllocError>
        ensures { OnOk result (self.new ≡ record self.old { focus = Focus.Leave end }) }
    {
        self.focus = Focus::Leave(end);
        Ok(())
    }

    // The occurrence of a slot has come to this end, and has moved over a bit or not.
    pub(crate) fn end_content(
        &mut self,
        terms: &Terms,
        slot: SlotPlace,
        bit: u64,
        empty: bool,
        moved: bool,
        end: End,
    ) -> Result<(), AllocError>
        ensures becomes { (held : Held) → OnOk result (Becomes self.old
            (content_ended held (separation_at terms.now slot).initiated slot bit empty (slots_from terms.now slot) moved (cause_of end) end
            self.old.stack (as_normal (state_of self.old))).machine self.new) }
        ensures at { OnOk result (IsBefore self.old.marks self.old.at → bit ≤ self.old.at → self.new.at ≤ self.old.at) }
    {
        self.instead = Instead::Nothing;
        let initiated = is_initiated(terms, slot);
        match own_of(terms, slot) {
            None => {
                self.leave_content(slot, end);
                Ok(())
            }
            Some(own) => {
                let later = later_than(terms, slot);
                self.decide_by(initiated, slot, bit, empty, own, later, moved, end)
            }
        }
    }

    // What there is to see of an occurrence that has come to this end decides on its slot.
    fn decide_by(
        &mut self,
        initiated: bool,
        slot: SlotPlace,
        bit: u64,
        empty: bool,
        own: &Slot,
        later: &[Slot],
        moved: bool,
        end: End,
    ) -> Result<(), AllocError>
        requires few { slot.place + 1 + length later.now ≤ 2 ^ 63 }
        ensures becomes { (held : Held) → OnOk result (Becomes self.old
            (decided held initiated slot bit empty own.now later.now moved (cause_of end) end self.old.stack (state_of self.old)).machine self.new) }
        ensures at { OnOk result (IsBefore self.old.marks self.old.at → bit ≤ self.old.at → self.new.at ≤ self.old.at) }
    {
        let failure = cause_of(end);
        let resolved = self.marks.is_settled();
        let blank = is_blank(moved, empty, failure, resolved);
        let seen = SlotSeen::Ended {
            moved,
            empty,
            failure,
            resolved,
        };
        let after = slot.progress.after(seen);
        let to = slot.progress.move_at(seen);
        self.decide(initiated, slot, bit, own, later, blank, after, to, end)
    }

    // What a move makes of a slot whose occurrence has come to this end, blank or not.
    fn decide(
        &mut self,
        initiated: bool,
        slot: SlotPlace,
        bit: u64,
        own: &Slot,
        later: &[Slot],
        blank: bool,
        after: Progress,
        to: SlotMove,
        end: End,
    ) -> Result<(), AllocError>
        requires few { slot.place + 1 + length later.now ≤ 2 ^ 63 }
        ensures becomes { (held : Held) → OnOk result (Becomes self.old
            (decide held initiated slot bit own.now later.now blank after to end self.old.stack (state_of self.old)).machine self.new) }
        ensures at { OnOk result (IsBefore self.old.marks self.old.at → bit ≤ self.old.at → self.new.at ≤ self.old.at) }
    {
        let here = slot.progress.here_of(slot.rule);
        match to {
            SlotMove::Keep => self.keep_slot(
                initiated,
                here,
                with_item(slot, bit, after),
                own,
                later,
            ),
            SlotMove::Drop => self.drop_slot(
                initiated,
                bit,
                here,
                with_item(slot, bit, after),
                own,
                later,
            ),
            SlotMove::EndArray => self.end_array(
                initiated,
                here,
                without_more(slot, after),
                own,
                later,
            ),
            SlotMove::Fail(_) => {
                self.fail_slot(here, end);
                Ok(())
            }
            SlotMove::TakeSeparator => self.seek_behind(with_progress(slot, after), bit, blank),
            SlotMove::LookForSeparator => {
                self.look_for(with_progress(slot, after), bit, blank);
                Ok(())
            }
            SlotMove::Parse => self.leave_slot(end),
            SlotMove::EndGroup => self.leave_slot(end),
        }
    }

    // The separator that a slot ends with is sought: behind its occurrence, or where its content begins, if that is blank.
    fn seek_behind(&mut self, slot: SlotPlace, bit: u64, blank: bool) -> Result<(), AllocError>
        ensures becomes { OnOk result (Becomes self.old (record {
          focus = Focus.Seek Sought.Separator;
          stack = Frame.Closing slot bit ∷ self.old.stack;
          state = if blank then emptied bit (state_of self.old) else state_of self.old;
        }) self.new) }
        ensures at { OnOk result (bit ≤ self.old.at → self.new.at ≤ self.old.at) }
    {
        if blank {
            self.empty_slot(bit);
            return self.seek_with(Frame::Closing { slot, bit });
        }
        self.seek_with(Frame::Closing { slot, bit })
    }

    // It is looked for a separator behind a slot: behind its occurrence, or where its content begins, if that is blank.
    fn look_for(&mut self, slot: SlotPlace, bit: u64, blank: bool)
        ensures becomes { Becomes self.old (record {
          focus = Focus.LookBehind slot bit;
          stack = self.old.stack;
          state = if blank then emptied bit (state_of self.old) else state_of self.old;
        }) self.new }
        ensures at { bit ≤ self.old.at → self.new.at ≤ self.old.at }
    {
        if blank {
            self.empty_slot(bit);
        }
        self.focus = Focus::LookBehind { slot, bit };
    }

    // The search for the separator that a slot ends with has come to this end, and has found it or not.
    pub(crate) fn end_closing(
        &mut self,
        terms: &Terms,
        slot: SlotPlace,
        bit: u64,
        found: bool,
        end: End,
    ) -> Result<(), AllocError>
        ensures becomes { (held : Held) → OnOk result (Becomes self.old
            (closing_ended held (separation_at terms.now slot).initiated slot bit (slots_from terms.now slot) found end
            self.old.stack (state_of self.old)).machine self.new) }
        ensures at { OnOk result (IsBefore self.old.marks self.old.at → self.new.at ≤ self.old.at) }
    {
        let initiated = is_initiated(terms, slot);
        match own_of(terms, slot) {
            None => {
                self.leave_content(slot, end);
                Ok(())
            }
            Some(own) => {
                let later = later_than(terms, slot);
                self.settle_by(initiated, slot, bit, own, later, found, end)
            }
        }
    }

    // A slot is settled behind whose occurrence a separator was sought, and found or not.
    pub(crate) fn settle_by(
        &mut self,
        initiated: bool,
        slot: SlotPlace,
        bit: u64,
        own: &Slot,
        later: &[Slot],
        found: bool,
        end: End,
    ) -> Result<(), AllocError>
        requires few { slot.place + 1 + length later.now ≤ 2 ^ 63 }
        ensures becomes { (held : Held) (cost : Tally) → OnOk result (Becomes self.old
            (settled cost held initiated slot bit own.now later.now found end self.old.stack (state_of self.old)).machine self.new) }
        ensures at { OnOk result (IsBefore self.old.marks self.old.at → self.new.at ≤ self.old.at) }
    {
        let seen = SlotSeen::Separator { found };
        let after = slot.progress.after(seen);
        let to = slot.progress.move_at(seen);
        self.settle(initiated, slot, bit, own, later, after, to, end)
    }

    // What a move makes of a slot whose separator behind it was sought, at this end.
    fn settle(
        &mut self,
        initiated: bool,
        slot: SlotPlace,
        bit: u64,
        own: &Slot,
        later: &[Slot],
        after: Progress,
        to: SlotMove,
        end: End,
    ) -> Result<(), AllocError>
        requires few { slot.place + 1 + length later.now ≤ 2 ^ 63 }
        ensures becomes { (held : Held) (cost : Tally) → OnOk result (Becomes self.old
            (settle cost held initiated slot bit own.now later.now after to end self.old.stack (state_of self.old)).machine self.new) }
        ensures at { OnOk result (IsBefore self.old.marks self.old.at → self.new.at ≤ self.old.at) }
    {
        let here = slot.progress.here_of(slot.rule);
        match to {
            SlotMove::Keep => self.keep_slot(
                initiated,
                here,
                with_item(slot, bit, after),
                own,
                later,
            ),
            SlotMove::Drop => self.keep_slot(
                initiated,
                here,
                with_item(slot, bit, after),
                own,
                later,
            ),
            SlotMove::EndArray => self.end_array(
                initiated,
                here,
                without_more(slot, after),
                own,
                later,
            ),
            SlotMove::Fail(_) => {
                self.fail_slot(here, end);
                Ok(())
            }
            SlotMove::TakeSeparator => self.leave_slot(end),
            SlotMove::LookForSeparator => self.leave_slot(end),
            SlotMove::Parse => self.leave_slot(end),
            SlotMove::EndGroup => self.leave_slot(end),
        }
    }

    // A slot is done, and its item stands.
    fn keep_slot(
        &mut self,
        initiated: bool,
        here: Here,
        slot: SlotPlace,
        own: &Slot,
        later: &[Slot],
    ) -> Result<(), AllocError>
        requires few { slot.place + 1 + length later.now ≤ 2 ^ 63 }
        ensures becomes { (held : Held) (cost : Tally) → OnOk result (Becomes self.old
            (goes_on cost held initiated slot own.now later.now self.old.stack (closed_slot here (state_of self.old))).machine self.new) }
        ensures at { OnOk result (self.new.at ≡ self.old.at) }
    {
        self.close_slot(here);
        self.follow_slot(initiated, slot, own, later)
    }

    // A slot is done without an item, whose content began at this bit.
    fn drop_slot(
        &mut self,
        initiated: bool,
        bit: u64,
        here: Here,
        slot: SlotPlace,
        own: &Slot,
        later: &[Slot],
    ) -> Result<(), AllocError>
        requires few { slot.place + 1 + length later.now ≤ 2 ^ 63 }
        ensures becomes { (held : Held) (cost : Tally) → OnOk result (Becomes self.old
            (goes_on cost held initiated slot own.now later.now self.old.stack (closed_slot here (emptied bit (state_of self.old)))).machine self.new) }
        ensures at { OnOk result (self.new.at ≡ bit) }
    {
        self.empty_slot(bit);
        self.keep_slot(initiated, here, slot, own, later)
    }

    // A slot isn't there, and ends those of its row.
    fn end_array(
        &mut self,
        initiated: bool,
        here: Here,
        slot: SlotPlace,
        own: &Slot,
        later: &[Slot],
    ) -> Result<(), AllocError>
        requires few { slot.place + 1 + length later.now ≤ 2 ^ 63 }
        ensures becomes { (held : Held) (cost : Tally) → OnOk result (Becomes self.old
            (goes_on cost held initiated slot own.now later.now self.old.stack (taken_back here (state_of self.old))).machine self.new) }
        ensures at { OnOk result (IsBefore self.old.marks self.old.at → self.new.at ≤ self.old.at) }
    {
        self.take_back(here);
        self.follow_slot(initiated, slot, own, later)
    }

    // The sequence ends where the separator that a slot begins with was sought.
    pub(crate) fn leave_before(&mut self, slot: SlotPlace, end: End)
        ensures becomes { Becomes self.old (record {
          focus = Focus.Leave end;
          stack = self.old.stack;
          state = unsought slot (state_of self.old);
        }) self.new }
        ensures at { self.new.at ≡ self.old.at }
    {
        let here = slot.progress.here_of(slot.rule);
        if opens_before(here) {
            self.fail_slot(here, end);
            return;
        }
        self.focus = Focus::Leave(end);
    }

    // The sequence ends in a slot.
    pub(crate) fn leave_content(&mut self, slot: SlotPlace, end: End)
        ensures becomes { Becomes self.old (record {
          focus = Focus.Leave end;
          stack = self.old.stack;
          state = unslotted slot (state_of self.old);
        }) self.new }
        ensures at { self.new.at ≡ self.old.at }
    {
        self.fail_slot(slot.progress.here_of(slot.rule), end);
    }

    // The sequence fails as a slot did.
    fn fail_slot(&mut self, here: Here, end: End)
        ensures becomes { Becomes self.old (record {
          focus = Focus.Leave end;
          stack = self.old.stack;
          state = closed_slot here (state_of self.old);
        }) self.new }
        ensures at { self.new.at ≡ self.old.at }
    {
        self.close_slot(here);
        self.focus = Focus::Leave(end);
    }
}

// A slot, where the sequence has come this far.
fn with_progress(slot: SlotPlace, progress: Progress) -> SlotPlace
    ensures { result ≡ record slot { progress = progress } }
{
    SlotPlace { progress, ..slot }
}

// Behind a slot that was there, whose content began at this bit.
fn with_item(slot: SlotPlace, bit: u64, progress: Progress) -> SlotPlace
    ensures { result ≡ record slot { progress = progress; last = bit } }
{
    SlotPlace {
        progress,
        last: bit,
        ..slot
    }
}

// Behind a slot that wasn't there, which ends those of its row.
fn without_more(slot: SlotPlace, progress: Progress) -> SlotPlace
    ensures { result ≡ record slot { progress = progress; left = 0 } }
{
    SlotPlace {
        progress,
        left: 0,
        ..slot
    }
}
