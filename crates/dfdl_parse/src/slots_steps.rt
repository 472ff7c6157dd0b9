// A sequence with separators whose occurrences are tried, from slot to slot.
ghost use Rattle.std.specs.Prelude.{◌≡◌, ◌∷◌, ◌+◌, ◌^◌, ◌≤◌, false, OnOk, length, ℕ};
ghost use Rattle.dfdl_bits.specs.Window.{Held};
ghost use Rattle.dfdl_grammar.specs.Occurrences.{instead_in};
ghost use Rattle.dfdl_grammar.specs.Slots.{closed_slot, emptied, is_tried, taken_back};
ghost use Rattle.dfdl_looks.specs.Tallies.{Tally};
ghost use Rattle.dfdl_parse.specs.Opens.{IsBefore};
ghost use Rattle.dfdl_parse.specs.Slots.{comes, content_begins, enter_separated, goes_on, opened_at, sequence_ends};
ghost use Rattle.dfdl_parse.specs.Shown.{Becomes, state_of};

use crate::frame::{Coming, Focus, Frame, SlotPlace, Sought};
use crate::parser::Parser;
use crate::slots::{coming_from, first_in, has_mark, is_tried, opens_before};
use dfdl_grammar::{End, Instead};
use dfdl_report::ParseCause;
use dfdl_separators::{
    Here, Progress, SeparatorPosition, SeparatorSuppressionPolicy, SlotMove, SlotRule,
};
use dfdl_terms::{RowId, Slot};
use std::alloc::AllocError;

impl Parser {
    // A sequence begins.
    pub(crate) fn begin_separated(
        &mut self,
        id: RowId,
        policy: SeparatorSuppressionPolicy,
        position: SeparatorPosition,
        initiated: bool,
        slots: &[Slot],
    ) -> Result<(), AllocError>
        ensures becomes { (held : Held) → OnOk result (Becomes self.old
            (enter_separated held id policy position initiated slots.now self.old.stack (state_of self.old)).machine self.new) }
        ensures at { OnOk result (self.new.at ≡ self.old.at) }
    {
        let slot = SlotPlace {
            sequence: id.number(),
            place: 0,
            optional: false,
            rule: SlotRule::Required,
            left: 0,
            progress: Progress::open(policy, position),
            last: self.at,
        };
        let coming = first_in(slot, slots);
        let last = self.at;
        self.come(initiated, last, coming)
    }

    // The sequence goes on behind a slot.
    pub(crate) fn follow_slot(
        &mut self,
        initiated: bool,
        slot: SlotPlace,
        own: &Slot,
        later: &[Slot],
    ) -> Result<(), AllocError>
        requires few { slot.place + 1 + length later.now ≤ 2 ^ 63 }
        ensures becomes { (held : Held) (cost : Tally) → OnOk result (Becomes self.old
            (goes_on cost held initiated slot own.now later.now self.old.stack (state_of self.old)).machine self.new) }
        ensures at { OnOk result (self.new.at ≡ self.old.at) }
    {
        let coming = coming_from(slot, own, later);
        let last = slot.last;
        self.come(initiated, last, coming)
    }

    // What comes next in a sequence begins.
    pub(crate) fn come(
        &mut self,
        initiated: bool,
        last: u64,
        coming: Coming,
    ) -> Result<(), AllocError>
        ensures becomes { (held : Held) (cost : Tally) → OnOk result (Becomes self.old
            (comes cost held initiated last coming self.old.stack (state_of self.old)).machine self.new) }
        ensures at { OnOk result (self.new.at ≡ self.old.at) }
    {
        match &coming {
            Coming::Past(progress) => {
                self.end_sequence(progress.ending(), last);
                Ok(())
            }
            Coming::Seeks { slot, here } => self.seek_before(initiated, *slot, *here),
            Coming::Parses { slot, body } => self.begin_content(*slot, *body),
            Coming::Counts { slot, question } => {
                self.focus = Focus::Count {
                    slot: *slot,
                    question: *question,
                };
                Ok(())
            }
            Coming::Aside { slot, body } => self.enter_aside(*slot, *body),
            Coming::Lacks => {
                self.fail(ParseCause::SeparatorMissing);
                Ok(())
            }
            Coming::Over => {
                self.focus = Focus::Leave(End::Done);
                Ok(())
            }
        }
    }

    // A sequence ends, by its last move.
    fn end_sequence(&mut self, to: SlotMove, last: u64)
        ensures becomes { (held : Held) (cost : Tally) → Becomes self.old
            (sequence_ends cost held to last self.old.stack (state_of self.old)).machine self.new }
        ensures at { self.new.at ≡ self.old.at }
    {
        match to {
            SlotMove::Fail(_) => self.fail_at(ParseCause::EmptyTrailingSlot, last),
            SlotMove::TakeSeparator => self.focus = Focus::Leave(End::Done),
            SlotMove::LookForSeparator => self.focus = Focus::Leave(End::Done),
            SlotMove::Parse => self.focus = Focus::Leave(End::Done),
            SlotMove::Keep => self.focus = Focus::Leave(End::Done),
            SlotMove::Drop => self.focus = Focus::Leave(End::Done),
            SlotMove::EndArray => self.focus = Focus::Leave(End::Done),
            SlotMove::EndGroup => self.focus = Focus::Leave(End::Done),
        }
    }

    // A slot begins with a separator.
    fn seek_before(
        &mut self,
        initiated: bool,
        slot: SlotPlace,
        here: Here,
    ) -> Result<(), AllocError>
        ensures becomes { (held : Held) (cost : Tally) (last : ℕ) → OnOk result (Becomes self.old
            (comes cost held initiated last (Coming.Seeks slot here) self.old.stack (state_of self.old)).machine self.new) }
        ensures at { OnOk result (self.new.at ≡ self.old.at) }
    {
        if opens_before(here) {
            self.open_slot(initiated, here)?;
            return self.seek_with(Frame::Before { slot });
        }
        self.seek_with(Frame::Before { slot })
    }

    // A separator is sought, and a frame waits for it.
    pub(crate) fn seek_with(&mut self, frame: Frame) -> Result<(), AllocError>
        ensures { OnOk result (self.new ≡ record self.old { focus = Focus.Seek Sought.Separator; stack = frame ∷ self.old.stack }) }
    {
        self.stack.push(frame)?;
        self.focus = Focus::Seek {
            sought: Sought::Separator,
        };
        Ok(())
    }

    // The content of a slot begins: it is looked whether it is empty, where its occurrence is tried.
    pub(crate) fn begin_content(&mut self, slot: SlotPlace, body: u32) -> Result<(), AllocError>
        ensures becomes { (held : Held) (cost : Tally) → OnOk result (Becomes self.old
            (content_begins cost held slot body self.old.stack (state_of self.old)).machine self.new) }
        ensures at { OnOk result (self.new.at ≡ self.old.at) }
    {
        if is_tried(slot.rule) {
            self.focus = Focus::LookIn { slot };
            return Ok(());
        }
        self.enter_content(slot, body, false)
    }

    // The occurrence of a slot begins.
    pub(crate) fn enter_content(
        &mut self,
        slot: SlotPlace,
        body: u32,
        empty: bool,
    ) -> Result<(), AllocError>
        ensures { OnOk result (self.new ≡ record self.old {
          focus = Focus.Enter body;
          stack = Frame.Content slot self.old.at empty ∷ self.old.stack;
          instead = instead_in (is_tried slot.rule) self.old.instead;
        }) }
    {
        self.stack.push(Frame::Content {
            slot,
            bit: self.at,
            empty,
        })?;
        self.instead = instead_in(is_tried(slot.rule), self.instead);
        self.focus = Focus::Enter(RowId::new(body));
        Ok(())
    }

    // A row without a slot begins, and the sequence goes on with this one behind it.
    fn enter_aside(&mut self, slot: SlotPlace, body: u32) -> Result<(), AllocError>
        ensures { OnOk result (self.new
            ≡ record self.old { focus = Focus.Enter body; stack = Frame.Aside slot ∷ self.old.stack }) }
    {
        self.stack.push(Frame::Aside { slot })?;
        self.focus = Focus::Enter(RowId::new(body));
        Ok(())
    }

    // The marks of a slot are opened.
    pub(crate) fn open_slot(&mut self, initiated: bool, here: Here) -> Result<(), AllocError>
        ensures { OnOk result (Becomes self.old
            (record { focus = self.old.focus; stack = self.old.stack; state = opened_at initiated here (state_of self.old) }) self.new) }
    {
        if !is_tried(here.rule) {
            return Ok(());
        }
        if has_mark(here) {
            self.open_mark(false, false)?;
        }
        self.open_mark(true, initiated)?;
        Ok(())
    }

    // The marks of a slot are closed.
    pub(crate) fn close_slot(&mut self, here: Here)
        ensures { Becomes self.old
            (record { focus = self.old.focus; stack = self.old.stack; state = closed_slot here (state_of self.old) }) self.new }
    {
        if !is_tried(here.rule) {
            return;
        }
        self.marks.close();
        if has_mark(here) {
            self.marks.close();
        }
    }

    // A slot is taken back.
    pub(crate) fn take_back(&mut self, here: Here)
        ensures back { Becomes self.old
            (record { focus = self.old.focus; stack = self.old.stack; state = taken_back here (state_of self.old) }) self.new }
        ensures at { IsBefore self.old.marks self.old.at → self.new.at ≤ self.old.at }
    {
        self.go_back();
        self.close_slot(here);
    }

    // The occurrence of a slot is taken back, whose content begins at this bit.
    pub(crate) fn empty_slot(&mut self, bit: u64)
        ensures { Becomes self.old
            (record { focus = self.old.focus; stack = self.old.stack; state = emptied bit (state_of self.old) }) self.new }
    {
        self.go_back();
        self.at = bit;
    }
}

// What content is read by where an occurrence begins, which is tried or not.
fn instead_in(tried: bool, instead: Instead) -> Instead
    ensures { result ≡ instead_in tried instead }
{
    if tried { Instead::Tried } else { instead }
}
