// Slots that an expression counts, and what follows a row without a slot.
ghost use Rattle.std.specs.Prelude.{◌≡◌, ◌+◌, ◌^◌, ◌≤◌, false, Ok, OnOk, length};
ghost use Rattle.dfdl_bits.specs.Window.{Held};
ghost use Rattle.dfdl_terms.specs.Arrays.{item_marks};
ghost use Rattle.dfdl_parse.specs.Slots.{count_slots, counted_slots, goes_beside, separation_at, slots_from};
ghost use Rattle.dfdl_parse.specs.Steps.{Moved};
ghost use Rattle.dfdl_parse.specs.Shown.{Becomes, HasSameLimits, state_of};

use crate::asking::count_told;
use crate::frame::{Focus, SlotPlace};
use crate::parser::Parser;
use crate::slots::{first_behind, is_initiated, later_than, own_of};
use dfdl_grammar::End;
use dfdl_paths::Start;
use dfdl_report::ParseCause;
use dfdl_terms::{Slot, Terms};
use std::alloc::AllocError;

impl Parser {
    // A question is asked how many slots of a row are required.
    pub(crate) fn ask_count(
        &mut self,
        terms: &Terms,
        slot: SlotPlace,
        question: u32,
    ) -> Result<(), AllocError>
        requires items { self.old.items ≡ item_marks terms.now.rows }
        ensures moved { (held : Held) → OnOk result (Moved (count_slots terms.now held (separation_at terms.now slot).initiated slot question
            (slots_from terms.now slot) self.old.stack (state_of self.old)) false self.old.far self.new held 0) }
        ensures most { OnOk result (HasSameLimits self.old self.new) }
        ensures at { OnOk result (self.new.at ≡ self.old.at) }
    {
        self.count_slots(terms, slot, question)
    }

    // The same, by what it makes of the machine.
    fn count_slots(
        &mut self,
        terms: &Terms,
        slot: SlotPlace,
        question: u32,
    ) -> Result<(), AllocError>
        requires items { self.old.items ≡ item_marks terms.now.rows }
        ensures becomes { (held : Held) → OnOk result (Becomes self.old (count_slots terms.now held (separation_at terms.now slot).initiated slot question
            (slots_from terms.now slot) self.old.stack (state_of self.old)).machine self.new) }
        ensures at { OnOk result (self.new.at ≡ self.old.at) }
    {
        let initiated = is_initiated(terms, slot);
        match own_of(terms, slot) {
            None => {
                self.focus = Focus::Leave(End::Done);
                Ok(())
            }
            Some(own) => {
                let given = self.ask(terms, question, Start::Inside(self.inside))?;
                let count = count_told(self.scratch.alloc, given);
                let later = later_than(terms, slot);
                self.follow_count(initiated, slot, own, later, count)
            }
        }
    }

    // So many slots of a row are required, if that is told.
    fn follow_count(
        &mut self,
        initiated: bool,
        slot: SlotPlace,
        own: &Slot,
        later: &[Slot],
        count: Result<Option<u128>, u8>,
    ) -> Result<(), AllocError>
        requires few { slot.place + 1 + length later.now ≤ 2 ^ 63 }
        ensures becomes { (held : Held) → OnOk result (Becomes self.old
            (counted_slots held initiated slot own.now later.now count self.old.stack (state_of self.old)).machine self.new) }
        ensures at { OnOk result (self.new.at ≡ self.old.at) }
    {
        match count {
            Ok(count) => self.require_count(initiated, slot, own, later, count),
            Err(fault) => {
                self.fail(ParseCause::ExpressionFault { fault });
                Ok(())
            }
        }
    }

    // So many slots of a row are required, if it is not less than none.
    fn require_count(
        &mut self,
        initiated: bool,
        slot: SlotPlace,
        own: &Slot,
        later: &[Slot],
        count: Option<u128>,
    ) -> Result<(), AllocError>
        requires few { slot.place + 1 + length later.now ≤ 2 ^ 63 }
        ensures becomes { (held : Held) → OnOk result (Becomes self.old
            (counted_slots held initiated slot own.now later.now (Ok count) self.old.stack (state_of self.old)).machine self.new) }
        ensures at { OnOk result (self.new.at ≡ self.old.at) }
    {
        match count {
            Some(count) => self.follow_slot(initiated, requiring(slot, count), own, later),
            None => {
                self.fail(ParseCause::NegativeCount);
                Ok(())
            }
        }
    }

    // The sequence goes on behind a row without a slot.
    pub(crate) fn go_beside(&mut self, terms: &Terms, slot: SlotPlace) -> Result<(), AllocError>
        ensures becomes { (held : Held) → OnOk result (Becomes self.old
            (goes_beside held (separation_at terms.now slot).initiated slot (slots_from terms.now slot) self.old.stack (state_of self.old)).machine self.new) }
        ensures at { OnOk result (self.new.at ≡ self.old.at) }
    {
        let initiated = is_initiated(terms, slot);
        let coming = first_behind(terms, slot);
        let last = slot.last;
        self.come(initiated, last, coming)
    }
}

// The place where so many slots of a row are required.
fn requiring(slot: SlotPlace, count: u128) -> SlotPlace
    ensures { result ≡ record slot { optional = false; left = count } }
{
    SlotPlace {
        optional: false,
        left: count,
        ..slot
    }
}
