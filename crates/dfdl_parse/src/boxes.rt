// A box begins, and what its content leaves of it is passed over.
ghost use Rattle.std.specs.Prelude.{◌≡◌, ◌+◌, ◌-◌, ◌*◌, ◌/◌, ◌<◌, ◌≤◌, ℕ, false, max, IfSome, IfNone, OnOk};
ghost use Rattle.dfdl_bits.specs.Window.{Held, end_of};
ghost use Rattle.dfdl_parse.specs.Opens.{IsHeld};
ghost use Rattle.dfdl_parse.specs.Machines.{enter_box, leave_box, pass_rest, past_one, rest_move};
ghost use Rattle.dfdl_parse.specs.Steps.{Moved};
ghost use Rattle.dfdl_parse.specs.Shown.{HasSameLimits, limits_of, state_of};

use crate::frame::{Focus, Frame, Outside};
use crate::framing::{last_byte, look_beyond};
use crate::parser::Parser;
use dfdl_bits::{Seen, Steps, Window};
use dfdl_grammar::End;
use dfdl_report::{LimitCause, ParseCause};
use dfdl_terms::RowId;
use std::alloc::AllocError;
use std::sync::ledger::Ledger;

impl Parser {
    // A box of so many bits begins. It can't pass the end of the one around it.
    pub(crate) fn begin_box(&mut self, bits: u64, body: RowId) -> Result<(), AllocError>
        ensures moved { (held : Held) → OnOk result (Moved
            (enter_box held bits body self.old.stack (state_of self.old)) false self.old.far self.new held 0) }
        ensures most { OnOk result (HasSameLimits self.old self.new) }
        ensures at { OnOk result (self.new.at ≡ self.old.at) }
    {
        match inner_end(self.at, bits, self.stop) {
            Some(end) => {
                self.stack.push(Frame::Box {
                    outer: Outside {
                        stop: self.stop,
                        hidden: self.hidden,
                    },
                    from: self.at,
                })?;
                self.stop = end;
                self.hidden = self.lists.len();
                self.focus = Focus::Enter(body);
            }
            None => self.fail(ParseCause::LengthOutOfRange),
        }
        Ok(())
    }

    // The content of the innermost box is done, which began at this bit, and this is around the box.
    pub(crate) fn leave_box(&mut self, outer: Outside, from: u64)
        ensures moved { (held : Held) → Moved
            (leave_box held outer from self.old.stack (state_of self.old)) false self.old.far self.new held 0 }
        ensures most { HasSameLimits self.old self.new }
        ensures at { self.new.at ≡ self.old.at }
    {
        let content = self.stop.saturating_sub(from);
        let value = self.at.saturating_sub(from);
        self.tell_lengths(content, value);
        if self.stop <= self.at {
            self.go_outside(outer);
            self.focus = Focus::Leave(End::Done);
        } else {
            self.focus = Focus::PassRest {
                bit: self.at,
                outer,
            };
        }
    }

    // What was around the innermost box is around what follows.
    fn go_outside(&mut self, outer: Outside)
        ensures { self.new ≡ record self.old { stop = outer.stop; hidden = outer.hidden } }
    {
        self.stop = outer.stop;
        self.hidden = outer.hidden;
    }

    // The byte of a bit in the rest of the innermost box is passed over.
    pub(crate) fn pass_rest<L: Ledger>(
        &mut self,
        bit: u64,
        outer: Outside,
        sight: &mut Window,
        steps: &mut Steps<L>,
    ) -> bool
        requires focus { self.old.focus ≡ Focus.PassRest bit outer }
        requires base { IsHeld sight.old.base (8 * (bit / 8)) (state_of self.old) }
        requires at { self.old.at ≤ 8 * end_of sight.old }
        ensures moved { Moved (pass_rest (limits_of self.old sight.old) sight.old bit outer self.old.stack (state_of self.old))
            result self.old.far self.new sight.new (steps.new - steps.old) }
        ensures steps { steps.old ≤ steps.new }
        ensures most { HasSameLimits self.old self.new }
        ensures at { self.new.at ≤ 8 * end_of sight.new }
    {
        let window = sight.size() as u64;
        let byte = bit / 8;
        let low = self.anchor_at(8 * byte);
        let seen = look_beyond(low, byte, sight, steps);
        self.past_byte(seen, bit, outer, window)
    }

    // The byte of a bit in the rest of the innermost box is seen.
    fn past_byte(&mut self, seen: Seen, bit: u64, outer: Outside, window: u64) -> bool
        requires focus { self.old.focus ≡ Focus.PassRest bit outer }
        ensures moved { (sight : Held) (low : ℕ) → Moved
            (rest_move window sight low bit outer seen self.old.stack (state_of self.old)) result self.old.far self.new sight 1 }
        ensures most { HasSameLimits self.old self.new }
    {
        let byte = bit / 8;
        let far = self.far.max(byte + 1);
        match seen {
            Seen::NotYet => return true,
            Seen::Byte(_) => {
                self.past_one(byte, outer, far);
            }
            Seen::End => {
                self.fail(ParseCause::DataEnds);
                self.hidden = outer.hidden;
                self.far = far;
            }
            Seen::Over => self.stop_at(LimitCause::Window, window),
        }
        false
    }

    // A byte of the rest of the innermost box was seen: the box ends there, or the next byte follows.
    fn past_one(&mut self, byte: u64, outer: Outside, far: u64)
        requires far { far ≡ max self.old.far (byte + 1) }
        ensures moved { (sight : Held) (low : ℕ) → Moved
            (past_one sight low byte outer self.old.stack (state_of self.old)) false self.old.far self.new sight 1 }
        ensures most { HasSameLimits self.old self.new }
    {
        if last_byte(self.stop) <= byte {
            self.at = self.stop;
            self.go_outside(outer);
            self.focus = Focus::Leave(End::Done);
        } else {
            self.focus = Focus::PassRest {
                bit: 8 * (byte + 1),
                outer,
            };
        }
        self.far = far;
    }
}

/// The bit at which a box of so many bits ends, where the one around it doesn't end before.
pub(crate) fn inner_end(at: u64, bits: u64, stop: u64) -> Option<u64>
    ensures some { IfSome result (λ end. (end ≡ at + bits) × (at + bits ≤ stop)) }
    ensures none { IfNone result (stop < at + bits) }
{
    match at.checked_add(bits) {
        Some(end) if end <= stop => Some(end),
        _ => None,
    }
}
