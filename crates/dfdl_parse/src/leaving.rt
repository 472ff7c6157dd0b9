// A row has ended, and what stands on the stack takes its end.
ghost use Rattle.std.specs.Prelude.{replicate, ◌≡◌, ◌∷◌, ◌^◌, ◌<◌, ◌≤◌, false, IfSome, OnOk, slice_get};
ghost use Rattle.dfdl_bits.specs.Window.{Held};
ghost use Rattle.dfdl_terms.specs.Arrays.{item_marks};
ghost use Rattle.dfdl_grammar.specs.declared.end.End.TheVariants.{Done};
ghost use Rattle.dfdl_grammar.specs.Elements.{left};
ghost use Rattle.dfdl_looks.specs.Tallies.{nothing};
ghost use Rattle.dfdl_parse.specs.Machines.{children_of, step, leave, leave_done, leave_failed, go_on};
ghost use Rattle.dfdl_parse.specs.Opens.{ComesBack, GoesBack, IsBefore};
ghost use Rattle.dfdl_parse.specs.Moves.{pass};
ghost use Rattle.dfdl_parse.specs.Steps.{Moved};
ghost use Rattle.dfdl_parse.specs.Shown.{HasSameLimits, limits_of, state_of};

use crate::frame::{Focus, Frame};
use crate::parser::Parser;
use crate::trials::parts_of;
use dfdl_grammar::{End, Instead};
use dfdl_region::Content;
use dfdl_terms::{Row, RowId, Terms};
use std::alloc::AllocError;

impl Parser {
    // What stands on the stack takes the end of the row before it.
    pub(crate) fn leave(&mut self, terms: &Terms, end: End) -> Result<(), AllocError>
        requires focus { self.old.focus ≡ Focus.Leave end }
        requires items { self.old.items ≡ item_marks terms.now.rows }
        ensures moved { (held : Held) → OnOk result (Moved
            (step (limits_of self.old held) terms.now held (Focus.Leave end) self.old.stack (state_of self.old))
            false self.old.far self.new held 0) }
        ensures most { OnOk result (HasSameLimits self.old self.new) }
        ensures at { OnOk result (GoesBack end self.old.stack (state_of self.old) → self.new.at ≤ self.old.at) }
    {
        match self.stack.pop() {
            None => Ok(()),
            Some(frame) => self.resume(terms, frame, end),
        }
    }

    // A frame takes the end of the row before it.
    fn resume(&mut self, terms: &Terms, frame: Frame, end: End) -> Result<(), AllocError>
        requires items { self.old.items ≡ item_marks terms.now.rows }
        ensures moved { (held : Held) → OnOk result (Moved
            (leave (limits_of self.old held) terms.now held frame end self.old.stack (state_of self.old)) false self.old.far self.new held 0) }
        ensures most { OnOk result (HasSameLimits self.old self.new) }
        ensures at { OnOk result (GoesBack end (frame ∷ self.old.stack) (state_of self.old) → self.new.at ≤ self.old.at) }
    {
        match end {
            End::Done => self.go_on(terms, frame),
            End::Failed { .. } => self.give_up(terms, frame, end),
            End::Stopped { .. } => {
                self.focus = Focus::Leave(end);
                Ok(())
            }
        }
    }

    // What stands on the stack takes a row that failed, at this end.
    fn give_up(&mut self, terms: &Terms, frame: Frame, end: End) -> Result<(), AllocError>
        requires items { self.old.items ≡ item_marks terms.now.rows }
        ensures moved { (held : Held) → OnOk result (Moved
            (leave_failed self.old.region.most terms.now held frame end self.old.stack (state_of self.old)) false self.old.far self.new held 0) }
        ensures most { OnOk result (HasSameLimits self.old self.new) }
        ensures at { OnOk result (IsBefore self.old.marks self.old.at → ComesBack frame self.old.at → self.new.at ≤ self.old.at) }
    {
        match frame {
            Frame::Trial {
                element,
                occurrence,
                next,
            } => {
                let parts = parts_of(terms, element, occurrence);
                self.retry(parts, element, next, end)
            }
            Frame::Branch { choice, next } => self.fail_branch(terms, choice, next, end),
            Frame::Occurrence { .. } => {
                self.fail_occurrence(end);
                Ok(())
            }
            Frame::Before { slot } => self.fail_before(terms, slot, end),
            Frame::Content { slot, bit, empty } => {
                self.end_content(terms, slot, bit, empty, false, end)
            }
            Frame::Closing { slot, bit } => self.end_closing(terms, slot, bit, false, end),
            Frame::Concluding { behind, start } => self.reconsider(terms, behind, start, end),
            Frame::Instance => {
                self.end_instance(end);
                Ok(())
            }
            Frame::Rest { .. } => {
                self.focus = Focus::Leave(end);
                Ok(())
            }
            Frame::Times { .. } => {
                self.focus = Focus::Leave(end);
                Ok(())
            }
            Frame::Aside { .. } => {
                self.focus = Focus::Leave(end);
                Ok(())
            }
            Frame::Element { .. } => {
                self.focus = Focus::Leave(end);
                Ok(())
            }
            Frame::Box { outer, .. } => {
                self.hidden = outer.hidden;
                self.focus = Focus::Leave(end);
                Ok(())
            }
            Frame::Spanning { .. } => {
                self.focus = Focus::Leave(end);
                Ok(())
            }
            Frame::Scope { count } => {
                self.end_scope(count, end);
                Ok(())
            }
        }
    }

    // What stands on the stack goes on behind a row that is done.
    fn go_on(&mut self, terms: &Terms, frame: Frame) -> Result<(), AllocError>
        requires items { self.old.items ≡ item_marks terms.now.rows }
        ensures moved { (held : Held) → OnOk result (Moved
            (leave_done (limits_of self.old held) terms.now held frame self.old.stack (state_of self.old)) false self.old.far self.new held 0) }
        ensures most { OnOk result (HasSameLimits self.old self.new) }
        ensures at { OnOk result (IsBefore self.old.marks self.old.at → ComesBack frame self.old.at → self.new.at ≤ self.old.at) }
    {
        match frame {
            Frame::Rest { group, next } => self.next_child(terms, group, next),
            Frame::Element { outer, complex } => {
                self.close(outer, complex);
                Ok(())
            }
            Frame::Box { outer, from } => {
                self.leave_box(outer, from);
                Ok(())
            }
            Frame::Spanning { from } => {
                self.end_span(from);
                Ok(())
            }
            Frame::Scope { count } => {
                self.end_scope(count, End::Done);
                Ok(())
            }
            Frame::Trial {
                element,
                occurrence,
                next,
            } => {
                let parts = parts_of(terms, element, occurrence);
                self.finish_trial(parts, next);
                Ok(())
            }
            Frame::Branch { .. } => {
                self.end_trial(End::Done);
                Ok(())
            }
            Frame::Occurrence {
                body,
                initiated,
                left,
            } => self.finish_occurrence(body, initiated, left),
            Frame::Times { body, left } => self.next_time(body, left),
            Frame::Before { slot } => self.finish_before(terms, slot),
            Frame::Content { slot, bit, empty } => {
                let moved = bit < self.at;
                self.end_content(terms, slot, bit, empty, moved, End::Done)
            }
            Frame::Closing { slot, bit } => self.end_closing(terms, slot, bit, true, End::Done),
            Frame::Aside { slot } => self.go_beside(terms, slot),
            Frame::Concluding { behind, start } => self.conclude(terms, behind, start),
            Frame::Instance => {
                self.end_instance(End::Done);
                Ok(())
            }
        }
    }

    // The next child of a group is done next, if there is one.
    fn next_child(&mut self, terms: &Terms, group: RowId, next: usize) -> Result<(), AllocError>
        ensures moved { (held : Held) → OnOk result (Moved
            (go_on held group next (slice_get (children_of (slice_get terms.now.rows group)) next) self.old.stack (state_of self.old))
            false self.old.far self.new held 0) }
        ensures most { OnOk result (HasSameLimits self.old self.new) }
        ensures at { OnOk result (self.new.at ≡ self.old.at) }
    {
        match child_of(terms, group, next) {
            None => {
                self.focus = Focus::Leave(End::Done);
            }
            Some(child) => {
                self.stack.push(Frame::Rest {
                    group,
                    next: next + 1,
                })?;
                self.focus = Focus::Enter(child);
            }
        }
        Ok(())
    }

    // The innermost open element ends.
    fn close(&mut self, outer: u32, complex: bool)
        ensures moved { (held : Held) → Moved
            (pass nothing held (Focus.Leave Done) self.old.stack (left outer complex (state_of self.old))) false self.old.far self.new held 0 }
        ensures most { HasSameLimits self.old self.new }
        ensures at { self.new.at ≡ self.old.at }
    {
        if complex {
            self.region.set_content(self.inside, Content::Complex);
        }
        self.inside = outer;
        self.instead = Instead::Nothing;
        self.focus = Focus::Leave(End::Done);
    }
}

/// The child of this place in a group or a repetition, or the branch of this place in a choice.
pub(crate) fn child_of(terms: &Terms, group: RowId, place: usize) -> Option<RowId>
    ensures child { result ≡ slice_get (children_of (slice_get terms.now.rows group)) place }
    ensures few { IfSome result (λ _. place < 2 ^ 63) }
{
    if group.number() >= terms.rows() {
        return None;
    }
    match terms.row(group) {
        Row::Group { children } => children.as_slice().get(place).copied(),
        Row::Leaf { .. } => None,
        Row::Elem { .. } => None,
        Row::Skip { .. } => None,
        Row::Align { .. } => None,
        Row::Initiator { .. } => None,
        Row::Terminator { .. } => None,
        Row::Separator => None,
        Row::Scope { .. } => None,
        Row::Boxed { .. } => None,
        Row::PrefixedLeaf { .. } => None,
        Row::PrefixedBox { .. } => None,
        Row::MeasuredLeaf { .. } => None,
        Row::MeasuredBox { .. } => None,
        Row::Repeat { count, body } => repeated(*count, *body, place),
        Row::Counted { .. } => None,
        Row::Optional { .. } => None,
        Row::Choice { branches, .. } => branches.as_slice().get(place).copied(),
        Row::Dispatch { .. } => None,
        Row::Statement { .. } => None,
        Row::Concluded { .. } => None,
        Row::Hidden { .. } => None,
        Row::Spanned { .. } => None,
        Row::Instance { .. } => None,
        Row::Separated { .. } => None,
    }
}

// The row of this place where a row stands so many times.
fn repeated(count: u32, body: RowId, place: usize) -> Option<RowId>
    ensures child { result ≡ slice_get (replicate count body) place }
    ensures few { IfSome result (λ _. place < 2 ^ 63) }
{
    if place < count as usize {
        Some(body)
    } else {
        None
    }
}
