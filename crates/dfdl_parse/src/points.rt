// Choices, and occurrences that are tried: each has a point of uncertainty.
ghost use Rattle.std.specs.Prelude.{◌≡◌, ◌^◌, ◌<◌, ◌≤◌, false, IfSome, OnOk, slice_get};
ghost use Rattle.dfdl_bits.specs.Window.{Held};
ghost use Rattle.dfdl_grammar.specs.Marks.{pointed};
ghost use Rattle.dfdl_grammar.specs.Occurrences.{dropped};
ghost use Rattle.dfdl_grammar.specs.declared.end.End.TheVariants.{Done};
ghost use Rattle.dfdl_looks.specs.Tallies.{Tally, nothing};
ghost use Rattle.dfdl_parse.specs.Machines.{children_of};
ghost use Rattle.dfdl_parse.specs.Moves.{pass};
ghost use Rattle.dfdl_parse.specs.Opens.{IsBefore};
ghost use Rattle.dfdl_grammar.specs.Occurrences.{as_normal};
ghost use Rattle.dfdl_parse.specs.Points.{branch_failed, occurrence_done, occurrence_failed, try_branch, try_occurrence};
ghost use Rattle.dfdl_parse.specs.Steps.{IsFree, Moved};
ghost use Rattle.dfdl_parse.specs.Shown.{HasSameLimits, state_of};

use crate::frame::{Focus, Frame};
use crate::leaving::child_of;
use crate::parser::Parser;
use dfdl_grammar::{End, Instead};
use dfdl_report::ParseCause;
use dfdl_terms::{RowId, Terms};
use std::alloc::AllocError;

impl Parser {
    // A choice begins at a point, with its first branch, if there is one.
    pub(crate) fn begin_choice(
        &mut self,
        id: RowId,
        branches: &[RowId],
        initiated: bool,
    ) -> Result<(), AllocError>
        ensures moved { (held : Held) (cost : Tally) → IsFree cost → OnOk result (Moved
            (try_branch cost held id 0 (slice_get branches.now 0) self.old.stack (pointed initiated (state_of self.old)))
            false self.old.far self.new held 0) }
        ensures most { OnOk result (HasSameLimits self.old self.new) }
        ensures at { OnOk result (self.new.at ≡ self.old.at) }
    {
        let first = first_of(branches);
        self.open_mark(true, initiated)?;
        self.try_branch(id, 0, first)
    }

    // A branch has failed at this end: the next one begins at the point, if there is one. Where the point is resolved, the choice fails
    // as the branch did.
    pub(crate) fn fail_branch(
        &mut self,
        terms: &Terms,
        id: RowId,
        place: usize,
        end: End,
    ) -> Result<(), AllocError>
        ensures moved { (held : Held) → OnOk result (Moved
            (branch_failed held id place (slice_get (children_of (slice_get terms.now.rows id)) place) end self.old.stack (state_of self.old))
            false self.old.far self.new held 0) }
        ensures most { OnOk result (HasSameLimits self.old self.new) }
        ensures at { OnOk result (IsBefore self.old.marks self.old.at → self.new.at ≤ self.old.at) }
    {
        let branch = child_of(terms, id, place);
        let settled = self.marks.is_settled();
        if settled {
            self.end_trial(end);
            return Ok(());
        }
        self.go_back();
        self.try_branch(id, place, branch)
    }

    // The branch of a place begins, if there is one, and else the choice fails here, and its point is closed.
    fn try_branch(
        &mut self,
        id: RowId,
        place: usize,
        branch: Option<RowId>,
    ) -> Result<(), AllocError>
        requires few { IfSome branch (λ _. place < 2 ^ 63) }
        ensures moved { (held : Held) (cost : Tally) → IsFree cost → OnOk result (Moved
            (try_branch cost held id place branch self.old.stack (state_of self.old)) false self.old.far self.new held 0) }
        ensures most { OnOk result (HasSameLimits self.old self.new) }
        ensures at { OnOk result (self.new.at ≡ self.old.at) }
    {
        match branch {
            Some(branch) => {
                self.stack.push(Frame::Branch {
                    choice: id,
                    next: place + 1,
                })?;
                self.focus = Focus::Enter(branch);
            }
            None => {
                self.marks.close();
                self.fail(ParseCause::NoBranch);
            }
        }
        Ok(())
    }

    // An occurrence of a row begins at a point, where any of so many are left.
    pub(crate) fn try_occurrence(
        &mut self,
        body: RowId,
        initiated: bool,
        left: u64,
    ) -> Result<(), AllocError>
        ensures moved { (held : Held) (cost : Tally) → IsFree cost → OnOk result (Moved
            (try_occurrence cost held body initiated left self.old.stack (state_of self.old)) false self.old.far self.new held 0) }
        ensures most { OnOk result (HasSameLimits self.old self.new) }
        ensures at { OnOk result (self.new.at ≡ self.old.at) }
    {
        if left == 0 {
            self.focus = Focus::Leave(End::Done);
            return Ok(());
        }
        self.open_mark(true, initiated)?;
        self.stack.push(Frame::Occurrence {
            body,
            initiated,
            left: left - 1,
        })?;
        self.instead = Instead::Tried;
        self.focus = Focus::Enter(body);
        Ok(())
    }

    // An occurrence is done: it is dropped where it has passed over no bit, and else the next one follows, if any are left.
    pub(crate) fn finish_occurrence(
        &mut self,
        body: RowId,
        initiated: bool,
        left: u64,
    ) -> Result<(), AllocError>
        ensures moved { (held : Held) → OnOk result (Moved
            (occurrence_done held body initiated left self.old.stack (as_normal (state_of self.old))) false self.old.far self.new held 0) }
        ensures most { OnOk result (HasSameLimits self.old self.new) }
        ensures at { OnOk result (IsBefore self.old.marks self.old.at → self.new.at ≤ self.old.at) }
    {
        self.instead = Instead::Nothing;
        let stays = self.marks.stays_at(self.at);
        if stays {
            self.drop_occurrence();
            return Ok(());
        }
        self.marks.close();
        self.try_occurrence(body, initiated, left)
    }

    // An occurrence has failed at this end: it is dropped. Where its point is resolved, the array fails as it did.
    pub(crate) fn fail_occurrence(&mut self, end: End)
        ensures moved { (held : Held) → Moved
            (occurrence_failed held end self.old.stack (as_normal (state_of self.old))) false self.old.far self.new held 0 }
        ensures most { HasSameLimits self.old self.new }
        ensures at { IsBefore self.old.marks self.old.at → self.new.at ≤ self.old.at }
    {
        self.instead = Instead::Nothing;
        let settled = self.marks.is_settled();
        if settled {
            self.end_trial(end);
        } else {
            self.drop_occurrence();
        }
    }

    // An occurrence is dropped, which ends those that are tried: the state is again that of its point, which is closed.
    fn drop_occurrence(&mut self)
        ensures moved { (held : Held) → Moved
            (pass nothing held (Focus.Leave Done) self.old.stack (dropped (state_of self.old))) false self.old.far self.new held 0 }
        ensures most { HasSameLimits self.old self.new }
        ensures at { IsBefore self.old.marks self.old.at → self.new.at ≤ self.old.at }
    {
        self.go_back();
        self.end_trial(End::Done);
    }
}

// The first of some rows, if there is one.
fn first_of(rows: &[RowId]) -> Option<RowId>
    ensures { result ≡ slice_get rows.now 0 }
{
    rows.get(0).copied()
}
