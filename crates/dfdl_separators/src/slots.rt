// The slots of a group, from the first to the end.
ghost use Rattle.std.specs.Prelude.{◌≡◌, Some, true};
ghost use Rattle.dfdl_separators.specs.Courses.{Agrees, is_verdict};
ghost use Rattle.dfdl_separators.specs.Groups.{CanSee, begun, subject, here_of, move_at, group_after};
ghost use Rattle.dfdl_separators.specs.Verdicts.{Facts, verdict};
ghost use Rattle.dfdl_separators.specs.declared.course.Known.{Known};
ghost use Rattle.dfdl_separators.specs.declared.verdict.SlotRule.{SlotRule};

use crate::moves::{SlotMove, SlotSeen};
use crate::policy::{SeparatorPosition, SeparatorSuppressionPolicy};
use crate::progress::{Progress, Stage};
use std::marker::Model;

/// Goes through the slots of a group.
#[derive(Debug, Drop)]
pub struct Slots {
    group: Progress,
}

impl Model for Slots {
    ghost use Rattle.dfdl_separators.specs.declared.progress.Progress.{Progress};

    ghost Value = { Progress };

    ghost view = { λ s. s.group };
}

impl Slots {
    /// A group before its first slot.
    pub fn open(policy: SeparatorSuppressionPolicy, position: SeparatorPosition) -> Slots
        ensures { result ≡ begun policy position }
    {
        let group = Progress {
            policy,
            position,
            taken: false,
            absent: false,
            blank: false,
            stage: Stage::Between,
        };
        Slots { group }
    }

    /// What to do next. What is told answers the move before: a separator was sought, or an occurrence parsed. After any
    /// other move a slot begins or the group ends, and after `EndGroup` and `Fail` nothing is told.
    pub fn next(&mut self, seen: SlotSeen) -> SlotMove
        requires { CanSee self.old seen }
        ensures moves { result ≡ move_at self.old seen }
        ensures after { self.new ≡ group_after self.old seen }
        // What ends a slot is its verdict, whatever wasn't asked for.
        ensures verdict { (rule : SlotRule) (known : Known) (facts : Facts) → subject self.old seen ≡ Some (rule, known)
            → Agrees (here_of self.old rule) known facts → is_verdict result ≡ true
            → result ≡ verdict (here_of self.old rule) facts }
    {
        let group = self.group;
        let slot = group.subject(seen);
        let to = group.move_by(slot);
        self.group = group.group_by(slot, to);
        to
    }
}
