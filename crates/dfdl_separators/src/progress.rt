// A group from slot to slot.
ghost use Rattle.std.specs.Prelude.{◌≡◌};
ghost use Rattle.dfdl_separators.specs.Groups.{CanSee, here_of, sought, tried_in, subject, ending, move_by, is_trailing};
ghost use Rattle.dfdl_separators.specs.Groups.{with_slot, without_slot, seeking, was_empty, moved_by, group_by};
ghost use Rattle.dfdl_separators.specs.Groups.{begun, group_after, move_at};

use crate::course::{Known, course};
use crate::moves::{SlotFault, SlotMove, SlotSeen};
use crate::policy::{SeparatorPosition, SeparatorSuppressionPolicy};
use crate::verdict::{Here, SlotRule, Tried, rule_of};

/// Where a group stands.
#[derive(Debug, Clone, Copy, PartialEq, Eq)]
pub enum Stage {
    /// between its slots, also before the first and behind the last
    Between,
    /// the separator that a slot begins with is sought
    Before(SlotRule),
    /// an occurrence is parsed
    Content(SlotRule),
    /// a separator behind an occurrence is sought
    Behind(SlotRule, Tried),
    /// the group is done or has failed
    Over,
}

/// What is kept of a group.
#[derive(Debug, Clone, Copy, PartialEq, Eq)]
pub struct Progress {
    pub policy: SeparatorSuppressionPolicy,
    pub position: SeparatorPosition,
    /// whether a slot was there
    pub taken: bool,
    /// whether a slot was absent with all later ones
    pub absent: bool,
    /// whether the last slot that was there is empty, optional, and may be absent
    pub blank: bool,
    pub stage: Stage,
}

fn sought(stage: Stage, found: bool) -> Option<(SlotRule, Known)>
    ensures { result ≡ sought stage found }
{
    match stage {
        Stage::Before(rule) => Some((rule, Known::Begins(found))),
        Stage::Behind(rule, tried) => Some((rule, Known::Closed(tried, found))),
        Stage::Between => None,
        Stage::Content(_) => None,
        Stage::Over => None,
    }
}

fn tried_in(stage: Stage, tried: Tried) -> Option<(SlotRule, Known)>
    ensures { result ≡ tried_in stage tried }
{
    match stage {
        Stage::Content(rule) => Some((rule, Known::Occurred(tried))),
        Stage::Before(_) => None,
        Stage::Behind(_, _) => None,
        Stage::Between => None,
        Stage::Over => None,
    }
}

fn seeking(rule: SlotRule, known: Known) -> Stage
    ensures { result ≡ seeking rule known }
{
    match known {
        Known::Begun => Stage::Before(rule),
        Known::Begins(_) => Stage::Before(rule),
        Known::Occurred(tried) => Stage::Behind(rule, tried),
        Known::Closed(tried, _) => Stage::Behind(rule, tried),
    }
}

fn was_empty(known: Known) -> bool
    ensures { result ≡ was_empty known }
{
    match known {
        Known::Begun => false,
        Known::Begins(_) => false,
        Known::Occurred(tried) => tried.empty,
        Known::Closed(tried, _) => tried.empty,
    }
}

fn is_trailing(rule: SlotRule) -> bool
    ensures { result ≡ is_trailing rule }
{
    match rule {
        SlotRule::TrailingMissing => true,
        SlotRule::Required => false,
        SlotRule::NeverMissing => false,
        SlotRule::AnyMissing => false,
    }
}

impl Progress {
    /// A group before its first slot.
    pub fn open(policy: SeparatorSuppressionPolicy, position: SeparatorPosition) -> Progress
        ensures { result ≡ begun policy position }
    {
        Progress {
            policy,
            position,
            taken: false,
            absent: false,
            blank: false,
            stage: Stage::Between,
        }
    }

    /// What to do next, where this is told.
    pub fn move_at(self, seen: SlotSeen) -> SlotMove
        ensures { result ≡ move_at self seen }
    {
        self.move_by(self.subject(seen))
    }

    /// The group after what is told.
    pub fn after(self, seen: SlotSeen) -> Progress
        ensures { result ≡ group_after self seen }
    {
        let slot = self.subject(seen);
        let to = self.move_by(slot);
        self.group_by(slot, to)
    }

    // The slot that is told of, and what is then known of it.
    pub(crate) fn subject(self, seen: SlotSeen) -> Option<(SlotRule, Known)>
        ensures { result ≡ subject self seen }
    {
        match seen {
            SlotSeen::Slot { optional, parsed } => {
                Some((rule_of(self.policy, optional, parsed), Known::Begun))
            }
            SlotSeen::Separator { found } => sought(self.stage, found),
            SlotSeen::Ended {
                moved,
                empty,
                failure,
                resolved,
            } => {
                let tried = Tried {
                    moved,
                    empty,
                    failure,
                    resolved,
                };
                tried_in(self.stage, tried)
            }
            SlotSeen::NoMore => None,
        }
    }

    /// The group at its end.
    pub fn ending(self) -> SlotMove
        ensures { result ≡ ending self }
    {
        match self.policy {
            SeparatorSuppressionPolicy::Never => SlotMove::EndGroup,
            SeparatorSuppressionPolicy::TrailingEmpty => SlotMove::EndGroup,
            SeparatorSuppressionPolicy::TrailingEmptyStrict => {
                if self.blank {
                    return SlotMove::Fail(SlotFault::TrailingEmpty);
                }
                SlotMove::EndGroup
            }
            SeparatorSuppressionPolicy::AnyEmpty => SlotMove::EndGroup,
        }
    }

    // The move, by the slot that is told of.
    pub(crate) fn move_by(self, slot: Option<(SlotRule, Known)>) -> SlotMove
        ensures { result ≡ move_by self slot }
    {
        match slot {
            None => self.ending(),
            Some((rule, known)) => course(self.here_of(rule), known),
        }
    }

    /// A slot of a rule, next in the group.
    pub fn here_of(self, rule: SlotRule) -> Here
        ensures { result ≡ here_of self rule }
    {
        Here {
            rule,
            position: self.position,
            taken: self.taken,
            absent: self.absent,
        }
    }

    fn at_stage(self, stage: Stage) -> Progress
        ensures { result ≡ record self { stage = stage } }
    {
        Progress {
            policy: self.policy,
            position: self.position,
            taken: self.taken,
            absent: self.absent,
            blank: self.blank,
            stage,
        }
    }

    fn with_slot(self, rule: SlotRule, empty: bool) -> Progress
        ensures { result ≡ with_slot self rule empty }
    {
        let blank = if is_trailing(rule) { empty } else { false };
        Progress {
            policy: self.policy,
            position: self.position,
            taken: true,
            absent: self.absent,
            blank,
            stage: Stage::Between,
        }
    }

    fn without_slot(self, rule: SlotRule) -> Progress
        ensures { result ≡ without_slot self rule }
    {
        let absent = if self.absent { true } else { is_trailing(rule) };
        Progress {
            policy: self.policy,
            position: self.position,
            taken: self.taken,
            absent,
            blank: self.blank,
            stage: Stage::Between,
        }
    }

    fn moved_by(self, rule: SlotRule, known: Known, to: SlotMove) -> Progress
        ensures { result ≡ moved_by self rule known to }
    {
        match to {
            SlotMove::TakeSeparator => self.at_stage(seeking(rule, known)),
            SlotMove::LookForSeparator => self.at_stage(seeking(rule, known)),
            SlotMove::Parse => self.at_stage(Stage::Content(rule)),
            SlotMove::Keep => self.with_slot(rule, was_empty(known)),
            SlotMove::Drop => self.with_slot(rule, was_empty(known)),
            SlotMove::EndArray => self.without_slot(rule),
            SlotMove::EndGroup => self.at_stage(Stage::Over),
            SlotMove::Fail(_) => self.at_stage(Stage::Over),
        }
    }

    // The group after the move.
    pub(crate) fn group_by(self, slot: Option<(SlotRule, Known)>, to: SlotMove) -> Progress
        requires { to ≡ move_by self slot }
        ensures { result ≡ group_by self slot }
    {
        match slot {
            None => self.at_stage(Stage::Over),
            Some((rule, known)) => self.moved_by(rule, known, to),
        }
    }
}
