// What a slot comes to, once all of it is seen.
ghost use Rattle.std.specs.Prelude.{◌≡◌};
ghost use Rattle.dfdl_separators.specs.Verdicts.{rule_of, outcome_of, required, never_missing, trailing_missing};
ghost use Rattle.dfdl_separators.specs.Verdicts.{any_missing, missing, closed_as, by_rule, by_tried, begins, ends};
ghost use Rattle.dfdl_separators.specs.Verdicts.{is_past, is_taken};

use crate::moves::{SlotFault, SlotMove};
use crate::policy::{SeparatorPosition, SeparatorSuppressionPolicy};
use dfdl_report::ParseCause;

/// Which rule a slot follows.
#[derive(Debug, Clone, Copy, PartialEq, Eq)]
pub enum SlotRule {
    /// it has to be there
    Required,
    /// optional, and its separator is never missing
    NeverMissing,
    /// optional, and its separator may be missing with those of all later slots
    TrailingMissing,
    /// optional, and its separator may be missing
    AnyMissing,
}

/// A slot before anything of it is seen.
#[derive(Debug, Clone, Copy, PartialEq, Eq)]
pub struct Here {
    pub rule: SlotRule,
    pub position: SeparatorPosition,
    /// whether the group has an earlier slot that was there
    pub taken: bool,
    /// whether an earlier slot was absent with all later ones
    pub absent: bool,
}

/// An occurrence that was tried.
#[derive(Debug, Clone, Copy, PartialEq, Eq)]
pub struct Tried {
    /// whether it moved over a bit
    pub moved: bool,
    /// whether the slot was empty at the start of its content
    pub empty: bool,
    pub failure: Option<ParseCause>,
    /// whether its point of uncertainty is resolved
    pub resolved: bool,
}

/// What the occurrence of an optional slot comes to.
#[derive(Debug, Clone, Copy, PartialEq, Eq)]
pub enum Outcome {
    /// it moved over data
    Item,
    /// it moved no bit, and the slot isn't empty
    Unmoved,
    /// it failed or moved no bit, and the slot is empty
    Blank,
    /// it failed, and the slot isn't empty
    Broken(ParseCause),
    /// it failed inside of a resolved point of uncertainty
    Resolved(ParseCause),
}

/// The rule of a slot under a policy.
pub fn rule_of(policy: SeparatorSuppressionPolicy, optional: bool, parsed: bool) -> SlotRule
    ensures { result ≡ rule_of policy optional parsed }
{
    if parsed {
        return SlotRule::AnyMissing;
    }
    if !optional {
        return SlotRule::Required;
    }
    match policy {
        SeparatorSuppressionPolicy::Never => SlotRule::NeverMissing,
        SeparatorSuppressionPolicy::TrailingEmpty => SlotRule::TrailingMissing,
        SeparatorSuppressionPolicy::TrailingEmptyStrict => SlotRule::TrailingMissing,
        SeparatorSuppressionPolicy::AnyEmpty => SlotRule::AnyMissing,
    }
}

fn outcome_of(tried: Tried) -> Outcome
    ensures { result ≡ outcome_of tried }
{
    match tried.failure {
        None => {
            if tried.moved {
                return Outcome::Item;
            }
            if tried.empty {
                return Outcome::Blank;
            }
            Outcome::Unmoved
        }
        Some(cause) => {
            if tried.resolved {
                return Outcome::Resolved(cause);
            }
            if tried.empty {
                return Outcome::Blank;
            }
            Outcome::Broken(cause)
        }
    }
}

// A slot whose separator is missing.
pub(crate) fn missing(rule: SlotRule) -> SlotMove
    ensures { result ≡ missing rule }
{
    match rule {
        SlotRule::Required => SlotMove::Fail(SlotFault::MissingSeparator),
        SlotRule::NeverMissing => SlotMove::Fail(SlotFault::MissingSeparator),
        SlotRule::TrailingMissing => SlotMove::EndArray,
        SlotRule::AnyMissing => SlotMove::EndArray,
    }
}

fn required(failure: Option<ParseCause>, closed: bool) -> SlotMove
    ensures { result ≡ required failure closed }
{
    match failure {
        Some(cause) => SlotMove::Fail(SlotFault::Occurrence(cause)),
        None => closed_as(SlotMove::Keep, SlotRule::Required, closed),
    }
}

fn never_missing(outcome: Outcome, closed: bool) -> SlotMove
    ensures { result ≡ never_missing outcome closed }
{
    match outcome {
        Outcome::Item => closed_as(SlotMove::Keep, SlotRule::NeverMissing, closed),
        Outcome::Unmoved => closed_as(SlotMove::Keep, SlotRule::NeverMissing, closed),
        Outcome::Blank => closed_as(SlotMove::Drop, SlotRule::NeverMissing, closed),
        Outcome::Broken(cause) => SlotMove::Fail(SlotFault::Occurrence(cause)),
        Outcome::Resolved(cause) => SlotMove::Fail(SlotFault::Occurrence(cause)),
    }
}

fn trailing_missing(outcome: Outcome, closed: bool) -> SlotMove
    ensures { result ≡ trailing_missing outcome closed }
{
    match outcome {
        Outcome::Item => closed_as(SlotMove::Keep, SlotRule::TrailingMissing, closed),
        Outcome::Unmoved => closed_as(SlotMove::Keep, SlotRule::TrailingMissing, closed),
        Outcome::Blank => closed_as(SlotMove::Drop, SlotRule::TrailingMissing, closed),
        Outcome::Broken(cause) => SlotMove::Fail(SlotFault::Occurrence(cause)),
        Outcome::Resolved(cause) => SlotMove::Fail(SlotFault::Occurrence(cause)),
    }
}

fn any_missing(outcome: Outcome, closed: bool, marked: bool) -> SlotMove
    ensures { result ≡ any_missing outcome closed marked }
{
    match outcome {
        Outcome::Item => closed_as(SlotMove::Keep, SlotRule::AnyMissing, closed),
        Outcome::Unmoved => SlotMove::EndArray,
        Outcome::Blank => closed_as(SlotMove::Drop, SlotRule::AnyMissing, marked),
        Outcome::Broken(_) => SlotMove::EndArray,
        Outcome::Resolved(cause) => SlotMove::Fail(SlotFault::Occurrence(cause)),
    }
}

// What a slot comes to whose separator is there, or missing.
fn closed_as(taken: SlotMove, rule: SlotRule, closed: bool) -> SlotMove
    ensures { result ≡ closed_as taken rule closed }
{
    if closed { taken } else { missing(rule) }
}

fn by_rule(rule: SlotRule, tried: Tried, closed: bool, marked: bool) -> SlotMove
    ensures { result ≡ by_rule rule tried closed marked }
{
    match rule {
        SlotRule::Required => required(tried.failure, closed),
        SlotRule::NeverMissing => never_missing(outcome_of(tried), closed),
        SlotRule::TrailingMissing => trailing_missing(outcome_of(tried), closed),
        SlotRule::AnyMissing => any_missing(outcome_of(tried), closed, marked),
    }
}

impl Here {
    /// Whether the slot begins with a separator.
    pub fn begins(self) -> bool
        ensures { result ≡ begins self }
    {
        match self.position {
            SeparatorPosition::Prefix => true,
            SeparatorPosition::Infix => self.taken,
            SeparatorPosition::Postfix => false,
        }
    }

    /// Whether the slot ends with a separator.
    pub fn ends(self) -> bool
        ensures { result ≡ ends self }
    {
        match self.position {
            SeparatorPosition::Prefix => false,
            SeparatorPosition::Infix => false,
            SeparatorPosition::Postfix => true,
        }
    }

    // Whether the slot is absent with an earlier one.
    pub(crate) fn is_past(self) -> bool
        ensures { result ≡ is_past self }
    {
        match self.rule {
            SlotRule::Required => self.absent,
            SlotRule::NeverMissing => self.absent,
            SlotRule::TrailingMissing => self.absent,
            SlotRule::AnyMissing => false,
        }
    }

    // What the slot comes to, if the separator that it begins with is there.
    pub(crate) fn by_tried(self, tried: Tried, behind: bool) -> SlotMove
        ensures { result ≡ by_tried self tried behind }
    {
        let closed = if self.ends() { behind } else { true };
        let marked = if self.begins() { true } else { behind };
        by_rule(self.rule, tried, closed, marked)
    }
}

impl SlotMove {
    // Whether the slot was there.
    pub(crate) fn is_taken(self) -> bool
        ensures { result ≡ is_taken self }
    {
        match self {
            SlotMove::Keep => true,
            SlotMove::Drop => true,
            SlotMove::TakeSeparator => false,
            SlotMove::LookForSeparator => false,
            SlotMove::Parse => false,
            SlotMove::EndArray => false,
            SlotMove::EndGroup => false,
            SlotMove::Fail(_) => false,
        }
    }
}
