// Groups of two or three slots, with what the rules say of each.
use crate::*;
use dfdl_report::ParseCause;

const ITEM: SlotSeen = SlotSeen::Ended {
    moved: true,
    empty: false,
    failure: None,
    resolved: false,
};

const BLANK: SlotSeen = SlotSeen::Ended {
    moved: false,
    empty: true,
    failure: None,
    resolved: false,
};

const REQUIRED: SlotSeen = SlotSeen::Slot {
    optional: false,
    parsed: false,
};

const OPTIONAL: SlotSeen = SlotSeen::Slot {
    optional: true,
    parsed: false,
};

// `a,` and then an optional slot, whose separator is there and whose content isn't, or nothing at all.
#[test]
fn an_empty_slot_at_the_end(rt: HostRuntime) {
    let mut slots = Slots::open(
        SeparatorSuppressionPolicy::TrailingEmptyStrict,
        SeparatorPosition::Infix,
    );
    assert!(rt; slots.next(REQUIRED) == SlotMove::Parse);
    assert!(rt; slots.next(ITEM) == SlotMove::Keep);
    assert!(rt; slots.next(OPTIONAL) == SlotMove::TakeSeparator);
    assert!(rt; slots.next(SlotSeen::Separator { found: true }) == SlotMove::Parse);
    assert!(rt; slots.next(BLANK) == SlotMove::Drop);
    assert!(rt; slots.next(SlotSeen::NoMore) == SlotMove::Fail(SlotFault::TrailingEmpty));
}

// `a` alone: no separator stands before the optional slot.
#[test]
fn a_slot_without_its_separator(rt: HostRuntime) {
    let mut slots = Slots::open(
        SeparatorSuppressionPolicy::TrailingEmpty,
        SeparatorPosition::Infix,
    );
    assert!(rt; slots.next(REQUIRED) == SlotMove::Parse);
    assert!(rt; slots.next(ITEM) == SlotMove::Keep);
    assert!(rt; slots.next(OPTIONAL) == SlotMove::TakeSeparator);
    assert!(rt; slots.next(SlotSeen::Separator { found: false }) == SlotMove::EndArray);
    assert!(rt; slots.next(OPTIONAL) == SlotMove::EndArray);
    assert!(rt; slots.next(REQUIRED) == SlotMove::Fail(SlotFault::MissingSeparator));

    let mut never = Slots::open(SeparatorSuppressionPolicy::Never, SeparatorPosition::Prefix);
    assert!(rt; never.next(OPTIONAL) == SlotMove::TakeSeparator);
    assert!(rt;
        never.next(SlotSeen::Separator { found: false })
            == SlotMove::Fail(SlotFault::MissingSeparator)
    );
}

// `,b`: the first slot is empty, and a separator follows.
#[test]
fn an_empty_first_slot(rt: HostRuntime) {
    let mut slots = Slots::open(
        SeparatorSuppressionPolicy::AnyEmpty,
        SeparatorPosition::Infix,
    );
    assert!(rt; slots.next(OPTIONAL) == SlotMove::Parse);
    assert!(rt; slots.next(BLANK) == SlotMove::LookForSeparator);
    assert!(rt; slots.next(SlotSeen::Separator { found: true }) == SlotMove::Drop);
    assert!(rt; slots.next(REQUIRED) == SlotMove::TakeSeparator);
    assert!(rt; slots.next(SlotSeen::Separator { found: true }) == SlotMove::Parse);
    assert!(rt; slots.next(ITEM) == SlotMove::Keep);
    assert!(rt; slots.next(SlotSeen::NoMore) == SlotMove::EndGroup);
}

// `a;` with an array of kind parsed, whose second occurrence fails.
#[test]
fn an_array_behind_each_separator(rt: HostRuntime) {
    let parsed = SlotSeen::Slot {
        optional: true,
        parsed: true,
    };
    let fails = SlotSeen::Ended {
        moved: true,
        empty: false,
        failure: Some(ParseCause::NotANumber),
        resolved: false,
    };
    let mut slots = Slots::open(
        SeparatorSuppressionPolicy::TrailingEmptyStrict,
        SeparatorPosition::Postfix,
    );
    assert!(rt; slots.next(parsed) == SlotMove::Parse);
    assert!(rt; slots.next(ITEM) == SlotMove::TakeSeparator);
    assert!(rt; slots.next(SlotSeen::Separator { found: true }) == SlotMove::Keep);
    assert!(rt; slots.next(parsed) == SlotMove::Parse);
    assert!(rt; slots.next(fails) == SlotMove::EndArray);
    assert!(rt; slots.next(REQUIRED) == SlotMove::Parse);
    assert!(rt; slots.next(fails) == SlotMove::Fail(SlotFault::Occurrence(ParseCause::NotANumber)));
}
