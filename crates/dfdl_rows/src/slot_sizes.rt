// How many rows of a group stand before its own.
ghost use Rattle.std.specs.Prelude.{◌≡◌, ◌≤◌, ◌<◌, if◌then◌else◌, nat_lt};
ghost use Rattle.dfdl_rows.specs.Saturated.{saturated};
ghost use Rattle.dfdl_rows.specs.Slots as spec;

use crate::apart::apart;
use crate::component::Separated;
use crate::times::Times;
use dfdl_separators::SeparatorPosition;

// How many required slots parts have together, as far as 64 bits count.
fn count_slots(slots: &[Times]) -> u64
    ensures { result ≡ saturated (spec.count_slots slots.now) }
{
    let mut count = 0u64;
    for times in slots {
        count = count.saturating_add(u64::from(times.least));
    }
    count
}

// Whether parts with so many slots need separators.
fn need_separators(position: SeparatorPosition, slots: &[Times]) -> bool
    ensures { result ≡ spec.need_separators position (spec.count_slots slots.now) }
{
    match position {
        SeparatorPosition::Prefix | SeparatorPosition::Postfix => count_slots(slots) > 0,
        SeparatorPosition::Infix => count_slots(slots) > 1,
    }
}

/// Where the separators of a sequence stand, if it has some and its parts, with so many slots, need one.
pub(crate) fn needed(separated: Option<Separated>, slots: &[Times]) -> Option<SeparatorPosition>
    ensures { result ≡ spec.needed separated slots.now }
{
    match separated {
        Some(own) => {
            if need_separators(own.position, slots) {
                Some(own.position)
            } else {
                None
            }
        }
        None => None,
    }
}

// How many rows repeat and try a part.
fn part_size(way: Option<SeparatorPosition>, times: Times) -> u64
    ensures size { result ≡ spec.part_size way times }
    ensures few { result ≤ 3 }
{
    match times.question {
        Some(_) => 1,
        None => bounded_size(way, times),
    }
}

// How many rows repeat and try a part by its bounds.
fn bounded_size(way: Option<SeparatorPosition>, times: Times) -> u64
    ensures size { result ≡ spec.bounded_size way times }
    ensures few { result ≤ 3 }
{
    if times.further > 0 {
        u64::from(tried_size(times.least))
    } else {
        required_size(way, times.least)
    }
}

/// How many rows try a part, with so many occurrences that are required.
pub(crate) fn tried_size(least: u32) -> u32
    ensures size { result ≡ (if nat_lt 0 least then 3 else 1) }
    ensures few { result ≤ 3 }
{
    if least > 0 { 3 } else { 1 }
}

// How many rows repeat a part with so many slots.
fn required_size(way: Option<SeparatorPosition>, slots: u32) -> u64
    ensures size { result ≡ spec.required_size way slots }
    ensures few { result ≤ 2 }
{
    if slots <= 1 {
        return 0;
    }
    match way {
        Some(_) => 2,
        None => 1,
    }
}

// How many rows repeat and try the parts, as far as 64 bits count.
fn parts_size(way: Option<SeparatorPosition>, slots: &[Times]) -> u64
    ensures { result ≡ saturated (spec.parts_size way slots.now) }
{
    let mut size = 0u64;
    for times in slots {
        size = size.saturating_add(part_size(way, *times));
    }
    size
}

// How many rows the separators are.
fn separator_size(way: Option<SeparatorPosition>) -> u64
    ensures { result ≡ spec.separator_size way }
{
    match way {
        Some(_) => 1,
        None => 0,
    }
}

/// How many rows of a group, whose parts occur so often, stand before its own, as far as 64 bits count: those of its separators and those
/// that repeat and try its parts.
pub(crate) fn slots_size(separated: Option<Separated>, slots: &[Times]) -> u64
    ensures { result ≡ saturated (spec.slots_size separated slots.now) }
{
    match apart(separated, slots) {
        Some(_) => 0,
        None => laid_size(separated, slots),
    }
}

// The same of a group that isn't one row of slots.
fn laid_size(separated: Option<Separated>, slots: &[Times]) -> u64
    ensures { result ≡ saturated (spec.laid_size separated slots.now) }
{
    let way = needed(separated, slots);
    separator_size(way).saturating_add(parts_size(way, slots))
}
