// The parts of components with their slots.
ghost use Rattle.std.specs.Prelude.{◌≡◌, ◌<◌, ℕ, length, map, All, get_or, IfOk};
ghost use Rattle.dfdl_planning.specs.Planned as spec;
ghost use Rattle.dfdl_planning.specs.Planned.{unknown_outline};

use crate::outline::{Outline, Taking};
use dfdl_outline::{Part, PartList, Slot};
use dfdl_rows::{Component, Separated};
use dfdl_separators::SeparatorSuppressionPolicy;
use std::alloc::{AllocError, Global};

// The slots of occurrences that aren't required by a policy.
fn slot_by(policy: SeparatorSuppressionPolicy) -> Slot
    ensures { result ≡ spec.slot_by policy }
{
    match policy {
        SeparatorSuppressionPolicy::Never => Slot::Always,
        SeparatorSuppressionPolicy::TrailingEmpty => Slot::IfLater,
        SeparatorSuppressionPolicy::TrailingEmptyStrict => Slot::IfLater,
        SeparatorSuppressionPolicy::AnyEmpty => Slot::IfLong,
    }
}

// Those of a part that is taken so, among these separators.
fn slot_of(separated: Option<Separated>, taking: Taking) -> Slot
    ensures { result ≡ spec.slot_of separated taking }
{
    let Some(own) = separated else {
        return Slot::Absent;
    };
    match taking {
        Taking::Slotless => Slot::Absent,
        Taking::Required => Slot::Always,
        Taking::ByPolicy => slot_by(own.policy),
        Taking::IfLong => Slot::IfLong,
    }
}

// A part that is taken so has slots.
fn is_slotted(taking: Taking) -> bool
    ensures { result ≡ spec.is_slotted taking }
{
    !matches!(taking, Taking::Slotless)
}

/// The separators in the content of a component.
pub(crate) fn separated_of(component: &Component) -> Option<Separated>
    ensures { result ≡ spec.separated_of component.now }
{
    match component {
        Component::Sequence { separated, .. } => *separated,
        _ => None,
    }
}

// Behind how many of these parts there is no slot any more.
fn slots_end(parts: &[u32], known: &[Outline]) -> usize
    requires { All (λ p. p < length known.now) parts.now }
    ensures { result ≡ spec.slots_end 0 0 (map (λ p. get_or known.now p unknown_outline) parts.now) }
{
    let mut end = 0usize;
    let mut at = 0usize;
    for part in parts {
        at += 1;
        if is_slotted(known[*part as usize].taking) {
            end = at;
        }
    }
    end
}

// The part of a number, which is this, before which so many elements are declared.
fn part_of(
    separated: Option<Separated>,
    is_last: bool,
    first: u32,
    component: u32,
    outline: &Outline,
) -> Part
    ensures { result ≡ spec.part_with separated is_last first component outline.now }
{
    Part {
        component,
        first,
        declared: outline.declared,
        is_element: outline.is_element,
        least: outline.least,
        most: outline.most,
        slot: slot_of(separated, outline.taking),
        is_last,
    }
}

/// The parts of a component of these numbers, among these separators.
pub(crate) fn parts_of(
    alloc: Global,
    separated: Option<Separated>,
    parts: &[u32],
    known: &[Outline],
) -> Result<PartList, AllocError>
    requires { All (λ p. p < length known.now) parts.now }
    ensures { IfOk result (λ made. made ≡ spec.parts_by (λ p. get_or known.now p unknown_outline) separated parts.now) }
{
    let end = slots_end(parts, known);
    let mut made = Vec::new(alloc);
    let mut first = 0u32;
    let mut at = 0usize;
    for part in parts {
        let outline = &known[*part as usize];
        at += 1;
        made.push(part_of(separated, end <= at, first, *part, outline))?;
        first = first.saturating_add(outline.declared);
    }
    Ok(PartList::from_vec(made))
}
