// What laying asks of entries and parts.
ghost use Rattle.std.specs.Prelude.{◌≡◌, ◌+◌, ◌<◌, ◌≤◌, length, drop, option_copied};
ghost use Rattle.dfdl_outline.specs.Outlines as outlines;

use crate::entry::{Around, ContentSize, Entry, Needs, Sort};
use crate::layout::Layout;
use crate::part::Part;

/// How many steps stand around a content.
fn steps_around(around: &Around) -> u32
    ensures steps { result ≡ outlines.steps_around around.now }
    ensures few { result ≤ 5 }
{
    u32::from(around.leading_skip > 0)
        + u32::from(around.alignment > 1)
        + u32::from(around.initiator.is_some())
        + u32::from(around.terminator.is_some())
        + u32::from(around.trailing_skip > 0)
}

// How many steps the content of an element with parts is with its prefix.
fn steps_boxed(size: &ContentSize) -> u32
    ensures steps { result ≡ outlines.steps_boxed size.now }
    ensures few { result ≤ 2 }
{
    match size {
        ContentSize::Unbounded => 1,
        ContentSize::Sized(_) => 1,
        ContentSize::Prefixed(_) => 2,
    }
}

// How many steps the content of an element is with what stands before it in its framing.
fn steps_within(sort: &Sort) -> u32
    ensures steps { result ≡ outlines.steps_within sort.now }
    ensures few { result ≤ 3 }
{
    match sort {
        Sort::Complex { size } => steps_boxed(size),
        Sort::Simple(own) => 1 + u32::from(own.prefix.is_some()) + u32::from(own.is_text),
        Sort::Sequence { .. } => 0,
        Sort::Choice => 0,
        Sort::Calculated => 0,
        Sort::Hidden => 0,
        Sort::Unbuilt => 0,
    }
}

/// How many steps an element is in the content around it.
pub fn steps_of(entry: &Entry) -> u32
    ensures { result ≡ outlines.steps_of entry.now }
{
    steps_around(&entry.around) + steps_within(&entry.sort)
}

/// Whether a component needs an item of the infoset.
pub fn is_needy(is_hidden: bool, needs: &Needs) -> bool
    ensures { result ≡ outlines.is_needy is_hidden needs.now }
{
    if is_hidden { needs.hidden } else { needs.shown }
}

// Whether that of a part does.
fn entry_is_needy(is_hidden: bool, entry: Option<&Entry>) -> bool
    ensures { result ≡ outlines.entry_is_needy is_hidden (option_copied entry.entry) }
{
    match entry {
        Some(entry) => is_needy(is_hidden, &entry.needs),
        None => true,
    }
}

// Whether an element of a group is in a part.
fn is_in(child: u32, part: &Part) -> bool
    ensures { result ≡ outlines.is_in child part.now }
{
    part.first <= child && child - part.first < part.declared
}

/// The first branch of a choice that has an element, by its place among those of the choice.
pub fn branch_with(parts: &[Part], child: u32) -> Option<u32>
    ensures { result ≡ outlines.branch_with parts.now child 0 }
{
    let mut at = 0u32;
    for part in parts {
        if is_in(child, part) {
            return Some(at);
        }
        at = at.saturating_add(1);
    }
    None
}

/// The first that needs no item.
pub fn branch_without(layout: &Layout, is_hidden: bool, parts: &[Part]) -> Option<u32>
    ensures { result ≡ outlines.branch_without layout.now is_hidden parts.now 0 }
{
    let mut at = 0u32;
    for part in parts {
        if !entry_is_needy(is_hidden, layout.entry(part.component)) {
            return Some(at);
        }
        at = at.saturating_add(1);
    }
    None
}
