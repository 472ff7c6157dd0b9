// Which act of laying comes next.
ghost use Rattle.std.specs.Prelude.{◌≡◌, option_copied, slice_get};
ghost use Rattle.dfdl_laying.specs.Acting as acting;

use crate::act::{Act, Aim};
use crate::frame::Open;
use dfdl_outline::{Entry, Layout, Part, Separating, Slot, Sort, branch_with, branch_without};

// Whether an item of the unknown of a part's occurrences is aimed at.
fn is_aimed(aim: &Aim, first: u32) -> bool
    ensures { result ≡ acting.is_aimed aim.now first }
{
    match aim {
        Aim::Child(child) => child.number() == first,
        Aim::Nothing => false,
        Aim::End => false,
    }
}

// Whether laying goes on to what lies behind.
fn is_passing(aim: &Aim) -> bool
    ensures { result ≡ acting.is_passing aim.now }
{
    match aim {
        Aim::Nothing => false,
        Aim::Child(_) => true,
        Aim::End => true,
    }
}

// Whether slots without an occurrence are laid.
fn has_blanks(slot: Slot) -> bool
    ensures { result ≡ acting.has_blanks slot }
{
    match slot {
        Slot::Absent => false,
        Slot::Always => true,
        Slot::IfLong => false,
        Slot::IfLater => true,
    }
}

// At an element's part that has no item more.
fn act_without(separated: bool, part: &Part, count: u64) -> Act
    ensures { result ≡ acting.act_without separated part.now count }
{
    if count < u64::from(part.least) {
        return Act::Fill;
    }
    let blanks = separated && has_blanks(part.slot);
    if blanks && part.most < u64::MAX && count < part.most {
        Act::Blank
    } else {
        Act::Pass
    }
}

// At an element that the infoset can have.
fn act_shown(separated: bool, aim: &Aim, part: &Part, first: u32, count: u64) -> Act
    ensures { result ≡ acting.act_shown separated aim.now part.now first count }
{
    if count >= part.most {
        return Act::Pass;
    }
    if is_aimed(aim, first) {
        return Act::Take;
    }
    if is_passing(aim) {
        act_without(separated, part, count)
    } else {
        Act::Wait
    }
}

// At an element.
fn act_element(
    separated: bool,
    is_hidden: bool,
    aim: &Aim,
    part: &Part,
    first: u32,
    count: u64,
) -> Act
    ensures { result ≡ acting.act_element separated is_hidden aim.now part.now first count }
{
    if is_hidden {
        act_without(separated, part, count)
    } else {
        act_shown(separated, aim, part, first, count)
    }
}

// At an element whose value is calculated.
fn act_calculated(aim: &Aim, first: u32, count: u64) -> Act
    ensures { result ≡ acting.act_calculated aim.now first count }
{
    if count > 0 {
        return Act::Pass;
    }
    if is_aimed(aim, first) {
        Act::Take
    } else {
        Act::Fill
    }
}

// At a group.
fn act_group(count: u64) -> Act
    ensures { result ≡ acting.act_group count }
{
    if count > 0 { Act::Pass } else { Act::Enter }
}

// At a part by what it is.
fn act_by(
    sort: &Sort,
    separated: bool,
    is_hidden: bool,
    aim: &Aim,
    part: &Part,
    first: u32,
    count: u64,
) -> Act
    ensures { result ≡ acting.act_by sort.now separated is_hidden aim.now part.now first count }
{
    match sort {
        Sort::Sequence { .. } => act_group(count),
        Sort::Choice => act_group(count),
        Sort::Hidden => act_group(count),
        Sort::Complex { .. } => act_element(separated, is_hidden, aim, part, first, count),
        Sort::Simple(_) => act_element(separated, is_hidden, aim, part, first, count),
        Sort::Calculated => act_calculated(aim, first, count),
        Sort::Unbuilt => act_calculated(aim, first, count),
    }
}

/// The separators of a component.
pub(crate) fn separating_of(sort: &Sort) -> Option<Separating>
    ensures { result ≡ acting.separating_of sort.now }
{
    match sort {
        Sort::Sequence { separating } => *separating,
        Sort::Choice => None,
        Sort::Complex { .. } => None,
        Sort::Simple(_) => None,
        Sort::Calculated => None,
        Sort::Hidden => None,
        Sort::Unbuilt => None,
    }
}

/// The unknown of the occurrences of the first element of a part.
pub(crate) fn first_of(top: &Open, part: &Part) -> u32
    ensures { result ≡ acting.first_of top.now part.now }
{
    top.first.number().saturating_add(part.first)
}

// At a part with what it is, if there is such.
fn act_at_part(inner: Option<&Entry>, separated: bool, aim: &Aim, top: &Open, part: &Part) -> Act
    ensures { result ≡ acting.act_at_part (option_copied inner.entry) separated top.now.is_hidden aim.now part.now
        (acting.first_of top.now part.now) top.now.count }
{
    match inner {
        Some(inner) => act_by(
            &inner.sort,
            separated,
            top.is_hidden,
            aim,
            part,
            first_of(top, part),
            top.count,
        ),
        None => Act::Pass,
    }
}

// At the part where laying is, if there is one.
fn act_in_part(layout: &Layout, aim: &Aim, top: &Open, entry: &Entry) -> Act
    ensures { result ≡ acting.act_in_part layout.now aim.now top.now entry.now (slice_get entry.now.parts top.now.part) }
{
    match entry.parts.as_slice().get(top.part as usize) {
        Some(part) => {
            let separated = separating_of(&entry.sort).is_some();
            act_at_part(layout.entry(part.component), separated, aim, top, part)
        }
        None => Act::Leave,
    }
}

// A branch, if there is one.
fn act_branch(branch: Option<u32>) -> Act
    ensures { result ≡ acting.act_branch branch }
{
    match branch {
        Some(branch) => Act::Choose(branch),
        None => Act::Branchless,
    }
}

// Which branch is taken where none has an element that is there.
fn act_unaimed(layout: &Layout, top: &Open, entry: &Entry) -> Act
    ensures { result ≡ acting.act_unaimed layout.now top.now entry.now }
{
    let parts = entry.parts.as_slice();
    act_branch(branch_without(layout, top.is_hidden, parts))
}

// The first branch that has an element of a place among those that are declared from one on.
fn branch_at(parts: &[Part], first: u32, child: u32) -> Option<u32>
    ensures { result ≡ acting.branch_at parts.now (acting.place_in first child) }
{
    if child < first {
        None
    } else {
        branch_with(parts, child - first)
    }
}

// Which branch is taken where an element is aimed at.
fn act_aimed(layout: &Layout, child: u32, top: &Open, entry: &Entry) -> Act
    ensures { result ≡ acting.act_aimed layout.now child top.now entry.now
        (acting.branch_at entry.now.parts (acting.place_in top.now.first child)) }
{
    match branch_at(entry.parts.as_slice(), top.first.number(), child) {
        Some(branch) => Act::Choose(branch),
        None => act_unaimed(layout, top, entry),
    }
}

// At a choice whose branch isn't known.
fn act_choice(layout: &Layout, aim: &Aim, top: &Open, entry: &Entry) -> Act
    ensures { result ≡ acting.act_choice layout.now aim.now top.now entry.now }
{
    match aim {
        Aim::Nothing => {
            if !top.is_hidden && entry.declared > 0 {
                Act::Wait
            } else {
                act_unaimed(layout, top, entry)
            }
        }
        Aim::Child(child) => {
            if top.is_hidden {
                act_unaimed(layout, top, entry)
            } else {
                act_aimed(layout, child.number(), top, entry)
            }
        }
        Aim::End => act_unaimed(layout, top, entry),
    }
}

// At the end of an element with parts.
fn act_complex_end(is_hidden: bool, aim: &Aim) -> Act
    ensures { result ≡ acting.act_complex_end is_hidden aim.now }
{
    match aim {
        Aim::Nothing => { if is_hidden { Act::Leave } else { Act::Wait } }
        Aim::Child(_) => { if is_hidden { Act::Leave } else { Act::Wait } }
        Aim::End => { if is_hidden { Act::Leave } else { Act::End } }
    }
}

// In an element with parts.
fn act_complex(layout: &Layout, aim: &Aim, top: &Open, entry: &Entry) -> Act
    ensures { result ≡ acting.act_complex layout.now aim.now top.now entry.now (slice_get entry.now.parts top.now.part) }
{
    match entry.parts.as_slice().get(top.part as usize) {
        Some(part) => {
            let separated = separating_of(&entry.sort).is_some();
            act_at_part(layout.entry(part.component), separated, aim, top, part)
        }
        None => act_complex_end(top.is_hidden, aim),
    }
}

// In what is open, by what it is.
fn act_in(layout: &Layout, aim: &Aim, top: &Open, entry: &Entry) -> Act
    ensures { result ≡ acting.act_in layout.now aim.now top.now entry.now entry.now.sort }
{
    match entry.sort {
        Sort::Sequence { .. } => act_in_part(layout, aim, top, entry),
        Sort::Choice => {
            if top.is_chosen {
                act_in_part(layout, aim, top, entry)
            } else {
                act_choice(layout, aim, top, entry)
            }
        }
        Sort::Complex { .. } => act_complex(layout, aim, top, entry),
        Sort::Simple(_) => Act::Leave,
        Sort::Calculated => Act::Leave,
        Sort::Hidden => act_in_part(layout, aim, top, entry),
        Sort::Unbuilt => Act::Leave,
    }
}

/// What is done next at what is open innermost.
pub(crate) fn act_at(layout: &Layout, aim: &Aim, top: Option<&Open>) -> Act
    ensures { result ≡ acting.act_top layout.now aim.now (option_copied top.entry) }
{
    match top {
        Some(top) => match layout.entry(top.component) {
            Some(entry) => act_in(layout, aim, top, entry),
            None => Act::Wait,
        },
        None => Act::Wait,
    }
}

/// Whether laying goes no further by itself.
pub(crate) fn is_stop(act: Act) -> bool
    ensures { result ≡ acting.is_stop act }
{
    match act {
        Act::Wait => true,
        Act::Take => true,
        Act::End => true,
        Act::Leave => false,
        Act::Pass => false,
        Act::Fill => false,
        Act::Blank => false,
        Act::Enter => false,
        Act::Choose(_) => false,
        Act::Branchless => false,
    }
}
