// Where a refusal stands among the rows of a root.
ghost use Rattle.std.specs.Prelude.{◌≡◌, ◌<◌, ◌^◌, ℕ, All, IfOk, None, get_or, length, map, option_map};
ghost use Rattle.dfdl_order.specs.Parts.{uses_of};
ghost use Rattle.dfdl_rows.specs.Positions as positions;
ghost use Rattle.dfdl_rows.specs.Saturated.{saturated, saturated_end, saturated_end_from, saturated_first_end};
ghost use Rattle.dfdl_rows.specs.Sizes.{size_of};

use crate::sizes::sizes;
use crate::{Components, Refusal, RefusedRow};
use dfdl_report::Place;
use std::alloc::{AllocError, Global};

// Whether two places are one.
fn is_same(first: Place, second: Place) -> bool
    ensures { result ≡ positions.is_same first second }
{
    first.document == second.document && first.at == second.at
}

// Whether a refusal is told at a place, if there is one.
fn is_told_at(place: Place, refusal: Option<Refusal>) -> bool
    ensures { result ≡ positions.is_told_at place refusal }
{
    match refusal {
        Some(refusal) => is_same(refusal.place, place),
        None => false,
    }
}

// Whether what is told at a place is told of a component.
fn is_of(components: &Components, place: Place, number: u32) -> bool
    requires { number < length components.now.uses }
    ensures { result ≡ positions.is_of components.now place number }
{
    is_same(components.place(number), place) || is_told_at(place, components.refusal(number))
}

// How many rows there are up to the last one of a component, in a part of so many rows and those behind it.
fn end_behind(size: u64, own: Option<u64>, others: Option<u64>) -> Option<u64>
    ensures { result ≡ saturated_end size own others }
{
    match (own, others) {
        (Some(end), _) => Some(end),
        (None, Some(end)) => Some(size.saturating_add(end)),
        (None, None) => None,
    }
}

// The same in parts one after another, where the sizes and the ends of all parts are known.
fn first_end(parts: &[u32], sizes: &[u64], known: &[Option<u64>]) -> Option<u64>
    requires sizes { All (λ p. p < length sizes.now) parts.now }
    requires known { All (λ p. p < length known.now) parts.now }
    ensures { result ≡ saturated_first_end (map (λ p. get_or sizes.now p 0) parts.now) (map (λ p. get_or known.now p None) parts.now) }
{
    let mut found = None;
    for at in (0..parts.len()).rev() {
        let part = parts[at] as usize;
        found = end_behind(sizes[part], known[part], found);
    }
    found
}

// The same in a component.
fn end_at(
    components: &Components,
    place: Place,
    sizes: &[u64],
    known: &[Option<u64>],
    number: u32,
) -> Option<u64>
    requires within { number < length components.now.uses }
    requires counted { length sizes.now ≡ length components.now.uses }
    requires sizes { (c : ℕ) → c < length components.now.uses → get_or sizes.now c 0 ≡ saturated (size_of components.now c) }
    requires known { length known.now ≡ length components.now.uses }
    ensures { result ≡ saturated_end_from components.now place number
        (map (λ p. get_or known.now p None) (uses_of components.now.uses number)) }
{
    if is_of(components, place, number) {
        return Some(sizes[number as usize]);
    }
    first_end(components.parts(number), sizes, known)
}

// How many rows of each component there are up to the last one of the first that is told of at a place.
fn ends(
    alloc: Global,
    components: &Components,
    place: Place,
    sizes: &[u64],
) -> Result<Vec<Option<u64>>, AllocError>
    requires counted { length sizes.now ≡ length components.now.uses }
    requires known { (c : ℕ) → c < length components.now.uses → get_or sizes.now c 0 ≡ saturated (size_of components.now c) }
    ensures counted { IfOk result (λ made. length made.items ≡ length components.now.uses) }
    ensures known { IfOk result (λ made. (c : ℕ) → c < length components.now.uses
        → get_or made.items c None ≡ option_map saturated (positions.end_of components.now place c)) }
{
    let mut known = vec![in alloc; None; components.count() as usize]?;
    for number in components.order().list() {
        let end = end_at(components, place, sizes, known.as_slice(), *number);
        known[*number as usize] = end;
    }
    Ok(known)
}

// The last row of a component's that is told of, where the sizes and the ends of all components are known.
fn row_at(sizes: &[u64], ends: &[Option<u64>], number: u32) -> u64
    requires sizes { number < length sizes.now }
    requires ends { number < length ends.now }
    ensures { result ≡ positions.row_before (get_or sizes.now number 0) (get_or ends.now number None) }
{
    match ends[number as usize] {
        Some(end) => end.saturating_sub(1),
        None => sizes[number as usize],
    }
}

/// The row of a root at which a refusal stands, by its number among them.
pub(crate) fn refused_row(
    alloc: Global,
    components: &Components,
    root: u32,
    refusal: Refusal,
) -> Result<RefusedRow, AllocError>
    requires within { root < length components.now.uses }
    requires few { size_of components.now root < 2 ^ 32 }
    ensures { IfOk result (λ made. made ≡ positions.refused_row components.now root refusal) }
{
    components.facts();
    let sizes = sizes(alloc, components)?;
    let ends = ends(alloc, components, refusal.place, sizes.as_slice())?;
    let row = row_at(sizes.as_slice(), ends.as_slice(), root);
    Ok(RefusedRow { row, refusal })
}
