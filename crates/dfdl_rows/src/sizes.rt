// How many rows components have, for each component once.
ghost use Rattle.std.specs.Prelude.{◌≡◌, ◌<◌, ◌≤◌, ◌+◌, ℕ, length, map, All, get_or, IfOk};
ghost use Rattle.dfdl_rows.specs.Sizes as sizes;
ghost use Rattle.dfdl_rows.specs.Saturated.{saturated};

use crate::component::Separated;
use crate::framing::{conclusion_size, framing_size, opened_size};
use crate::scopes::{list_of, scanned_list, scope_size, separator_list};
use crate::slot_sizes::slots_size;
use crate::times::Times;
use crate::{Component, Components};
use dfdl_terms::Framing;
use std::alloc::{AllocError, Global};

// The rows of a sequence or choice that are not its parts', which occur so often, as far as 64 bits count.
fn group_size(framing: Framing, separated: Option<Separated>, slots: &[Times]) -> u64
    ensures { result ≡ saturated (sizes.group_size framing separated slots.now) }
{
    let separators = separator_list(separated);
    let scopes = scope_size(separators) + scope_size(list_of(framing.terminator));
    let around = 1 + scopes + opened_size(framing, separators) + conclusion_size(framing.behind);
    slots_size(separated, slots).saturating_add(around)
}

// The rows of a component that are not its parts', which occur so often, as far as 64 bits count: those of separators, of scopes,
// of a box and of what frames its content among them, and those that repeat and try its parts.
fn own_size(component: &Component, slots: &[Times]) -> u64
    ensures { result ≡ saturated (sizes.own_size component.now slots.now) }
{
    match component {
        Component::Sequence {
            framing,
            separated,
            ..
        } => group_size(*framing, *separated, slots),
        Component::Choice { framing, .. } => group_size(*framing, None, slots),
        Component::ComplexElement { framing, .. } => {
            let scope = scope_size(list_of(framing.terminator));
            2 + scope + framing_size(*framing, None)
        }
        Component::SimpleElement {
            framing,
            is_scanned,
            ..
        } => {
            let scope = scope_size(scanned_list(*is_scanned, framing.terminator));
            2 + scope + framing_size(*framing, None)
        }
        Component::CalculatedElement { framing, .. } => 2 + framing_size(*framing, None),
        Component::Hidden => 1,
    }
}

// The rows of these components, as far as 64 bits count.
fn total(parts: &[u32], known: &[u64]) -> u64
    requires { All (λ p. p < length known.now) parts.now }
    ensures { result ≡ saturated (sizes.total (map (λ p. get_or known.now p 0) parts.now)) }
{
    let mut total = 0u64;
    for part in parts {
        total = total.saturating_add(known[*part as usize]);
    }
    total
}

// The number of a component's rows, where it is known for its parts, as far as 64 bits count.
fn size_at(component: &Component, slots: &[Times], parts: &[u32], known: &[u64]) -> u64
    requires { All (λ p. p < length known.now) parts.now }
    ensures { result ≡ saturated (sizes.own_size component.now slots.now
        + sizes.total (map (λ p. get_or known.now p 0) parts.now)) }
{
    own_size(component, slots).saturating_add(total(parts, known))
}

/// The number of each component's rows, as far as 64 bits count.
pub fn sizes(alloc: Global, components: &Components) -> Result<Vec<u64>, AllocError>
    ensures counted { IfOk result (λ made. length made.items ≡ length components.now.uses) }
    ensures known { IfOk result (λ made. (c : ℕ) → c < length components.now.uses
        → get_or made.items c 0 ≡ saturated (sizes.size_of components.now c)) }
{
    let mut known = vec![in alloc; 0u64; components.count() as usize]?;
    for number in components.order().list() {
        let component = components.component(*number);
        let slots = components.slots(alloc, *number)?;
        let size = size_at(
            component,
            slots.as_slice(),
            components.parts(*number),
            known.as_slice(),
        );
        known[*number as usize] = size;
    }
    Ok(known)
}

/// How many rows a component has, as far as 64 bits count.
pub(crate) fn size(alloc: Global, components: &Components, root: u32) -> Result<u64, AllocError>
    requires { root < length components.now.uses }
    ensures { IfOk result (λ found. found ≡ saturated (sizes.size_of components.now root)) }
{
    let known = sizes(alloc, components)?;
    Ok(known[root as usize])
}
