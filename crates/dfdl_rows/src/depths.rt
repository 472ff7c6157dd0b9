// How deep elements are nested in one another, for each component once.
ghost use Rattle.std.specs.Prelude.{◌≡◌, ◌<◌, ◌+◌, ℕ, length, map, All, get_or, IfOk};
ghost use Rattle.dfdl_rows.specs.Depths as depths;
ghost use Rattle.dfdl_rows.specs.Saturated.{saturated};

use crate::{Component, Components};
use std::alloc::{AllocError, Global};

// One for an element.
fn own_depth(component: &Component) -> u64
    ensures { result ≡ depths.own_depth component.now }
{
    match component {
        Component::Sequence { .. } | Component::Choice { .. } | Component::Hidden => 0,
        Component::ComplexElement { .. } => 1,
        Component::SimpleElement { .. } => 1,
        Component::CalculatedElement { .. } => 1,
    }
}

// The greatest of the depths of these components.
fn greatest(parts: &[u32], known: &[u64]) -> u64
    requires { All (λ p. p < length known.now) parts.now }
    ensures { result ≡ depths.greatest (map (λ p. get_or known.now p 0) parts.now) }
{
    let mut greatest = 0;
    for part in parts {
        greatest = greatest.max(known[*part as usize]);
    }
    greatest
}

// The depth of a component whose parts have known ones, as far as 64 bits count.
fn depth_at(component: &Component, parts: &[u32], known: &[u64]) -> u64
    requires { All (λ p. p < length known.now) parts.now }
    ensures { result ≡ saturated (depths.own_depth component.now
        + depths.greatest (map (λ p. get_or known.now p 0) parts.now)) }
{
    own_depth(component).saturating_add(greatest(parts, known))
}

// The depth of each component, as far as 64 bits count.
fn depths(alloc: Global, components: &Components) -> Result<Vec<u64>, AllocError>
    ensures counted { IfOk result (λ made. length made.items ≡ length components.now.uses) }
    ensures known { IfOk result (λ made. (c : ℕ) → c < length components.now.uses
        → get_or made.items c 0 ≡ saturated (depths.depth_of components.now c)) }
{
    let mut known = vec![in alloc; 0u64; components.count() as usize]?;
    for number in components.order().list() {
        let component = components.component(*number);
        let depth = depth_at(component, components.parts(*number), known.as_slice());
        known[*number as usize] = depth;
    }
    Ok(known)
}

/// The greatest number of elements that are nested in one another from a component on, as far as 64 bits count.
pub(crate) fn depth(alloc: Global, components: &Components, root: u32) -> Result<u64, AllocError>
    requires { root < length components.now.uses }
    ensures { IfOk result (λ found. found ≡ saturated (depths.depth_of components.now root)) }
{
    let known = depths(alloc, components)?;
    Ok(known[root as usize])
}
