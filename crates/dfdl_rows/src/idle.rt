// The components from which neither a refusal nor an element comes.
ghost use Rattle.std.specs.Prelude.{◌≡◌, ◌<◌, ◌&&◌, ℕ, false, is_none, length, map, All, get_or, IfOk};
ghost use Rattle.dfdl_rows.specs.Looking as spec;

use crate::{Component, Components, Refusal};
use std::alloc::{AllocError, Global};

// Whether a component is no element.
fn is_plain(component: &Component) -> bool
    ensures { result ≡ spec.is_plain component.now }
{
    match component {
        Component::Sequence { .. } | Component::Choice { .. } | Component::Hidden => true,
        Component::ComplexElement { .. } | Component::SimpleElement { .. } => false,
        Component::CalculatedElement { .. } => false,
    }
}

// Whether this is known of all of these.
fn are_all(parts: &[u32], known: &[bool]) -> bool
    requires { All (λ p. p < length known.now) parts.now }
    ensures { result ≡ spec.are_all (map (λ p. get_or known.now p false) parts.now) }
{
    for part in parts {
        if !known[*part as usize] {
            return false;
        }
    }
    true
}

// Whether nothing comes of a component, where it is known for its parts.
fn is_idle(component: &Component, own: Option<Refusal>, parts: &[u32], known: &[bool]) -> bool
    requires { All (λ p. p < length known.now) parts.now }
    ensures { result ≡ (is_none own && (spec.is_plain component.now
        && spec.are_all (map (λ p. get_or known.now p false) parts.now))) }
{
    own.is_none() && is_plain(component) && are_all(parts, known)
}

/// Of each component, whether nothing comes of it.
pub(crate) fn idle(alloc: Global, components: &Components) -> Result<Vec<bool>, AllocError>
    ensures counted { IfOk result (λ made. length made.items ≡ length components.now.uses) }
    ensures known { IfOk result (λ made. (c : ℕ) → c < length components.now.uses
        → get_or made.items c false ≡ spec.idle_of components.now c) }
{
    let mut known = vec![in alloc; false; components.count() as usize]?;
    for number in components.order().list() {
        let component = components.component(*number);
        let own = components.refusal(*number);
        let is_idle = is_idle(component, own, components.parts(*number), known.as_slice());
        known[*number as usize] = is_idle;
    }
    Ok(known)
}
