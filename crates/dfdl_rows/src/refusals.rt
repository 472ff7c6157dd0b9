// The first refusal of what is reached.
ghost use Rattle.std.specs.Prelude.{◌≡◌, ◌<◌, ℕ, true, false, IfOk, length, get_or};
ghost use Rattle.dfdl_order.specs.Parts.{uses_of};
ghost use Rattle.dfdl_rows.specs.Components.{component_at};
ghost use Rattle.dfdl_rows.specs.Looking.{AreReady, HasRefusals, idle_of, is_element};
ghost use Rattle.dfdl_rows.specs.Refusals as refusals;

use crate::idle::idle;
use crate::looking::{Known, first_refusal_in};
use crate::{Component, Components, Refusal};
use std::alloc::{AllocError, Global};

// Whether a component is an element.
fn is_element(component: &Component) -> bool
    ensures { result ≡ is_element component.now }
{
    match component {
        Component::Sequence { .. } | Component::Choice { .. } | Component::Hidden => false,
        Component::ComplexElement { .. } | Component::SimpleElement { .. } => true,
        Component::CalculatedElement { .. } => true,
    }
}

// The first refusal of each element, what it has inside among it. That of other components isn't told.
fn element_refusals(
    alloc: Global,
    components: &Components,
    idle: &[bool],
) -> Result<Vec<Option<Refusal>>, AllocError>
    requires counted { length idle.now ≡ length components.now.uses }
    requires idle { (c : ℕ) → c < length components.now.uses → get_or idle.now c false ≡ idle_of components.now c }
    ensures { IfOk result (λ made. HasRefusals components.now idle.now made.items) }
{
    let mut refusals = vec![in alloc; None; components.count() as usize]?;
    for number in components.order().list() {
        if is_element(components.component(*number)) {
            let known = Known {
                idle,
                refusals: refusals.as_slice(),
            };
            let refusal = element_refusal(alloc, components, known, *number)?;
            refusals[*number as usize] = refusal;
        }
    }
    Ok(refusals)
}

// The first refusal of an element, by its own and by what it has inside.
fn element_refusal(
    alloc: Global,
    components: &Components,
    known: Known<'_>,
    number: u32,
) -> Result<Option<Refusal>, AllocError>
    requires within { number < length components.now.uses }
    requires element { is_element (component_at components.now.components number) ≡ true }
    requires ready { AreReady components.now known.idle.now known.refusals.now (uses_of components.now.uses number) }
    ensures { IfOk result (λ found. found ≡ refusals.first_refusal components.now number) }
{
    match components.refusal(number) {
        Some(refusal) => Ok(Some(refusal)),
        None => {
            let found = first_refusal_in(alloc, components, known, components.parts(number))?;
            Ok(found)
        }
    }
}

/// The first refusal of the components that are reached from one, in schema order.
pub(crate) fn first_refusal(
    alloc: Global,
    components: &Components,
    root: u32,
) -> Result<Option<Refusal>, AllocError>
    requires { root < length components.now.uses }
    ensures { IfOk result (λ found. found ≡ refusals.first_refusal components.now root) }
{
    let idle = idle(alloc, components)?;
    let refusals = element_refusals(alloc, components, idle.as_slice())?;
    let known = Known {
        idle: idle.as_slice(),
        refusals: refusals.as_slice(),
    };
    let found = first_refusal_in(alloc, components, known, &[root])?;
    Ok(found)
}
