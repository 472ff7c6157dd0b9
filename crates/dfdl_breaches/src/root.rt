// The root of a schema.
ghost use Rattle.std.specs.Prelude.{◌≡◌, ◌<◌, true, length, IfSome};
ghost use Rattle.dfdl_components.specs.Searching.{first_below};
ghost use Rattle.dfdl_components.specs.Sites.{IsSite, nodes_of, role_of};
ghost use Rattle.dfdl_constructs.specs.Roles.{role_at};
ghost use Rattle.dfdl_breaches.specs.Roots as spec;

use dfdl_components::{Schema, Site};
use dfdl_constructs::Role;

// A global element.
fn is_global_element(role: Role) -> bool
    ensures { result ≡ spec.is_global_element role }
{
    match role {
        Role::GlobalElement => true,
        _ => false,
    }
}

// The first global element of the first document.
#[tactic(auto, using(crate::proofs::Searches::first_none, crate::proofs::Searches::none_more, crate::proofs::Searches::found_at))]
fn first_global(schema: &Schema) -> Option<u32>
    requires { 0 < length schema.now }
    ensures first { result ≡ first_below (spec.if_global_element (nodes_of schema.now 0)) (length (nodes_of schema.now 0)) }
    ensures within { IfSome result (λ element. element < length (nodes_of schema.now 0)) }
    ensures global { IfSome result (λ element. spec.is_global_element (role_at (nodes_of schema.now 0) element) ≡ true) }
{
    for element in 0..schema.tree(0).count() {
        let document = 0;
        if is_global_element(schema.role(Site { document, element })) {
            return Some(element);
        }
    }
    None
}

/// The root: the first global element of the first document ('DFDL Schema Component Model'). Takes no memory.
pub fn root_of(schema: &Schema) -> Option<Site>
    ensures root { result ≡ spec.root_of schema.now }
    ensures within { IfSome result (IsSite schema.now) }
    ensures global { IfSome result (λ site. spec.is_global_element (role_of schema.now site) ≡ true) }
{
    if schema.count() == 0 {
        return None;
    }
    match first_global(schema) {
        Some(element) => Some(Site {
            document: 0,
            element,
        }),
        None => None,
    }
}
