// What the attributes of an element name, and which element a reference stands for.
ghost use Rattle.std.specs.Prelude.{◌≡◌, option_copied, IfSome};
ghost use Rattle.dfdl_components.specs.Sites.{IsSite, role_of};
ghost use Rattle.dfdl_chains.specs.Declarations as declarations;

use dfdl_components::{ComponentKind, Named, Schema, Site};
use dfdl_constructs::{Role, plain, single_of};

/// The value of an attribute of no namespace.
pub(crate) fn attribute<'s>(schema: &'s Schema, site: Site, name: &str) -> Option<&'s str>
    requires { IsSite schema.now site }
    ensures { option_copied result ≡ declarations.attribute_of schema.now site name.now }
{
    plain(schema.tree(site.document), site.element, name)
}

// What a name names at an element, where there is one.
fn named_if(schema: &Schema, site: Site, kind: ComponentKind, text: Option<&str>) -> Option<Named>
    requires { IsSite schema.now site }
    ensures { result ≡ declarations.named_if schema.now site kind (option_copied text.entry) }
{
    match text {
        Some(text) => schema.resolve(site, kind, text),
        None => None,
    }
}

// The global component, where that is what is named.
pub(crate) fn component_of(named: Option<Named>) -> Option<Site>
    ensures { result ≡ declarations.component_of named }
{
    match named {
        Some(Named::Component(site)) => Some(site),
        _ => None,
    }
}

// The global component of a kind that an element's attribute `ref` names.
fn find_referred(schema: &Schema, site: Site, kind: ComponentKind) -> Option<Site>
    requires { IsSite schema.now site }
    ensures { result ≡ declarations.referred schema.now site kind }
{
    let text = attribute(schema, site, "ref");
    component_of(named_if(schema, site, kind, text))
}

/// The global component of a kind that an element's attribute `ref` names.
#[tactic(auto, using(crate::proofs::Within::referred_within))]
pub fn referred(schema: &Schema, site: Site, kind: ComponentKind) -> Option<Site>
    requires { IsSite schema.now site }
    ensures component { result ≡ declarations.referred schema.now site kind }
    ensures within { IfSome result (IsSite schema.now) }
{
    find_referred(schema, site, kind)
}

// For an element reference the global element that it names, for each other element itself.
fn find_declaration(schema: &Schema, site: Site, role: Role) -> Site
    requires { IsSite schema.now site }
    ensures { result ≡ declarations.declaration_by schema.now site role }
{
    match role {
        Role::ElementReference => match referred(schema, site, ComponentKind::Element) {
            Some(other) => other,
            None => site,
        },
        _ => site,
    }
}

/// The declaration of an element: for an element reference the global element that it names, for each
/// other element itself.
#[tactic(auto, using(crate::proofs::Within::declaration_within), unfolding(crate::specs::Declarations::declaration))]
pub fn declaration(schema: &Schema, site: Site) -> Site
    requires { IsSite schema.now site }
    ensures declaration { result ≡ declarations.declaration schema.now site }
    ensures within { IsSite schema.now result }
{
    find_declaration(schema, site, schema.role(site))
}

// The part that stands only once in an element.
fn find_inside(schema: &Schema, site: Site) -> Option<Site>
    requires { IsSite schema.now site }
    ensures { result ≡ declarations.part_inside schema.now site }
{
    let document = site.document;
    match single_of(schema.tree(document), schema.role(site), site.element) {
        Some(element) => Some(Site { document, element }),
        None => None,
    }
}

/// The part that stands only once in an element: its type, the restriction of a simple type, the group
/// of a complex type or of a global group.
#[tactic(auto, using(crate::proofs::Within::inside_within))]
pub(crate) fn part_inside(schema: &Schema, site: Site) -> Option<Site>
    requires { IsSite schema.now site }
    ensures part { result ≡ declarations.part_inside schema.now site }
    ensures within { IfSome result (IsSite schema.now) }
{
    find_inside(schema, site)
}
