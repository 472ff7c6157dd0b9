// The group that a name names.
ghost use Rattle.std.specs.Prelude.{◌≡◌, ℕ, IfSome, List, Some};
ghost use Rattle.dfdl_documents.specs.Documents.{SchemaDocument};
ghost use Rattle.dfdl_components.specs.declared.site.Site as declared_site;
ghost use Rattle.dfdl_components.specs.Sites.{IsSite};
ghost use Rattle.dfdl_chains.specs.Declarations.{component_of};
ghost use Rattle.dfdl_chains.specs.Hidden as spec;
ghost use Rattle.dfdl_components.specs.Naming.{resolved};
ghost use Rattle.dfdl_components.specs.declared.kind.ComponentKind.TheVariants as kind;

use crate::declaring::{component_of, part_inside};
use dfdl_components::{ComponentKind, Schema, Site};

// The group that a text names which is written at an element, if it names one.
fn find_named(schema: &Schema, writer: Site, text: &str) -> Option<Site>
    requires { IsSite schema.now writer }
    ensures { result ≡ component_of (resolved schema.now writer kind.Group text.now) }
{
    component_of(schema.resolve(writer, ComponentKind::Group, text))
}

// The same, which is one of the documents'.
#[tactic(auto, using(crate::proofs::Within::named_group_within))]
fn named(schema: &Schema, writer: Site, text: &str) -> Option<Site>
    requires { IsSite schema.now writer }
    ensures group { result ≡ component_of (resolved schema.now writer kind.Group text.now) }
    ensures within { IfSome result (IsSite schema.now) }
{
    find_named(schema, writer, text)
}

/// The sequence or choice of the group that a text names which is written at an element, if it names one. Takes no memory.
pub fn group_named(schema: &Schema, writer: Site, text: &str) -> Option<Site>
    requires { IsSite schema.now writer }
    ensures group { result ≡ spec.group_named schema.now text.now writer }
    ensures within { IfSome result (IsSite schema.now) }
{
    match named(schema, writer, text) {
        Some(group) => part_inside(schema, group),
        None => None,
    }
}

/// The sequence or choice of a group that a text names is an element of the documents. The call does nothing.
#[tactic(auto, using(crate::proofs::GroupsNamed::named_within))]
pub fn named_groups_are_within()
    ensures { (documents : List SchemaDocument) (text : List ℕ) (writer own : declared_site.Site) → spec.group_named documents text writer ≡ Some own
        → IsSite documents own }
{}
