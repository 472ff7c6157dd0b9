// What kind of component an element of the documents is.
ghost use Rattle.std.specs.Prelude.{◌≡◌, IfSome};
ghost use Rattle.dfdl_components.specs.Sites.{IsSite};
ghost use Rattle.dfdl_chains.specs.Kinds as kinds;
ghost use Rattle.dfdl_chains.specs.Shown.{AreNumbers};

use crate::chain::group_content;
use crate::derivation::type_of;
use crate::numbers::Numbers;
use crate::typed::Typed;
use dfdl_checks::Kind;
use dfdl_components::{Schema, Site};
use dfdl_constructs::Role;

// An element of a type.
fn kind_of_type(typed: Typed) -> Kind
    ensures { result ≡ kinds.kind_of_type typed }
{
    match typed {
        Typed::Carried(simple) => Kind::SimpleElement(simple),
        Typed::NotCarried => Kind::UncarriedElement,
        Typed::Defined(_) => Kind::ComplexElement,
    }
}

// A group of a role.
fn kind_of_group(role: Role) -> Kind
    ensures { result ≡ kinds.kind_of_group role }
{
    match role {
        Role::Choice => Kind::Choice,
        _ => Kind::Sequence,
    }
}

// The group that a reference stands for.
fn kind_of_content(schema: &Schema, site: Option<Site>) -> Kind
    requires { IfSome site (IsSite schema.now) }
    ensures { result ≡ kinds.kind_of_content schema.now site }
{
    match site {
        Some(site) => kind_of_group(schema.role(site)),
        None => Kind::Sequence,
    }
}

// The kind of a component, by its role.
fn kind_by(schema: &Schema, numbers: &Numbers, site: Site, role: Role) -> Kind
    requires site { IsSite schema.now site }
    requires numbers { AreNumbers schema.now numbers.now }
    ensures { result ≡ kinds.kind_by schema.now site role }
{
    match role {
        Role::GlobalElement | Role::LocalElement | Role::ElementReference => {
            kind_of_type(type_of(schema, numbers, site))
        }
        Role::GroupReference => kind_of_content(schema, group_content(schema, site)),
        _ => kind_of_group(role),
    }
}

/// The kind of a component; what is no component counts as a sequence.
#[tactic(auto, unfolding(crate::specs::Kinds::kind_at))]
pub fn kind_at(schema: &Schema, numbers: &Numbers, site: Site) -> Kind
    requires site { IsSite schema.now site }
    requires numbers { AreNumbers schema.now numbers.now }
    ensures { result ≡ kinds.kind_at schema.now site }
{
    kind_by(schema, numbers, site, schema.role(site))
}
