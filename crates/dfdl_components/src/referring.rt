// The attributes that refer to global components.
ghost use Rattle.std.specs.Prelude.{◌≡◌, ◌<◌, length, map, option_copied};
ghost use Rattle.dfdl_components.specs.Recursion.{naming_properties};
ghost use Rattle.dfdl_components.specs.References.{kind_referred, name_given, referring};
ghost use Rattle.dfdl_components.specs.Shown.{referring_shown};

use crate::kind::ComponentKind;
use Referring::{Plain, Short};
use dfdl_constructs::{Role, dfdl, plain};
use dfdl_xml_tree::Tree;

// An attribute that refers to a component of a kind.
#[derive(Debug, Clone, Copy)]
pub(crate) enum Referring {
    // One of no namespace.
    Plain(&'static str, ComponentKind),
    // One of DFDL's namespace.
    Short(&'static str, ComponentKind),
}

impl Referring {
    // The kind of component that it refers to.
    pub(crate) fn kind(&self) -> ComponentKind
        ensures { result ≡ kind_referred (referring_shown self.now) }
    {
        match self {
            Plain(_, kind) => *kind,
            Short(_, kind) => *kind,
        }
    }

    // The name that it gives at an element.
    pub(crate) fn name<'t>(&self, tree: &'t Tree, element: u32) -> Option<&'t str>
        requires { element < length tree.now }
        ensures { option_copied result ≡ name_given tree.now element (referring_shown self.now) }
    {
        match self {
            Plain(name, _) => plain(tree, element, name),
            Short(name, _) => dfdl(tree, element, name),
        }
    }
}

/// The attributes of a construct that refer to components.
#[tactic(auto, unfolding(crate::specs::References::referring))]
pub(crate) fn referring_attributes(role: Role) -> &'static [Referring]
    ensures { map referring_shown result.now ≡ referring role }
{
    match role {
        Role::GlobalElement | Role::LocalElement => &[
            Plain("type", ComponentKind::Type),
            Short("ref", ComponentKind::Format),
        ],
        Role::ElementReference => &[
            Plain("ref", ComponentKind::Element),
            Short("ref", ComponentKind::Format),
        ],
        Role::GroupReference => &[
            Plain("ref", ComponentKind::Group),
            Short("ref", ComponentKind::Format),
        ],
        Role::GlobalSimpleType | Role::LocalSimpleType | Role::Sequence | Role::Choice => {
            &[Short("ref", ComponentKind::Format)]
        }
        Role::Restriction => &[Plain("base", ComponentKind::Type)],
        Role::DefaultFormat | Role::DefinedFormat | Role::ComponentProperties => {
            &[Plain("ref", ComponentKind::Format)]
        }
        Role::SetVariable | Role::NewVariableInstance => {
            &[Plain("ref", ComponentKind::Variable)]
        }
        _ => &[],
    }
}

/// The properties of a construct, as attributes, that name what it consists of.
#[tactic(auto, unfolding(crate::specs::Recursion::naming_properties))]
pub(crate) fn naming_properties(role: Role) -> &'static [Referring]
    ensures { map referring_shown result.now ≡ naming_properties role }
{
    match role {
        Role::GlobalElement
        | Role::LocalElement
        | Role::ElementReference
        | Role::GroupReference
        | Role::GlobalSimpleType
        | Role::LocalSimpleType
        | Role::Sequence
        | Role::Choice => &[
            Short("hiddenGroupRef", ComponentKind::Group),
            Short("prefixLengthType", ComponentKind::Type),
        ],
        Role::ComponentProperties => &[
            Plain("hiddenGroupRef", ComponentKind::Group),
            Plain("prefixLengthType", ComponentKind::Type),
        ],
        _ => &[],
    }
}
