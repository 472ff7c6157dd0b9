// The attributes of a construct that are looked at.
ghost use Rattle.std.specs.Prelude.{◌≡◌, map};
ghost use Rattle.dfdl_constructs.specs.ValuesAllowed.{attributes_of};
ghost use Rattle.dfdl_constructs.specs.Shown.{known_shown};

use crate::role::Role;
use crate::value::ValueForm::{self, Boolean, Digits, DigitsOrUnbounded, NcName, One, QName};
use Known::{FormatReference, Plain};

// An attribute that is looked at.
#[derive(Debug, Clone, Copy)]
pub(crate) enum Known {
    // One of no namespace with values of this form.
    Plain(&'static str, ValueForm),
    // The reference to a format in short form.
    FormatReference,
}

static GLOBAL_ELEMENT: [Known; 4] = [
    Plain("name", NcName),
    Plain("type", QName),
    Plain("nillable", Boolean),
    FormatReference,
];

static LOCAL_ELEMENT: [Known; 6] = [
    Plain("minOccurs", Digits),
    Plain("maxOccurs", DigitsOrUnbounded),
    Plain("name", NcName),
    Plain("type", QName),
    Plain("nillable", Boolean),
    FormatReference,
];

static ELEMENT_REFERENCE: [Known; 4] = [
    Plain("minOccurs", Digits),
    Plain("maxOccurs", DigitsOrUnbounded),
    Plain("ref", QName),
    FormatReference,
];

static GROUP_REFERENCE: [Known; 4] = [
    Plain("minOccurs", One),
    Plain("maxOccurs", One),
    Plain("ref", QName),
    FormatReference,
];

static GROUP: [Known; 3] = [
    Plain("minOccurs", One),
    Plain("maxOccurs", One),
    FormatReference,
];

// The attributes of a construct that are looked at.
#[tactic(auto, unfolding(crate::specs::ValuesAllowed::attributes_of))]
pub(crate) fn attributes_of(role: Role) -> &'static [Known]
    ensures { map known_shown result.now ≡ attributes_of role }
{
    match role {
        Role::GlobalElement => &GLOBAL_ELEMENT,
        Role::LocalElement => &LOCAL_ELEMENT,
        Role::ElementReference => &ELEMENT_REFERENCE,
        Role::GlobalComplexType
        | Role::GlobalGroup
        | Role::DefineFormat
        | Role::DefineEscapeScheme
        | Role::Property => &[Plain("name", NcName)],
        Role::GlobalSimpleType => &[Plain("name", NcName), FormatReference],
        Role::LocalSimpleType => &[FormatReference],
        Role::Restriction => &[Plain("base", QName)],
        Role::MinLength | Role::MaxLength => &[Plain("value", Digits)],
        Role::GroupReference => &GROUP_REFERENCE,
        Role::Sequence | Role::Choice => &GROUP,
        Role::DefaultFormat
        | Role::DefinedFormat
        | Role::ComponentProperties
        | Role::SetVariable
        | Role::NewVariableInstance => &[Plain("ref", QName)],
        Role::DefineVariable => &[Plain("name", NcName), Plain("type", QName)],
        _ => &[],
    }
}
