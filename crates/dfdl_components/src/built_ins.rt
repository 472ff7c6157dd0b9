// The simple types of XML Schema.
ghost use Rattle.std.specs.Prelude.{◌≡◌, map};
ghost use Rattle.dfdl_components.specs.BuiltIns.{carried_types, other_types};
ghost use Rattle.dfdl_components.specs.Naming.{built_in, is_among};

use crate::Named;

// The simple types that are carried.
#[tactic(auto, unfolding(crate::specs::BuiltIns::carried_types))]
fn carried_types() -> &'static [&'static str]
    ensures { map (λ name. name.now) result.now ≡ carried_types }
{
    &[
        "string",
        "hexBinary",
        "boolean",
        "decimal",
        "integer",
        "nonNegativeInteger",
        "byte",
        "short",
        "int",
        "long",
        "unsignedByte",
        "unsignedShort",
        "unsignedInt",
        "unsignedLong",
    ]
}

// The others that XML Schema knows.
#[tactic(auto, unfolding(crate::specs::BuiltIns::other_types))]
fn other_types() -> &'static [&'static str]
    ensures { map (λ name. name.now) result.now ≡ other_types }
{
    &[
        "float",
        "double",
        "duration",
        "dateTime",
        "time",
        "date",
        "gYearMonth",
        "gYear",
        "gMonthDay",
        "gDay",
        "gMonth",
        "base64Binary",
        "anyURI",
        "QName",
        "NOTATION",
        "normalizedString",
        "token",
        "language",
        "NMTOKEN",
        "NMTOKENS",
        "Name",
        "NCName",
        "ID",
        "IDREF",
        "IDREFS",
        "ENTITY",
        "ENTITIES",
        "nonPositiveInteger",
        "negativeInteger",
        "positiveInteger",
        "anyType",
        "anySimpleType",
    ]
}

// The text is one of these.
fn is_among(texts: &[&str], text: &str) -> bool
    ensures { result ≡ is_among (map (λ other. other.now) texts.now) text.now }
{
    for other in texts {
        if *other == text {
            return true;
        }
    }
    false
}

/// The simple type of XML Schema's of a local name, if there is one.
pub(crate) fn built_in(local: &str) -> Option<Named>
    ensures { result ≡ built_in local.now }
{
    if is_among(carried_types(), local) {
        return Some(Named::Carried);
    }
    if is_among(other_types(), local) {
        return Some(Named::NotCarried);
    }
    None
}
