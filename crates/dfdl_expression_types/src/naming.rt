// Which function a name is of.
ghost use Rattle.std.specs.Prelude.{◌≡◌, option_map};
ghost use Rattle.dfdl_expression_types.specs.Callees as callees;

use crate::callee::Callee;
use crate::statics::{Statics, namespace_of};
use crate::words::{local_of, prefix_of};
use dfdl_forms::Simple;

/// Which functions a prefix stands for.
#[derive(Clone, Copy, Debug, PartialEq, Eq)]
enum Family {
    /// Those of truths, texts, numbers and paths.
    Plain,
    /// The constructors of simple types.
    Constructors,
    /// Those of DFDL's namespace.
    Dfdl,
    Unknown,
}

// All simple types.
#[tactic(auto, unfolding(crate::specs::Callees::simple_types))]
fn simple_types() -> &'static [Simple]
    ensures { result.now ≡ callees.simple_types }
{
    &[
        Simple::String,
        Simple::HexBinary,
        Simple::Boolean,
        Simple::Decimal,
        Simple::Integer,
        Simple::NonNegativeInteger,
        Simple::Byte,
        Simple::Short,
        Simple::Int,
        Simple::Long,
        Simple::UnsignedByte,
        Simple::UnsignedShort,
        Simple::UnsignedInt,
        Simple::UnsignedLong,
    ]
}

// The name of a simple type.
fn name_of(simple: Simple) -> &'static str
    ensures { result.now ≡ callees.name_of simple }
{
    match simple {
        Simple::String => "string",
        Simple::HexBinary => "hexBinary",
        Simple::Boolean => "boolean",
        Simple::Decimal => "decimal",
        Simple::Integer => "integer",
        Simple::NonNegativeInteger => "nonNegativeInteger",
        Simple::Byte => "byte",
        Simple::Short => "short",
        Simple::Int => "int",
        Simple::Long => "long",
        Simple::UnsignedByte => "unsignedByte",
        Simple::UnsignedShort => "unsignedShort",
        Simple::UnsignedInt => "unsignedInt",
        Simple::UnsignedLong => "unsignedLong",
    }
}

// The simple type of a name.
fn simple_named(local: &[u8]) -> Option<Simple>
    ensures { result ≡ callees.simple_named local.now }
{
    for simple in simple_types() {
        if name_of(*simple).as_bytes() == local {
            return Some(*simple);
        }
    }
    None
}

// The functions of a namespace.
#[tactic(auto, unfolding(crate::specs::Callees::schema_namespace, crate::specs::Callees::dfdl_namespace))]
fn family_in(namespace: Option<&[u8]>) -> Family
    ensures { result ≡ callees.family_in (option_map (λ n. n.now) namespace.entry) }
{
    match namespace {
        Some(namespace) => {
            if namespace == b"http://www.w3.org/2001/XMLSchema".as_slice() {
                Family::Constructors
            } else if namespace == b"http://www.ogf.org/dfdl/dfdl-1.0/".as_slice() {
                Family::Dfdl
            } else {
                Family::Unknown
            }
        }
        None => Family::Unknown,
    }
}

// The functions of a prefix.
fn family_of(statics: &Statics<'_>, prefix: Option<&[u8]>) -> Family
    ensures { result ≡ callees.family_of statics.now (option_map (λ n. n.now) prefix.entry) }
{
    match prefix {
        None => Family::Plain,
        Some(prefix) => {
            if prefix == b"fn".as_slice() {
                return Family::Plain;
            }
            family_in(namespace_of(statics, prefix))
        }
    }
}

// The function without a prefix of a local name.
#[tactic(auto, unfolding(crate::specs::Callees::plain_named))]
fn plain_named(local: &[u8]) -> Option<Callee>
    ensures { result ≡ callees.plain_named local.now }
{
    if local == b"true".as_slice() {
        Some(Callee::True)
    } else if local == b"false".as_slice() {
        Some(Callee::False)
    } else if local == b"not".as_slice() {
        Some(Callee::Not)
    } else if local == b"concat".as_slice() {
        Some(Callee::Concat)
    } else if local == b"string-length".as_slice() {
        Some(Callee::StringLength)
    } else if local == b"substring".as_slice() {
        Some(Callee::Substring)
    } else if local == b"contains".as_slice() {
        Some(Callee::Contains)
    } else if local == b"starts-with".as_slice() {
        Some(Callee::StartsWith)
    } else if local == b"ends-with".as_slice() {
        Some(Callee::EndsWith)
    } else if local == b"abs".as_slice() {
        Some(Callee::Absolute)
    } else if local == b"floor".as_slice() {
        Some(Callee::Floor)
    } else if local == b"ceiling".as_slice() {
        Some(Callee::Ceiling)
    } else if local == b"count".as_slice() {
        Some(Callee::Count)
    } else if local == b"exists".as_slice() {
        Some(Callee::Exists)
    } else if local == b"empty".as_slice() {
        Some(Callee::Empty)
    } else {
        None
    }
}

// The function of DFDL's namespace of a local name.
#[tactic(auto, unfolding(crate::specs::Callees::dfdl_named))]
fn dfdl_named(local: &[u8]) -> Option<Callee>
    ensures { result ≡ callees.dfdl_named local.now }
{
    if local == b"valueLength".as_slice() {
        Some(Callee::ValueLength)
    } else if local == b"contentLength".as_slice() {
        Some(Callee::ContentLength)
    } else if local == b"occursIndex".as_slice() {
        Some(Callee::OccursIndex)
    } else {
        None
    }
}

// The function of a local name.
fn callee_in(family: Family, local: &[u8]) -> Option<Callee>
    ensures { result ≡ callees.callee_in family local.now }
{
    match family {
        Family::Plain => plain_named(local),
        Family::Constructors => match simple_named(local) {
            Some(simple) => Some(Callee::Construct(simple)),
            None => None,
        },
        Family::Dfdl => dfdl_named(local),
        Family::Unknown => None,
    }
}

/// The function of a name, which is bytes of an expression's text.
pub fn callee_of(statics: &Statics<'_>, word: &[u8]) -> Option<Callee>
    ensures { result ≡ callees.callee_of statics.now word.now }
{
    callee_in(family_of(statics, prefix_of(word)), local_of(word))
}
