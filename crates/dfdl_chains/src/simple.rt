// The simple types of XML Schema that are carried, by their names.
ghost use Rattle.std.specs.Prelude.{◌≡◌};
ghost use Rattle.dfdl_chains.specs.Types as types;

use dfdl_forms::Simple;

// All of them.
#[tactic(auto, unfolding(crate::specs::Types::simple_types))]
fn simple_types() -> &'static [Simple]
    ensures { result.now ≡ types.simple_types }
{
    &[
        Simple::String,
        Simple::HexBinary,
        Simple::Boolean,
        Simple::Decimal,
        Simple::Integer,
        Simple::NonNegativeInteger,
        Simple::Byte,
        Simple::Short,
        Simple::Int,
        Simple::Long,
        Simple::UnsignedByte,
        Simple::UnsignedShort,
        Simple::UnsignedInt,
        Simple::UnsignedLong,
    ]
}

// The local name of a simple type.
fn name_of(simple: Simple) -> &'static str
    ensures { result.now ≡ types.name_of simple }
{
    match simple {
        Simple::String => "string",
        Simple::HexBinary => "hexBinary",
        Simple::Boolean => "boolean",
        Simple::Decimal => "decimal",
        Simple::Integer => "integer",
        Simple::NonNegativeInteger => "nonNegativeInteger",
        Simple::Byte => "byte",
        Simple::Short => "short",
        Simple::Int => "int",
        Simple::Long => "long",
        Simple::UnsignedByte => "unsignedByte",
        Simple::UnsignedShort => "unsignedShort",
        Simple::UnsignedInt => "unsignedInt",
        Simple::UnsignedLong => "unsignedLong",
    }
}

/// The simple type of a local name.
pub(crate) fn simple_named(local: &str) -> Option<Simple>
    ensures { result ≡ types.simple_named local.now }
{
    for simple in simple_types() {
        if name_of(*simple) == local {
            return Some(*simple);
        }
    }
    None
}
