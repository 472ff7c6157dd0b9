// The simple types, and the form of their values.
/// The simple types that are carried, by their names in XML Schema.
#[derive(Clone, Copy, Debug, PartialEq, Eq)]
pub enum Simple {
    String,
    HexBinary,
    Boolean,
    Decimal,
    Integer,
    NonNegativeInteger,
    Byte,
    Short,
    Int,
    Long,
    UnsignedByte,
    UnsignedShort,
    UnsignedInt,
    UnsignedLong,
}

/// The form of a type's values.
#[derive(Clone, Copy, Debug, PartialEq, Eq)]
pub enum Form {
    /// Whole numbers from -2^(`bits` - 1) to 2^(`bits` - 1) - 1.
    Signed { bits: u32 },
    /// Whole numbers from 0 to 2^`bits` - 1.
    Unsigned { bits: u32 },
    /// Decimal numbers that `Fixed` carries.
    Fixed,
    /// Texts.
    Characters,
    /// True and false.
    Truths,
    /// Bytes.
    Octets,
}

impl Simple {
    ghost use Rattle.std.specs.Prelude.{◌≡◌};
    ghost use Rattle.dfdl_forms.specs.Types.{form_of, HasFewBits};

    pub fn form(self) -> Form
        ensures form { result ≡ form_of self }
        ensures bits { HasFewBits result }
    {
        match self {
            Simple::String => Form::Characters,
            Simple::HexBinary => Form::Octets,
            Simple::Boolean => Form::Truths,
            Simple::Decimal => Form::Fixed,
            Simple::Integer => Form::Signed { bits: 128 },
            Simple::NonNegativeInteger => Form::Unsigned { bits: 128 },
            Simple::Byte => Form::Signed { bits: 8 },
            Simple::Short => Form::Signed { bits: 16 },
            Simple::Int => Form::Signed { bits: 32 },
            Simple::Long => Form::Signed { bits: 64 },
            Simple::UnsignedByte => Form::Unsigned { bits: 8 },
            Simple::UnsignedShort => Form::Unsigned { bits: 16 },
            Simple::UnsignedInt => Form::Unsigned { bits: 32 },
            Simple::UnsignedLong => Form::Unsigned { bits: 64 },
        }
    }
}
