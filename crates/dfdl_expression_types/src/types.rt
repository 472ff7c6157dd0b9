// Sets of types.
ghost use Rattle.std.specs.Prelude.{◌≡◌, true, false};
ghost use Rattle.dfdl_expression_types.specs.TypeSets as sets;

use dfdl_forms::{Form, Simple};

/// A type of values in expressions.
#[derive(Clone, Copy, Debug, PartialEq, Eq)]
pub enum ValueType {
    Number,
    Text,
    Truth,
    Bytes,
}

/// The types that a value may have.
#[derive(Clone, Copy, Debug, PartialEq, Eq)]
pub struct Types {
    pub number: bool,
    pub text: bool,
    pub truth: bool,
    pub bytes: bool,
}

fn set_of(number: bool, text: bool, truth: bool, bytes: bool) -> Types
    ensures { result ≡ sets.types number text truth bytes }
{
    Types {
        number,
        text,
        truth,
        bytes,
    }
}

impl ValueType {
    /// The type of a simple type's values.
    pub fn of(simple: Simple) -> ValueType
        ensures { result ≡ sets.type_of simple }
    {
        match simple.form() {
            Form::Signed { .. } | Form::Unsigned { .. } | Form::Fixed => ValueType::Number,
            Form::Characters => ValueType::Text,
            Form::Truths => ValueType::Truth,
            Form::Octets => ValueType::Bytes,
        }
    }
}

impl Types {
    /// The set of one type.
    pub fn only(kind: ValueType) -> Types
        ensures { result ≡ sets.only kind }
    {
        match kind {
            ValueType::Number => set_of(true, false, false, false),
            ValueType::Text => set_of(false, true, false, false),
            ValueType::Truth => set_of(false, false, true, false),
            ValueType::Bytes => set_of(false, false, false, true),
        }
    }

    /// All types.
    pub fn every() -> Types
        ensures { result ≡ sets.every }
    {
        set_of(true, true, true, true)
    }

    /// No type.
    pub(crate) fn none() -> Types
        ensures { result ≡ sets.no_type }
    {
        set_of(false, false, false, false)
    }

    /// Those of which there are constructors: all but bytes.
    pub(crate) fn with_constructors() -> Types
        ensures { result ≡ sets.types true true true false }
    {
        set_of(true, true, true, false)
    }

    /// The types of both sets.
    pub fn both(self, other: Types) -> Types
        ensures { result ≡ sets.both self other }
    {
        Types {
            number: self.number && other.number,
            text: self.text && other.text,
            truth: self.truth && other.truth,
            bytes: self.bytes && other.bytes,
        }
    }

    /// The types of either set.
    pub(crate) fn either(self, other: Types) -> Types
        ensures { result ≡ sets.either self other }
    {
        Types {
            number: self.number || other.number,
            text: self.text || other.text,
            truth: self.truth || other.truth,
            bytes: self.bytes || other.bytes,
        }
    }

    /// Whether there is no type in the set.
    pub fn is_empty(self) -> bool
        ensures { result ≡ sets.is_empty self }
    {
        !self.number && !self.text && !self.truth && !self.bytes
    }

    /// Whether no type is in both sets.
    pub(crate) fn is_apart(self, other: Types) -> bool
        ensures { result ≡ sets.are_apart self other }
    {
        self.both(other).is_empty()
    }
}
