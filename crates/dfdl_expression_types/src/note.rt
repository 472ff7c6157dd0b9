// What is known of a part of an expression.
ghost use Rattle.std.specs.Prelude.{◌≡◌, IfOk};
ghost use Rattle.dfdl_expression_types.specs.Notes as notes;
ghost use Rattle.dfdl_expression_types.specs.Running as running;

use crate::callee::{Argument, ArgumentList, Given};
use crate::places::{PlaceList, path_types};
use crate::statics::Statics;
use crate::types::{Types, ValueType};
use std::alloc::Global;

/// What is wrong in a part of an expression.
#[derive(Clone, Copy, Debug, PartialEq, Eq)]
pub(crate) struct Faults {
    /// Types that don't fit.
    pub(crate) types: bool,
    /// A path that leads to no declaration.
    pub(crate) path: bool,
    /// A variable that isn't declared.
    pub(crate) variable: bool,
}

/// What a part of an expression is.
#[derive(Debug, Drop)]
pub(crate) enum Shape {
    /// A value of one of these types.
    Value(Types),
    /// A text in quotes that is a unit of length.
    Unit,
    /// A path, and where it leads.
    Path(PlaceList),
    /// The arguments of a call, as far as they have come.
    Arguments(ArgumentList),
}

/// A part of an expression, and what is wrong in it.
#[derive(Debug, Drop)]
pub(crate) struct Note {
    pub(crate) shape: Shape,
    pub(crate) faults: Faults,
}

impl Faults {
    pub(crate) fn none() -> Faults
        ensures { result ≡ notes.no_fault }
    {
        Faults {
            types: false,
            path: false,
            variable: false,
        }
    }

    /// What is wrong in one of two parts.
    pub(crate) fn join(self, other: Faults) -> Faults
        ensures { result ≡ notes.joined self other }
    {
        Faults {
            types: self.types || other.types,
            path: self.path || other.path,
            variable: self.variable || other.variable,
        }
    }

    /// Types don't fit by this test, or didn't before.
    pub(crate) fn or_types(self, wrong: bool) -> Faults
        ensures { result ≡ notes.or_types wrong self }
    {
        Faults {
            types: wrong || self.types,
            ..self
        }
    }

    /// A path leads nowhere by this test, or did before.
    pub(crate) fn or_path(self, wrong: bool) -> Faults
        ensures { result ≡ notes.or_path wrong self }
    {
        Faults {
            path: wrong || self.path,
            ..self
        }
    }
}

impl Shape {
    /// The types of the part.
    pub(crate) fn types(&self, statics: &Statics<'_>) -> Types
        ensures { result ≡ notes.types_of statics.now self.now }
    {
        match self {
            Shape::Value(types) => *types,
            Shape::Unit => Types::only(ValueType::Text),
            Shape::Path(places) => path_types(statics, places.as_slice()),
            Shape::Arguments(_) => Types::every(),
        }
    }

    /// Where a path leads.
    pub(crate) fn into_places(self, alloc: Global) -> PlaceList
        ensures { result ≡ notes.places_of self }
    {
        match self {
            Shape::Path(places) => places,
            Shape::Value(_) | Shape::Unit | Shape::Arguments(_) => PlaceList::new(alloc),
        }
    }

    /// The arguments of a call.
    pub(crate) fn into_arguments(self, alloc: Global) -> ArgumentList
        ensures { result ≡ notes.arguments_of self }
    {
        match self {
            Shape::Arguments(arguments) => arguments,
            Shape::Value(_) | Shape::Unit | Shape::Path(_) => ArgumentList::new(alloc),
        }
    }

    fn given(&self) -> Given
        ensures { result ≡ notes.given_as self.now }
    {
        match self {
            Shape::Path(_) => Given::Path,
            Shape::Unit => Given::Unit,
            Shape::Value(_) | Shape::Arguments(_) => Given::Plain,
        }
    }

    /// The part as an argument of a call.
    pub(crate) fn as_argument(&self, statics: &Statics<'_>) -> Argument
        ensures { result ≡ notes.argument_of statics.now self.now }
    {
        Argument {
            types: self.types(statics),
            given: self.given(),
        }
    }
}

impl Note {
    /// A part in which nothing is wrong.
    pub(crate) fn sound(shape: Shape) -> Note
        ensures { result ≡ notes.note shape notes.no_fault }
    {
        Note {
            shape,
            faults: Faults::none(),
        }
    }

    /// What stands for an operand that isn't there.
    pub(crate) fn nothing() -> Note
        ensures { result ≡ running.nothing }
    {
        Note::sound(Shape::Value(Types::every()))
    }
}
