// The functions of expressions.
ghost use Rattle.std.specs.Prelude.{◌≡◌};
ghost use Rattle.dfdl_expression_types.specs.Callees as callees;

use crate::types::{Types, ValueType};
use dfdl_forms::Simple;
use std::alloc::{AllocError, Global};
use std::marker::Model;

/// A function of expressions.
#[derive(Clone, Copy, Debug, PartialEq, Eq)]
pub enum Callee {
    True,
    False,
    Not,
    Concat,
    StringLength,
    Substring,
    Contains,
    StartsWith,
    EndsWith,
    Absolute,
    Floor,
    Ceiling,
    Count,
    Exists,
    Empty,
    ValueLength,
    ContentLength,
    OccursIndex,
    /// The constructor of a simple type.
    Construct(Simple),
}

/// What an argument has to be.
#[derive(Clone, Copy, Debug, PartialEq, Eq)]
pub(crate) enum Need {
    /// A value of one of these types.
    Value(Types),
    /// A path alone.
    Path,
    /// A unit of length, as a text in quotes.
    Unit,
}

/// How an argument is written.
#[derive(Clone, Copy, Debug, PartialEq, Eq)]
pub(crate) enum Given {
    Path,
    /// A text in quotes that is a unit of length.
    Unit,
    /// In another way.
    Plain,
}

/// An argument of a call.
#[derive(Clone, Copy, Debug, PartialEq, Eq)]
pub(crate) struct Argument {
    pub(crate) types: Types,
    pub(crate) given: Given,
}

impl Callee {
    /// Whether it takes so many arguments.
    fn takes(self, count: usize) -> bool
        ensures { result ≡ callees.takes self count }
    {
        match self {
            Callee::True | Callee::False | Callee::OccursIndex => count == 0,
            Callee::Concat => count >= 2,
            Callee::Substring => count == 2 || count == 3,
            Callee::Contains
            | Callee::StartsWith
            | Callee::EndsWith
            | Callee::ValueLength
            | Callee::ContentLength => count == 2,
            Callee::Not
            | Callee::StringLength
            | Callee::Absolute
            | Callee::Floor
            | Callee::Ceiling
            | Callee::Count
            | Callee::Exists
            | Callee::Empty
            | Callee::Construct(_) => count == 1,
        }
    }

    /// What the argument at a place has to be, from 0 on.
    fn need_at(self, place: usize) -> Need
        ensures { result ≡ callees.need_at self place }
    {
        match self {
            Callee::True | Callee::False | Callee::OccursIndex => Need::Value(Types::every()),
            Callee::Substring => Need::Value(Types::only(if place == 0 {
                ValueType::Text
            } else {
                ValueType::Number
            })),
            Callee::Concat
            | Callee::Contains
            | Callee::StartsWith
            | Callee::EndsWith
            | Callee::StringLength => Need::Value(Types::only(ValueType::Text)),
            Callee::ValueLength | Callee::ContentLength => {
                if place == 0 { Need::Path } else { Need::Unit }
            }
            Callee::Not => Need::Value(Types::only(ValueType::Truth)),
            Callee::Absolute | Callee::Floor | Callee::Ceiling => {
                Need::Value(Types::only(ValueType::Number))
            }
            Callee::Count | Callee::Exists | Callee::Empty => Need::Path,
            Callee::Construct(_) => Need::Value(Types::with_constructors()),
        }
    }

    /// The types of what it gives.
    pub(crate) fn gives(self) -> Types
        ensures { result ≡ callees.gives self }
    {
        match self {
            Callee::Concat | Callee::Substring => Types::only(ValueType::Text),
            Callee::True
            | Callee::False
            | Callee::Not
            | Callee::Contains
            | Callee::StartsWith
            | Callee::EndsWith
            | Callee::Exists
            | Callee::Empty => Types::only(ValueType::Truth),
            Callee::StringLength
            | Callee::Absolute
            | Callee::Floor
            | Callee::Ceiling
            | Callee::Count
            | Callee::ValueLength
            | Callee::ContentLength
            | Callee::OccursIndex => Types::only(ValueType::Number),
            Callee::Construct(simple) => Types::only(ValueType::of(simple)),
        }
    }

    /// Whether it takes these arguments.
    fn accepts(self, arguments: &[Argument]) -> bool
        ensures { result ≡ callees.accepts self arguments.now }
    {
        self.takes(arguments.len()) && self.are_met(arguments)
    }

    /// Whether each argument is what it has to be.
    fn are_met(self, arguments: &[Argument]) -> bool
        ensures { result ≡ callees.are_met self 0 arguments.now }
    {
        for (place, argument) in arguments.iter().enumerate() {
            if !self.need_at(place).is_met(*argument) {
                return false;
            }
        }
        true
    }
}

impl Need {
    /// Whether an argument is what is needed.
    fn is_met(self, argument: Argument) -> bool
        ensures { result ≡ callees.is_met self argument }
    {
        match self {
            Need::Value(wanted) => !wanted.is_apart(argument.types),
            Need::Path => argument.given.is_path(),
            Need::Unit => argument.given.is_unit(),
        }
    }
}

impl Given {
    fn is_path(self) -> bool
        ensures { result ≡ callees.is_path self }
    {
        match self {
            Given::Path => true,
            Given::Unit | Given::Plain => false,
        }
    }

    fn is_unit(self) -> bool
        ensures { result ≡ callees.is_unit self }
    {
        match self {
            Given::Unit => true,
            Given::Path | Given::Plain => false,
        }
    }
}

/// Whether the function of a name takes these arguments, where there is one.
pub(crate) fn is_call(function: Option<Callee>, arguments: &[Argument]) -> bool
    ensures { result ≡ callees.is_call function arguments.now }
{
    match function {
        Some(function) => function.accepts(arguments),
        None => false,
    }
}

/// The types of what the function of a name gives.
pub(crate) fn given_by(function: Option<Callee>) -> Types
    ensures { result ≡ callees.given_by function }
{
    match function {
        Some(function) => function.gives(),
        None => Types::every(),
    }
}

/// Arguments of a call, in their order. A contract sees them as their list.
#[derive(Debug, Drop)]
pub(crate) struct ArgumentList {
    arguments: Vec<Argument>,
}

impl Model for ArgumentList {
    ghost use Rattle.std.specs.Prelude.{List};
    ghost use Rattle.dfdl_expression_types.specs.declared.callee.Argument.{Argument as ArgumentOf};

    ghost Value = { List ArgumentOf };

    ghost view = { λ l. l.arguments.items };
}

impl ArgumentList {
    ghost use Rattle.std.specs.Prelude.{◌≡◌, ◌++◌, ◌∷◌, [], IfOk};

    pub(crate) fn new(alloc: Global) -> ArgumentList
        ensures { result ≡ [] }
    {
        ArgumentList {
            arguments: Vec::new(alloc),
        }
    }

    pub(crate) fn as_slice(&self) -> &[Argument]
        ensures { result.now ≡ self.now }
    {
        self.arguments.as_slice()
    }

    /// The arguments with one more behind them.
    pub(crate) fn with(self, argument: Argument) -> Result<ArgumentList, AllocError>
        ensures { IfOk result (λ more. more ≡ self ++ argument ∷ []) }
    {
        let ArgumentList { mut arguments } = self;
        arguments.push(argument)?;
        Ok(ArgumentList { arguments })
    }
}
