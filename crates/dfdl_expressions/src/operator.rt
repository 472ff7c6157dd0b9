// The operators and functions of expressions, and what is asked of a path.
use dfdl_forms::Simple;
use dfdl_operators::Relation;

/// Operators and functions of one operand.
#[derive(Clone, Copy, Debug, PartialEq, Eq)]
pub enum UnaryOperator {
    /// `-` before a number
    Negative,
    Not,
    Absolute,
    Floor,
    Ceiling,
    StringLength,
    /// the constructor of a simple type
    Construct(Simple),
}

/// Operators and functions of two operands.
#[derive(Clone, Copy, Debug, PartialEq, Eq)]
pub enum BinaryOperator {
    Add,
    Subtract,
    Multiply,
    Divide,
    IntegerDivide,
    Modulo,
    Compare(Relation),
    Contains,
    StartsWith,
    EndsWith,
    /// `substring` of a text from a place on
    SubstringFrom,
}

/// Which length of an element is asked for.
#[derive(Clone, Copy, Debug, PartialEq, Eq)]
pub enum Extent {
    /// `valueLength`
    Value,
    /// `contentLength`
    Content,
}

/// In which unit a length is wanted.
#[derive(Clone, Copy, Debug, PartialEq, Eq)]
pub enum Unit {
    Bits,
    Bytes,
}

/// What is asked of a path.
#[derive(Clone, Copy, Debug, PartialEq, Eq)]
pub enum Question {
    /// the value of the item that it leads to
    Item,
    /// `count`: how many items it leads to
    Count,
    /// `exists`
    Exists,
    /// `empty`
    Empty,
    /// `valueLength` or `contentLength`
    Length(Extent, Unit),
}
