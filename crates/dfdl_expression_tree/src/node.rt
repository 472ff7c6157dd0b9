use crate::token::{Operator, Span};

/// A part of a tree that has no operands.
#[derive(Clone, Copy, Debug, PartialEq, Eq)]
pub enum Leaf {
    /// A number, as it is written.
    Number(Span),
    /// A text, with its quotes.
    Text(Span),
    /// A variable, by the name behind its `$`.
    Variable(Span),
    /// Where a path begins that has no `/` before its first step.
    Context,
    /// Where a path begins that has one.
    Root,
    /// The arguments of a call, of which there are none so far.
    NoArguments,
}

/// A part of a tree that has one operand.
#[derive(Clone, Copy, Debug, PartialEq, Eq)]
pub enum Unary {
    /// The step `.` behind a path.
    Here,
    /// The step `..` behind a path.
    Parent,
    /// A step by name behind a path.
    Child(Span),
    /// A call of the function of this name with arguments.
    Call(Span),
    /// A value with its sign changed.
    Negative,
}

/// A part of a tree that has two operands.
#[derive(Clone, Copy, Debug, PartialEq, Eq)]
pub enum Binary {
    Operation(Operator),
    /// Arguments of a call, and one more behind them.
    Argument,
    /// A path, and an index behind its last step.
    Item,
}

/// A node of a tree, with the numbers of its operands.
#[derive(Clone, Copy, Debug, PartialEq, Eq)]
pub enum Node {
    Leaf(Leaf),
    Unary(Unary, usize),
    /// With its left operand and its right one.
    Binary(Binary, usize, usize),
    /// A conditional: what is tested, what `then` and what `else`.
    Choice(usize, usize, usize),
}

/// A node without numbers.
#[derive(Clone, Copy, Debug, PartialEq, Eq)]
pub(crate) enum Cell {
    Leaf(Leaf),
    Unary(Unary),
    Binary(Binary),
    Choice,
}

/// The syntax tree of an expression: its nodes, where operands stand before what they are operands of. The last is the whole.
#[derive(Drop)]
pub struct Tree {
    pub nodes: Vec<Node>,
}
