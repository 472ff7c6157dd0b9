use crate::node::Cell;
use crate::token::{Operator, Span};

/// What is open, and waits for an operand or for the token that closes it.
#[derive(Clone, Copy, Debug, PartialEq, Eq)]
pub(crate) enum Pending {
    /// The sign of a negative value.
    Negative,
    /// An operator whose left operand was read.
    Operation(Operator),
    /// Behind the `else` of a conditional.
    Alternative,
    /// Behind a parenthesis.
    Group,
    /// Among the arguments of a function of this name.
    Call(Span),
    /// Behind a `[`.
    Index,
    /// Between `if` and `then`.
    Condition,
    /// Between `then` and `else`.
    Consequent,
}

/// Where the next token stands.
#[derive(Clone, Copy, Debug, PartialEq, Eq)]
pub(crate) enum Place {
    /// An operand begins.
    Before,
    /// Behind a `$`.
    Variable,
    /// Behind the `/` of a path.
    Step,
    /// Behind what a parenthesis is due behind.
    Opening,
    /// Behind an operand.
    After,
    /// Behind the condition of an `if`.
    Closed,
}

/// What a token does: it puts up to two cells, may open something, and leads to a place.
#[derive(Clone, Copy, Debug, PartialEq, Eq)]
pub(crate) struct Move {
    pub(crate) first: Option<Cell>,
    pub(crate) second: Option<Cell>,
    pub(crate) opens: Option<Pending>,
    pub(crate) place: Place,
}
