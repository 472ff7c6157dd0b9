/// Where in an expression the next token stands. The flag tells whether the operands so far, back to the last `and` or
/// `or`, have been compared.
#[derive(Clone, Copy, Debug, PartialEq, Eq)]
pub(crate) enum Mark {
    /// Where an expression begins.
    Begin,
    /// Behind the parenthesis that opens a list of arguments.
    Arguments,
    /// Behind an operator.
    Operand(bool),
    /// Behind the sign of a negative value.
    Positive(bool),
    /// Behind a `$`.
    Variable(bool),
    /// Behind the `/` of a path.
    Step(bool),
    /// Behind an `if` with which an expression begins.
    BegunIf,
    /// Behind a name with which a path or a call begins.
    Callable(bool),
    /// Behind any other name of a path.
    Named(bool),
    /// Behind a step that has no index.
    Stepped(bool),
    /// Behind any other operand.
    Behind(bool),
    /// Behind the condition of an `if`.
    Closed,
}

/// What a mark is to the tokens that may stand there.
#[derive(Clone, Copy, Debug, PartialEq, Eq)]
pub(crate) enum Side {
    /// An operand may begin.
    Before,
    /// An operand may end.
    After,
    Neither,
}

/// What is open, with the flag of what it stands in.
#[derive(Clone, Copy, Debug, PartialEq, Eq)]
pub(crate) enum Frame {
    InGroup(bool),
    InCall(bool),
    InIndex(bool),
    /// Between `if` and `then`.
    InCondition,
    /// Between `then` and `else`.
    InConsequent,
}

/// What a token does.
#[derive(Clone, Copy, Debug, PartialEq, Eq)]
pub(crate) enum Act {
    Goes(Mark),
    /// Opens this.
    Enters(Frame, Mark),
    /// Closes what was opened last.
    Leaves(Mark),
}
