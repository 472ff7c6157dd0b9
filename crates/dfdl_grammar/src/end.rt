use dfdl_report::{LimitCause, ParseCause, VariableCause};

/// What ends the parsing of a document at once: behind it nothing is tried ('Parsing Algorithm').
#[derive(Debug, Clone, Copy, PartialEq, Eq)]
pub enum Halt {
    /// A limit was reached.
    Limit(LimitCause),
    /// A variable can't be set.
    Variable(VariableCause),
}

/// How the work of a row ends.
#[derive(Debug, Clone, Copy, PartialEq, Eq)]
pub enum End {
    Done,
    /// A processing error, at a bit of the data.
    Failed { cause: ParseCause, bit: u64 },
    /// Parsing ends at once. The quantity is what a limit allows, or the bit at which a variable can't be set.
    Stopped { cause: Halt, quantity: u64 },
}
