use dfdl_report::{LimitCause, ParseCause, VariableCause};

/// What a session has come to.
#[derive(Debug, Clone, Copy, PartialEq, Eq)]
pub enum Outcome {
    /// The document isn't parsed yet.
    Open,
    Done,
    /// A processing error, at a bit of the data.
    Failed { cause: ParseCause, bit: u64 },
    /// A limit was reached, which allows this quantity.
    Limit { cause: LimitCause, quantity: u64 },
    /// A variable can't be set, at a bit of the data.
    Variable { cause: VariableCause, bit: u64 },
    /// There was not enough memory.
    OutOfMemory,
}

/// What a session makes of a piece.
#[derive(Debug, Clone, Copy, PartialEq, Eq)]
pub enum Fed {
    /// More is needed, and the piece was taken whole.
    More,
    /// The document has come to its outcome, for which so many bytes of the piece were taken. The others aren't held.
    Done { taken: usize },
}
