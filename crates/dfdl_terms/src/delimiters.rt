use dfdl_forms::{Encoding, Literals};

/// Literals that one delimiter may be in the data ('Framing').
#[derive(Debug, Drop)]
pub struct Delimiters {
    pub literals: Literals,
    pub encoding: Encoding,
    /// An ASCII letter stands for its other case too.
    pub fold: bool,
}

/// The initiator or terminator of a component ('Framing').
#[derive(Debug, Clone, Copy, PartialEq, Eq)]
pub struct Delimiter {
    /// The number in the tables of its literals.
    pub list: u32,
    /// It stands in the nil representation too ('DFDL Data Syntax Grammar').
    pub in_nil: bool,
    /// It stands in the empty representation too ('DFDL Data Syntax Grammar').
    pub in_empty: bool,
    /// Where it is found, it resolves the innermost point of uncertainty ('Choices', on choices by a key with initiated content).
    pub resolves: bool,
}
