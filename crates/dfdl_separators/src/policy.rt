// How a schema says where the separators of a group stand, and which may be missing.

/// Which optional slots may be there without content or be missing, `dfdl:separatorSuppressionPolicy`.
#[derive(Debug, Clone, Copy, PartialEq, Eq)]
pub enum SeparatorSuppressionPolicy {
    /// each slot has its separator
    Never,
    /// the last optional slots may be missing
    TrailingEmpty,
    /// they may be missing, and the last slot isn't an empty one
    TrailingEmptyStrict,
    /// any optional slot may be missing
    AnyEmpty,
}

/// Where the separator of a slot stands, `dfdl:separatorPosition`.
#[derive(Debug, Clone, Copy, PartialEq, Eq)]
pub enum SeparatorPosition {
    /// before each slot
    Prefix,
    /// between slots
    Infix,
    /// behind each slot
    Postfix,
}
