/// Which bit of a byte comes first, `dfdl:bitOrder`.
#[derive(Debug, Clone, Copy, PartialEq, Eq, Drop)]
pub enum BitOrder {
    /// The most significant bit of a byte is its first.
    MostFirst,
    /// The least significant bit of a byte is its first.
    LeastFirst,
}

/// Which group of eight bits of a number comes first, `dfdl:byteOrder`.
#[derive(Debug, Clone, Copy, PartialEq, Eq, Drop)]
pub enum ByteOrder {
    /// The most significant group comes first.
    Big,
    /// The least significant group comes first.
    Little,
}
