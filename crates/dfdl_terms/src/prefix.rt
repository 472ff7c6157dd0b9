/// What a length counts ('Lengths', on lengthUnits).
#[derive(Debug, Clone, Copy, PartialEq, Eq)]
pub enum LengthUnit {
    Bits,
    Bytes,
    Characters,
}

/// How long a content is by an expression, which counts these units ('Lengths', on lengthKind explicit).
#[derive(Debug, Clone, Copy, PartialEq, Eq)]
pub struct Measure {
    /// The number of the question in the tables.
    pub question: u32,
    pub unit: LengthUnit,
}

/// What tells how long a content is that stands behind it: a number, or what a pattern matches in the content itself
/// ('Lengths', on lengthKind prefixed and pattern).
#[derive(Debug, Clone, Copy, PartialEq, Eq)]
pub struct Prefix {
    /// It is read by the primitive of this number in the tables, as an integer; a pattern takes no bits.
    pub prim: u32,
    pub unit: LengthUnit,
    /// So many of the units that it counts are its own.
    pub own: u64,
}
