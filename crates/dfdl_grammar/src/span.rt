/// Where the box of a simple content ends, and how long the value in it is ('Simple Types', 'DFDL Expression Language').
#[derive(Debug, Clone, Copy, PartialEq, Eq)]
pub struct Span {
    /// the bit behind the box
    pub end: u64,
    /// how many bits of the data are the value's
    pub value: u64,
}
