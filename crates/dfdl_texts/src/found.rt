// What a text comes to.

/// What a text comes to.
#[derive(Debug, Clone, Copy, PartialEq, Eq)]
pub enum Found {
    /// Its characters, and the byte behind it.
    Reads { end: u64 },
    /// A bad unit, where bad units aren't replaced.
    HasBad,
    /// The data end before its end.
    IsCut,
    /// The box ends before its last character.
    IsBoxed,
    /// A byte of it is too far from the first that is still needed.
    TooFar,
    /// A byte of it hasn't come.
    NotYet,
}

/// What a text comes to, and the greatest byte that was seen or missed plus one, or 0.
#[derive(Debug, Clone, Copy, PartialEq, Eq)]
pub struct Glance {
    pub found: Found,
    pub far: u64,
}
