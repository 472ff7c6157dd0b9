// What is found at a place.

/// What is found at a place.
#[derive(Debug, Clone, Copy, PartialEq, Eq)]
pub enum Found {
    /// A text of the list at the place `which`, of so many bits.
    Match { which: usize, bits: u64 },
    /// No text.
    None,
    /// A byte that is needed hasn't come.
    NotYet,
    /// A byte that is needed is too far from the first that is still held.
    Over,
}

/// What is found at a place, and the greatest byte that was seen or missed plus one, or 0.
#[derive(Debug, Clone, Copy, PartialEq, Eq)]
pub struct Glance {
    pub found: Found,
    pub far: u64,
}
