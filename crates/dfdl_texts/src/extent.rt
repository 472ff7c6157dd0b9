// How far a text goes.

/// How far a text goes: up to the end of its box, over so many characters, or as far as there are characters.
#[derive(Debug, Clone, Copy, PartialEq, Eq)]
pub enum Extent {
    /// Up to the end of its box.
    Box,
    /// Over so many characters.
    Characters(u64),
    /// Up to the first bad unit, the end of the data or the end of its box.
    Front,
}
