// The characters of a content.

/// A character of a content, and whether it is escaped or in a block.
#[derive(Debug, Clone, Copy, PartialEq, Eq, Drop)]
pub struct Character {
    pub c: char,
    pub is_escaped: bool,
}
