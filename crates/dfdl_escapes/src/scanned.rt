// What a step of a scan comes to.
use dfdl_report::ParseCause;

/// What a step of a scan comes to.
#[derive(Debug, Clone, Copy, PartialEq, Eq)]
pub enum Scanned {
    /// A character.
    Content(char),
    /// A character that is escaped, or in a block.
    Escaped(char),
    /// A mark that gives no character.
    Skipped,
    /// Terminating markup, of the list at the place `which`.
    Ends { which: usize },
    /// The end of the box or of the data.
    EndOfBox,
    /// The content is broken.
    Broken(ParseCause),
    /// A byte that is needed hasn't come.
    NotYet,
    /// A byte that is needed is too far from the first that is still held.
    Over,
}

/// What a step comes to, and the greatest byte that was seen or missed plus one, or 0.
#[derive(Debug, Clone, Copy, PartialEq, Eq)]
pub struct Glance {
    pub scanned: Scanned,
    pub far: u64,
}
