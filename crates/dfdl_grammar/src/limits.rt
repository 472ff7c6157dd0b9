/// What parsing may take.
#[derive(Debug, Clone, Copy, PartialEq, Eq)]
pub struct Limits {
    /// how many bytes there are at most from the first that is still needed to any that is looked at
    pub window: u32,
    /// how many elements a document has at most
    pub nodes: u32,
    /// how many bytes the strings and hexBinary values of a document have at most
    pub text: u32,
}
