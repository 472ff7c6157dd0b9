/// An element of the document of a number. Both are counted from 0.
#[derive(Debug, Clone, Copy, PartialEq, Eq)]
pub struct Site {
    pub document: u32,
    pub element: u32,
}
