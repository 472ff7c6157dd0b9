/// A byte of a schema document: `at`, counted from 0, in the document of this number.
#[derive(Debug, Clone, Copy, PartialEq, Eq)]
pub struct Place {
    pub document: u32,
    pub at: u64,
}
