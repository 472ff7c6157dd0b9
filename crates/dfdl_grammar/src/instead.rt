/// What the content of the innermost open element is read by in place of its own primitive, by the representation that is tried
/// ('DFDL Data Syntax Grammar').
#[derive(Debug, Clone, Copy, PartialEq, Eq)]
pub enum Instead {
    /// The normal representation: nothing.
    Nothing,
    /// The nil representation: the primitive of this number in the tables, or its own, where that one tells values.
    Nil(u32),
    /// The empty representation: the primitive of this number in the tables.
    Empty(u32),
    /// Nothing, and the element that begins next is an occurrence that is tried, which never takes a default.
    Tried,
}
