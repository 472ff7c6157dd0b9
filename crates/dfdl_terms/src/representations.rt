/// The empty representation of an occurrence that is tried, which never takes a default ('DFDL Data Syntax Grammar').
#[derive(Debug, Clone, Copy, PartialEq, Eq)]
pub struct WhereTried {
    /// Its primitive, where it is tried.
    pub empty: Option<u32>,
    /// The element fails where its empty representation is found.
    pub refuses_empty: bool,
    /// More than one representation can be tried.
    pub are_several: bool,
}

/// Which representations of an element are tried before its normal one, in this order, and by which primitives of the tables
/// their content is read in place of that of the element ('DFDL Data Syntax Grammar').
#[derive(Debug, Clone, Copy, PartialEq, Eq)]
pub struct Representations {
    /// The primitive of the nil representation, where that is tried; one that tells values leaves the element's own in its place.
    pub nil: Option<u32>,
    /// The primitive of the empty representation, where that is tried.
    pub empty: Option<u32>,
    /// The element fails where its empty representation is found: it has no value to take there.
    pub refuses_empty: bool,
    /// More than one representation can be tried, so the data are needed from the bit on at which the element begins.
    pub are_several: bool,
    /// What stands in place of `empty`, `refuses_empty` and `are_several` for an occurrence that is tried.
    pub where_tried: WhereTried,
}
