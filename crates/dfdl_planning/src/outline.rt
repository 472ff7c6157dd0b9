// What is known of a component by itself and its parts.

use dfdl_outline::Needs;

/// How the occurrences of a component are taken where it stands in a group ('Properties for Array Elements and Optional Elements').
#[derive(Debug, Clone, Copy, PartialEq, Eq)]
pub enum Taking {
    /// It has no slot.
    Slotless,
    /// Each has a slot that is written.
    Required,
    /// Those that aren't required have slots by separatorSuppressionPolicy.
    ByPolicy,
    /// Each has a slot where it has a bit (occursCountKind parsed).
    IfLong,
}

/// What is known of a component by itself and its parts.
#[derive(Debug, Clone, Copy, PartialEq, Eq)]
pub struct Outline {
    /// How many elements it declares in the element around, as far as 32 bits count.
    pub declared: u32,
    /// It is an element.
    pub is_element: bool,
    /// So many occurrences are required.
    pub least: u32,
    /// There are so many at most; 2^64 - 1 is no bound.
    pub most: u64,
    pub taking: Taking,
    pub needs: Needs,
    /// Nothing in it leaves a place that is on no whole byte.
    pub is_whole: bool,
}
