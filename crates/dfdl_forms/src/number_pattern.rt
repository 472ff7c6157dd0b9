// Number patterns, the values of `dfdl:textNumberPattern`.
use crate::text::CharList;

/// How the fraction of a pattern is written.
#[derive(Clone, Copy, Debug, PartialEq, Eq)]
pub enum Point {
    /// No fraction.
    Absent,
    /// Behind a decimal separator.
    Written,
    /// Behind an implied decimal point.
    Implied,
}

/// A number pattern.
#[derive(Debug, Drop)]
pub struct NumberPattern {
    pub prefix: CharList,
    pub suffix: CharList,
    pub negative_prefix: CharList,
    pub negative_suffix: CharList,
    /// How many integer digits are written at least.
    pub least_integer: u16,
    /// How many signs stand for integer digits.
    pub greatest_integer: u16,
    /// How many integer digits stand in a group, or 0 where they are not grouped.
    pub group_size: u16,
    pub point: Point,
    pub least_fraction: u16,
    pub greatest_fraction: u16,
    /// How many digits stand behind the implied decimal point.
    pub implied: u16,
}
