use dfdl_region::{Content, Lengths};
use dfdl_vars::VarMark;

/// A place that parsing can go back to, and what was known there ('Parsing Algorithm').
#[derive(Debug, Clone, Copy, PartialEq, Eq)]
pub struct Mark {
    /// its bit
    pub at: u64,
    /// It is a point of uncertainty.
    pub is_point: bool,
    /// It is a point of uncertainty that is resolved: what fails behind it fails there, and no further branch or end is sought.
    pub is_resolved: bool,
    /// An initiator that is found behind it resolves it.
    pub is_initiated: bool,
    /// the bit at which the innermost box ends
    pub stop: u64,
    /// how many elements have begun
    pub nodes: u32,
    /// how many bytes their strings and hexBinary values have
    pub text: u32,
    /// the number of the innermost element that is open
    pub inside: u32,
    /// what that element has
    pub content: Content,
    /// how long that element is, as far as that was known
    pub lengths: Option<Lengths>,
    /// what was kept of the variables
    pub variables: VarMark,
}
