use thiserror::Error;

/// Why a packed or zoned number is not read.
#[derive(Debug, Clone, Copy, PartialEq, Eq, Error)]
pub enum PackedFault {
    /// A nibble or character is none that can stand there, or an integer has a fraction.
    #[error("a nibble or character that can't stand there")]
    BadNibble,
    /// The number is no value of its type.
    #[error("the number is no value of its type")]
    PastType,
}
