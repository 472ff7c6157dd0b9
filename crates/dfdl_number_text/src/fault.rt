use thiserror::Error;

/// Why characters are read as no number.
#[derive(Clone, Copy, Debug, PartialEq, Eq, Error)]
pub enum NumberFault {
    /// They are no number of the form, or one with a fraction where the type is an integer.
    #[error("not a number of the pattern")]
    NotANumber,
    /// The number is no value of the type.
    #[error("a number outside of the type")]
    PastType,
}
