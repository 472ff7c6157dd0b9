use thiserror::Error;

/// The number of the field is no value of its type.
#[derive(Debug, Clone, Copy, PartialEq, Eq, Error)]
#[error("the number is no value of its type")]
pub struct NotInType;
