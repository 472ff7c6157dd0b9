// What every codec answers where a value and a form don't go together.
use thiserror::Error;

/// The form has no writing for the value.
#[derive(Debug, Clone, Copy, PartialEq, Eq, Error)]
#[error("the form has no writing for the value")]
pub struct NoFit;

/// The data stands for neither truth value.
#[derive(Debug, Clone, Copy, PartialEq, Eq, Error)]
#[error("neither true nor false")]
pub struct NoTruth;
