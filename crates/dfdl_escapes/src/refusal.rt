// Why a text isn't escaped.
ghost use Rattle.std.specs.Prelude.{◌≡◌};
ghost use Rattle.dfdl_escapes.specs.declared.refusal.Refusal.TheVariants.{OutOfMemory};

use std::alloc::{AllocError, AllocFailed};
use thiserror::Error;

/// Why a text isn't escaped.
#[derive(Clone, Copy, Debug, PartialEq, Eq, Error)]
pub enum Refusal {
    /// No block can hold the text.
    #[error("no block can hold the text")]
    Impossible,
    /// The encoding lacks a character of the text.
    #[error("the encoding lacks a character of the text")]
    NoSuchChar,
    /// There was no memory for it. A text of 2^32 bytes or more is told so too.
    #[error("out of memory")]
    OutOfMemory,
}

impl From<AllocError> for Refusal {
    ghost from_gives = { λ _ e. e ≡ OutOfMemory };

    fn from(_error: AllocError) -> Refusal {
        Refusal::OutOfMemory
    }
}

impl<T: Drop> From<AllocFailed<T>> for Refusal {
    ghost from_gives = { λ _ e. e ≡ OutOfMemory };

    fn from(_error: AllocFailed<T>) -> Refusal {
        Refusal::OutOfMemory
    }
}
