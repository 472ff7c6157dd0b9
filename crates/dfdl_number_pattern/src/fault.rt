use std::alloc::{AllocError, AllocFailed};
use thiserror::Error;

/// Why a text gave no pattern.
#[derive(Clone, Copy, Debug, PartialEq, Eq, Error)]
pub enum PatternFault {
    /// The text is no pattern, and this is its first byte at which none can go on.
    #[error("no number pattern can go on at byte {at}")]
    Malformed { at: usize },
    /// There was no memory for the pattern.
    #[error("out of memory")]
    OutOfMemory,
}

impl From<AllocError> for PatternFault {
    ghost use Rattle.std.specs.Prelude.{◌≡◌};
    ghost use Rattle.dfdl_number_pattern.specs.declared.fault.PatternFault.TheVariants.{OutOfMemory};

    ghost from_gives = { λ _ e. e ≡ OutOfMemory };

    fn from(_error: AllocError) -> PatternFault {
        PatternFault::OutOfMemory
    }
}
