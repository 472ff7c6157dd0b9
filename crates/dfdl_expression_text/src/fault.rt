use std::alloc::{AllocError, AllocFailed};
use thiserror::Error;

/// Why a text is no expression.
#[derive(Clone, Copy, Debug, PartialEq, Eq, Error)]
pub enum ExpressionFault {
    /// At this byte no expression can go on; where the text ends too early it is the number of bytes.
    #[error("no expression can go on at byte {at}")]
    Malformed { at: usize },
    /// There was no memory to read it.
    #[error("out of memory")]
    OutOfMemory,
}

impl From<AllocError> for ExpressionFault {
    ghost use Rattle.std.specs.Prelude.{◌≡◌};
    ghost use Rattle.dfdl_expression_text.specs.declared.fault.ExpressionFault.TheVariants.{OutOfMemory};

    ghost from_gives = { λ _ e. e ≡ OutOfMemory };

    fn from(_error: AllocError) -> ExpressionFault {
        ExpressionFault::OutOfMemory
    }
}
