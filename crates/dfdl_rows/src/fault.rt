ghost use Rattle.std.specs.Prelude.{◌≡◌};
ghost use Rattle.dfdl_rows.specs.declared.fault.RowsFault.TheVariants.{OutOfMemory};

use crate::Refusal;
use dfdl_report::LimitCause;
use std::alloc::{AllocError, AllocFailed};
use thiserror::Error;

/// Why a component has no rows.
#[derive(Clone, Copy, Debug, PartialEq, Eq, Error)]
pub enum RowsFault {
    /// A component that is reached is refused, the first in schema order, and there are more rows than the limit.
    #[error("a component is refused")]
    Refused(Refusal),
    /// Elements are nested deeper than the limit, or there are more rows.
    #[error("limit of {quantity} reached")]
    Limit { cause: LimitCause, quantity: u32 },
    /// There was no memory for the rows.
    #[error("out of memory")]
    OutOfMemory,
}

impl From<AllocError> for RowsFault {
    ghost from_gives = { λ _ e. e ≡ OutOfMemory };

    fn from(_error: AllocError) -> RowsFault {
        RowsFault::OutOfMemory
    }
}

impl<T: Drop> From<AllocFailed<T>> for RowsFault {
    ghost from_gives = { λ _ e. e ≡ OutOfMemory };

    fn from(_error: AllocFailed<T>) -> RowsFault {
        RowsFault::OutOfMemory
    }
}
